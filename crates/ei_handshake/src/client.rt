//! The client's handshake.

ghost use Rattle.std.specs.Prelude.{◌≡◌, ◌+◌, ◌≤◌, ℕ, false, [], ◌∷◌, length, map, IfOk, OnOk, OnErr};
ghost use Rattle.ei_spec.specs.Interface.{the_settled};
ghost use Rattle.ei_spec.specs.Value.{Letters, written};
ghost use Rattle.ei_backend.specs.Backend.{unsent_of, with_room};
ghost use Rattle.ei_backend.specs.Endpoint.{endpoint_of};
ghost use Rattle.ei_backend.specs.Outgoing.{HasSpare};
ghost use Rattle.ei_greeting.specs.Shaking.{greeting, is_long, announcing};
ghost use Rattle.ei_handshake.specs.Client.{greeter, unshaken, told_version, HandlesEvent, HandlesTold, HandsOver, SendsGreeting};
ghost use Rattle.ei_handshake.specs.Handshaker.{sends};

use crate::sizes::{HEADER_BYTES, MOST_VERSION_BYTES, WORD_BYTES};
use crate::versions::Versions;
use ei_backend::HasBackend;
use ei_client::{Connection, Context, Event, Handshake, handshake};
use ei_spec::KnownInterface;
use ei_spec::limits::{MOST_MESSAGE_BYTES, SETTLED_INTERFACES};
use ei_types::{ContextType, Error, HandshakeError, known_interfaces};
use ei_wire::{Arg, EiText, NoMemory};
use std::alloc::Global;
use std::marker::Model;
use std::mem;

/// What a complete handshake answers.
#[derive(Drop)]
pub struct HandshakeResp {
    /// The connection, which the server announced.
    pub connection: Connection,
    /// The serial that the connection begins with.
    pub serial: u32,
    /// The versions that the server told, by the names of interfaces: also of names that this library doesn't know.
    pub negotiated_interfaces: Versions,
}

/// The bytes of the requests that tell a number alone: the version of the handshake, and what the client is for.
const NUMBERS_BYTES: usize = 2 * (HEADER_BYTES + WORD_BYTES);

/// The most bytes of the requests that tell the versions.
const MOST_VERSIONS_BYTES: usize = SETTLED_INTERFACES * MOST_VERSION_BYTES;

/// The most bytes of all requests that answer the beginning, but for the name's own argument: the header of its request is among them.
const MOST_GREETING_BYTES: usize = NUMBERS_BYTES
    + HEADER_BYTES
    + MOST_VERSIONS_BYTES
    + HEADER_BYTES;

/// The most bytes of the name's argument.
const MOST_NAME_ARGUMENT_BYTES: u64 = MOST_MESSAGE_BYTES as u64 - HEADER_BYTES as u64;

/// The client's side of a handshake: what it tells of itself, and what the server told so far.
#[derive(Drop)]
pub struct EiHandshaker {
    alloc: Global,
    name: EiText,
    context_type: ContextType,
    versions: Versions,
}

impl Model for EiHandshaker {
    ghost use Rattle.ei_handshake.specs.Client.{ClientView, client_code, greeter};

    ghost Value = { ClientView };

    ghost coded = { client_code };

    ghost view = { λ h. record { greeter = greeter h.name h.context_type; versions = h.versions } };
}

impl EiHandshaker {
    /// A handshake in which the client tells this name, of which it keeps a copy, and what it is for. It sends nothing yet.
    pub fn new(
        alloc: Global,
        name: &str,
        context_type: ContextType,
    ) -> Result<EiHandshaker, NoMemory>
        ensures { IfOk result (λ h. h ≡ unshaken (greeter name.now context_type)) }
    {
        Ok(EiHandshaker {
            alloc,
            name: EiText::new(alloc, name)?,
            context_type,
            versions: Versions::new(alloc),
        })
    }

    /// Does what an event of the handshake asks. It answers the connection where the event hands it over, and nothing at any
    /// other event that isn't refused.
    ///
    /// Where the server begins, and each time that it does, the client sends its version, its name, what it is for, the version
    /// of each interface in the order of the list, and that it is done: all of it to the object that the event names, or nothing. The
    /// version of any name that the server tells is kept, the last one of a name. With the connection they are handed over, and
    /// the handshaker is as a new one.
    ///
    /// `NonHandshakeEvent` exactly for an event of another interface; `MessageTooLong` exactly where the server begins and the
    /// request with the name would have more than 1048576 bytes: nothing is sent. `NoMemory` where the server begins, and then nothing is
    /// sent, and only more memory may be ready; or at the version of a name that no interface of this library has, and then nothing changes.
    pub fn handle_event(
        &mut self,
        ctx: &mut Context,
        event: Event,
    ) -> Result<Option<HandshakeResp>, Error>
        ensures handles { HandlesEvent self.old ctx.old event result self.new ctx.new }
        ensures ring { ctx.new.capacity ≡ ctx.old.capacity }
    {
        match event {
            Event::Handshake(handshake, told) => {
                let heard = self.hear(ctx, &handshake, told);
                // by a call: at the end of a scope the drop of each field is proved anew
                drop(handshake);
                heard
            }
            other => {
                drop(other);
                Err(Error::Handshake(HandshakeError::NonHandshakeEvent))
            }
        }
    }

    /// Does what an event of the handshake asks: `handle_event`.
    fn hear(
        &mut self,
        ctx: &mut Context,
        handshake: &Handshake,
        told: handshake::Event,
    ) -> Result<Option<HandshakeResp>, Error>
        ensures handles { HandlesTold handshake.now.id self.old ctx.old told result self.new ctx.new }
        ensures ring { ctx.new.capacity ≡ ctx.old.capacity }
    {
        match told {
            handshake::Event::HandshakeVersion { .. } => {
                self.greet(ctx, handshake)?;
                Ok(None)
            }
            handshake::Event::InterfaceVersion { name, version } => {
                let kept = self.versions.insert_name(self.alloc, &name, version);
                drop(name);
                kept?;
                Ok(None)
            }
            handshake::Event::Connection { serial, connection } => {
                Ok(Some(self.hand_over(serial, connection)))
            }
        }
    }

    /// The answer with the connection, and with the versions, which leave the handshaker.
    fn hand_over(&mut self, serial: u32, connection: Connection) -> HandshakeResp
        ensures { HandsOver self.old serial connection result self.new }
    {
        HandshakeResp {
            connection,
            serial,
            negotiated_interfaces: mem::replace(&mut self.versions, Versions::new(self.alloc)),
        }
    }

    /// Answers the beginning of a server. All memory is made ready before the first request.
    ///
    /// `MessageTooLong` and `NoMemory` as of `handle_event`.
    fn greet(&self, ctx: &mut Context, handshake: &Handshake) -> Result<(), Error>
        ensures sends { SendsGreeting handshake.now.id self.now.greeter ctx.old result ctx.new }
        ensures ring { ctx.new.capacity ≡ ctx.old.capacity }
    {
        let name = Arg::String(Some(self.name.as_str())).size();
        if name > MOST_NAME_ARGUMENT_BYTES {
            return Err(Error::MessageTooLong);
        }
        make_room(ctx, name as usize)?;
        self.send_greeting(ctx, handshake);
        Ok(())
    }

    /// Sends all that answers the beginning. There is room for it, and the name is short enough.
    fn send_greeting(&self, ctx: &mut Context, handshake: &Handshake)
        requires short { is_long self.now.greeter handshake.now.id ≡ false }
        requires spare { HasSpare (MOST_GREETING_BYTES + length (written (Letters self.now.greeter.name))) 0
            (unsent_of ctx.old) ctx.old.room }
        ensures { ctx.new ≡ sends ctx.old (greeting self.now.greeter handshake.now.id) }
    {
        handshake.handshake_version(ctx, 1).unwrap();
        handshake.name(ctx, self.name.as_str()).unwrap();
        handshake.context_type(ctx, self.context_type).unwrap();
        announce_all(ctx, handshake);
        handshake.finish(ctx).unwrap();
    }
}

/// Makes room for all that answers the beginning, with a name whose argument has so many bytes.
fn make_room(ctx: &mut Context, name_bytes: usize) -> Result<(), NoMemory>
    requires { name_bytes ≤ MOST_NAME_ARGUMENT_BYTES }
    ensures ok { OnOk result (ctx.new ≡ with_room (MOST_GREETING_BYTES + name_bytes) 0 0 ctx.old) }
    ensures err { OnErr result (ctx.new ≡ ctx.old) }
{
    ctx.backend_mut()
        .reserve(MOST_GREETING_BYTES + name_bytes, 0, 0)
}

/// Tells the server the version of each interface, in the order of the list. There is room for it.
fn announce_all(ctx: &mut Context, handshake: &Handshake)
    requires { HasSpare MOST_VERSIONS_BYTES 0 (unsent_of ctx.old) ctx.old.room }
    ensures sends { ctx.new ≡ sends ctx.old (map (announcing handshake.now.id) the_settled) }
    ensures spare { (n : ℕ) → HasSpare (n + MOST_VERSIONS_BYTES) 0 (unsent_of ctx.old) ctx.old.room →
        HasSpare n 0 (unsent_of ctx.new) ctx.new.room }
{
    let interfaces = known_interfaces();
    for (interface, version) in &interfaces {
        announce(ctx, handshake, *interface, *version);
    }
}

/// Tells the server the version of an interface. There is room for it.
fn announce(ctx: &mut Context, handshake: &Handshake, interface: KnownInterface, version: u32)
    requires { HasSpare MOST_VERSION_BYTES 0 (unsent_of ctx.old) ctx.old.room }
    ensures { ctx.new ≡ sends ctx.old (told_version handshake.now.id (interface, version) ∷ []) }
{
    // There is room for it, and it is short.
    handshake
        .interface_version(ctx, interface.name(), version)
        .unwrap();
}
