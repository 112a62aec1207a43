//! The server's handshake.

ghost use Rattle.std.specs.Prelude.{◌≡◌, ◌+◌, ℕ, Some, None, IsSome, IfOk, OnOk, OnErr, IfErr, IsErrOf, is_some, true, false, [], ◌∷◌};
ghost use Rattle.std.specs.Option.{ForSome};
ghost use Rattle.ei_backend.specs.Table.{found};
ghost use Rattle.ei_backend.specs.Backend.{unsent_of, with_room};
ghost use Rattle.ei_backend.specs.Outgoing.{HasSpare};
ghost use Rattle.ei_session.specs.Replies.{greeting_to};
ghost use Rattle.ei_handshake.specs.Handshaker.{untold, settled_version, with_version, settled_in, has_required, event_if, kept_events, sends};
ghost use Rattle.ei_handshake.specs.Handshaker.{Handles, KeepsButFinish, is_repeated, told, Completes, RefusesFinish};
ghost use Rattle.ei_types.specs.declared.error.Error.TheVariants as error;
ghost use Rattle.ei_types.specs.declared.error.HandshakeError.TheVariants as handshake_error;

use crate::sizes::{HEADER_BYTES, LONG_BYTES, MOST_VERSION_BYTES, WORD_BYTES};
use crate::versions::Versions;
use ei_backend::HasBackend;
use ei_server::{Connection, Context, Handshake, Request, handshake};
use ei_spec::KnownInterface;
use ei_spec::limits::SETTLED_INTERFACES;
use ei_types::{ContextType, Error, HandshakeError, known_interfaces};
use ei_wire::{EiText, NoMemory};
use std::alloc::Global;
use std::marker::Model;
use std::mem;

/// What a complete handshake answers.
#[derive(Drop)]
pub struct EisHandshakeResp {
    /// The connection, which stands in object 0's place.
    pub connection: Connection,
    /// The client's name, where it told one.
    pub name: Option<EiText>,
    /// What the client is; a client that doesn't tell is a receiver.
    pub context_type: ContextType,
    /// The interfaces that both ends have, each with the smaller of the two versions.
    pub negotiated_interfaces: Versions,
}

/// The bytes of the event that hands the connection over: its serial, its id and its version.
const CONNECTION_BYTES: usize = HEADER_BYTES + WORD_BYTES + LONG_BYTES + WORD_BYTES;

/// The most bytes of the events that tell the versions.
const MOST_SETTLED_BYTES: usize = SETTLED_INTERFACES * MOST_VERSION_BYTES;

/// The most bytes of the events that answer a finish.
const MOST_FINISH_BYTES: usize = MOST_SETTLED_BYTES + CONNECTION_BYTES;

/// The server's side of a handshake: what the client told so far.
#[derive(Drop)]
pub struct EisHandshaker {
    alloc: Global,
    initial_serial: u32,
    versions: Versions,
    name: Option<EiText>,
    context_type: Option<ContextType>,
}

impl Model for EisHandshaker {
    ghost use Rattle.ei_handshake.specs.Handshaker.{HandshakerView, handshaker_code};

    ghost Value = { HandshakerView };

    ghost coded = { handshaker_code };

    ghost view = { λ h.
        record { serial = h.initial_serial; versions = h.versions; name = h.name; context_type = h.context_type } };
}

impl EisHandshaker {
    /// A handshake on a fresh context, whose connection will bear `initial_serial`. It buffers the first
    /// event, `handshake_version(1)`.
    pub fn new(
        alloc: Global,
        ctx: &mut Context,
        initial_serial: u32,
    ) -> Result<EisHandshaker, NoMemory>
        requires { IsSome (found ctx.old.table 0) }
        ensures fresh { IfOk result (λ h. h ≡ untold initial_serial) }
        ensures greets { OnOk result (ForSome (found ctx.old.table 0)
            (λ handshake. ctx.new ≡ sends ctx.old (greeting_to handshake.id ∷ []))) }
        ensures err { OnErr result (ctx.new ≡ ctx.old) }
    {
        let handshake = ctx.handshake().unwrap();
        if handshake.handshake_version(ctx, 1).is_err() {
            return Err(NoMemory);
        }
        Ok(EisHandshaker {
            alloc,
            initial_serial,
            versions: Versions::new(alloc),
            name: None,
            context_type: None,
        })
    }

    /// Does what a request of the handshake asks. It answers the connection at a complete `finish`, and
    /// nothing at any other request that isn't refused.
    ///
    /// The version in `handshake_version` is ignored, and so are unknown names of interfaces. Of a name that
    /// is announced again the last version counts.
    ///
    /// `NonHandshakeEvent` exactly for a request of another interface; `DuplicateEvent` exactly for a second
    /// name or context type; `MissingInterface` exactly at a `finish` before which ei_connection, ei_callback
    /// or ei_pingpong wasn't announced; `IdsExhausted` exactly at any other `finish` where no own id is left
    /// for the connection. The last two leave the events of the versions buffered. `NoMemory` at a `finish` alone:
    /// then nothing is buffered, and only more memory may be ready.
    pub fn handle_request(
        &mut self,
        ctx: &mut Context,
        request: Request,
    ) -> Result<Option<EisHandshakeResp>, Error>
        ensures handles { Handles self.old ctx.old request result self.new ctx.new }
        ensures ring { ctx.new.capacity ≡ ctx.old.capacity }
    {
        match self.keep(request)? {
            None => Ok(None),
            Some(handshake) => {
                let resp = self.finish(ctx, &handshake)?;
                Ok(Some(resp))
            }
        }
    }

    /// Keeps what a request of the handshake tells. It answers the handshake at a `finish`, of which nothing is done yet: `finish` does it.
    ///
    /// `NonHandshakeEvent` and `DuplicateEvent` as of `handle_request`. It takes no memory, and so answers no want of it, and sends nothing.
    pub fn keep(&mut self, request: Request) -> Result<Option<Handshake>, Error>
        ensures keeps { KeepsButFinish self.old request result self.new }
        ensures memory { IsErrOf result error.NoMemory → ⊥ }
    {
        match request {
            Request::Handshake(handshake, handshake::Request::Finish) => Ok(Some(handshake)),
            Request::Handshake(_, asked) => {
                self.keep_told(asked)?;
                Ok(None)
            }
            _ => Err(Error::Handshake(HandshakeError::NonHandshakeEvent)),
        }
    }

    /// Keeps what a request of the handshake tells; a `finish` tells nothing.
    fn keep_told(&mut self, asked: handshake::Request) -> Result<(), HandshakeError>
        ensures first { OnOk result (is_repeated self.old asked ≡ false) }
        ensures ok { OnOk result (self.new ≡ told self.old asked) }
        ensures err { OnErr result (self.new ≡ self.old) }
        ensures only { IfErr result (λ e. (e ≡ handshake_error.DuplicateEvent) × (is_repeated self.old asked ≡ true)) }
    {
        match asked {
            handshake::Request::HandshakeVersion { .. } | handshake::Request::Finish => Ok(()),
            handshake::Request::Name { name } => self.keep_name(name),
            handshake::Request::ContextType { context_type } => {
                self.keep_context_type(context_type)
            }
            handshake::Request::InterfaceVersion { name, version } => {
                self.announce(&name, version);
                Ok(())
            }
        }
    }

    /// Keeps the client's name. `DuplicateEvent` where one came before.
    fn keep_name(&mut self, name: EiText) -> Result<(), HandshakeError>
        ensures first { OnOk result (is_some self.old.name ≡ false) }
        ensures ok { OnOk result (self.new ≡ record self.old { name = Some name }) }
        ensures err { OnErr result (self.new ≡ self.old) }
        ensures only { IfErr result (λ e. (e ≡ handshake_error.DuplicateEvent) × (is_some self.old.name ≡ true)) }
    {
        if self.name.is_some() {
            return Err(HandshakeError::DuplicateEvent);
        }
        self.name = Some(name);
        Ok(())
    }

    /// Keeps what the client is for. `DuplicateEvent` where it was told before.
    fn keep_context_type(&mut self, context_type: ContextType) -> Result<(), HandshakeError>
        ensures first { OnOk result (is_some self.old.context_type ≡ false) }
        ensures ok { OnOk result (self.new ≡ record self.old { context_type = Some context_type }) }
        ensures err { OnErr result (self.new ≡ self.old) }
        ensures only { IfErr result (λ e. (e ≡ handshake_error.DuplicateEvent) ×
            (is_some self.old.context_type ≡ true)) }
    {
        if self.context_type.is_some() {
            return Err(HandshakeError::DuplicateEvent);
        }
        self.context_type = Some(context_type);
        Ok(())
    }

    /// Whether ei_connection, ei_callback and ei_pingpong were announced.
    pub fn has_required(&self) -> bool
        ensures { result ≡ has_required self.now.versions }
    {
        self.versions.version(KnownInterface::Connection).is_some()
            && self.versions.version(KnownInterface::Callback).is_some()
            && self.versions.version(KnownInterface::Pingpong).is_some()
    }

    /// Keeps the smaller of the client's and the server's version. An unknown name is ignored.
    fn announce(&mut self, name: &EiText, version: u32)
        ensures { self.new ≡ record self.old { versions = with_version self.old.versions name.now version } }
    {
        let Some(interface) = name.interface() else {
            return;
        };
        let Some(own) = server_version(interface) else {
            return;
        };
        self.versions.insert(interface, own.min(version));
    }

    /// A copy of the client's name.
    fn copy_name(&self) -> Result<Option<EiText>, NoMemory>
        ensures { IfOk result (λ name. name ≡ self.now.name) }
    {
        match &self.name {
            Some(name) => Ok(Some(name.copy(self.alloc)?)),
            None => Ok(None),
        }
    }

    /// Ends the handshake, as its `finish` asks: it sends the versions that both ends have, and the connection. All memory is
    /// made ready before the first event.
    ///
    /// `MissingInterface` and `IdsExhausted` as of `handle_request`; `NoMemory`: nothing is sent.
    #[inline(never)]
    pub fn finish(
        &mut self,
        ctx: &mut Context,
        handshake: &Handshake,
    ) -> Result<EisHandshakeResp, Error>
        ensures ok { IfOk result (λ resp. Completes handshake.now.id self.old ctx.old resp self.new ctx.new) }
        ensures err { IfErr result (λ e. RefusesFinish e handshake.now.id self.old ctx.old self.new ctx.new) }
        ensures ring { ctx.new.capacity ≡ ctx.old.capacity }
    {
        let name = self.copy_name()?;
        make_room(ctx)?;
        send_kept(handshake, ctx, &self.versions);
        if !self.has_required() {
            return Err(Error::Handshake(HandshakeError::MissingInterface));
        }
        let connection = handshake.connection(ctx, self.initial_serial, 1)?;
        let versions = mem::replace(&mut self.versions, Versions::new(self.alloc));
        Ok(EisHandshakeResp {
            connection,
            name,
            context_type: self.context_type.unwrap_or(ContextType::Receiver),
            negotiated_interfaces: versions,
        })
    }
}

/// The server's version of an interface that a handshake settles.
fn server_version(interface: KnownInterface) -> Option<u32>
    ensures { result ≡ settled_version interface }
{
    match interface {
        KnownInterface::Handshake => None,
        KnownInterface::Seat | KnownInterface::Touchscreen => Some(2),
        KnownInterface::Device => Some(3),
        _ => Some(1),
    }
}

/// Makes room for all that a finish sends.
fn make_room(ctx: &mut Context) -> Result<(), NoMemory>
    ensures ok { OnOk result (ctx.new ≡ with_room MOST_FINISH_BYTES 0 1 ctx.old) }
    ensures err { OnErr result (ctx.new ≡ ctx.old) }
{
    ctx.backend_mut().reserve(MOST_FINISH_BYTES, 0, 1)
}

/// Tells the client the version of an interface, where both ends have it.
fn send_if_kept(
    handshake: &Handshake,
    ctx: &mut Context,
    versions: &Versions,
    interface: KnownInterface,
)
    requires { HasSpare MOST_VERSION_BYTES 0 (unsent_of ctx.old) ctx.old.room }
    ensures { ctx.new ≡ sends ctx.old (event_if handshake.now.id interface (settled_in versions.now interface)) }
{
    if let Some(version) = versions.version(interface) {
        // There is room for it, and it is short.
        handshake
            .interface_version(ctx, interface.name(), version)
            .unwrap();
    }
}

/// Tells the client the versions that both ends have, in the order of the list.
fn send_kept(handshake: &Handshake, ctx: &mut Context, versions: &Versions)
    requires { HasSpare MOST_SETTLED_BYTES 0 (unsent_of ctx.old) ctx.old.room }
    ensures sends { ctx.new ≡ sends ctx.old (kept_events handshake.now.id versions.now) }
    ensures spare { (n : ℕ) → HasSpare (n + MOST_SETTLED_BYTES) 0 (unsent_of ctx.old) ctx.old.room →
        HasSpare n 0 (unsent_of ctx.new) ctx.new.room }
{
    let interfaces = known_interfaces();
    for (interface, _) in &interfaces {
        send_if_kept(handshake, ctx, versions, *interface);
    }
}
