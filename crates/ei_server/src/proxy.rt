//! The proxies of a server: an object and its kind.

ghost use Rattle.std.specs.Prelude.{◌≡◌, ◌↔◌, ◌<◌, ◌≤◌, ⊤, Some, false, map, IfOk, OnOk, OnErr, IsErrOf, IsTrue};
ghost use Rattle.std.specs.Hash as fed;
ghost use Rattle.std.specs.Cmp.{partial_equiv_from_equiv};
ghost use Rattle.std.specs.Cmp.Rules.{hashing};
ghost use Rattle.std.proofs.Common.{rules};
ghost use Rattle.ei_spec.specs.Interface.{Known};
ghost use Rattle.ei_spec.specs.Message.{message, size};
ghost use Rattle.ei_wire.specs.Gives.{Gives, value_of_arg};
ghost use Rattle.ei_wire.specs.declared.error.SendError.TheVariants as send_error;
ghost use Rattle.ei_backend.specs.Object.{proxy_text, same_object, same_object_equiv, shown_of};
ghost use Rattle.ei_backend.specs.Table.{Announced, accept, own, own_end};
ghost use Rattle.ei_backend.specs.Outgoing.{HasRoomFor};
ghost use Rattle.ei_backend.specs.Backend.{removed, sent, sent_new, unsent_of};
ghost use Rattle.ei_spec.specs.declared.limits.TheConstants.{MOST_MESSAGE_BYTES};

use crate::context::Context;
use ei_backend::{
    Described, HasBackend, Interface, InterfaceName, Kind, Object, Table, shown_name,
};
use ei_spec::KnownInterface;
use ei_wire::{Arg, ParseError, Sealed, SendError};
use std::alloc::AllocError;
use std::fmt;
use std::hash::{Hash, Hasher};
use std::marker::{Model, PhantomData};

/// What a call that sends a message answers.
pub type Sent = Result<(), SendError>;

/// An object of one interface, by its kind: `Seat` is `Proxy<kinds::Seat>`.
#[derive(Drop)]
pub struct Proxy<K: Kind> {
    pub(crate) object: Object,
    kind: PhantomData<K>,
}

// Contracts see the object; its interface is the kind's.
impl<K: Kind> Model for Proxy<K> {
    ghost use Rattle.std.specs.Prelude.{◌≡◌};
    ghost use Rattle.ei_spec.specs.Interface.{ObjectView, Known};
    ghost use Rattle.ei_backend.specs.Codes.{object_code};

    ghost Value = { ObjectView };

    ghost coded = { object_code };

    ghost view = { λ p. p.object };

    ghost invariant = { λ p. p.object.interface ≡ Known K.KNOWN };

    ghost inverse = { λ o. record { object = o; kind = record {} } };
}

impl<K: Kind> Sealed for Proxy<K> {}

impl<K: Kind> Described for Proxy<K> {
    ghost KNOWN = { K.KNOWN };

    ghost VERSION = { K.VERSION };

    ghost CLIENT_SIDE = { false };

    ghost listed = { K.listed };

    const KNOWN: KnownInterface = K::KNOWN;

    const NAME: &'static str = K::NAME;

    const VERSION: u32 = K::VERSION;

    const CLIENT_SIDE: bool = false;

    fn wire_name() -> &'static str {
        K::wire_name()
    }
}

impl<K: Kind> Interface for Proxy<K> {
    ghost behind = { λ p. p };

    fn new_unchecked(object: Object) -> Proxy<K> {
        Proxy {
            object,
            kind: PhantomData,
        }
    }

    fn as_object(&self) -> &Object {
        &self.object
    }
}

// A copy can't fail, since the name is a known one.
impl<K: Kind> Clone for Proxy<K> {
    ghost is_clone = { λ p copy. copy ≡ p };

    ghost is_infallible = { λ _. ⊤ };

    fn clone(&self) -> Result<Proxy<K>, AllocError> {
        Ok(Proxy {
            object: self.object.clone()?,
            kind: PhantomData,
        })
    }
}

/// Two proxies are equal where their objects are.
impl<K: Kind> PartialEq for Proxy<K> {
    ghost eq = { same_object };

    ghost laws = { partial_equiv_from_equiv same_object_equiv };

    fn eq(&self, other: &Proxy<K>) -> bool
        ensures value { result ≡ same_object self.now other.now }
        ensures same { IsTrue result ↔ (self.now ≡ other.now) }
    {
        self.object == other.object
    }
}

impl<K: Kind> Eq for Proxy<K> {
    ghost laws = { same_object_equiv };
}

impl<K: Kind> Hash for Proxy<K> {
    ghost hash_input = { λ p. fed.u64 p.id };

    ghost respects_eq = { Prim.search (hashing, rules) };

    fn hash<H: Hasher>(&self, state: &mut H) {
        self.object.hash(state);
    }
}

impl<K: Kind> fmt::Debug for Proxy<K> {
    ghost debug_output = { λ p. Some (proxy_text (shown_of K.KNOWN) p) };

    fn fmt<W: fmt::Write>(&self, f: &mut fmt::Formatter<W>) -> fmt::Result {
        let name = shown_name(K::KNOWN);
        let object = &self.object;
        write!(f, "{name}({object:?})")
    }
}

impl<K: Kind> Proxy<K> {
    /// The proxy over a copy of an object of this kind.
    #[inline(always)]
    pub(crate) fn over(object: &Object) -> Proxy<K>
        requires { object.now.interface ≡ Known K.KNOWN }
        ensures { result ≡ object.now }
    {
        Proxy::new_unchecked(object.copy_of(K::KNOWN))
    }

    /// Puts an object of this kind into the table, which the peer announced.
    pub(crate) fn announced(
        objects: &mut Table,
        id: u64,
        version: u32,
    ) -> Result<Proxy<K>, ParseError>
        ensures read { Gives (λ p. (p, objects.new)) result (accept objects.old id (Known K.KNOWN) version) }
        ensures announced { IfOk result (λ p. Announced (Some p) objects.old objects.new) }
        ensures err { OnErr result (objects.new ≡ objects.old) }
    {
        let interface = InterfaceName::Known(K::KNOWN);
        let object = objects.new_peer_object(id, interface, version)?;
        Ok(Proxy::new_unchecked(object))
    }

    /// Sends the last message of the object, and takes it out of the table.
    pub(crate) fn send_last(&self, ctx: &mut Context, opcode: u32, args: &[Arg<'_>]) -> Sent
        ensures ok { OnOk result
            (ctx.new ≡ removed (sent ctx.old self.now.id opcode (map value_of_arg args.now)) self.now.id) }
        ensures long { IsErrOf result send_error.MessageTooLong
            ↔ (MOST_MESSAGE_BYTES < size (message self.now.id opcode (map value_of_arg args.now))) }
        ensures not_exhausted { IsErrOf result send_error.IdsExhausted → ⊥ }
        ensures err { OnErr result (ctx.new ≡ ctx.old) }
        ensures room { HasRoomFor self.now.id opcode (map value_of_arg args.now) (unsent_of ctx.old) ctx.old.room
            → IsErrOf result send_error.NoMemory → ⊥ }
    {
        self.object.request(ctx, opcode, args)?;
        ctx.backend_mut().remove_id(self.object.id());
        Ok(())
    }

    /// Sends a message that announces an object of `T`, and makes the object.
    pub(crate) fn announce<T: Interface>(
        &self,
        ctx: &mut Context,
        opcode: u32,
        args: &[Arg<'_>],
        version: u32,
    ) -> Result<T, SendError>
        ensures ok { OnOk result
            (ctx.new ≡ sent_new ctx.old self.now.id opcode (map value_of_arg args.now) (Known T.KNOWN) version) }
        ensures object { IfOk result (λ p. T.behind p ≡ own ctx.old.table (Known T.KNOWN) version) }
        ensures exhausted { IsErrOf result send_error.IdsExhausted ↔ (own_end ctx.old.table ≤ ctx.old.table.next_own) }
        ensures long { IsErrOf result send_error.MessageTooLong
            → MOST_MESSAGE_BYTES < size (message self.now.id opcode (map value_of_arg args.now)) }
        ensures err { OnErr result (ctx.new ≡ ctx.old) }
        ensures room { HasRoomFor self.now.id opcode (map value_of_arg args.now) (unsent_of ctx.old) ctx.old.room
            → ctx.old.table.next_own < ctx.old.table.room → IsErrOf result send_error.NoMemory → ⊥ }
    {
        let object = self.announce_known(ctx, opcode, args, T::KNOWN, version)?;
        Ok(T::new_unchecked(object))
    }

    /// Sends a message that announces an object of that interface, and makes the object.
    pub(crate) fn announce_known(
        &self,
        ctx: &mut Context,
        opcode: u32,
        args: &[Arg<'_>],
        interface: KnownInterface,
        version: u32,
    ) -> Result<Object, SendError>
        ensures ok { OnOk result
            (ctx.new ≡ sent_new ctx.old self.now.id opcode (map value_of_arg args.now) (Known interface) version) }
        ensures object { IfOk result (λ o. o ≡ own ctx.old.table (Known interface) version) }
        ensures exhausted { IsErrOf result send_error.IdsExhausted ↔ (own_end ctx.old.table ≤ ctx.old.table.next_own) }
        ensures long { IsErrOf result send_error.MessageTooLong
            → MOST_MESSAGE_BYTES < size (message self.now.id opcode (map value_of_arg args.now)) }
        ensures err { OnErr result (ctx.new ≡ ctx.old) }
        ensures room { HasRoomFor self.now.id opcode (map value_of_arg args.now) (unsent_of ctx.old) ctx.old.room
            → ctx.old.table.next_own < ctx.old.table.room → IsErrOf result send_error.NoMemory → ⊥ }
    {
        let id = self.object.id();
        let named = InterfaceName::Known(interface);
        let backend = ctx.backend_mut();
        let object = backend.request_new(id, opcode, args, named, version)?;
        Ok(object)
    }
}
