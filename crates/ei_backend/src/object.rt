//! Objects of the protocol.

ghost use Rattle.std.specs.Prelude.{◌≡◌, ◌↔◌, ◌<◌, OnOk, OnErr, IsErrOf, IsTrue, IsSome, IfSome, Some, map};
ghost use Rattle.std.specs.Hash as fed;
ghost use Rattle.std.specs.Cmp.{partial_equiv_from_equiv};
ghost use Rattle.std.specs.Cmp.Rules.{hashing};
ghost use Rattle.std.proofs.Common.{rules};
ghost use Rattle.ei_spec.specs.Interface.{Known, bytes_of};
ghost use Rattle.ei_spec.specs.Message.{message, size};
ghost use Rattle.ei_wire.specs.Gives.{value_of_arg};
ghost use Rattle.ei_wire.specs.declared.error.SendError.TheVariants as send_error;
ghost use Rattle.ei_backend.specs.Object.{interface_view, HasFixedName, object_text, same_object, same_object_equiv};
ghost use Rattle.ei_backend.specs.Announcement.{known_in};
ghost use Rattle.ei_backend.specs.Table.{found};
ghost use Rattle.ei_backend.specs.Backend.{sent, unsent_of};
ghost use Rattle.ei_backend.specs.Outgoing.{HasRoomFor};
ghost use Rattle.ei_spec.specs.declared.limits.TheConstants.{MOST_MESSAGE_BYTES};

use crate::announcement::Announcement;
use crate::has_backend::HasBackend;
use crate::interface::InterfaceName;
use crate::proxy::{Described, Interface};
use ei_spec::KnownInterface;
use ei_wire::{Arg, SendError};
use std::alloc::AllocError;
use std::fmt;
use std::hash::{Hash, Hasher};
use std::marker::Model;

/// An object of one endpoint: an id, and what it was announced as. A plain value.
///
/// A clone takes no memory. It fails only where the name isn't a known one, and has as many owners as
/// can be counted.
#[derive(Drop)]
pub struct Object {
    id: u64,
    announced: Announcement,
}

impl Model for Object {
    ghost use Rattle.ei_spec.specs.Interface.{ObjectView};
    ghost use Rattle.ei_backend.specs.Announcement.{announced_as};
    ghost use Rattle.ei_backend.specs.Codes.{object_code};

    ghost Value = { ObjectView };

    ghost coded = { object_code };

    ghost view = { λ o. announced_as o.id o.announced };
}

impl Object {
    pub(crate) fn new(id: u64, interface: InterfaceName, version: u32, client_side: bool) -> Object
        ensures { result ≡ record {
          id = id;
          interface = interface_view interface;
          version = version;
          client_side = client_side;
        } }
    {
        Object {
            id,
            announced: Announcement::new(interface, version, client_side),
        }
    }

    /// An object of a known interface.
    #[inline(always)]
    pub(crate) fn known(
        id: u64,
        interface: KnownInterface,
        version: u32,
        client_side: bool,
    ) -> Object
        ensures { result ≡ record {
          id = id;
          interface = Known interface;
          version = version;
          client_side = client_side;
        } }
    {
        Object {
            id,
            announced: Announcement::Known {
                client_side,
                interface,
                version,
            },
        }
    }

    /// The id, by which messages name the object.
    pub fn id(&self) -> u64
        ensures { result ≡ self.now.id }
    {
        self.id
    }

    /// The name of the interface.
    pub fn interface(&self) -> &str
        ensures { result.now ≡ bytes_of self.now.interface }
    {
        self.announced.name()
    }

    /// The interface, if it is one of the protocol.
    #[inline(always)]
    pub fn known_interface(&self) -> Option<KnownInterface>
        ensures { result ≡ known_in self.now.interface }
    {
        self.announced.known()
    }

    /// The version that was announced.
    pub fn version(&self) -> u32
        ensures { result ≡ self.now.version }
    {
        self.announced.version()
    }

    /// Whether the endpoint is a client.
    pub fn client_side(&self) -> bool
        ensures { result ≡ self.now.client_side }
    {
        self.announced.client_side()
    }

    /// A copy of an object of a known interface, which can't fail.
    pub fn copy(&self) -> Object
        requires { HasFixedName self.now.interface }
        ensures { result ≡ self.now }
    {
        match self.clone() {
            Ok(object) => object,
            Err(_) => unreachable!(),
        }
    }

    /// A copy of an object of that interface, which can't fail.
    #[inline(always)]
    pub fn copy_of(&self, interface: KnownInterface) -> Object
        requires { self.now.interface ≡ Known interface }
        ensures { result ≡ self.now }
    {
        Object::known(self.id, interface, self.version(), self.client_side())
    }

    /// A copy, if the interface is known. It takes no memory.
    #[inline(always)]
    pub(crate) fn known_copy(&self) -> Option<Object>
        ensures { IfSome result (λ o. o ≡ self.now) }
    {
        let interface = self.known_interface()?;
        Some(self.copy_of(interface))
    }

    /// Whether id, name, version and side are the same.
    fn is_same(&self, other: &Object) -> bool
        ensures { result ≡ same_object self.now other.now }
    {
        self.id == other.id
            && self.announced.is_same_interface(&other.announced)
            && self.version() == other.version()
            && self.client_side() == other.client_side()
    }

    /// The object as an argument: its id.
    pub fn as_arg(&self) -> Arg<'_>
        ensures { result ≡ Arg.Id self.now.id }
    {
        Arg::Id(self.id)
    }

    /// Whether the endpoint's table has an object of this id.
    pub fn is_alive<C: HasBackend>(&self, ctx: &C) -> bool
        ensures { IsTrue result ↔ IsSome (found (C.seen ctx.now).table self.now.id) }
    {
        ctx.backend().has_object_for_id(self.id)
    }

    /// Writes a message to the object behind what waits to be sent, or nothing. The object need not be in
    /// the table.
    ///
    /// `MessageTooLong` exactly where the message would have more than 1048576 bytes; `NoMemory`, and never within
    /// the room that was made.
    #[inline(always)]
    pub fn request<C: HasBackend>(
        &self,
        ctx: &mut C,
        opcode: u32,
        args: &[Arg<'_>],
    ) -> Result<(), SendError>
        ensures ok { OnOk result (ctx.new ≡ C.with_backend ctx.old
            (sent (C.seen ctx.old) self.now.id opcode (map value_of_arg args.now))) }
        ensures long { IsErrOf result send_error.MessageTooLong ↔
            (MOST_MESSAGE_BYTES < size (message self.now.id opcode (map value_of_arg args.now))) }
        ensures not_exhausted { IsErrOf result send_error.IdsExhausted → ⊥ }
        ensures err { OnErr result (ctx.new ≡ ctx.old) }
        ensures room { HasRoomFor self.now.id opcode (map value_of_arg args.now) (unsent_of (C.seen ctx.old))
            (C.seen ctx.old).room
            → IsErrOf result send_error.NoMemory → ⊥ }
    {
        ctx.backend_mut().request(self.id, opcode, args)
    }

    /// The proxy of that interface over the object; `None` exactly where the object is of another
    /// interface, or at the other end.
    pub fn downcast<T: Interface>(self) -> Option<T>
        ensures some { IsSome result ↔ ((self.interface ≡ Known T.KNOWN) × (self.client_side ≡ T.CLIENT_SIDE)) }
        ensures proxy { IfSome result (λ p. T.behind p ≡ self) }
    {
        if self.client_side() == T::CLIENT_SIDE && self.known_interface() == Some(T::KNOWN) {
            Some(T::new_unchecked(self))
        } else {
            None
        }
    }
}

impl Clone for Object {
    ghost is_clone = { λ o copy. copy ≡ o };

    ghost is_infallible = { λ o. HasFixedName o.interface };

    fn clone(&self) -> Result<Object, AllocError> {
        Ok(Object {
            id: self.id,
            announced: self.announced.share()?,
        })
    }
}

/// Two objects are equal where they have the same id, name, version and side.
impl PartialEq for Object {
    ghost eq = { same_object };

    ghost laws = { partial_equiv_from_equiv same_object_equiv };

    #[tactic(auto, using(crate::proofs::Equal::decides))]
    fn eq(&self, other: &Object) -> bool
        ensures value { result ≡ same_object self.now other.now }
        ensures same { IsTrue result ↔ (self.now ≡ other.now) }
    {
        self.is_same(other)
    }
}

impl Eq for Object {
    ghost laws = { same_object_equiv };
}

impl Hash for Object {
    ghost hash_input = { λ o. fed.u64 o.id };

    ghost respects_eq = { Prim.search (hashing, rules) };

    fn hash<H: Hasher>(&self, state: &mut H) {
        self.id.hash(state);
    }
}

impl fmt::Debug for Object {
    ghost debug_output = { λ o. Some (object_text o) };

    fn fmt<W: fmt::Write>(&self, f: &mut fmt::Formatter<W>) -> fmt::Result {
        let id = self.id;
        write!(f, "Object(_, {id})")
    }
}
