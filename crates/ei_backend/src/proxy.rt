//! Proxies: objects of one known interface, at one end.

ghost use Rattle.std.specs.Prelude.{◌≡◌, ◌↔◌, ℕ, Bool, IsTrue, IsSome};
ghost use Rattle.ei_spec.specs.Interface.{ObjectView, Known, name_of, server_version};
ghost use Rattle.ei_spec.specs.declared.interface.KnownInterface.{KnownInterface};
ghost use Rattle.ei_backend.specs.Table.{found};

use crate::has_backend::HasBackend;
use crate::object::Object;
use ei_spec::KnownInterface;
use ei_wire::{Arg, Sealed};

/// What all proxies of a type share: the interface and the end.
///
/// It stands beside `Interface`, since no trait has both a `VERSION` and a `version`.
pub trait Described {
    ghost KNOWN: { KnownInterface };

    ghost VERSION: { ℕ };

    ghost CLIENT_SIDE: { Bool };

    /// The interface.
    const KNOWN: KnownInterface;

    /// The name on the wire, as `ei_seat`.
    const NAME: &'static str;

    /// The version of the interface that both ends have.
    const VERSION: u32;

    /// Whether the proxies are a client's.
    const CLIENT_SIDE: bool;

    /// `NAME`, of which a contract can't speak.
    fn wire_name() -> &'static str
        ensures { result.now ≡ name_of KNOWN };

    ghost listed: { VERSION ≡ server_version KNOWN };
}

/// A proxy: an object of one known interface, at one end.
pub trait Interface: Sealed + Described + Sized {
    /// The object behind the proxy.
    ghost behind: { Self → ObjectView };

    /// The proxy over an object of its interface.
    fn new_unchecked(object: Object) -> Self
        requires { object.interface ≡ Known Self.KNOWN }
        ensures { behind result ≡ object };

    /// The object behind the proxy.
    fn as_object(&self) -> &Object
        ensures object { result.now ≡ behind self.now }
        ensures interface { (behind self.now).interface ≡ Known Self.KNOWN };

    /// Another proxy over the same object, which takes no memory.
    fn copy(&self) -> Self
        ensures { behind result ≡ behind self.now }
    {
        Self::new_unchecked(self.as_object().copy())
    }

    /// The proxy as an argument: the id of its object.
    fn as_arg(&self) -> Arg<'_>
        ensures { result ≡ Arg.Id (behind self.now).id }
    {
        self.as_object().as_arg()
    }

    /// The version that the object was announced with.
    fn version(&self) -> u32
        ensures { result ≡ (behind self.now).version }
    {
        self.as_object().version()
    }

    /// Whether the endpoint's table has an object of the proxy's id.
    fn is_alive<C: HasBackend>(&self, ctx: &C) -> bool
        ensures { IsTrue result ↔ IsSome (found (C.seen ctx.now).table (behind self.now).id) }
    {
        self.as_object().is_alive(ctx)
    }
}
