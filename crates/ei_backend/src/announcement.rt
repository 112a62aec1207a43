//! What objects are announced as.

ghost use Rattle.std.specs.Prelude.{◌≡◌, ◌↔◌, IsOk, IfOk, IsTrue};
ghost use Rattle.ei_spec.specs.Interface.{bytes_of};
ghost use Rattle.ei_backend.specs.Object.{interface_view, HasFixedName};
ghost use Rattle.ei_backend.specs.Announcement.{announced_as, interface_of, version_of, side_of, known_in};

use crate::interface::{InterfaceName, OtherName};
use ei_spec::KnownInterface;
use std::alloc::AllocError;

/// What an object was announced as, and at which end. It has 16 bytes: what both forms have stands at one place in them.
#[derive(Drop)]
pub(crate) enum Announcement {
    /// One of the interfaces of the protocol.
    Known {
        client_side: bool,
        interface: KnownInterface,
        version: u32,
    },
    /// An interface of another name, shared by the objects that bear it.
    Other {
        client_side: bool,
        version: u32,
        name: OtherName,
    },
}

impl Announcement {
    /// An announcement of that name and version.
    pub(crate) fn new(interface: InterfaceName, version: u32, client_side: bool) -> Announcement
        ensures interface { interface_of result ≡ interface_view interface }
        ensures version { version_of result ≡ version }
        ensures side { side_of result ≡ client_side }
    {
        match interface {
            InterfaceName::Known(interface) => Announcement::Known {
                client_side,
                interface,
                version,
            },
            InterfaceName::Other(name) => Announcement::Other {
                client_side,
                version,
                name,
            },
        }
    }

    /// The name of the interface on the wire.
    pub(crate) fn name(&self) -> &str
        ensures { result.now ≡ bytes_of (interface_of self.now) }
    {
        match self {
            Announcement::Known { interface, .. } => interface.name(),
            Announcement::Other { name, .. } => name.as_str(),
        }
    }

    /// The interface, if it is one of the protocol.
    #[inline(always)]
    pub(crate) fn known(&self) -> Option<KnownInterface>
        ensures { result ≡ known_in (interface_of self.now) }
    {
        match self {
            Announcement::Known { interface, .. } => Some(*interface),
            Announcement::Other { .. } => None,
        }
    }

    /// The version.
    #[inline(always)]
    pub(crate) fn version(&self) -> u32
        ensures { result ≡ version_of self.now }
    {
        match self {
            Announcement::Known { version, .. } => *version,
            Announcement::Other { version, .. } => *version,
        }
    }

    /// Whether the endpoint is a client.
    #[inline(always)]
    pub(crate) fn client_side(&self) -> bool
        ensures { result ≡ side_of self.now }
    {
        match self {
            Announcement::Known { client_side, .. } => *client_side,
            Announcement::Other { client_side, .. } => *client_side,
        }
    }

    /// Whether the interface is the same: one of the protocol, or another of that name.
    pub(crate) fn is_same_interface(&self, other: &Announcement) -> bool
        ensures { IsTrue result ↔ (interface_of self.now ≡ interface_of other.now) }
    {
        match (self, other) {
            (
                Announcement::Known { interface, .. },
                Announcement::Known {
                    interface: other,
                    ..
                },
            ) => interface == other,
            (Announcement::Other { name, .. }, Announcement::Other { name: other, .. }) => {
                name.as_str() == other.as_str()
            }
            _ => false,
        }
    }

    /// The same for another object. It takes no memory, and fails only where the name isn't a known one, and has
    /// as many owners as can be counted.
    pub(crate) fn share(&self) -> Result<Announcement, AllocError>
        ensures interface { IfOk result (λ a. interface_of a ≡ interface_of self.now) }
        ensures version { IfOk result (λ a. version_of a ≡ version_of self.now) }
        ensures side { IfOk result (λ a. side_of a ≡ side_of self.now) }
        ensures fixed { HasFixedName (interface_of self.now) → IsOk result }
    {
        match self {
            Announcement::Known {
                client_side,
                interface,
                version,
            } => Ok(Announcement::Known {
                client_side: *client_side,
                interface: *interface,
                version: *version,
            }),
            Announcement::Other {
                client_side,
                version,
                name,
            } => Ok(Announcement::Other {
                client_side: *client_side,
                version: *version,
                name: name.clone()?,
            }),
        }
    }
}
