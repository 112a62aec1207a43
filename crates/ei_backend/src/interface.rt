//! Names of interfaces.

ghost use Rattle.std.specs.Prelude.{◌≡◌, ◌↔◌, ◌++◌, IfOk, OnErr, IsTrue, None};
ghost use Rattle.std.specs.Ordering.{on};
ghost use Rattle.std.specs.Hash as fed;
ghost use Rattle.std.specs.Cmp.Rules.{comparing, hashing};
ghost use Rattle.std.proofs.Common.{rules};
ghost use Rattle.ei_spec.specs.Interface.{Known, bytes_of, known_of, named};
ghost use Rattle.ei_backend.specs.Object.{interface_view, HasFixedName, is_known, same_name};

use ei_spec::KnownInterface;
use ei_wire::NoMemory;
use std::alloc::{AllocError, Global};
use std::hash::{Hash, Hasher};
use std::marker::Model;
use std::rc::RcStr;

/// The interface of an object, by its name.
///
/// Objects of a server are all of known interfaces. A name that isn't known comes with the
/// `interface` event of a device, at a client.
#[derive(Debug, Drop)]
pub enum InterfaceName {
    /// One of the interfaces of the protocol.
    Known(KnownInterface),
    /// Another name.
    Other(OtherName),
}

/// A name that is none of the protocol's, shared by the objects that bear it.
#[derive(Debug, Drop)]
pub struct OtherName {
    pub(crate) name: RcStr<Global>,
}

impl Model for OtherName {
    ghost use Rattle.std.specs.Prelude.{ℕ, List, ◌≡◌, None};
    ghost use Rattle.std.specs.Rc.{rc_str_bytes};
    ghost use Rattle.ei_spec.specs.Interface.{known_of};

    ghost Value = { List ℕ };

    ghost view = { λ other. rc_str_bytes other.name };

    ghost invariant = { λ other. known_of (rc_str_bytes other.name) ≡ None };
}

impl OtherName {
    /// The name.
    pub fn as_str(&self) -> &str
        ensures { result.now ≡ self.now }
    {
        self.name.as_str()
    }
}

impl Clone for OtherName {
    ghost is_clone = { λ name copy. copy ≡ name };

    ghost is_infallible = { λ _. ⊥ };

    fn clone(&self) -> Result<OtherName, AllocError> {
        Ok(OtherName {
            name: self.name.clone()?,
        })
    }
}

impl InterfaceName {
    /// The interface that the name stands for: `Known` exactly for the names of the protocol.
    ///
    /// `NoMemory` only for another name.
    pub fn of(alloc: Global, name: &str) -> Result<InterfaceName, NoMemory>
        ensures name { IfOk result (λ i. interface_view i ≡ named name.now) }
        ensures memory { OnErr result (known_of name.now ≡ None) }
    {
        match KnownInterface::from_name(name) {
            Some(known) => Ok(InterfaceName::Known(known)),
            None => Ok(InterfaceName::Other(OtherName {
                name: RcStr::from_str(alloc, name)?,
            })),
        }
    }

    /// The name on the wire.
    pub fn as_str(&self) -> &str
        ensures { result.now ≡ bytes_of (interface_view self.now) }
    {
        match self {
            InterfaceName::Known(known) => known.name(),
            InterfaceName::Other(name) => name.as_str(),
        }
    }

    /// Whether it is one of the protocol.
    fn is_known(&self) -> bool
        ensures { result ≡ is_known (interface_view self.now) }
    {
        matches!(self, InterfaceName::Known(_))
    }

    /// Whether it is the same interface: one of the protocol, or another of that name.
    fn is_same(&self, other: &InterfaceName) -> bool
        ensures { IsTrue result ↔ (interface_view self.now ≡ interface_view other.now) }
    {
        match (self, other) {
            (InterfaceName::Known(known), InterfaceName::Known(other)) => known == other,
            (InterfaceName::Other(name), InterfaceName::Other(other)) => {
                name.as_str() == other.as_str()
            }
            _ => false,
        }
    }
}

impl Clone for InterfaceName {
    ghost is_clone = { λ name copy. interface_view copy ≡ interface_view name };

    ghost is_infallible = { λ name. HasFixedName (interface_view name) };

    fn clone(&self) -> Result<InterfaceName, AllocError> {
        match self {
            InterfaceName::Known(known) => Ok(InterfaceName::Known(*known)),
            InterfaceName::Other(name) => Ok(InterfaceName::Other(name.clone()?)),
        }
    }
}

impl PartialEq for InterfaceName {
    ghost eq = { on interface_view same_name };

    ghost laws = { Prim.search (comparing, rules) };

    #[tactic(auto, using(crate::proofs::Equal::decides_name))]
    fn eq(&self, other: &InterfaceName) -> bool {
        self.is_same(other)
    }
}

impl Eq for InterfaceName {
    ghost laws = { Prim.search (comparing, rules) };
}

impl Hash for InterfaceName {
    ghost hash_input = { λ name. fed.str (bytes_of (interface_view name)) ++
        fed.bool (is_known (interface_view name)) };

    ghost respects_eq = { Prim.search (hashing, rules) };

    fn hash<H: Hasher>(&self, state: &mut H) {
        self.as_str().hash(state);
        self.is_known().hash(state);
    }
}
