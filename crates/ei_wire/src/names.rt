//! The names of the interfaces.

ghost use Rattle.std.specs.Prelude.{◌≡◌, ℕ, List, Some};
ghost use Rattle.ei_spec.specs.Interface.{name_of, known_of};
ghost use Rattle.ei_spec.specs.declared.interface.KnownInterface.{KnownInterface as Known};

/// `KnownInterface::name` and `from_name` are inverse: each name is of one interface alone.
#[tactic(auto, using(crate::proofs::InterfaceNames::found, crate::proofs::InterfaceNames::named))]
pub fn interface_names()
    ensures named { (k : Known) → known_of (name_of k) ≡ Some k }
    ensures found { (n : List ℕ) (k : Known) → known_of n ≡ Some k → n ≡ name_of k }
{}
