//! The versions that a handshake settles, as a map. The function does nothing: its clauses are the laws.

ghost use Rattle.std.specs.Prelude.{◌≡◌, ◌≢◌, ℕ, min, List, [], ◌∷◌, true, false, Some, None};
ghost use Rattle.std.specs.FinMap as finite;
ghost use Rattle.ei_spec.specs.declared.interface.KnownInterface.{KnownInterface};
ghost use Rattle.ei_spec.specs.declared.interface.KnownInterface.TheVariants as known;
ghost use Rattle.ei_spec.specs.Interface.{name_of, known_of, server_version};
ghost use Rattle.ei_spec.specs.Message.{Raw};
ghost use Rattle.ei_session.specs.Handshake.{Announced, announced, connected, settled};
ghost use Rattle.ei_session.specs.SettledMap.{Versions, settled_map};

/// The map has the version of each interface that is settled, and no other key; and what a message
/// changes of it.
pub fn settled_versions()
    ensures settled { (before : List Raw) (interface : KnownInterface) → interface ≢ known.Handshake →
        finite.get (settled_map before) (name_of interface) ≡ settled before interface }
    ensures handshake { (before : List Raw) → finite.get (settled_map before) (name_of known.Handshake) ≡ None }
    ensures unknown { (before : List Raw) (name : List ℕ) → known_of name ≡ None →
        finite.get (settled_map before) name ≡ None }
    ensures only { (before : List Raw) (map : Versions) →
        ((i : KnownInterface) → i ≢ known.Handshake → finite.get map (name_of i) ≡ settled before i) →
        finite.get map (name_of known.Handshake) ≡ None →
        ((name : List ℕ) → known_of name ≡ None → finite.get map name ≡ None) → map ≡ settled_map before }
    ensures first { settled_map [] ≡ finite.empty }
    ensures announced { (before : List Raw) (m : Raw) (a : Announced) (i : KnownInterface) → connected before ≡ false →
        announced m ≡ Some a → known_of a.name ≡ Some i → i ≢ known.Handshake →
        settled_map (m ∷ before) ≡ finite.insert (settled_map before) a.name (min (server_version i) a.version) }
    ensures of_handshake { (before : List Raw) (m : Raw) (a : Announced) → announced m ≡ Some a →
        known_of a.name ≡ Some known.Handshake → settled_map (m ∷ before) ≡ settled_map before }
    ensures of_unknown { (before : List Raw) (m : Raw) (a : Announced) → announced m ≡ Some a →
        known_of a.name ≡ None → settled_map (m ∷ before) ≡ settled_map before }
    ensures other { (before : List Raw) (m : Raw) → announced m ≡ None →
        settled_map (m ∷ before) ≡ settled_map before }
    ensures connected { (before : List Raw) (m : Raw) → connected before ≡ true →
        settled_map (m ∷ before) ≡ settled_map before }
{}
