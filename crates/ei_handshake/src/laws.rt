//! The versions of a handshaker and those that a history settles. The function does nothing: its clauses are the laws.

ghost use Rattle.std.specs.Prelude.{◌≡◌, ℕ, List, [], ◌∷◌, false, None, Some};
ghost use Rattle.std.specs.FinMap as finite;
ghost use Rattle.ei_spec.specs.Message.{Raw};
ghost use Rattle.ei_session.specs.Handshake.{Announced, all_settled, announced, connected, settled};
ghost use Rattle.ei_session.specs.Replies.{settled_events};
ghost use Rattle.ei_session.specs.SettledMap.{settled_map};
ghost use Rattle.ei_handshake.specs.Handshaker.{with_version, has_required, kept_events};

/// A handshaker that is told each announcement before the finish keeps exactly the settled versions of the history.
pub fn settled_is_kept()
    ensures first { settled_map [] ≡ finite.empty }
    ensures announced { (past : List Raw) (m : Raw) (a : Announced) → connected past ≡ false → announced m ≡ Some a →
        with_version (settled_map past) a.name a.version ≡ settled_map (m ∷ past) }
    ensures other { (past : List Raw) (m : Raw) → announced m ≡ None → settled_map (m ∷ past) ≡ settled_map past }
    ensures required { (past : List Raw) → has_required (settled_map past) ≡ all_settled past }
    ensures events { (past : List Raw) (handshake : ℕ) →
        kept_events handshake (settled_map past) ≡ settled_events handshake (settled past) }
{}
