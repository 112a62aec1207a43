//! The ids that are given next. Each function does nothing: its clauses are the laws.

ghost use Rattle.std.specs.Prelude.{◌≡◌, ◌≤◌, ◌<◌, ◌+◌, ◌==◌, ◌&&◌, ℕ, max, nat_le, nat_lt, true, false};
ghost use Rattle.std.specs.Prelude.{List, [], ◌∷◌, length, Some, None, codes, if◌then◌else◌};
ghost use Rattle.ei_spec.specs.declared.interface.KnownInterface.TheVariants as known;
ghost use Rattle.ei_spec.specs.Interface.{name_of};
ghost use Rattle.ei_spec.specs.Value.{Word, Long};
ghost use Rattle.ei_spec.specs.Reading.{InvalidId};
ghost use Rattle.ei_spec.specs.Message.{Raw};
ghost use Rattle.ei_session.specs.Setup.{Setup, connection_id, seat_id};
ghost use Rattle.ei_session.specs.Asked.{asked};
ghost use Rattle.ei_session.specs.Handshake.{connected, is_the_finish};
ghost use Rattle.ei_session.specs.Devices.{interfaces_of, made, next_id, exhausts};
ghost use Rattle.ei_session.specs.Objects.{Entry, object};
ghost use Rattle.ei_session.specs.Refusals.{Parse, InvalidInterfaceVersion, synced, may_give, bad_id, refusal};
ghost use Rattle.ei_session.specs.Served.{AreUnrefused};
ghost use Rattle.ei_session.specs.NextIds.{next_own, next_peer};

/// The id that the server gives next, after a message of each kind.
pub fn own_ids()
    ensures first { (before : List Raw) → connected before ≡ false → next_own before ≡ connection_id }
    ensures connected { (before : List Raw) → connected before ≡ true → next_own before ≡ next_id before }
    ensures finish { (before : List Raw) (m : Raw) → is_the_finish before m ≡ true →
        next_own (m ∷ before) ≡ seat_id + 1 }
    ensures device { (before : List Raw) (m : Raw) (mask : ℕ) → made before m ≡ Some mask →
        next_own (m ∷ before) ≡ next_own before + (1 + length (interfaces_of mask)) }
    ensures other { (before : List Raw) (m : Raw) → is_the_finish before m ≡ false → made before m ≡ None →
        next_own (m ∷ before) ≡ next_own before }
    ensures made { (before : List Raw) (m : Raw) (mask : ℕ) → made before m ≡ Some mask →
        next_id before ≡ next_own before }
    ensures exhausting { (before : List Raw) (m : Raw) (mask : ℕ) → made before m ≡ Some mask →
        exhausts before m ≡ nat_le 0xffffffffffffffff (next_own before + length (interfaces_of mask)) }
    ensures below { (before : List Raw) (id : ℕ) (e : Entry) → object before id ≡ Some e → id < next_own before }
{}

/// The least id that the client may give next, after a `sync` and any other message; and which ids are refused.
pub fn peer_ids()
    ensures first { next_peer [] ≡ 1 }
    ensures sync { (before : List Raw) (m : Raw) (callback : ℕ) → synced before m ≡ Some callback →
        next_peer (m ∷ before) ≡ max (next_peer before) (callback + 1) }
    ensures accepted { (setup : Setup) (before : List Raw) (m : Raw) (callback : ℕ) → refusal setup before m ≡ None →
        synced before m ≡ Some callback → next_peer (m ∷ before) ≡ callback + 1 }
    ensures other { (before : List Raw) (m : Raw) → synced before m ≡ None → next_peer (m ∷ before) ≡ next_peer before }
    ensures most { (setup : Setup) (past : List Raw) → AreUnrefused setup past → next_peer past ≤ connection_id }
    ensures may_give { (before : List Raw) (id : ℕ) →
        may_give before id ≡ (nat_le (next_peer before) id && nat_lt id connection_id) }
    ensures refused { (before : List Raw) (id : ℕ) → bad_id before (Some id) ≡
        (if nat_le (next_peer before) id && nat_lt id connection_id then None else Some (Parse (InvalidId id))) }
    ensures sync_refused { (setup : Setup) (before : List Raw) (m : Raw) (callback v : ℕ) → connected before ≡ true →
        m.id ≡ connection_id → asked known.Connection (codes "sync") m ≡ Some (Long callback ∷ Word v ∷ []) →
        (nat_le (next_peer before) callback && nat_lt callback connection_id) ≡ false →
        refusal setup before m ≡ Some (Parse (InvalidId callback)) }
    ensures sync_taken { (setup : Setup) (before : List Raw) (m : Raw) (callback v : ℕ) → connected before ≡ true →
        m.id ≡ connection_id → asked known.Connection (codes "sync") m ≡ Some (Long callback ∷ Word v ∷ []) →
        (nat_le (next_peer before) callback && nat_lt callback connection_id) ≡ true →
        refusal setup before m ≡ (if v == 1 then None else Some (InvalidInterfaceVersion (name_of known.Callback) v)) }
{}
