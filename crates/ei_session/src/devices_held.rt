//! What waits on devices, and what is down there. Each function does nothing: its clauses are the laws.

ghost use Rattle.std.specs.Prelude.{◌≡◌, ◌≤◌, ◌+◌, ℕ, List, [], ◌∷◌, false, length, nat_eq};
ghost use Rattle.std.specs.List.{list_any, IsDistinct};
ghost use Rattle.ei_spec.specs.Message.{Raw};
ghost use Rattle.ei_spec.specs.History.{each};
ghost use Rattle.ei_spec.specs.Groups.{group};
ghost use Rattle.ei_session.specs.Setup.{Setup};
ghost use Rattle.ei_session.specs.Devices.{next_id};
ghost use Rattle.ei_session.specs.Touches.{is_down, touches_down};
ghost use Rattle.ei_session.specs.Requests.{slot};

/// On an id that isn't given yet nothing waits, and no touch is down.
pub fn fresh_devices()
    ensures group { (setup : Setup) (before : List Raw) (id : ℕ) → next_id before ≤ id →
        group id (each (slot setup) before) ≡ [] }
    ensures touches { (before : List Raw) (id touch : ℕ) → next_id before ≤ id → is_down before id touch ≡ false }
{}

/// The touches that are down are listed each once, and no others; so a list of just those, each once, is as long.
pub fn touch_counts()
    ensures distinct { (before : List Raw) (device : ℕ) → IsDistinct nat_eq (touches_down before device) }
    ensures members { (before : List Raw) (device touch : ℕ) →
        list_any (nat_eq touch) (touches_down before device) ≡ is_down before device touch }
    ensures count { (before : List Raw) (device : ℕ) (held : List ℕ) → IsDistinct nat_eq held →
        ((touch : ℕ) → list_any (nat_eq touch) held ≡ is_down before device touch) →
        length held ≡ length (touches_down before device) }
{}
