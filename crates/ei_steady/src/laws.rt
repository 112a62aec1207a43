//! The laws of a steady server. Each function does nothing: its clauses are the laws.

ghost use Rattle.std.specs.Prelude.{◌≡◌, ℕ, ◌+◌, ◌≤◌, Bool, true, List, [], ◌∷◌, ◌++◌, length, map, Some};
ghost use Rattle.ei_spec.specs.declared.interface.KnownInterface.{KnownInterface};
ghost use Rattle.ei_types.specs.declared.enums.DisconnectReason.{DisconnectReason};
ghost use Rattle.std.specs.Prelude.{Option, None};
ghost use Rattle.ei_input.specs.declared.input_event.InputEvent.{InputEvent};
ghost use Rattle.ei_reported.specs.Said.{Said, Told, Aside, Disconnects, SeatGoes, DeviceTells, DeviceGoes, Inputs, Modifies, Goes};
ghost use Rattle.ei_reported.specs.Reported.{refusal};
ghost use Rattle.ei_steady.specs.Steady.{NoneRefused, GoingDevice, devices_go_events, without_devices, AreHeldByAll, IdsRise, EachHeld, brought_by, chosen};
ghost use Rattle.ei_steady.specs.Steady.{after, Held, nothing, Stands, GoesOn, IsLess, without_seat, without_interface, without_device};
ghost use Rattle.ei_steady.specs.Steady.{Going, goes, AreHeld, without_all, with_seat, AreCapabilities, seat_events};
ghost use Rattle.ei_steady.specs.Steady.{Brought, NamesDiffer, Item, AreItems, device_events, with_device};

/// What is held stands with the client at first; less of it stands too; and lists of events that go on are joined.
pub fn standing()
    ensures begins { (next : ℕ) → Stands [] next nothing }
    ensures less { (before : List Said) (next later : ℕ) (h more : Held) →
        Stands before next more → IsLess h more → next ≤ later → Stands before later h }
    ensures one { (before ms more : List Said) (m : Said) → NoneRefused before (ms ++ (m ∷ more)) →
        refusal (after before ms) m ≡ None }
    ensures both { (before ms more : List Said) (next later : ℕ) (h k : Held) →
        GoesOn before ms next h → GoesOn (after before ms) more later k → GoesOn before (ms ++ more) later k }
{}

/// Events that move nothing: what is held stands behind them.
pub fn quiet()
    ensures aside { (before : List Said) (next : ℕ) (h : Held) → Stands before next h →
        GoesOn before (Aside ∷ []) next h }
    ensures disconnected { (before : List Said) (next last : ℕ) (h : Held) (why : DisconnectReason)
        (text : Option (List ℕ)) →
        Stands before next h → GoesOn before (Disconnects last why text ∷ []) next h }
    ensures told { (before : List Said) (next device serial : ℕ) (h : Held) (told : Told) → Stands before next h →
        h.device device ≡ true →
        GoesOn before (DeviceTells device serial told ∷ []) next h }
    ensures input { (before : List Said) (next id device : ℕ) (h : Held) (input : InputEvent) → Stands before next h →
        h.interface id ≡ Some device →
        GoesOn before (Inputs id input ∷ []) next h }
    ensures modifiers { (before : List Said) (next id device serial depressed locked latched layout : ℕ) (h : Held) →
        Stands before next h → h.interface id ≡ Some device →
        GoesOn before (Modifies id serial depressed locked latched layout ∷ []) next h }
{}

/// A seat, an interface or a device that goes, and all of several: what is left stands.
pub fn going()
    ensures seat_goes { (before : List Said) (next seat serial : ℕ) (h : Held) → Stands before next h →
        GoesOn before (SeatGoes seat serial ∷ []) next (without_seat seat h) }
    ensures interface_goes { (before : List Said) (next id device serial : ℕ) (h : Held) (k : KnownInterface) →
        Stands before next h → h.interface id ≡ Some device →
        GoesOn before (Goes k id serial ∷ []) next (without_interface id h) }
    ensures interfaces_go { (before : List Said) (next : ℕ) (h : Held) (gs : List Going) → Stands before next h →
        AreHeld h gs →
        GoesOn before (map goes gs) next (without_all h gs) }
    ensures device_goes { (before : List Said) (next device serial : ℕ) (h : Held) → Stands before next h →
        GoesOn before (DeviceGoes device serial ∷ []) next (without_device device h) }
    ensures devices_go { (before : List Said) (next : ℕ) (h : Held) (gs : List GoingDevice) → Stands before next h →
        AreHeldByAll h gs →
        GoesOn before (devices_go_events gs) next (without_devices gs h) }
    ensures held { (h : Held) (from : ℕ) (gs : List Going) → IdsRise from gs → EachHeld h gs → AreHeld h gs }
{}

/// A seat or a device that comes: it stands with what was held.
pub fn coming()
    ensures names { (versions : KnownInterface → ℕ) (test : ℕ → Bool) →
        NamesDiffer (brought_by versions (chosen test)) }
    ensures seat_comes { (before : List Said) (next : ℕ) (h : Held) (named : Bool) (names : List (List ℕ)) →
        Stands before next h → AreCapabilities names →
        GoesOn before (seat_events next named names) (next + 1) (with_seat next h) }
    ensures device_comes { (before : List Said) (next seat : ℕ) (h : Held) (named : Bool) (bs : List Brought)
        (items : List Item) →
        Stands before next h → h.seat seat ≡ true → NamesDiffer bs → AreItems next (next + 1 + length bs) items →
        GoesOn before (device_events seat next named bs items) (next + 1 + length bs)
        (with_device next (next + 1 + length bs) h) }
{}
