//! Which objects there are, told by their ids. Each function does nothing: its clauses are the laws.

ghost use Rattle.std.specs.Prelude.{◌≡◌, ◌≢◌, ◌<◌, ◌+◌, ℕ, List, ◌∷◌, true, false, Some, None, nat_eq, if◌then◌else◌};
ghost use Rattle.std.specs.Prelude.{slice_get, is_some, not, codes};
ghost use Rattle.std.specs.List.{list_any};
ghost use Rattle.ei_spec.specs.declared.interface.KnownInterface.{KnownInterface};
ghost use Rattle.ei_spec.specs.declared.interface.KnownInterface.TheVariants as known;
ghost use Rattle.ei_spec.specs.Message.{Raw};
ghost use Rattle.ei_session.specs.Asked.{asks};
ghost use Rattle.ei_session.specs.Handshake.{is_the_finish, version};
ghost use Rattle.ei_session.specs.Devices.{interfaces_of, made, next_id};
ghost use Rattle.ei_session.specs.Objects.{Entry, introduces, introduced, removes, object, interfaces_left, gone};
ghost use Rattle.ei_session.specs.Kept.{is_removed, is_bare, home};

/// A new device has the next id, and its interfaces the ids that follow, in their order; older ids are as they were.
pub fn new_objects()
    ensures device { (before : List Raw) (m : Raw) (mask : ℕ) → made before m ≡ Some mask →
        object (m ∷ before) (next_id before) ≡
        Some (record {
          interface = known.Device;
          version = version before known.Device;
          device = Some (next_id before);
        }) }
    ensures interface { (before : List Raw) (m : Raw) (mask k : ℕ) (i : KnownInterface) → made before m ≡ Some mask →
        slice_get (interfaces_of mask) k ≡ Some i →
        object (m ∷ before) (next_id before + 1 + k) ≡
        Some (record { interface = i; version = version before i; device = Some (next_id before) }) }
    ensures older { (before : List Raw) (m : Raw) (mask id : ℕ) → made before m ≡ Some mask → id < next_id before →
        object (m ∷ before) id ≡ object before id }
{}

/// A message that gives no object takes just those away that it names to go.
pub fn objects_gone()
    ensures release { (before : List Raw) (m : Raw) (e : Entry) (id : ℕ) → object before m.id ≡ Some e →
        asks e.interface (codes "release") m ≡ true →
        object (m ∷ before) id ≡ (if list_any (nat_eq id) (gone before m) then None else object before id) }
    ensures any { (before : List Raw) (m : Raw) (id : ℕ) → is_the_finish before m ≡ false → made before m ≡ None →
        object (m ∷ before) id ≡ (if list_any (nat_eq id) (gone before m) then None else object before id) }
{}

/// The interfaces that a device has left are the objects of it, but for itself.
pub fn interfaces_there()
    ensures there { (before : List Raw) (device id : ℕ) →
        list_any (nat_eq id) (interfaces_left before device) ≡ true → is_some (object before id) ≡ true }
    ensures own { (before : List Raw) (device id : ℕ) (e : Entry) →
        list_any (nat_eq id) (interfaces_left before device) ≡ true → object before id ≡ Some e →
        e.device ≡ Some device }
    ensures above { (before : List Raw) (device id : ℕ) →
        list_any (nat_eq id) (interfaces_left before device) ≡ true → device < id }
    ensures all { (before : List Raw) (device id : ℕ) (e : Entry) → object before id ≡ Some e →
        e.device ≡ Some device → id ≢ device →
        list_any (nat_eq id) (interfaces_left before device) ≡ true }
{}

/// What is there is what was introduced and not removed: each id is introduced once, and removed only after that.
pub fn objects_introduced()
    ensures there { (before : List Raw) (id : ℕ) →
        object before id ≡ (if is_removed before id then None else introduced before id) }
    ensures once { (before : List Raw) (m : Raw) (id : ℕ) (e : Entry) → introduces before m id ≡ Some e →
        introduced before id ≡ None }
    ensures below { (before : List Raw) (id : ℕ) (e : Entry) → introduced before id ≡ Some e → id < next_id before }
    ensures removed { (before : List Raw) (m : Raw) (id : ℕ) → removes before m id ≡ true →
        is_some (introduced before id) ≡ true }
{}

/// Which interfaces are at which ids: the handshake, the connection and the seat have one each, and any other is of a
/// device.
pub fn objects_placed()
    ensures home { (before : List Raw) (id : ℕ) (e : Entry) → object before id ≡ Some e → is_bare e.interface ≡ true →
        home e.interface ≡ Some id }
    ensures bare { (before : List Raw) (id : ℕ) (e : Entry) → object before id ≡ Some e →
        is_some e.device ≡ not (is_bare e.interface) }
    ensures owned { (before : List Raw) (id : ℕ) (e : Entry) → object before id ≡ Some e →
        is_bare e.interface ≡ false → (d : ℕ) × (e.device ≡ Some d) }
{}
