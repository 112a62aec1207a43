//! The laws of what is reported. Each function does nothing: its clauses are the laws.

ghost use Rattle.std.specs.Prelude.{◌≡◌, ◌≤◌, ℕ, ◌+◌, List, [], ◌∷◌, ◌++◌, ◌==◌, Some, None, false, true};
ghost use Rattle.std.specs.Prelude.{unwrap_or, length, map, slice_index, if◌then◌else◌};
ghost use Rattle.ei_types.specs.declared.error.EventError.{EventError};
ghost use Rattle.ei_input.specs.declared.input_event.InputEvent.{InputEvent};
ghost use Rattle.ei_spec.specs.Groups.{Input as Waiting, Frame, Other, Free, Plain, seen};
ghost use Rattle.ei_spec.specs.Groups.{gives, group, grouped, frames_made};
ghost use Rattle.ei_reported.specs.Event.{Event};
ghost use Rattle.ei_reported.specs.Said.{Told, Said, said, DeviceDone, DeviceTells, DeviceGoes, Inputs, Modifies};
ghost use Rattle.ei_reported.specs.Standing.{device_pending, device_typed, device_added, holder};
ghost use Rattle.ei_reported.specs.Reported.{Device, Report, Plain as PlainEvent, refusal, item, keeps};
ghost use Rattle.ei_reported.specs.Reported.{serial, slots, tells, reported};
ghost use Rattle.ei_reported.specs.Changes.{group_told};

/// One more event, for the serial and for what is reported.
pub fn one_more_event()
    ensures serial { (start : ℕ) (before : List Said) (m : Said) →
        serial start (m ∷ before) ≡ unwrap_or (keeps before m) (serial start before) }
    ensures reported { (start : ℕ) (readings : List ℕ) (before : List Event) (e : Event) →
        reported start readings (e ∷ before) ≡
        reported start readings before ++ tells start readings (map said before) (said e) }
{}

/// What is reported of a list begins with what is reported of each list that it goes on from, and readings that come
/// later change nothing.
pub fn prefixes()
    ensures prefix { (start : ℕ) (readings : List ℕ) (more before : List Event) →
        (rest : List Report) × (reported start readings (more ++ before) ≡ reported start readings before ++ rest) }
    ensures readings { (start : ℕ) (readings later : List ℕ) (events : List Event) →
        frames_made (slots start (map said events)) ≤ length readings →
        reported start (readings ++ later) events ≡ reported start readings events }
{}

/// But for the seats of devices, what is reported is what the groups of inputs give, of the items of all events.
pub fn groupings()
    ensures grouped { (start : ℕ) (readings : List ℕ) (events : List Event) →
        map (seen Device.id) (reported start readings events) ≡ grouped readings (slots start (map said events)) }
{}

/// An event that is refused gives nothing.
pub fn refused_events()
    ensures item { (before : List Said) (m : Said) (e : EventError) → refusal before m ≡ Some e → item before m ≡ None }
    ensures tells { (start : ℕ) (readings : List ℕ) (before : List Said) (m : Said) (e : EventError) →
        refusal before m ≡ Some e → tells start readings before m ≡ [] }
    ensures reported { (start : ℕ) (readings : List ℕ) (before : List Event) (e : Event) (why : EventError) →
        refusal (map said before) (said e) ≡ Some why →
        reported start readings (e ∷ before) ≡ reported start readings before }
    ensures waiting { (start : ℕ) (before : List Said) (m : Said) (e : EventError) (d : ℕ) → refusal before m ≡ Some e →
        group d (slots start (m ∷ before)) ≡ group d (slots start before) }
{}

/// What a position gives to the user, by its item.
pub fn given_by_item()
    ensures nothing { (start : ℕ) (readings : List ℕ) (before : List Said) (m : Said) → item before m ≡ None →
        tells start readings before m ≡ [] }
    ensures input { (start : ℕ) (readings : List ℕ) (before : List Said) (m : Said) (d : ℕ) (x : InputEvent) →
        item before m ≡ Some (Waiting d x) → tells start readings before m ≡ [] }
    ensures frame { (start : ℕ) (readings : List ℕ) (before : List Said) (m : Said) (d s t : ℕ) →
        item before m ≡ Some (Frame d s t) → tells start readings before m ≡ group_told start before d s t }
    ensures other { (start : ℕ) (readings : List ℕ) (before : List Said) (m : Said) (d : ℕ) (y : PlainEvent) →
        item before m ≡ Some (Other d y) →
        tells start readings before m ≡ group_told start before d
        (serial start (m ∷ before)) (slice_index readings (frames_made (slots start before))) ++ (Plain y ∷ []) }
    ensures free { (start : ℕ) (readings : List ℕ) (before : List Said) (m : Said) (y : PlainEvent) →
        item before m ≡ Some (Free y) → tells start readings before m ≡ Plain y ∷ [] }
{}

/// No input waits on a device that isn't added.
pub fn waiting()
    ensures none { (start : ℕ) (before : List Said) (d : ℕ) → device_added before d ≡ false →
        group d (slots start before) ≡ [] }
{}

/// How many frames are made after one more event: one more where a device's other event comes while inputs wait on it.
pub fn frames_after()
    ensures made { (start : ℕ) (before : List Said) (m : Said) (d : ℕ) (y : PlainEvent) →
        item before m ≡ Some (Other d y) →
        frames_made (slots start (m ∷ before)) ≡
        frames_made (slots start before) + (if length (group d (slots start before)) == 0 then 0 else 1) }
    ensures input { (start : ℕ) (before : List Said) (m : Said) (d : ℕ) (x : InputEvent) →
        item before m ≡ Some (Waiting d x) →
        frames_made (slots start (m ∷ before)) ≡ frames_made (slots start before) }
    ensures frame { (start : ℕ) (before : List Said) (m : Said) (d s t : ℕ) → item before m ≡ Some (Frame d s t) →
        frames_made (slots start (m ∷ before)) ≡ frames_made (slots start before) }
    ensures free { (start : ℕ) (before : List Said) (m : Said) (y : PlainEvent) → item before m ≡ Some (Free y) →
        frames_made (slots start (m ∷ before)) ≡ frames_made (slots start before) }
    ensures nothing { (start : ℕ) (before : List Said) (m : Said) → item before m ≡ None →
        frames_made (slots start (m ∷ before)) ≡ frames_made (slots start before) }
{}

/// The inputs that wait on each device, after an event of each kind.
pub fn waiting_after()
    ensures input { (start : ℕ) (before : List Said) (id d device : ℕ) (x : InputEvent) → holder before id ≡ Some d →
        group device (slots start (Inputs id x ∷ before)) ≡
        (if d == device then group device (slots start before) ++ (x ∷ []) else group device (slots start before)) }
    ensures modifiers { (start : ℕ) (before : List Said) (id d device serial depressed locked latched layout : ℕ) →
        holder before id ≡ Some d →
        group device (slots start (Modifies id serial depressed locked latched layout ∷ before)) ≡
        (if d == device then [] else group device (slots start before)) }
    ensures told { (start : ℕ) (before : List Said) (d device serial : ℕ) (told : Told) → device_added before d ≡ true →
        group device (slots start (DeviceTells d serial told ∷ before)) ≡
        (if d == device then [] else group device (slots start before)) }
    ensures done { (start : ℕ) (before : List Said) (d device : ℕ) →
        device_pending before d ≡ true → device_typed before d ≡ true →
        group device (slots start (DeviceDone d ∷ before)) ≡
        (if d == device then [] else group device (slots start before)) }
    ensures goes { (start : ℕ) (before : List Said) (d device serial : ℕ) →
        group device (slots start (DeviceGoes d serial ∷ before)) ≡
        (if d == device then [] else group device (slots start before)) }
    ensures free { (start : ℕ) (before : List Said) (m : Said) (y : PlainEvent) (device : ℕ) →
        item before m ≡ Some (Free y) → group device (slots start (m ∷ before)) ≡ group device (slots start before) }
    ensures nothing { (start : ℕ) (before : List Said) (m : Said) (device : ℕ) →
        item before m ≡ None → group device (slots start (m ∷ before)) ≡ group device (slots start before) }
{}
