//! What each kind of message keeps and changes. Each function does nothing: its clauses are the laws.

ghost use Rattle.std.specs.Prelude.{◌≡◌, ◌+◌, ◌%◌, ◌^◌, ◌++◌, ◌==◌, ◌&&◌, ◌||◌, ℕ, List, [], ◌∷◌, true, false, Some};
ghost use Rattle.std.specs.Prelude.{None, codes, slice_index};
ghost use Rattle.ei_spec.specs.declared.interface.KnownInterface.TheVariants as known;
ghost use Rattle.ei_spec.specs.Message.{Raw};
ghost use Rattle.ei_spec.specs.History.{each};
ghost use Rattle.ei_spec.specs.Stream.{Final};
ghost use Rattle.ei_spec.specs.Groups.{Input as Waits, Frame, Other, Free, Plain as Given, group, gives, frames_made};
ghost use Rattle.ei_spec.specs.Groups.{with_frame};
ghost use Rattle.ei_session.specs.Setup.{Setup, seat_id};
ghost use Rattle.ei_session.specs.Asked.{asks};
ghost use Rattle.ei_session.specs.Handshake.{connected, is_the_finish};
ghost use Rattle.ei_input.specs.declared.input_event.InputEvent.{InputEvent};
ghost use Rattle.ei_session.specs.Inputs.{DeviceInput};
ghost use Rattle.ei_session.specs.Devices.{seat_is_open, made, next_id, exhausts};
ghost use Rattle.ei_session.specs.Objects.{Entry, object, interfaces_left, gone};
ghost use Rattle.ei_session.specs.Serial.{steps, serial};
ghost use Rattle.ei_session.specs.Touches.{said_by, input, is_down};
ghost use Rattle.ei_session.specs.Refusals.{synced, came, refusal, judge};
ghost use Rattle.ei_session.specs.Requests.{Plain, item, slot};
ghost use Rattle.ei_session.specs.Events.{destroyed_event, reply};
ghost use Rattle.ei_session.specs.Kept.{frames_for, Keeps, KeepsVersions, Plainly};

/// A request that makes no device and releases nothing changes no object, no serial, no id and no version.
pub fn plain_requests()
    ensures device { (setup : Setup) (before : List Raw) (m : Raw) (e : Entry) (d : ℕ) → object before m.id ≡ Some e →
        e.device ≡ Some d →
        asks e.interface (codes "release") m ≡ false → Plainly setup before m }
    ensures known { (setup : Setup) (before : List Raw) (m : Raw) (e : Entry) → connected before ≡ true →
        object before m.id ≡ Some e → made before m ≡ None →
        asks e.interface (codes "release") m ≡ false → Plainly setup before m }
    ensures unknown { (setup : Setup) (before : List Raw) (m : Raw) → connected before ≡ true →
        object before m.id ≡ None → Plainly setup before m }
    ensures connected { (before : List Raw) (id : ℕ) (e : Entry) (d : ℕ) → object before id ≡ Some e →
        e.device ≡ Some d → connected before ≡ true }
    ensures no_finish { (before : List Raw) (m : Raw) → connected before ≡ true → is_the_finish before m ≡ false }
    ensures stays { (before : List Raw) (m : Raw) → connected before ≡ true → connected (m ∷ before) ≡ true }
    ensures makes { (before : List Raw) (m : Raw) (mask : ℕ) → made before m ≡ Some mask → connected before ≡ true }
    ensures versions { (before : List Raw) (m : Raw) → connected before ≡ true → KeepsVersions before m }
    ensures next_id { (before : List Raw) (m : Raw) → made before m ≡ None → next_id (m ∷ before) ≡ next_id before }
{}

/// The release of the seat, where it is there.
pub fn seat_released()
    ensures left { (before : List Raw) (m : Raw) (d : ℕ) → connected before ≡ true → m.id ≡ seat_id →
        asks known.Seat (codes "release") m ≡ true → interfaces_left (m ∷ before) d ≡ interfaces_left before d }
    ensures shut { (before : List Raw) (m : Raw) → connected before ≡ true → m.id ≡ seat_id →
        asks known.Seat (codes "release") m ≡ true → seat_is_open (m ∷ before) ≡ false }
    ensures serial { (setup : Setup) (before : List Raw) (m : Raw) → seat_is_open before ≡ true → m.id ≡ seat_id →
        asks known.Seat (codes "release") m ≡ true →
        serial setup (m ∷ before) ≡ (serial setup before + 1) % 2 ^ 32 }
    ensures reply { (setup : Setup) (before : List Raw) (m : Raw) → seat_is_open before ≡ true → m.id ≡ seat_id →
        asks known.Seat (codes "release") m ≡ true →
        reply setup before m ≡ destroyed_event seat_id (serial setup (m ∷ before)) ∷ [] }
{}

/// Messages before the finish: they give nothing, and all but the finish leave what there is.
pub fn handshake_messages()
    ensures item { (before : List Raw) (m : Raw) → connected before ≡ false → item before m ≡ None }
    ensures input { (before : List Raw) (m : Raw) → connected before ≡ false → input before m ≡ None }
    ensures gone { (before : List Raw) (m : Raw) → connected before ≡ false → gone before m ≡ [] }
    ensures steps { (before : List Raw) (m : Raw) → connected before ≡ false → steps before m ≡ 0 }
    ensures synced { (before : List Raw) (m : Raw) → connected before ≡ false → synced before m ≡ None }
    ensures reply { (setup : Setup) (before : List Raw) (m : Raw) → connected before ≡ false →
        is_the_finish before m ≡ false → reply setup before m ≡ [] }
    ensures keeps { (setup : Setup) (before : List Raw) (m : Raw) → connected before ≡ false →
        is_the_finish before m ≡ false → Keeps setup before m }
    ensures next_id { (before : List Raw) → connected before ≡ false → next_id before ≡ seat_id + 1 }
    ensures left { (before : List Raw) (d : ℕ) → connected before ≡ false → interfaces_left before d ≡ [] }
    ensures came { (name : List ℕ) (before : List Raw) (m : Raw) →
        came name (m ∷ before) ≡ ((m.id == 0 && asks known.Handshake name m) || came name before) }
{}

/// The finish.
pub fn finish_message()
    ensures target { (before : List Raw) (m : Raw) → is_the_finish before m ≡ true → m.id ≡ 0 }
    ensures serial { (setup : Setup) (before : List Raw) (m : Raw) → is_the_finish before m ≡ true →
        serial setup (m ∷ before) ≡ serial setup before }
    ensures next_id { (before : List Raw) (m : Raw) → is_the_finish before m ≡ true →
        next_id (m ∷ before) ≡ next_id before }
    ensures left { (before : List Raw) (m : Raw) (d : ℕ) → is_the_finish before m ≡ true →
        interfaces_left (m ∷ before) d ≡ [] }
    ensures item { (before : List Raw) (m : Raw) → is_the_finish before m ≡ true → item before m ≡ None }
    ensures versions { (before : List Raw) (m : Raw) → is_the_finish before m ≡ true → KeepsVersions before m }
{}

/// What one more message gives, by its item.
pub fn given_by_item()
    ensures input { (setup : Setup) (readings : List ℕ) (before : List Raw) (m : Raw) (d : ℕ) (i : InputEvent) →
        item before m ≡ Some (Waits d i) →
        gives readings (each (slot setup) before) (slot setup before m) ≡ [] }
    ensures frame { (setup : Setup) (readings : List ℕ) (before : List Raw) (m : Raw) (d serial time : ℕ) →
        item before m ≡ Some (Frame d serial time) →
        gives readings (each (slot setup) before) (slot setup before m) ≡
        with_frame (group d (each (slot setup) before)) d serial time }
    ensures other { (setup : Setup) (readings : List ℕ) (before : List Raw) (m : Raw) (d : ℕ) (y : Plain) →
        item before m ≡ Some (Other d y) →
        gives readings (each (slot setup) before) (slot setup before m) ≡
        with_frame (group d (each (slot setup) before)) d (serial setup before)
        (slice_index readings (frames_made (each (slot setup) before))) ++ (Given y ∷ []) }
    ensures free { (setup : Setup) (readings : List ℕ) (before : List Raw) (m : Raw) (y : Plain) →
        item before m ≡ Some (Free y) →
        gives readings (each (slot setup) before) (slot setup before m) ≡ Given y ∷ [] }
    ensures none { (setup : Setup) (readings : List ℕ) (before : List Raw) (m : Raw) → item before m ≡ None →
        gives readings (each (slot setup) before) (slot setup before m) ≡ [] }
{}

/// How many frames are made with one more message, by its item: one where it closes a group that isn't empty.
pub fn frames_made_by_item()
    ensures input { (setup : Setup) (before : List Raw) (m : Raw) (d : ℕ) (i : InputEvent) →
        item before m ≡ Some (Waits d i) →
        frames_made (each (slot setup) (m ∷ before)) ≡ frames_made (each (slot setup) before) }
    ensures frame { (setup : Setup) (before : List Raw) (m : Raw) (d serial time : ℕ) →
        item before m ≡ Some (Frame d serial time) →
        frames_made (each (slot setup) (m ∷ before)) ≡ frames_made (each (slot setup) before) }
    ensures other { (setup : Setup) (before : List Raw) (m : Raw) (d : ℕ) (y : Plain) →
        item before m ≡ Some (Other d y) →
        frames_made (each (slot setup) (m ∷ before)) ≡
        frames_made (each (slot setup) before) + frames_for (group d (each (slot setup) before)) }
    ensures free { (setup : Setup) (before : List Raw) (m : Raw) (y : Plain) → item before m ≡ Some (Free y) →
        frames_made (each (slot setup) (m ∷ before)) ≡ frames_made (each (slot setup) before) }
    ensures none { (setup : Setup) (before : List Raw) (m : Raw) → item before m ≡ None →
        frames_made (each (slot setup) (m ∷ before)) ≡ frames_made (each (slot setup) before) }
{}

/// Where the ids run out with a device, nothing is answered, and the stream ends.
pub fn ids_run_out()
    ensures reply { (setup : Setup) (before : List Raw) (m : Raw) (mask : ℕ) → made before m ≡ Some mask →
        exhausts before m ≡ true → reply setup before m ≡ [] }
    ensures last { (setup : Setup) (before : List Raw) (m : Raw) → refusal setup before m ≡ None →
        exhausts before m ≡ true → judge setup before m ≡ Final }
{}

/// An input that says nothing of touches leaves those that are down.
pub fn other_inputs()
    ensures is_down { (before : List Raw) (m : Raw) (i : DeviceInput) → input before m ≡ Some i →
        ((touch : ℕ) → said_by touch i.input ≡ None) →
        (device touch : ℕ) → is_down (m ∷ before) device touch ≡ is_down before device touch }
{}
