//! The laws of the definitions. Each function does nothing: its clauses are the laws.

ghost use Rattle.std.specs.Prelude.{◌≡◌, ◌≢◌, ◌≤◌, ◌<◌, ◌+◌, ◌%◌, ◌^◌, ◌++◌, ◌==◌, ◌&&◌, ◌||◌, ◌⊎◌, ℕ, ℤ, List, [], ◌∷◌, Bool, true, false, Option, Some, None};
ghost use Rattle.std.specs.Prelude.{length, is_some, unwrap_or, nat_eq, not, codes, if◌then◌else◌};
ghost use Rattle.std.specs.Option.{option_or};
ghost use Rattle.std.specs.List.{filter, list_any, range_with_len};
ghost use Rattle.ei_spec.specs.declared.interface.KnownInterface.{KnownInterface};
ghost use Rattle.ei_spec.specs.declared.interface.KnownInterface.TheVariants as known;
ghost use Rattle.ei_spec.specs.Value.{Word, Long, Signed, Letters};
ghost use Rattle.ei_spec.specs.Rows.{row_at};
ghost use Rattle.ei_spec.specs.Table.{table};
ghost use Rattle.ei_types.specs.declared.error.HandshakeError.TheVariants as handshake;
ghost use Rattle.ei_spec.specs.Message.{Raw, IsBytes, all_bytes};
ghost use Rattle.ei_spec.specs.Piece.{Piece};
ghost use Rattle.ei_spec.specs.Groups.{Input as Waits, Frame, Other, Free, group, gives, frames_made};
ghost use Rattle.ei_spec.specs.History.{each, occurs};
ghost use Rattle.ei_spec.specs.Stream.{Accepted, Final, Waiting, Reading, go_on, IsReading, AreOpen, stream_of};
ghost use Rattle.ei_wire.specs.declared.arg.RawFloat.{RawFloat};
ghost use Rattle.ei_session.specs.Setup.{Setup, connection_id, seat_id};
ghost use Rattle.ei_session.specs.Arguments.{event};
ghost use Rattle.ei_session.specs.Asked.{asked, asks, first};
ghost use Rattle.ei_session.specs.Handshake.{connected, is_finish, is_the_finish, settled, version};
ghost use Rattle.ei_input.specs.declared.input_event.InputEvent.TheVariants as input_event;
ghost use Rattle.ei_input.specs.Inputs.{float, floats, touching, button_of, key_of, scroll_end};
ghost use Rattle.ei_input.specs.declared.input_event.InputEvent.{InputEvent};
ghost use Rattle.ei_session.specs.Inputs.{DeviceInput, input_to};
ghost use Rattle.ei_session.specs.Devices.{seat_is_open, interfaces_of, made, ids_given, next_id, exhausts};
ghost use Rattle.ei_session.specs.Objects.{Entry, new_device, handed_over, at_first, is_device, is_of, says, object, interfaces_left, gone};
ghost use Rattle.ei_session.specs.Serial.{steps, serial};
ghost use Rattle.ei_session.specs.Touches.{input, touches, is_down, touches_down};
ghost use Rattle.ei_session.specs.Refusals.{Refusal, Handshake, arguments, tests, synced, is_at_most, refusal, judge};
ghost use Rattle.ei_session.specs.Requests.{Request, Plain, Bind, RequestDevice, Ready, DeviceClosed, DeviceStartEmulating, DeviceStopEmulating, Disconnect};
ghost use Rattle.ei_session.specs.Requests.{is_heard, item, slot, framed};
ghost use Rattle.ei_session.specs.Replies.{finish_events};
ghost use Rattle.ei_session.specs.Events.{invalid_object_event, callback_event, device_events, destroyed_event, destroyed_events, reply, replies, AreTargets};
ghost use Rattle.ei_session.specs.Events.{announcement, IsSaid};
ghost use Rattle.ei_session.specs.Longest.{longest_reply};
ghost use Rattle.ei_session.specs.Served.{AreUnrefused, accepted, reading_of, read_first, is_over, over_at, at_end, session};
ghost use Rattle.ei_spec.specs.declared.limits.TheConstants.{CAPABILITIES, MOST_MESSAGE_BYTES, MOST_TOUCHES};

/// A stream has one reading, and it doesn't matter how the stream was cut.
pub fn all_streams()
    ensures is { (setup : Setup) (bytes : List ℕ) → IsBytes bytes →
        IsReading (judge setup) bytes (reading_of setup bytes) }
    ensures only { (setup : Setup) (bytes : List ℕ) (r : Reading Refusal) → IsReading (judge setup) bytes r →
        reading_of setup bytes ≡ r }
    ensures longest { (setup : Setup) (bytes : List ℕ) (past : List Raw) (rest : List ℕ) →
        bytes ≡ stream_of past ++ rest → AreOpen (judge setup) past →
        (more : List Raw) × (accepted setup bytes ≡ more ++ past) }
    ensures goes_on { (setup : Setup) (bytes more : List ℕ) →
        reading_of setup (bytes ++ more) ≡ go_on (judge setup) (reading_of setup bytes) more }
{}

/// How a loop over pieces comes to the outcome of a session.
pub fn all_sessions()
    ensures over { (setup : Setup) (pieces : List Piece) (m : ℕ) → 1 ≤ m → m ≤ length pieces →
        ((j : ℕ) → 1 ≤ j → j < m → is_over setup pieces j ≡ false) → is_over setup pieces m ≡ true →
        session setup pieces ≡ over_at setup pieces m }
    ensures end { (setup : Setup) (pieces : List Piece) →
        ((j : ℕ) → 1 ≤ j → j ≤ length pieces → is_over setup pieces j ≡ false) →
        session setup pieces ≡ at_end (read_first setup pieces (length pieces)).past }
{}

/// What a list of messages gives and is answered by begins with that of each list that it goes on from.
pub fn all_prefixes()
    ensures framed { (setup : Setup) (readings : List ℕ) (more before : List Raw) →
        (rest : List Request) × (framed setup readings (more ++ before) ≡ framed setup readings before ++ rest) }
    ensures replies { (setup : Setup) (more before : List Raw) →
        (rest : List Raw) × (replies setup (more ++ before) ≡ replies setup before ++ rest) }
{}

/// One more message, for each definition.
pub fn all_one_more()
    ensures framed { (setup : Setup) (readings : List ℕ) (before : List Raw) (m : Raw) →
        framed setup readings (m ∷ before) ≡ framed setup readings before ++
        gives readings (each (slot setup) before) (slot setup before m) }
    ensures readings { (setup : Setup) (readings later : List ℕ) (before : List Raw) →
        frames_made (each (slot setup) before) ≤ length readings →
        framed setup (readings ++ later) before ≡ framed setup readings before }
    ensures replies { (setup : Setup) (before : List Raw) (m : Raw) →
        replies setup (m ∷ before) ≡ replies setup before ++ reply setup before m }
    ensures serial { (setup : Setup) (before : List Raw) (m : Raw) →
        serial setup (m ∷ before) ≡ (serial setup before + steps before m) % 2 ^ 32 }
    ensures next_id { (before : List Raw) (m : Raw) → next_id (m ∷ before) ≡ next_id before + ids_given before m }
    ensures object { (before : List Raw) (m : Raw) (id : ℕ) →
        object (m ∷ before) id ≡ unwrap_or (says id before m) (object before id) }
    ensures is_down { (before : List Raw) (m : Raw) (device touch : ℕ)
        → is_down (m ∷ before) device touch ≡ unwrap_or (touches device touch before m) (is_down before device touch) }
    ensures connected { (before : List Raw) (m : Raw) → is_the_finish before m ≡ false →
        connected (m ∷ before) ≡ connected before }
    ensures finish { (before : List Raw) (m : Raw) → is_the_finish before m ≡ true → connected (m ∷ before) ≡ true }
    ensures settled { (before : List Raw) (m : Raw) (interface : KnownInterface) → connected before ≡ true
        → settled (m ∷ before) interface ≡ settled before interface }
    ensures version { (before : List Raw) (m : Raw) (interface : KnownInterface) → connected before ≡ true
        → version (m ∷ before) interface ≡ version before interface }
{}

/// The objects after a message of each kind.
pub fn objects_after()
    ensures finish { (before : List Raw) (m : Raw) (id : ℕ) → is_the_finish before m ≡ true →
        object (m ∷ before) id ≡ handed_over before id }
    ensures device { (before : List Raw) (m : Raw) (mask id : ℕ) → made before m ≡ Some mask →
        object (m ∷ before) id ≡ option_or (new_device before (next_id before) (interfaces_of mask) id)
        (object before id) }
    ensures seat_release { (before : List Raw) (m : Raw) (id : ℕ) → connected before ≡ true → m.id ≡ seat_id →
        asks known.Seat (codes "release") m ≡ true →
        object (m ∷ before) id ≡ (if m.id == id then None else object before id) }
    ensures interface_release { (before : List Raw) (m : Raw) (e : Entry) (d id : ℕ) → object before m.id ≡ Some e →
        e.device ≡ Some d
        → is_device e.interface ≡ false →
        asks e.interface (codes "release") m ≡ true →
        object (m ∷ before) id ≡ (if m.id == id then None else object before id) }
    ensures device_gone { (before : List Raw) (m : Raw) (e : Entry) (id : ℕ) → object before m.id ≡ Some e →
        e.device ≡ Some m.id → e.interface ≡ known.Device →
        asks e.interface (codes "release") m ≡ true → is_of m.id (object before id) ≡ true →
        object (m ∷ before) id ≡ None }
    ensures device_left { (before : List Raw) (m : Raw) (e : Entry) (id : ℕ) → object before m.id ≡ Some e →
        e.device ≡ Some m.id → e.interface ≡ known.Device →
        asks e.interface (codes "release") m ≡ true → is_of m.id (object before id) ≡ false →
        object (m ∷ before) id ≡ object before id }
    ensures plain { (before : List Raw) (m : Raw) (e : Entry) (d id : ℕ) → object before m.id ≡ Some e →
        e.device ≡ Some d →
        asks e.interface (codes "release") m ≡ false → object (m ∷ before) id ≡ object before id }
    ensures unknown { (before : List Raw) (m : Raw) (id : ℕ) → is_the_finish before m ≡ false →
        object before m.id ≡ None
        → object (m ∷ before) id ≡ object before id }
{}

/// What the objects of a server are like, whatever was sent.
pub fn objects_there()
    ensures first { (before : List Raw) (id : ℕ) → connected before ≡ false → object before id ≡ at_first id }
    ensures handshake { (before : List Raw) → object before 0 ≡ (if connected before then None else at_first 0) }
    ensures connection { (before : List Raw) → object before connection_id ≡
        (if connected before then Some
        (record { interface = known.Connection; version = 1; device = None }) else None) }
    ensures seat { (before : List Raw) → is_some (object before seat_id) ≡ seat_is_open before }
    ensures owner { (before : List Raw) (id : ℕ) (e : Entry) (d : ℕ) → object before id ≡ Some e → e.device ≡ Some d →
        (w : Entry) × (object before d ≡ Some w) × (w.interface ≡ known.Device) × (w.device ≡ Some d) }
    ensures device { (before : List Raw) (id : ℕ) (e : Entry) → object before id ≡ Some e →
        e.interface ≡ known.Device → e.device ≡ Some id }
    ensures above { (before : List Raw) (id : ℕ) (e : Entry) (d : ℕ) → object before id ≡ Some e → e.device ≡ Some d →
        seat_id < id }
    ensures below { (before : List Raw) (id : ℕ) (e : Entry) → object before id ≡ Some e → id < next_id before }
    ensures gone { (more before : List Raw) (m : Raw) (id : ℕ) → connected (m ∷ before) ≡ true →
        list_any (nat_eq id) (gone before m) ≡ true
        → object (more ++ (m ∷ before)) id ≡ None }
{}

/// How many serials a message of each kind uses.
pub fn steps_after()
    ensures device { (before : List Raw) (m : Raw) (mask : ℕ) → made before m ≡ Some mask → exhausts before m ≡ false →
        steps before m ≡ 1 }
    ensures exhausting { (before : List Raw) (m : Raw) (mask : ℕ) → made before m ≡ Some mask →
        exhausts before m ≡ true → steps before m ≡ 0 }
    ensures release { (before : List Raw) (m : Raw) (e : Entry) → object before m.id ≡ Some e →
        is_device e.interface ≡ false →
        asks e.interface (codes "release") m ≡ true → steps before m ≡ 1 }
    ensures device_release { (before : List Raw) (m : Raw) (e : Entry) → object before m.id ≡ Some e →
        e.interface ≡ known.Device →
        asks e.interface (codes "release") m ≡ true → steps before m ≡ 1 + length (interfaces_left before m.id) }
    ensures plain { (before : List Raw) (m : Raw) (e : Entry) → made before m ≡ None → object before m.id ≡ Some e →
        asks e.interface (codes "release") m ≡ false → steps before m ≡ 0 }
    ensures unknown { (before : List Raw) (m : Raw) → object before m.id ≡ None → steps before m ≡ 0 }
{}

/// What a message of each kind gives.
pub fn items()
    ensures input { (before : List Raw) (m : Raw) (i : DeviceInput) → input before m ≡ Some i →
        item before m ≡ (if is_heard before i.device i.input then Some (Waits i.device i.input) else None) }
    ensures frame { (before : List Raw) (m : Raw) (e : Entry) (d serial time : ℕ) → object before m.id ≡ Some e →
        e.interface ≡ known.Device
        → e.device ≡ Some d →
        asked known.Device (codes "frame") m ≡ Some (Word serial ∷ Long time ∷ []) →
        item before m ≡ Some (Frame d serial time) }
    ensures closed { (before : List Raw) (m : Raw) (e : Entry) (d : ℕ) → object before m.id ≡ Some e →
        e.interface ≡ known.Device → e.device ≡ Some d →
        asked known.Device (codes "release") m ≡ Some [] → item before m ≡ Some (Other d (DeviceClosed d)) }
    ensures start { (before : List Raw) (m : Raw) (e : Entry) (d serial sequence : ℕ) → object before m.id ≡ Some e →
        e.interface ≡ known.Device
        → e.device ≡ Some d →
        asked known.Device (codes "start_emulating") m ≡ Some (Word serial ∷ Word sequence ∷ [])
        → item before m ≡ Some (Other d (DeviceStartEmulating d serial sequence)) }
    ensures stop { (before : List Raw) (m : Raw) (e : Entry) (d serial : ℕ) → object before m.id ≡ Some e →
        e.interface ≡ known.Device → e.device ≡ Some d →
        asked known.Device (codes "stop_emulating") m ≡ Some (Word serial ∷ []) →
        item before m ≡ Some (Other d (DeviceStopEmulating d serial)) }
    ensures ready { (before : List Raw) (m : Raw) (e : Entry) (d : ℕ) → object before m.id ≡ Some e →
        e.interface ≡ known.Device → e.device ≡ Some d →
        asked known.Device (codes "ready") m ≡ Some [] → item before m ≡ Some (Other d (Ready d)) }
    ensures bind { (before : List Raw) (m : Raw) (e : Entry) (mask : ℕ) → object before m.id ≡ Some e →
        e.interface ≡ known.Seat →
        asked known.Seat (codes "bind") m ≡ Some (Long mask ∷ []) → item before m ≡ Some (Free (Bind m.id mask)) }
    ensures request_device { (before : List Raw) (m : Raw) (e : Entry) (mask : ℕ) → object before m.id ≡ Some e →
        e.interface ≡ known.Seat →
        asked known.Seat (codes "request_device") m ≡ Some (Long mask ∷ []) →
        item before m ≡ Some (Free (RequestDevice m.id mask)) }
    ensures disconnect { (before : List Raw) (m : Raw) (e : Entry) → object before m.id ≡ Some e →
        e.interface ≡ known.Connection →
        asked known.Connection (codes "disconnect") m ≡ Some [] → item before m ≡ Some (Free Disconnect) }
    ensures sync { (before : List Raw) (m : Raw) (e : Entry) (callback v : ℕ) → object before m.id ≡ Some e →
        e.interface ≡ known.Connection →
        asked known.Connection (codes "sync") m ≡ Some (Long callback ∷ Word v ∷ []) → item before m ≡ None }
    ensures seat_release { (before : List Raw) (m : Raw) (e : Entry) → object before m.id ≡ Some e →
        e.interface ≡ known.Seat →
        asked known.Seat (codes "release") m ≡ Some [] → item before m ≡ None }
    ensures interface_release { (before : List Raw) (m : Raw) (e : Entry) (d : ℕ) → object before m.id ≡ Some e →
        e.device ≡ Some d
        → is_device e.interface ≡ false →
        asks e.interface (codes "release") m ≡ true → item before m ≡ None }
    ensures unknown { (before : List Raw) (m : Raw) → object before m.id ≡ None → item before m ≡ None }
{}

/// What answers a message of each kind.
pub fn answers()
    ensures finish { (setup : Setup) (before : List Raw) (m : Raw) → is_the_finish before m ≡ true →
        reply setup before m ≡ finish_events setup before }
    ensures unknown { (setup : Setup) (before : List Raw) (m : Raw) → connected before ≡ true →
        is_the_finish before m ≡ false → object before m.id ≡ None →
        reply setup before m ≡ invalid_object_event (serial setup before) m.id ∷ [] }
    ensures sync { (setup : Setup) (before : List Raw) (m : Raw) (callback v : ℕ) → connected before ≡ true →
        m.id ≡ connection_id →
        asked known.Connection (codes "sync") m ≡ Some (Long callback ∷ Word v ∷ []) →
        reply setup before m ≡ callback_event callback ∷ [] }
    ensures device { (setup : Setup) (before : List Raw) (m : Raw) (mask : ℕ) → made before m ≡ Some mask →
        exhausts before m ≡ false →
        reply setup before m ≡ device_events (version before) (next_id before) (interfaces_of mask)
        (serial setup (m ∷ before)) }
    ensures release { (setup : Setup) (before : List Raw) (m : Raw) (e : Entry) → object before m.id ≡ Some e →
        connection_id ≢ m.id
        → is_the_finish before m ≡ false →
        asks e.interface (codes "release") m ≡ true →
        reply setup before m ≡ destroyed_events (serial setup before) (gone before m) }
    ensures destroyed { (interface : KnownInterface) (m : Raw) (id serial : ℕ) →
        asks interface (codes "release") m ≡ true →
        destroyed_event id serial ≡ event interface (codes "destroyed") id (Word serial ∷ []) }
    ensures one_gone { (before : List Raw) (m : Raw) (e : Entry) → object before m.id ≡ Some e →
        is_device e.interface ≡ false →
        asks e.interface (codes "release") m ≡ true → gone before m ≡ m.id ∷ [] }
    ensures device_gone { (before : List Raw) (m : Raw) (e : Entry) → object before m.id ≡ Some e →
        e.interface ≡ known.Device →
        asks e.interface (codes "release") m ≡ true → gone before m ≡ interfaces_left before m.id ++ (m.id ∷ []) }
    ensures plain { (setup : Setup) (before : List Raw) (m : Raw) (e : Entry) → is_the_finish before m ≡ false →
        made before m ≡ None
        → object before m.id ≡ Some e →
        asks e.interface (codes "release") m ≡ false → synced before m ≡ None → reply setup before m ≡ [] }
{}

/// How much there is at most: of touches, of unread bytes, of objects that go, of bytes that answer a message.
pub fn bounds()
    ensures unrefused { (setup : Setup) (bytes : List ℕ) → IsBytes bytes → AreUnrefused setup (accepted setup bytes) }
    ensures touches { (setup : Setup) (past : List Raw) (device : ℕ) → AreUnrefused setup past →
        length (touches_down past device) ≤ MOST_TOUCHES }
    ensures unread { (setup : Setup) (bytes : List ℕ) → IsBytes bytes → (reading_of setup bytes).stop ≡ Waiting
        → length (reading_of setup bytes).rest < MOST_MESSAGE_BYTES }
    ensures interfaces { (mask : ℕ) → length (interfaces_of mask) ≤ CAPABILITIES }
    ensures gone { (before : List Raw) (m : Raw) → length (gone before m) ≤ CAPABILITIES + 1 }
    ensures reply { (setup : Setup) (before : List Raw) (m : Raw) →
        length (all_bytes (reply setup before m)) ≤ longest_reply }
    ensures longest { longest_reply ≡ 888 }
{}

/// The interfaces that a device has left, after a message of each kind.
pub fn interfaces_after()
    ensures new { (before : List Raw) (m : Raw) (mask : ℕ) → made before m ≡ Some mask →
        interfaces_left (m ∷ before) (next_id before) ≡
        range_with_len (next_id before + 1) (length (interfaces_of mask)) }
    ensures another { (before : List Raw) (m : Raw) (mask d : ℕ) → made before m ≡ Some mask → next_id before ≢ d
        → interfaces_left (m ∷ before) d ≡ interfaces_left before d }
    ensures interface_release { (before : List Raw) (m : Raw) (e : Entry) (d device : ℕ) → made before m ≡ None →
        object before m.id ≡ Some e
        → e.device ≡ Some d → is_device e.interface ≡ false →
        asks e.interface (codes "release") m ≡ true →
        interfaces_left (m ∷ before) device ≡ filter (λ id. not (m.id == id)) (interfaces_left before device) }
    ensures device_release { (before : List Raw) (m : Raw) (e : Entry) (d : ℕ) → made before m ≡ None →
        object before m.id ≡ Some e → e.device ≡ Some m.id
        → e.interface ≡ known.Device →
        asks e.interface (codes "release") m ≡ true → d ≢ m.id →
        interfaces_left (m ∷ before) d ≡ interfaces_left before d }
    ensures plain { (before : List Raw) (m : Raw) (d : ℕ) → made before m ≡ None →
        ((id : ℕ) → object (m ∷ before) id ≡ object before id)
        → interfaces_left (m ∷ before) d ≡ interfaces_left before d }
{}

/// Each event goes to an object that is there, or to the callback that it calls; and what is there was announced.
pub fn targets()
    ensures targets { (setup : Setup) (before : List Raw) (m : Raw) → AreTargets before m (reply setup before m) }
    ensures announced { (setup : Setup) (past : List Raw) (id : ℕ) (e : Entry) → occurs exhausts past ≡ false →
        id ≢ 0 → object past id ≡ Some e →
        IsSaid (announcement setup id e) (replies setup past) }
    ensures callback { (setup : Setup) (before : List Raw) (m : Raw) (c : ℕ) → refusal setup before m ≡ None →
        synced before m ≡ Some c →
        (0 < c) × (c < connection_id) × (occurs (λ b x. is_at_most c (synced b x)) before ≡ false) }
    ensures lasts { (setup : Setup) (past : List Raw) → AreOpen (judge setup) past → occurs exhausts past ≡ false }
{}

/// The inputs that wait on a device, after a message of each kind.
pub fn groups()
    ensures input { (setup : Setup) (before : List Raw) (m : Raw) (device d : ℕ) (i : InputEvent) → item before m ≡
        Some (Waits d i) →
        group device (each (slot setup) (m ∷ before))
        ≡ (if d == device then group device (each (slot setup) before) ++
        (i ∷ []) else group device (each (slot setup) before)) }
    ensures frame { (setup : Setup) (before : List Raw) (m : Raw) (device d serial time : ℕ) →
        item before m ≡ Some (Frame d serial time) →
        group device (each (slot setup) (m ∷ before)) ≡
        (if d == device then [] else group device (each (slot setup) before)) }
    ensures other { (setup : Setup) (before : List Raw) (m : Raw) (device d : ℕ) (y : Plain) →
        item before m ≡ Some (Other d y) →
        group device (each (slot setup) (m ∷ before)) ≡
        (if d == device then [] else group device (each (slot setup) before)) }
    ensures free { (setup : Setup) (before : List Raw) (m : Raw) (device : ℕ) (y : Plain) →
        item before m ≡ Some (Free y) →
        group device (each (slot setup) (m ∷ before)) ≡ group device (each (slot setup) before) }
    ensures none { (setup : Setup) (before : List Raw) (m : Raw) (device : ℕ) → item before m ≡ None →
        group device (each (slot setup) (m ∷ before)) ≡ group device (each (slot setup) before) }
{}

/// The touches that are down, after a message of each kind.
pub fn touches_after()
    ensures down { (before : List Raw) (m : Raw) (d t : ℕ) (a b : RawFloat) → input before m ≡
        Some (record { device = d; input = input_event.TouchDown t a b }) →
        (device touch : ℕ) → is_down (m ∷ before) device touch ≡
        ((d == device && t == touch) || is_down before device touch) }
    ensures up { (before : List Raw) (m : Raw) (d t : ℕ) → input before m ≡
        Some (record { device = d; input = input_event.TouchUp t }) →
        (device touch : ℕ) → is_down (m ∷ before) device touch ≡
        (not (d == device && t == touch) && is_down before device touch) }
    ensures cancel { (before : List Raw) (m : Raw) (d t : ℕ) → input before m ≡
        Some (record { device = d; input = input_event.TouchCancel t }) →
        (device touch : ℕ) → is_down (m ∷ before) device touch ≡
        (not (d == device && t == touch) && is_down before device touch) }
    ensures none { (before : List Raw) (m : Raw) → input before m ≡ None → (device touch : ℕ)
        → is_down (m ∷ before) device touch ≡ is_down before device touch }
{}

/// Which requests make a device.
pub fn devices_made()
    ensures bind { (before : List Raw) (m : Raw) (mask : ℕ) → seat_is_open before ≡ true → m.id ≡ seat_id
        → asked known.Seat (codes "bind") m ≡ Some (Long mask ∷ []) →
        made before m ≡ (if mask == 0 then None else Some mask) }
    ensures request_device { (before : List Raw) (m : Raw) (mask : ℕ) → seat_is_open before ≡ true → m.id ≡ seat_id
        → asked known.Seat (codes "request_device") m ≡ Some (Long mask ∷ []) →
        made before m ≡ (if mask == 0 then None else Some mask) }
    ensures shut { (before : List Raw) (m : Raw) → seat_is_open before ≡ false → made before m ≡ None }
    ensures other { (before : List Raw) (m : Raw) → m.id ≢ seat_id → made before m ≡ None }
    ensures release { (before : List Raw) (m : Raw) (interface : KnownInterface) →
        asks interface (codes "release") m ≡ true → made before m ≡ None }
    ensures ids { (before : List Raw) (m : Raw) (mask : ℕ) → made before m ≡ Some mask →
        ids_given before m ≡ 1 + length (interfaces_of mask) }
{}

/// Which requests are inputs.
pub fn inputs()
    ensures there { (before : List Raw) (m : Raw) (e : Entry) (d : ℕ) (interface : KnownInterface) (i : InputEvent) →
        object before m.id ≡ Some e
        → e.interface ≡ interface → e.device ≡ Some d →
        input_to interface m ≡ Some i → input before m ≡ Some (record { device = d; input = i }) }
    ensures motion_relative { (m : Raw) (x y : ℕ) →
        asked known.Pointer (codes "motion_relative") m ≡ Some (Word x ∷ Word y ∷ [])
        → input_to known.Pointer m ≡ Some (floats input_event.PointerMotion x y) }
    ensures motion_absolute { (m : Raw) (x y : ℕ) →
        asked known.PointerAbsolute (codes "motion_absolute") m ≡ Some (Word x ∷ Word y ∷ [])
        → input_to known.PointerAbsolute m ≡ Some (floats input_event.PointerMotionAbsolute x y) }
    ensures scroll { (m : Raw) (x y : ℕ) → asked known.Scroll (codes "scroll") m ≡ Some (Word x ∷ Word y ∷ [])
        → input_to known.Scroll m ≡ Some (floats input_event.ScrollDelta x y) }
    ensures scroll_discrete { (m : Raw) (x y : ℤ) →
        asked known.Scroll (codes "scroll_discrete") m ≡ Some (Signed x ∷ Signed y ∷ [])
        → input_to known.Scroll m ≡ Some (input_event.ScrollDiscrete x y) }
    ensures scroll_stop { (m : Raw) (x y is_cancel : ℕ) →
        asked known.Scroll (codes "scroll_stop") m ≡ Some (Word x ∷ Word y ∷ Word is_cancel ∷ [])
        → input_to known.Scroll m ≡ Some (scroll_end x y is_cancel) }
    ensures button { (m : Raw) (code state : ℕ) →
        asked known.Button (codes "button") m ≡ Some (Word code ∷ Word state ∷ [])
        → input_to known.Button m ≡ Some (input_event.Button code (button_of state)) }
    ensures key { (m : Raw) (key state : ℕ) → asked known.Keyboard (codes "key") m ≡ Some (Word key ∷ Word state ∷ [])
        → input_to known.Keyboard m ≡ Some (input_event.KeyboardKey key (key_of state)) }
    ensures down { (m : Raw) (touch x y : ℕ) →
        asked known.Touchscreen (codes "down") m ≡ Some (Word touch ∷ Word x ∷ Word y ∷ [])
        → input_to known.Touchscreen m ≡ Some (touching input_event.TouchDown touch x y) }
    ensures motion { (m : Raw) (touch x y : ℕ) →
        asked known.Touchscreen (codes "motion") m ≡ Some (Word touch ∷ Word x ∷ Word y ∷ [])
        → input_to known.Touchscreen m ≡ Some (touching input_event.TouchMotion touch x y) }
    ensures up { (m : Raw) (touch : ℕ) → asked known.Touchscreen (codes "up") m ≡ Some (Word touch ∷ []) →
        input_to known.Touchscreen m ≡ Some (input_event.TouchUp touch) }
    ensures cancel { (m : Raw) (touch : ℕ) → asked known.Touchscreen (codes "cancel") m ≡ Some (Word touch ∷ [])
        → input_to known.Touchscreen m ≡ Some (input_event.TouchCancel touch) }
    ensures keysym { (m : Raw) (keysym state : ℕ) →
        asked known.Text (codes "keysym") m ≡ Some (Word keysym ∷ Word state ∷ [])
        → input_to known.Text m ≡ Some (input_event.TextKeysym keysym (key_of state)) }
    ensures utf8 { (m : Raw) (letters : List ℕ) → asked known.Text (codes "utf8") m ≡ Some (Letters letters ∷ [])
        → input_to known.Text m ≡ Some (input_event.TextUtf8 letters) }
    ensures swipe { (m : Raw) (fingers x y : ℕ) → asked known.Gesture (codes "swipe") m ≡
        Some (Word fingers ∷ Word x ∷ Word y ∷ [])
        → input_to known.Gesture m ≡ Some (touching input_event.GestureSwipe fingers x y) }
    ensures pinch { (m : Raw) (scale : ℕ) → asked known.Gesture (codes "pinch") m ≡ Some (Word scale ∷ [])
        → input_to known.Gesture m ≡ Some (input_event.GesturePinch (float scale)) }
{}

/// Why a message is refused, by what its target is.
pub fn refusals()
    ensures known { (setup : Setup) (before : List Raw) (m : Raw) (e : Entry) → object before m.id ≡ Some e →
        refusal setup before m ≡ first (tests setup before m e (row_at m.opcode (table false e.interface))
        (arguments (row_at m.opcode
        (table false e.interface)) m)) }
    ensures early { (setup : Setup) (before : List Raw) (m : Raw) → connected before ≡ false → object before m.id ≡ None
        → refusal setup before m ≡ Some (Handshake (handshake.InvalidObject m.id)) }
    ensures unknown { (setup : Setup) (before : List Raw) (m : Raw) → connected before ≡ true →
        object before m.id ≡ None → refusal setup before m ≡ None }
{}
