//! The rows of the client's converter: what each event of the table says, why it is refused, what it gives, and the
//! serial after it. Each function does nothing: its clauses are the rows.

ghost use Rattle.std.specs.Prelude.{◌≡◌, ℕ, ℤ, List, [], ◌∷◌, ◌==◌, ◌&&◌, ◌||◌, not, Option, Some, None, false};
ghost use Rattle.std.specs.Prelude.{is_some, codes, if◌then◌else◌};
ghost use Rattle.ei_spec.specs.declared.interface.KnownInterface.{KnownInterface};
ghost use Rattle.ei_spec.specs.declared.interface.KnownInterface.TheVariants as known;
ghost use Rattle.ei_spec.specs.declared.handle.Handle.{Handle};
ghost use Rattle.ei_spec.specs.Value.{Value, Word, Long, Signed, Letters, Null, Fd};
ghost use Rattle.ei_spec.specs.Groups.{Other, Free};
ghost use Rattle.ei_types.specs.declared.enums.DisconnectReason.{DisconnectReason};
ghost use Rattle.ei_types.specs.declared.enums.ButtonState.{ButtonState};
ghost use Rattle.ei_types.specs.declared.enums.KeyState.{KeyState};
ghost use Rattle.ei_types.specs.Enums.{IsReason, disconnect_reason_number, button_state_number, key_state_number};
ghost use Rattle.ei_types.specs.declared.error.EventError.TheVariants as error;
ghost use Rattle.ei_types.specs.Capability.{capability_named};
ghost use Rattle.ei_input.specs.declared.input_event.InputEvent.TheVariants as input_event;
ghost use Rattle.ei_input.specs.declared.input_event.InputEvent.{InputEvent};
ghost use Rattle.ei_input.specs.Inputs.{float, floats, touching};
ghost use Rattle.ei_reported.specs.Event.{event};
ghost use Rattle.ei_reported.specs.Said.{Told, Resumed, Paused, StartEmulating, StopEmulating, Frame};
ghost use Rattle.ei_reported.specs.Said.{Said, Shakes, Aside, Disconnects, SeatComes, SeatHasName, SeatHas, SeatDone};
ghost use Rattle.ei_reported.specs.Said.{SeatGoes, DeviceComes, DeviceHas, DeviceHasType, DeviceGets, DeviceDone};
ghost use Rattle.ei_reported.specs.Said.{DeviceTells, DeviceGoes, Maps, Inputs, Modifies, Goes, said};
ghost use Rattle.ei_reported.specs.Standing.{seat_pending, seat_added, device_pending, device_typed, device_added};
ghost use Rattle.ei_reported.specs.Standing.{holder, is_in_setup};
ghost use Rattle.ei_reported.specs.Reported.{device_of, SeatAdded, SeatRemoved, DeviceAdded, DeviceRemoved};
ghost use Rattle.ei_reported.specs.Reported.{Disconnected, goes_freely, refusal, telling, waiting, modifying};
ghost use Rattle.ei_reported.specs.Reported.{item, serial};
ghost use Rattle.ei_reported.specs.Changes.{has_serial, may_give};

/// What the events of the handshake, the connection and a callback say.
pub fn connection_events()
    ensures handshake { (opcode id : ℕ) (values : List Value) →
        said (record { target = id; interface = known.Handshake; opcode = opcode; values = values }) ≡ Shakes }
    ensures callback { (opcode id : ℕ) (values : List Value) →
        said (record { target = id; interface = known.Callback; opcode = opcode; values = values }) ≡ Aside }
    ensures seat { (id seat version : ℕ) →
        said (event known.Connection (codes "seat") id (Long seat ∷ Word version ∷ [])) ≡ SeatComes seat }
    ensures ping { (id ping version : ℕ) →
        said (event known.Connection (codes "ping") id (Long ping ∷ Word version ∷ [])) ≡ Aside }
    ensures invalid_object { (id serial invalid : ℕ) →
        said (event known.Connection (codes "invalid_object") id (Word serial ∷ Long invalid ∷ [])) ≡ Aside }
    ensures disconnected { (id last_serial : ℕ) (why : DisconnectReason) (t : List ℕ) → IsReason why →
        said (event known.Connection (codes "disconnected") id
        (Word last_serial ∷ Word (disconnect_reason_number why) ∷ Letters t ∷ [])) ≡
        Disconnects last_serial why (Some t) }
    ensures without_text { (id last_serial : ℕ) (why : DisconnectReason) → IsReason why →
        said (event known.Connection (codes "disconnected") id
        (Word last_serial ∷ Word (disconnect_reason_number why) ∷ Null ∷ [])) ≡
        Disconnects last_serial why None }
{}

/// What the events of a seat say.
pub fn seat_events()
    ensures destroyed { (id serial : ℕ) →
        said (event known.Seat (codes "destroyed") id (Word serial ∷ [])) ≡ SeatGoes id serial }
    ensures name { (id : ℕ) (t : List ℕ) → said (event known.Seat (codes "name") id (Letters t ∷ [])) ≡ SeatHasName id }
    ensures capability { (id mask : ℕ) (t : List ℕ) →
        said (event known.Seat (codes "capability") id (Long mask ∷ Letters t ∷ [])) ≡ SeatHas id t }
    ensures done { (id : ℕ) → said (event known.Seat (codes "done") id []) ≡ SeatDone id }
    ensures device { (id device version : ℕ) →
        said (event known.Seat (codes "device") id (Long device ∷ Word version ∷ [])) ≡ DeviceComes id device }
{}

/// What the events of a device say.
pub fn device_events()
    ensures destroyed { (id serial : ℕ) →
        said (event known.Device (codes "destroyed") id (Word serial ∷ [])) ≡ DeviceGoes id serial }
    ensures name { (id : ℕ) (t : List ℕ) → said (event known.Device (codes "name") id (Letters t ∷ [])) ≡ DeviceHas id }
    ensures device_type { (id n : ℕ) →
        said (event known.Device (codes "device_type") id (Word n ∷ [])) ≡ DeviceHasType id }
    ensures dimensions { (id width height : ℕ) →
        said (event known.Device (codes "dimensions") id (Word width ∷ Word height ∷ [])) ≡ DeviceHas id }
    ensures region { (id x y width height scale : ℕ) →
        said (event known.Device (codes "region") id
        (Word x ∷ Word y ∷ Word width ∷ Word height ∷ Word scale ∷ [])) ≡ DeviceHas id }
    ensures interface { (id object version : ℕ) (t : List ℕ) →
        said (event known.Device (codes "interface") id (Long object ∷ Letters t ∷ Word version ∷ [])) ≡
        DeviceGets id object t version }
    ensures done { (id : ℕ) → said (event known.Device (codes "done") id []) ≡ DeviceDone id }
    ensures resumed { (id serial : ℕ) →
        said (event known.Device (codes "resumed") id (Word serial ∷ [])) ≡ DeviceTells id serial Resumed }
    ensures paused { (id serial : ℕ) →
        said (event known.Device (codes "paused") id (Word serial ∷ [])) ≡ DeviceTells id serial Paused }
    ensures start_emulating { (id serial sequence : ℕ) →
        said (event known.Device (codes "start_emulating") id (Word serial ∷ Word sequence ∷ [])) ≡
        DeviceTells id serial (StartEmulating sequence) }
    ensures stop_emulating { (id serial : ℕ) →
        said (event known.Device (codes "stop_emulating") id (Word serial ∷ [])) ≡ DeviceTells id serial StopEmulating }
    ensures frame { (id serial time : ℕ) →
        said (event known.Device (codes "frame") id (Word serial ∷ Long time ∷ [])) ≡
        DeviceTells id serial (Frame time) }
    ensures region_mapping_id { (id : ℕ) (t : List ℕ) →
        said (event known.Device (codes "region_mapping_id") id (Letters t ∷ [])) ≡ DeviceHas id }
{}

/// What the other events of a device's interfaces say.
pub fn interface_events()
    ensures pointer { (id serial : ℕ) →
        said (event known.Pointer (codes "destroyed") id (Word serial ∷ [])) ≡ Goes known.Pointer id serial }
    ensures pointer_absolute { (id serial : ℕ) →
        said (event known.PointerAbsolute (codes "destroyed") id (Word serial ∷ [])) ≡
        Goes known.PointerAbsolute id serial }
    ensures scroll { (id serial : ℕ) →
        said (event known.Scroll (codes "destroyed") id (Word serial ∷ [])) ≡ Goes known.Scroll id serial }
    ensures button { (id serial : ℕ) →
        said (event known.Button (codes "destroyed") id (Word serial ∷ [])) ≡ Goes known.Button id serial }
    ensures keyboard { (id serial : ℕ) →
        said (event known.Keyboard (codes "destroyed") id (Word serial ∷ [])) ≡ Goes known.Keyboard id serial }
    ensures touchscreen { (id serial : ℕ) →
        said (event known.Touchscreen (codes "destroyed") id (Word serial ∷ [])) ≡ Goes known.Touchscreen id serial }
    ensures text { (id serial : ℕ) →
        said (event known.Text (codes "destroyed") id (Word serial ∷ [])) ≡ Goes known.Text id serial }
    ensures gesture { (id serial : ℕ) →
        said (event known.Gesture (codes "destroyed") id (Word serial ∷ [])) ≡ Goes known.Gesture id serial }
    ensures keymap { (id type size : ℕ) (h : Handle) →
        said (event known.Keyboard (codes "keymap") id (Word type ∷ Word size ∷ Fd h ∷ [])) ≡ Maps id }
    ensures modifiers { (id serial depressed locked latched layout : ℕ) →
        said (event known.Keyboard (codes "modifiers") id
        (Word serial ∷ Word depressed ∷ Word locked ∷ Word latched ∷ Word layout ∷ [])) ≡
        Modifies id serial depressed locked latched layout }
{}

/// The inputs.
pub fn input_events()
    ensures motion_relative { (id x y : ℕ) →
        said (event known.Pointer (codes "motion_relative") id (Word x ∷ Word y ∷ [])) ≡
        Inputs id (floats input_event.PointerMotion x y) }
    ensures motion_absolute { (id x y : ℕ) →
        said (event known.PointerAbsolute (codes "motion_absolute") id (Word x ∷ Word y ∷ [])) ≡
        Inputs id (floats input_event.PointerMotionAbsolute x y) }
    ensures scroll { (id x y : ℕ) →
        said (event known.Scroll (codes "scroll") id (Word x ∷ Word y ∷ [])) ≡
        Inputs id (floats input_event.ScrollDelta x y) }
    ensures scroll_discrete { (id : ℕ) (x y : ℤ) →
        said (event known.Scroll (codes "scroll_discrete") id (Signed x ∷ Signed y ∷ [])) ≡
        Inputs id (input_event.ScrollDiscrete x y) }
    ensures scroll_stop { (id x y : ℕ) →
        said (event known.Scroll (codes "scroll_stop") id (Word x ∷ Word y ∷ Word 0 ∷ [])) ≡
        Inputs id (input_event.ScrollStop (not (x == 0)) (not (y == 0))) }
    ensures scroll_cancel { (id x y n : ℕ) → n == 0 ≡ false →
        said (event known.Scroll (codes "scroll_stop") id (Word x ∷ Word y ∷ Word n ∷ [])) ≡
        Inputs id (input_event.ScrollCancel (not (x == 0)) (not (y == 0))) }
    ensures button { (id code : ℕ) (state : ButtonState) →
        said (event known.Button (codes "button") id (Word code ∷ Word (button_state_number state) ∷ [])) ≡
        Inputs id (input_event.Button code state) }
    ensures key { (id key : ℕ) (state : KeyState) →
        said (event known.Keyboard (codes "key") id (Word key ∷ Word (key_state_number state) ∷ [])) ≡
        Inputs id (input_event.KeyboardKey key state) }
    ensures down { (id touch x y : ℕ) →
        said (event known.Touchscreen (codes "down") id (Word touch ∷ Word x ∷ Word y ∷ [])) ≡
        Inputs id (touching input_event.TouchDown touch x y) }
    ensures motion { (id touch x y : ℕ) →
        said (event known.Touchscreen (codes "motion") id (Word touch ∷ Word x ∷ Word y ∷ [])) ≡
        Inputs id (touching input_event.TouchMotion touch x y) }
    ensures up { (id touch : ℕ) →
        said (event known.Touchscreen (codes "up") id (Word touch ∷ [])) ≡ Inputs id (input_event.TouchUp touch) }
    ensures cancel { (id touch : ℕ) →
        said (event known.Touchscreen (codes "cancel") id (Word touch ∷ [])) ≡
        Inputs id (input_event.TouchCancel touch) }
    ensures keysym { (id keysym : ℕ) (state : KeyState) →
        said (event known.Text (codes "keysym") id (Word keysym ∷ Word (key_state_number state) ∷ [])) ≡
        Inputs id (input_event.TextKeysym keysym state) }
    ensures utf8 { (id : ℕ) (t : List ℕ) →
        said (event known.Text (codes "utf8") id (Letters t ∷ [])) ≡ Inputs id (input_event.TextUtf8 t) }
    ensures swipe { (id fingers x y : ℕ) →
        said (event known.Gesture (codes "swipe") id (Word fingers ∷ Word x ∷ Word y ∷ [])) ≡
        Inputs id (touching input_event.GestureSwipe fingers x y) }
    ensures pinch { (id scale : ℕ) →
        said (event known.Gesture (codes "pinch") id (Word scale ∷ [])) ≡
        Inputs id (input_event.GesturePinch (float scale)) }
{}

/// Why what is said is refused, by its kind; the tests come in this order.
pub fn refusals()
    // of the handshake, the connection and a seat
    ensures shakes { (before : List Said) → refusal before Shakes ≡ Some error.UnexpectedHandshakeEvent }
    ensures aside { (before : List Said) → refusal before Aside ≡ None }
    ensures disconnects { (before : List Said) (last_serial : ℕ) (why : DisconnectReason) (text : Option (List ℕ)) →
        refusal before (Disconnects last_serial why text) ≡ None }
    ensures seat_comes { (before : List Said) (seat : ℕ) → refusal before (SeatComes seat) ≡ None }
    ensures seat_name { (before : List Said) (seat : ℕ) → refusal before (SeatHasName seat) ≡
        (if seat_pending before seat then None else Some error.SeatSetupEventAfterDone) }
    ensures capability { (before : List Said) (seat : ℕ) (name : List ℕ) → refusal before (SeatHas seat name) ≡
        (if not (seat_pending before seat) then Some error.SeatSetupEventAfterDone else
        (if is_some (capability_named name) then None else Some error.UnknownCapabilityInterface)) }
    ensures seat_done { (before : List Said) (seat : ℕ) → refusal before (SeatDone seat) ≡
        (if seat_pending before seat then None else Some error.SeatSetupEventAfterDone) }
    ensures seat_goes { (before : List Said) (seat serial : ℕ) → refusal before (SeatGoes seat serial) ≡ None }
    // of a device
    ensures device_comes { (before : List Said) (seat device : ℕ) → refusal before (DeviceComes seat device) ≡
        (if seat_added before seat then None else Some error.SeatEventBeforeDone) }
    ensures device_has { (before : List Said) (device : ℕ) → refusal before (DeviceHas device) ≡
        (if device_pending before device then None else Some error.DeviceSetupEventAfterDone) }
    ensures device_type { (before : List Said) (device : ℕ) → refusal before (DeviceHasType device) ≡
        (if device_pending before device then None else Some error.DeviceSetupEventAfterDone) }
    ensures device_gets { (before : List Said) (device id version : ℕ) (name : List ℕ) →
        refusal before (DeviceGets device id name version) ≡
        (if device_pending before device then None else Some error.DeviceSetupEventAfterDone) }
    ensures device_done { (before : List Said) (device : ℕ) → refusal before (DeviceDone device) ≡
        (if not (device_pending before device) then Some error.DeviceSetupEventAfterDone else
        (if device_typed before device then None else Some error.NoDeviceType)) }
    ensures device_tells { (before : List Said) (device serial : ℕ) (told : Told) →
        refusal before (DeviceTells device serial told) ≡
        (if device_added before device then None else Some error.DeviceEventBeforeDone) }
    ensures device_goes { (before : List Said) (device serial : ℕ) → refusal before (DeviceGoes device serial) ≡ None }
    // of an interface
    ensures keymap { (before : List Said) (id : ℕ) → refusal before (Maps id) ≡
        (if is_in_setup before id then None else Some error.DeviceSetupEventAfterDone) }
    ensures input { (before : List Said) (id : ℕ) (input : InputEvent) → refusal before (Inputs id input) ≡
        (if is_some (holder before id) then None else Some error.DeviceEventBeforeDone) }
    ensures modifiers { (before : List Said) (id serial depressed locked latched layout : ℕ) →
        refusal before (Modifies id serial depressed locked latched layout) ≡
        (if is_some (holder before id) then None else Some error.DeviceEventBeforeDone) }
    ensures goes { (before : List Said) (interface : KnownInterface) (id serial : ℕ) →
        refusal before (Goes interface id serial) ≡
        (if goes_freely interface || is_some (holder before id) then None else Some error.DeviceEventBeforeDone) }
{}

/// What each kind gives, before inputs are grouped.
pub fn items()
    ensures disconnects { (before : List Said) (last_serial : ℕ) (why : DisconnectReason) (text : Option (List ℕ)) →
        item before (Disconnects last_serial why text) ≡ Some (Free (Disconnected last_serial why text)) }
    ensures seat_done { (before : List Said) (seat : ℕ) → item before (SeatDone seat) ≡
        (if seat_pending before seat then Some (Free (SeatAdded seat)) else None) }
    ensures seat_goes { (before : List Said) (seat serial : ℕ) → item before (SeatGoes seat serial) ≡
        (if seat_added before seat then Some (Free (SeatRemoved seat)) else None) }
    ensures device_done { (before : List Said) (device : ℕ) → item before (DeviceDone device) ≡
        (if device_pending before device && device_typed before device
        then Some (Other device (DeviceAdded (device_of before device))) else None) }
    ensures device_tells { (before : List Said) (device serial : ℕ) (told : Told) →
        item before (DeviceTells device serial told) ≡
        (if device_added before device then Some (telling (device_of before device) serial told) else None) }
    ensures device_goes { (before : List Said) (device serial : ℕ) → item before (DeviceGoes device serial) ≡
        (if device_added before device
        then Some (Other device (DeviceRemoved (device_of before device))) else None) }
    ensures input { (before : List Said) (id : ℕ) (input : InputEvent) →
        item before (Inputs id input) ≡ waiting input (holder before id) }
    ensures modifiers { (before : List Said) (id serial depressed locked latched layout : ℕ) →
        item before (Modifies id serial depressed locked latched layout) ≡
        modifying before serial depressed locked latched layout (holder before id) }
    ensures other { (before : List Said) (m : Said) → may_give m ≡ false → item before m ≡ None }
{}

/// The serial after each kind.
pub fn serials()
    ensures seat_goes { (start : ℕ) (before : List Said) (seat s : ℕ) → serial start (SeatGoes seat s ∷ before) ≡ s }
    ensures device_tells { (start : ℕ) (before : List Said) (device s : ℕ) (told : Told) →
        serial start (DeviceTells device s told ∷ before) ≡ s }
    ensures device_goes { (start : ℕ) (before : List Said) (device s : ℕ) →
        serial start (DeviceGoes device s ∷ before) ≡ s }
    ensures modifiers { (start : ℕ) (before : List Said) (id s depressed locked latched layout : ℕ) →
        serial start (Modifies id s depressed locked latched layout ∷ before) ≡ s }
    ensures goes { (start : ℕ) (before : List Said) (interface : KnownInterface) (id s : ℕ) →
        serial start (Goes interface id s ∷ before) ≡
        (if goes_freely interface || is_some (holder before id) then s else serial start before) }
    ensures other { (start : ℕ) (before : List Said) (m : Said) → has_serial m ≡ false →
        serial start (m ∷ before) ≡ serial start before }
    ensures first { (start : ℕ) → serial start [] ≡ start }
{}
