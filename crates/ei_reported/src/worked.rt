//! Worked lists of events: what they give, which are refused, and the serial after them. Each function does nothing:
//! its clauses are what the definitions make of the lists.

ghost use Rattle.std.specs.Prelude.{◌≡◌, pos, negsuc, true, false, [], ◌∷◌, ◌++◌, Some, None, codes};
ghost use Rattle.ei_spec.specs.declared.handle.Handle.{Handle};
ghost use Rattle.ei_spec.specs.Groups.{Timed, Framed, Plain};
ghost use Rattle.ei_types.specs.declared.enums.ButtonState.TheVariants as button_state;
ghost use Rattle.ei_types.specs.declared.enums.KeyState.TheVariants as key_state;
ghost use Rattle.ei_types.specs.declared.enums.DisconnectReason.TheVariants as reason;
ghost use Rattle.ei_types.specs.declared.error.EventError.TheVariants as error;
ghost use Rattle.ei_input.specs.declared.input_event.InputEvent.TheVariants as input_event;
ghost use Rattle.ei_input.specs.Inputs.{float, floats, touching};
ghost use Rattle.ei_reported.specs.Reported.{Disconnected, SeatAdded, SeatRemoved, DeviceAdded, DeviceRemoved};
ghost use Rattle.ei_reported.specs.Reported.{DevicePaused, DeviceResumed, KeyboardModifiers, DeviceStartEmulating};
ghost use Rattle.ei_reported.specs.Reported.{DeviceStopEmulating};
ghost use Rattle.ei_reported.specs.Worked.{added_seat, device_of_button, told, refused, fails, serial_after};
ghost use Rattle.ei_reported.specs.Worked.{device, device_of, all_fail, seat_and_device};
ghost use Rattle.ei_reported.specs.WorkedLists as lists;

/// A seat, and a device of a button that is resumed.
pub fn a_device()
    ensures told { told (added_seat ++ device_of_button) ≡
        seat_and_device ++ (Plain (DeviceResumed (device 102) 6) ∷ []) }
    ensures refused { refused (added_seat ++ device_of_button) ≡ [] }
    ensures serial { serial_after (added_seat ++ device_of_button) ≡ 6 }
{}

/// Two seats with a device each: the user is given each device with its own seat.
pub fn two_seats()
    ensures told { told lists.two_seats ≡ Plain (SeatAdded 101) ∷ Plain (SeatAdded 111)
        ∷ Plain (DeviceAdded (device_of 111 112)) ∷ Plain (DeviceAdded (device 102))
        ∷ Plain (DevicePaused (device_of 111 112) 6) ∷ Timed (device_of 111 112) (floats input_event.ScrollDelta 3 4) 9
        ∷ Framed (device_of 111 112) 7 9 ∷ Plain (SeatRemoved 111) ∷ Plain (DeviceRemoved (device_of 111 112)) ∷ [] }
    ensures refused { refused lists.two_seats ≡ fails 16 error.SeatEventBeforeDone ∷ [] }
    ensures serial { serial_after lists.two_seats ≡ 12 }
{}

/// A device of a button, and the ends of interfaces that no device has: of a button, and of a text.
pub fn strangers_gone()
    ensures told { told lists.strangers_gone ≡ seat_and_device ++ (Plain (DeviceResumed (device 102) 6) ∷ []) }
    ensures refused { refused lists.strangers_gone ≡ fails 7 error.DeviceEventBeforeDone ∷ [] }
    ensures serial { serial_after lists.strangers_gone ≡ 10 }
{}

/// Events of the handshake.
pub fn handshake()
    ensures told { told lists.handshake ≡ [] }
    ensures refused { refused lists.handshake ≡ all_fail error.UnexpectedHandshakeEvent (0 ∷ 1 ∷ 2 ∷ []) }
    ensures serial { serial_after lists.handshake ≡ 5 }
{}

/// Events of the connection, and the end of a callback.
pub fn connection()
    ensures told { told lists.connection ≡ Plain (Disconnected 9 reason.Protocol None)
        ∷ Plain (Disconnected 9 reason.Transport (Some (codes "bye")))
        ∷ Plain (Disconnected 7 (reason.Other 9) None) ∷ [] }
    ensures refused { refused lists.connection ≡ [] }
    ensures serial { serial_after lists.connection ≡ 5 }
{}

/// A seat: what is refused before it comes, while it is pending, and once it is added.
pub fn seat()
    ensures told { told lists.seat ≡ Plain (SeatAdded 101) ∷ [] }
    ensures refused { refused lists.seat ≡ fails 0 error.SeatSetupEventAfterDone
        ∷ fails 1 error.SeatSetupEventAfterDone ∷ fails 5 error.UnknownCapabilityInterface
        ∷ fails 6 error.SeatEventBeforeDone ∷ fails 8 error.SeatSetupEventAfterDone
        ∷ fails 9 error.SeatSetupEventAfterDone ∷ fails 10 error.SeatSetupEventAfterDone
        ∷ fails 11 error.DeviceSetupEventAfterDone ∷ [] }
    ensures serial { serial_after lists.seat ≡ 5 }
{}

/// A pending seat goes, and its id is unknown from then on.
pub fn seat_destroyed()
    ensures told { told lists.seat_destroyed ≡ [] }
    ensures refused { refused lists.seat_destroyed ≡ fails 2 error.SeatSetupEventAfterDone
        ∷ fails 4 error.SeatEventBeforeDone ∷ [] }
    ensures serial { serial_after lists.seat_destroyed ≡ 4 }
{}

/// An added seat goes, while inputs wait on its device.
pub fn seat_removed_its_device_stays()
    ensures told { told lists.seat_removed_its_device_stays ≡ seat_and_device ++ (Plain (SeatRemoved 101)
        ∷ Timed (device 102) (floats input_event.PointerMotion 1 2) 50
        ∷ Timed (device 102) (floats input_event.PointerMotion 1 2) 50
        ∷ Framed (device 102) 9 50 ∷ []) }
    ensures refused { refused lists.seat_removed_its_device_stays ≡ fails 12 error.SeatEventBeforeDone ∷ [] }
    ensures serial { serial_after lists.seat_removed_its_device_stays ≡ 9 }
{}

/// A device that is done without a type is dropped.
pub fn device_without_type()
    ensures told { (h : Handle) → told (lists.device_without_type h) ≡ Plain (SeatAdded 101) ∷ [] }
    ensures refused { (h : Handle) → refused (lists.device_without_type h) ≡ fails 4 error.NoDeviceType
        ∷ fails 5 error.DeviceEventBeforeDone ∷ fails 6 error.DeviceSetupEventAfterDone
        ∷ fails 7 error.DeviceSetupEventAfterDone ∷ fails 8 error.DeviceEventBeforeDone
        ∷ fails 9 error.DeviceSetupEventAfterDone ∷ [] }
    ensures serial { (h : Handle) → serial_after (lists.device_without_type h) ≡ 3 }
{}

/// What is refused of a device before it is added; serials are kept all the same.
pub fn device_before_done()
    ensures told { told lists.device_before_done ≡ seat_and_device }
    ensures refused { refused lists.device_before_done ≡
        all_fail error.DeviceEventBeforeDone (5 ∷ 6 ∷ 7 ∷ 8 ∷ 9 ∷ 10 ∷ 11 ∷ []) }
    ensures serial { serial_after lists.device_before_done ≡ 7 }
{}

/// What is refused of a device once it is added.
pub fn device_after_done()
    ensures told { (h : Handle) → told (lists.device_after_done h) ≡ seat_and_device }
    ensures refused { (h : Handle) → refused (lists.device_after_done h) ≡
        all_fail error.DeviceSetupEventAfterDone (9 ∷ 10 ∷ 11 ∷ 12 ∷ 13 ∷ 14 ∷ 15 ∷ 16 ∷ []) }
    ensures serial { (h : Handle) → serial_after (lists.device_after_done h) ≡ 5 }
{}

/// A device is described by all that may describe it, and a pending one keeps its keyboard.
pub fn device_setup()
    ensures told { (h : Handle) → told (lists.device_setup h) ≡ seat_and_device }
    ensures refused { (h : Handle) → refused (lists.device_setup h) ≡ [] }
    ensures serial { (h : Handle) → serial_after (lists.device_setup h) ≡ 3 }
{}

/// A pending device goes, and its keyboard with it.
pub fn a_pending_device_goes()
    ensures told { (h : Handle) → told (lists.a_pending_device_goes h) ≡ Plain (SeatAdded 101) ∷ [] }
    ensures refused { (h : Handle) → refused (lists.a_pending_device_goes h) ≡
        all_fail error.DeviceSetupEventAfterDone (6 ∷ 7 ∷ []) }
    ensures serial { (h : Handle) → serial_after (lists.a_pending_device_goes h) ≡ 5 }
{}

/// Of interfaces of one name the last counts.
pub fn last_of_a_name()
    ensures told { told lists.last_of_a_name ≡ seat_and_device }
    ensures refused { refused lists.last_of_a_name ≡ all_fail error.DeviceEventBeforeDone (7 ∷ 9 ∷ 11 ∷ []) }
    ensures serial { serial_after lists.last_of_a_name ≡ 10 }
{}

/// Inputs are grouped by frames, and by frames that are made before other events of their device.
pub fn groups()
    ensures told { told lists.groups ≡ seat_and_device ++ (Timed (device 102) (floats input_event.PointerMotion 1 2) 11
        ∷ Timed (device 102) (input_event.KeyboardKey 30 key_state.Press) 11 ∷ Framed (device 102) 7 11
        ∷ Timed (device 102) (floats input_event.PointerMotion 1 2) 1000 ∷ Framed (device 102) 9 1000
        ∷ Plain (DeviceResumed (device 102) 9) ∷ Timed (device 102) (input_event.KeyboardKey 30 key_state.Press) 2000
        ∷ Framed (device 102) 10 2000 ∷ Plain (KeyboardModifiers (device 102) 10 1 3 2 4)
        ∷ Timed (device 102) (floats input_event.PointerMotion 1 2) 0 ∷ Framed (device 102) 22 0
        ∷ Plain (DevicePaused (device 102) 22) ∷ Plain (Disconnected 1 reason.Disconnected None)
        ∷ Plain (SeatRemoved 101) ∷ Timed (device 102) (floats input_event.PointerMotion 1 2) 0
        ∷ Framed (device 102) 40 0
        ∷ Plain (DeviceRemoved (device 102)) ∷ []) }
    ensures refused { refused lists.groups ≡ all_fail error.DeviceEventBeforeDone (19 ∷ 25 ∷ []) }
    ensures serial { serial_after lists.groups ≡ 40 }
{}

/// All inputs, and the frame of a device.
pub fn all_inputs()
    ensures told { told lists.all_inputs ≡
        seat_and_device ++ (Timed (device 102) (floats input_event.PointerMotion 1 2) 77
        ∷ Timed (device 102) (floats input_event.PointerMotionAbsolute 3 4) 77
        ∷ Timed (device 102) (floats input_event.ScrollDelta 5 6) 77
        ∷ Timed (device 102) (input_event.ScrollDiscrete (negsuc 119) (pos 120)) 77
        ∷ Timed (device 102) (input_event.ScrollStop true false) 77
        ∷ Timed (device 102) (input_event.ScrollCancel false true) 77
        ∷ Timed (device 102) (input_event.Button 272 button_state.Press) 77
        ∷ Timed (device 102) (input_event.KeyboardKey 30 key_state.Released) 77
        ∷ Timed (device 102) (touching input_event.TouchDown 1 2 3) 77
        ∷ Timed (device 102) (touching input_event.TouchMotion 1 2 4) 77 ∷ Timed (device 102) (input_event.TouchUp 1) 77
        ∷ Timed (device 102) (input_event.TouchCancel 9) 77
        ∷ Timed (device 102) (input_event.TextKeysym 97 key_state.Press) 77
        ∷ Timed (device 102) (input_event.TextUtf8 (codes "abc")) 77
        ∷ Timed (device 102) (touching input_event.GestureSwipe 3 5 6) 77
        ∷ Timed (device 102) (input_event.GesturePinch (float 7)) 77 ∷ Framed (device 102) 3 77 ∷ []) }
    ensures refused { refused lists.all_inputs ≡ [] }
    ensures serial { serial_after lists.all_inputs ≡ 3 }
{}

/// All interfaces of a device go, and go again.
pub fn all_gone()
    ensures told { told lists.all_gone ≡ seat_and_device }
    ensures refused { refused lists.all_gone ≡
        all_fail error.DeviceEventBeforeDone (21 ∷ 22 ∷ 23 ∷ 24 ∷ 26 ∷ 28 ∷ 29 ∷ []) }
    ensures serial { serial_after lists.all_gone ≡ 76 }
{}

/// Events of interfaces that no device has.
pub fn unknown()
    ensures told { told lists.unknown ≡ [] }
    ensures refused { refused lists.unknown ≡ all_fail error.DeviceEventBeforeDone (0 ∷ 1 ∷ 2 ∷ 3 ∷ 5 ∷ 7 ∷ 8 ∷ []) }
    ensures serial { serial_after lists.unknown ≡ 9 }
{}

/// Emulation starts and stops; inputs of interfaces that no device has.
pub fn emulation()
    ensures told { told lists.emulation ≡ seat_and_device ++ (Plain (DeviceStartEmulating (device 102) 7 1)
        ∷ Timed (device 102) (input_event.KeyboardKey 30 key_state.Press) 1000 ∷ Framed (device 102) 8 1000
        ∷ Plain (DeviceStopEmulating (device 102) 8) ∷ []) }
    ensures refused { refused lists.emulation ≡
        all_fail error.DeviceEventBeforeDone (12 ∷ 13 ∷ 14 ∷ 15 ∷ 16 ∷ 17 ∷ 18 ∷ 19 ∷ 20 ∷ 21 ∷ 22 ∷ []) }
    ensures serial { serial_after lists.emulation ≡ 8 }
{}

/// Events that come too late, and a second device without a type.
pub fn late_events()
    ensures told { told lists.late_events ≡
        seat_and_device ++ (Timed (device 102) (floats input_event.PointerMotion 1 2) 8
        ∷ Framed (device 102) 3 8 ∷ []) }
    ensures refused { refused lists.late_events ≡ fails 9 error.DeviceSetupEventAfterDone
        ∷ fails 12 error.DeviceSetupEventAfterDone ∷ fails 13 error.DeviceSetupEventAfterDone
        ∷ fails 15 error.NoDeviceType ∷ fails 16 error.DeviceSetupEventAfterDone
        ∷ fails 17 error.DeviceEventBeforeDone ∷ [] }
    ensures serial { serial_after lists.late_events ≡ 3 }
{}

/// Two devices of one seat, each with its own inputs.
pub fn two_devices()
    ensures told { told lists.two_devices ≡ seat_and_device ++ (Plain (DeviceAdded (device 180))
        ∷ Timed (device 180) (floats input_event.PointerMotion 9 9) 5 ∷ Framed (device 180) 3 5
        ∷ Timed (device 102) (floats input_event.PointerMotion 1 2) 1000 ∷ Framed (device 102) 4 1000
        ∷ Plain (DeviceResumed (device 102) 4) ∷ []) }
    ensures refused { refused lists.two_devices ≡ [] }
    ensures serial { serial_after lists.two_devices ≡ 4 }
{}
