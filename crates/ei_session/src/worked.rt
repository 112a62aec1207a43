//! Sessions over worked streams, as the definitions have them. Each function does nothing: its clauses are the sessions.

ghost use Rattle.std.specs.Prelude.{◌≡◌, ℕ, ◌+◌, List, [], ◌∷◌, ◌++◌, map, length, codes, pos};
ghost use Rattle.ei_spec.specs.declared.handle.Handle.{Handle};
ghost use Rattle.ei_spec.specs.Message.{header, le4, all_bytes};
ghost use Rattle.ei_session.specs.Events.{replies};
ghost use Rattle.ei_spec.specs.Groups.{Timed, Framed, Plain};
ghost use Rattle.ei_spec.specs.Reading.{EndOfMessage, Utf8, InvalidId, InvalidOpcode, InvalidVariant, HeaderLength, MessageLength, InvalidNull};
ghost use Rattle.ei_types.specs.declared.error.HandshakeError.TheVariants as handshake;
ghost use Rattle.ei_types.specs.declared.error.RequestError.TheVariants as request;
ghost use Rattle.ei_types.specs.declared.enums.ButtonState.TheVariants as button_state;
ghost use Rattle.ei_types.specs.declared.enums.KeyState.TheVariants as key_state;
ghost use Rattle.ei_session.specs.Setup.{Setup, connection_id, seat_id};
ghost use Rattle.ei_input.specs.declared.input_event.InputEvent.TheVariants as input_event;
ghost use Rattle.ei_input.specs.Inputs.{float, floats, touching};
ghost use Rattle.ei_session.specs.Refusals.{Handshake, Request, Parse, InvalidInterfaceVersion};
ghost use Rattle.ei_session.specs.Requests.{Bind, DeviceClosed, DeviceStartEmulating, DeviceStopEmulating, Ready, Disconnect as Disconnects};
ghost use Rattle.ei_session.specs.Served.{session, Disconnect, End, UnexpectedEof, PieceLimit, HandleLimit, Refused};
ghost use Rattle.ei_session.specs.Worked.{buttons, with_capabilities, parts, piece, single_bytes, laden_bytes, answer, requests, reply_bytes, shaken, greeted};
ghost use Rattle.ei_session.specs.Worked.{connected_with, disconnect, sync, called, bind, device_id, interface_id, device_of_button, resumed, press, frame};
ghost use Rattle.ei_session.specs.Worked.{ready, release, destroyed, invalid_object, touch_down, touch_motion, touch_up, touch_cancel, sixteen_down};
ghost use Rattle.ei_session.specs.Worked.{touchscreen_announced, three_announced, finish, longest_text, too_long_text, empty_text};
ghost use Rattle.ei_session.specs.WorkedWhole.{all_setup, all_shaken, all_asked, all_connected, all_replied};
ghost use Rattle.ei_session.specs.WorkedWhole.{gesture_setup, gestures_shaken, gestures_connected, gestures_asked};

/// A handshake and a disconnect, whole and byte by byte.
pub fn handshakes()
    ensures nothing { answer buttons [] ≡ UnexpectedEof }
    ensures greeted { reply_bytes buttons [] ≡ greeted }
    ensures ends { answer buttons (shaken ∷ disconnect ∷ []) ≡ Disconnect }
    ensures replies { reply_bytes buttons (shaken ∷ disconnect ∷ []) ≡ connected_with 5 }
    ensures requests { requests buttons [] (shaken ∷ disconnect ∷ []) ≡ Plain Disconnects ∷ [] }
    ensures bytes { (session buttons (single_bytes (parts (shaken ∷ disconnect ∷ [])))).answer ≡ Disconnect }
    ensures limited { (session (record { serial = 5; capabilities = 32; pieces = 143 })
        (single_bytes (parts (shaken ∷ disconnect ∷ [])))).answer ≡ PieceLimit }
    ensures handles { (h : Handle) → (session buttons (laden_bytes h (parts (shaken ∷ disconnect ∷ [])))).answer ≡
        HandleLimit }
    ensures handled { (h : Handle) → all_bytes
        (replies buttons (session buttons (laden_bytes h (parts (shaken ∷ disconnect ∷ [])))).handled) ≡ greeted }
    ensures no_piece { (session (record { serial = 5; capabilities = 32; pieces = 0 }) (piece shaken ∷ [])).answer ≡
        PieceLimit }
    ensures none_came { (session (record { serial = 5; capabilities = 32; pieces = 0 }) []).answer ≡ UnexpectedEof }
    ensures what_follows { answer buttons (shaken ∷ parts (disconnect ∷ (255 ∷ 255 ∷ []) ∷ []) ∷ []) ≡ Disconnect }
    ensures waits { answer buttons (shaken ∷ (0 ∷ 0 ∷ 0 ∷ 0 ∷ 0 ∷ 0 ∷ 0 ∷ 0 ∷ 0 ∷ 0 ∷ 0 ∷ 0 ∷ 0 ∷ 0 ∷ 0 ∷ []) ∷ []) ≡
        End }
    ensures wraps { reply_bytes (record { serial = 4294967295; capabilities = 32; pieces = 200 })
        (shaken ∷ bind 32 ∷ [])
        ≡ parts (connected_with 4294967295 ∷ device_of_button ∷ resumed 0 ∷ []) }
{}

/// What a fresh server says of messages of the handshake.
pub fn first_messages()
    ensures short { answer buttons (parts (header 0 15 1 ∷ []) ∷ []) ≡ Refused (Parse (HeaderLength 15)) }
    ensures long { answer buttons (parts (header 0 1048577 1 ∷ []) ∷ []) ≡ Refused (Parse (HeaderLength 1048577)) }
    ensures left_over { answer buttons (parts (header 0 20 1 ∷ le4 0 ∷ []) ∷ []) ≡
        Refused (Parse (MessageLength 24 20)) }
    ensures variant { answer buttons (parts (header 0 20 2 ∷ le4 3 ∷ []) ∷ []) ≡
        Refused (Parse (InvalidVariant (codes "ContextType") 3)) }
    ensures opcode { answer buttons (header 0 16 5 ∷ []) ≡ Refused (Parse (InvalidOpcode (codes "handshake") 5)) }
    ensures null { answer buttons (parts (header 0 20 3 ∷ le4 0 ∷ []) ∷ []) ≡ Refused (Parse InvalidNull) }
    ensures named { answer buttons (parts (header 0 24 3 ∷ le4 3 ∷ (97 ∷ 98 ∷ 7 ∷ 0 ∷ []) ∷ []) ∷ []) ≡ UnexpectedEof }
    ensures utf8 { answer buttons (parts (header 0 24 3 ∷ le4 3 ∷ (97 ∷ 255 ∷ 0 ∷ 0 ∷ []) ∷ []) ∷ []) ≡
        Refused (Parse (Utf8 1)) }
    ensures ends { answer buttons (parts (header 0 20 3 ∷ le4 5 ∷ []) ∷ []) ≡ Refused (Parse EndOfMessage) }
    ensures twice { answer buttons (parts (header 0 24 3 ∷ le4 3 ∷ (97 ∷ 98 ∷ 7 ∷ 0 ∷ []) ∷ []) ∷ parts
        (header 0 24 3 ∷ le4 3 ∷
        (97 ∷ 98 ∷ 7 ∷ 0 ∷ []) ∷ []) ∷ []) ≡ Refused (Handshake handshake.DuplicateEvent) }
    ensures missing { answer buttons (finish ∷ []) ≡ Refused (Handshake handshake.MissingInterface) }
    ensures stranger { answer buttons (header 9 16 0 ∷ []) ≡ Refused (Handshake (handshake.InvalidObject 9)) }
{}

/// A device of a button: its events, its inputs and its end.
pub fn devices()
    ensures bound { answer buttons (shaken ∷ bind 32 ∷ []) ≡ End }
    ensures events { reply_bytes buttons (shaken ∷ bind 32 ∷ disconnect ∷ []) ≡
        parts (connected_with 5 ∷ device_of_button ∷ resumed 6 ∷ []) }
    ensures requests { requests buttons [] (shaken ∷ bind 32 ∷ disconnect ∷ []) ≡
        Plain (Bind seat_id 32) ∷ Plain Disconnects ∷ [] }
    ensures framed { requests buttons [] (shaken ∷ bind 32 ∷ press ∷ frame 6 9 ∷ frame 6 10 ∷ disconnect ∷ []) ≡
        Plain (Bind seat_id 32) ∷ Timed device_id (input_event.Button 272 button_state.Press) 9
        ∷ Framed device_id 6 9 ∷ Plain Disconnects ∷ [] }
    ensures ready { requests buttons (77 ∷ []) (shaken ∷ bind 32 ∷ press ∷ ready ∷ disconnect ∷ []) ≡
        Plain (Bind seat_id 32) ∷ Timed device_id (input_event.Button 272 button_state.Press) 77
        ∷ Framed device_id 6 77 ∷ Plain
        (Ready device_id) ∷ Plain Disconnects ∷ [] }
    ensures unframed { requests buttons [] (shaken ∷ bind 32 ∷ press ∷ disconnect ∷ []) ≡
        Plain (Bind seat_id 32) ∷ Plain Disconnects ∷ [] }
    ensures closed { requests buttons (77 ∷ [])
        (shaken ∷ bind 32 ∷ press ∷ release interface_id ∷ release device_id ∷ disconnect ∷ []) ≡
        Plain (Bind seat_id 32) ∷ Timed device_id (input_event.Button 272 button_state.Press) 77
        ∷ Framed device_id 7 77 ∷ Plain
        (DeviceClosed device_id) ∷ Plain Disconnects ∷ [] }
    ensures destroyed { reply_bytes buttons
        (shaken ∷ bind 32 ∷ press ∷ release interface_id ∷ release device_id ∷ disconnect ∷ []) ≡
        parts (connected_with 5 ∷ device_of_button ∷ resumed 6 ∷ destroyed interface_id 7 ∷ destroyed device_id 8 ∷
        []) }
    ensures no_mask { requests buttons [] (shaken ∷ bind 0 ∷ []) ≡ Plain (Bind seat_id 0) ∷ [] }
    ensures no_device { reply_bytes buttons (shaken ∷ bind 0 ∷ []) ≡ connected_with 5 }
    ensures past_all { answer buttons (shaken ∷ bind 128 ∷ []) ≡ Refused (Request request.InvalidCapabilities) }
    ensures not_given { answer buttons (shaken ∷ bind 1 ∷ []) ≡ Refused (Request request.InvalidCapabilities) }
{}

/// Messages to objects that aren't there.
pub fn strangers()
    ensures other { reply_bytes buttons (shaken ∷ header 9 16 0 ∷ []) ≡
        parts (connected_with 5 ∷ invalid_object 5 9 ∷ []) }
    ensures handshake { reply_bytes buttons (shaken ∷ header 0 16 0 ∷ []) ≡
        parts (connected_with 5 ∷ invalid_object 5 0 ∷ []) }
    ensures early { reply_bytes buttons (shaken ∷ release device_id ∷ bind 32 ∷ [])
        ≡ parts (connected_with 5 ∷ invalid_object 5 device_id ∷ device_of_button ∷ resumed 6 ∷ []) }
    ensures live { requests buttons [] (shaken ∷ release device_id ∷ bind 32 ∷ ready ∷ []) ≡
        Plain (Bind seat_id 32) ∷ Plain (Ready device_id) ∷ [] }
{}

/// Callbacks: their ids rise, and their version is 1.
pub fn callbacks()
    ensures called { reply_bytes buttons (shaken ∷ sync 1 1 ∷ sync 7 1 ∷ sync 7 1 ∷ []) ≡
        parts (connected_with 5 ∷ called 1 ∷ called 7 ∷ []) }
    ensures again { answer buttons (shaken ∷ sync 1 1 ∷ sync 7 1 ∷ sync 7 1 ∷ []) ≡ Refused (Parse (InvalidId 7)) }
    ensures last { answer buttons (shaken ∷ sync 0xfeffffffffffffff 1 ∷ []) ≡ End }
    ensures after_last { answer buttons (shaken ∷ sync 0xfeffffffffffffff 1 ∷ sync 1 1 ∷ []) ≡
        Refused (Parse (InvalidId 1)) }
    ensures own { answer buttons (shaken ∷ sync connection_id 1 ∷ []) ≡ Refused (Parse (InvalidId connection_id)) }
    ensures zero { answer buttons (shaken ∷ sync 0 1 ∷ []) ≡ Refused (Parse (InvalidId 0)) }
    ensures version { answer buttons (shaken ∷ sync 1 2 ∷ []) ≡
        Refused (InvalidInterfaceVersion (codes "ei_callback") 2) }
{}

/// Touches: at most sixteen are down, each once.
pub fn touches()
    ensures sixteen { answer (with_capabilities 8) (touchscreen_announced ∷ shaken ∷ bind 8 ∷ sixteen_down ∷ []) ≡ End }
    ensures too_many { answer (with_capabilities 8)
        (touchscreen_announced ∷ shaken ∷ bind 8 ∷ sixteen_down ∷ touch_down 0 ∷ [])
        ≡ Refused (Request request.TooManyTouches) }
    ensures again { answer (with_capabilities 8)
        (touchscreen_announced ∷ shaken ∷ bind 8 ∷ sixteen_down ∷ touch_up 3 ∷ touch_down 3 ∷ []) ≡ End }
    ensures again_too_many { answer (with_capabilities 8)
        (touchscreen_announced ∷ shaken ∷ bind 8 ∷ sixteen_down ∷ touch_up 3 ∷ touch_down 3 ∷ touch_down 4 ∷ []) ≡
        Refused (Request request.TooManyTouches) }
    ensures duplicated { answer (with_capabilities 8)
        (touchscreen_announced ∷ shaken ∷ bind 8 ∷ touch_down 4 ∷ touch_down 4 ∷ [])
        ≡ Refused (Request request.DuplicatedTouchDown) }
    ensures cancelled { answer (with_capabilities 8)
        (touchscreen_announced ∷ shaken ∷ bind 8 ∷ touch_down 4 ∷ touch_cancel 4 ∷ []) ≡ End }
    ensures old { answer (with_capabilities 8) (shaken ∷ bind 8 ∷ touch_down 4 ∷ touch_cancel 4 ∷ [])
        ≡ Refused (InvalidInterfaceVersion (codes "ei_touchscreen") 1) }
    ensures unheard { requests (with_capabilities 8) []
        (touchscreen_announced ∷ shaken ∷ bind 8 ∷ touch_down 4 ∷ touch_motion 5 ∷ touch_up 4 ∷ touch_up 4 ∷
        touch_cancel 4 ∷ frame 6 9 ∷ []) ≡
        Plain (Bind seat_id 8) ∷ Timed device_id (touching input_event.TouchDown 4 0 0) 9
        ∷ Timed device_id (input_event.TouchUp 4) 9 ∷ Framed device_id 6 9 ∷ [] }
{}

/// Texts of 1 to 254 bytes.
pub fn texts()
    ensures longest { answer (with_capabilities 64) (shaken ∷ bind 64 ∷ longest_text ∷ []) ≡ End }
    ensures too_long { answer (with_capabilities 64) (shaken ∷ bind 64 ∷ too_long_text ∷ []) ≡
        Refused (Request request.InvalidTextLength) }
    ensures empty { answer (with_capabilities 64) (shaken ∷ bind 64 ∷ empty_text ∷ []) ≡
        Refused (Request request.InvalidTextLength) }
{}

/// A whole session of a client that has the interfaces of the protocol.
pub fn whole_session()
    ensures answer { answer all_setup (all_shaken ++ all_asked) ≡ Disconnect }
    ensures bytes_in { length (parts all_shaken) ≡ 524 }
    ensures bytes_out { length all_replied ≡ 1408 }
    ensures longest_reply { length all_connected ≡ 20 + 804 }
    ensures replies { reply_bytes all_setup (all_shaken ++ all_asked) ≡ all_replied }
    ensures requests { requests all_setup [] (all_shaken ++ all_asked) ≡
        Plain (Bind seat_id 127)
        ∷ Plain (DeviceStartEmulating device_id 2 1)
        ∷ Timed device_id (input_event.KeyboardKey 30 key_state.Press) 1000
        ∷ Framed device_id 2 1000
        ∷ Timed device_id (floats input_event.PointerMotion 0x3f800000 0xbf800000) 2000
        ∷ Timed device_id (input_event.ScrollDiscrete (pos 0) (pos 120)) 2000
        ∷ Framed device_id 2 2000
        ∷ Plain (DeviceStopEmulating device_id 2)
        ∷ Plain (DeviceClosed device_id)
        ∷ Plain Disconnects
        ∷ [] }
{}

/// A client that has all interfaces, under all capabilities: no reply is longer than the one to its finish.
pub fn gestures()
    ensures answer { answer gesture_setup (gestures_shaken ++ gestures_asked) ≡ End }
    ensures longest_reply { length gestures_connected ≡ 20 + 888 }
    ensures replies { reply_bytes gesture_setup gestures_shaken ≡ gestures_connected }
    ensures requests { requests gesture_setup [] (gestures_shaken ++ gestures_asked) ≡
        Plain (Bind seat_id 128)
        ∷ Timed device_id (touching input_event.GestureSwipe 3 0x3f800000 0) 9
        ∷ Timed device_id (input_event.GesturePinch (float 0x40000000)) 9
        ∷ Framed device_id 6 9
        ∷ [] }
{}
