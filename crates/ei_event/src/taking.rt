//! What is done with an event, by the object that it is sent to.

ghost use Rattle.std.specs.Prelude.{◌≡◌, ℕ, true, IfSome, OnErr};
ghost use Rattle.ei_backend.specs.Lent.{LentClock};
ghost use Rattle.ei_input.specs.Inputs.{scroll_end};
ghost use Rattle.ei_reported.specs.Said.{Inputs};
ghost use Rattle.ei_following.specs.Core.{refused};
ghost use Rattle.ei_event.specs.Core.{core_of};
ghost use Rattle.ei_event.specs.Typed.{connection_says, seat_says, device_says, pointer_says, pointer_absolute_says};
ghost use Rattle.ei_event.specs.Typed.{scroll_says, button_says};
ghost use Rattle.ei_event.specs.Typed.{keyboard_says, touchscreen_says, text_says, gesture_says};
ghost use Rattle.ei_event.specs.Handles.{Ends, Does, Handles, after_connection, after_seat, after_device};
ghost use Rattle.ei_event.specs.Handles.{after_keyboard, after_said, describes_device};
ghost use Rattle.ei_event.specs.Likely.{HandlesLikely};

use crate::ending::Ending;
use crate::kept::Kept;
use crate::keymap::Keymap;
use crate::region::Region;
use ei_backend::{Clock, Interface, Kind};
use ei_client::{
    Event, Proxy, button, connection, device, gesture, keyboard, pointer, pointer_absolute, scroll,
    seat, text, touchscreen,
};
use ei_input::input_event::InputEvent;
use ei_spec::KnownInterface;
use ei_types::{Error, EventError};

// The likely way.
impl Kept {
    /// Takes a pointer's motion, or a frame, of an added device, where there is room for it.
    #[inline(always)]
    #[tactic(auto, using(crate::proofs::Likeliness::likely_handles, crate::proofs::Likeliness::input_handles))]
    pub(crate) fn take_likely(&mut self, event: &Event) -> bool
        ensures { HandlesLikely self.old event.now result self.new }
    {
        if let Event::Pointer(target, pointer::Event::MotionRelative { x, y }) = event {
            let input = InputEvent::PointerMotion { dx: *x, dy: *y };
            return self.hear_likely(target.as_object().id(), input);
        }
        if let Event::Device(target, device::Event::Frame { serial, timestamp }) = event {
            return self.frame_likely(target.as_object().id(), *serial, *timestamp);
        }
        false
    }
}

// By the interface.
impl Kept {
    /// Takes an event. The end of a callback and a ping change nothing here.
    pub(crate) fn take<C: Clock>(&mut self, clock: &mut C, event: Event) -> Result<(), Error>
        ensures handles { Handles self.old event (C.view clock.old).left (C.view clock.new).left result self.new }
        ensures kept { OnErr result (clock.new ≡ clock.old) }
        ensures clock { LentClock C.later clock.old clock.new }
    {
        match event {
            Event::Handshake(target, event) => {
                // Let go by a call: at the end of a scope the drop of each field is proved anew.
                drop(target);
                drop(event);
                Err(Error::Event(EventError::UnexpectedHandshakeEvent))
            }
            Event::Connection(target, event) => {
                drop(target);
                self.take_connection(event)
            }
            Event::Callback(target, _event) => {
                drop(target);
                Ok(())
            }
            Event::Seat(target, event) => {
                let taken = self.take_seat(&target, event);
                drop(target);
                taken
            }
            Event::Device(target, event) => self.take_device(clock, id_of(target), event),
            Event::Pointer(target, event) => self.take_pointer(id_of(target), event),
            Event::PointerAbsolute(target, event) => {
                self.take_pointer_absolute(id_of(target), event)
            }
            Event::Scroll(target, event) => self.take_scroll(id_of(target), event),
            Event::Button(target, event) => self.take_button(id_of(target), event),
            Event::Keyboard(target, event) => self.take_keyboard(clock, id_of(target), event),
            Event::Touchscreen(target, event) => self.take_touchscreen(id_of(target), event),
            Event::Text(target, event) => self.take_text(id_of(target), event),
            Event::Gesture(target, event) => self.take_gesture(id_of(target), event),
        }
    }

    /// An event of the connection.
    #[inline(never)]
    pub(crate) fn take_connection(&mut self, event: connection::Event) -> Result<(), Error>
        ensures { Ends (refused (core_of self.old) (connection_says event)) self.old (after_connection self.old event)
            result self.new }
    {
        match event {
            connection::Event::Disconnected {
                last_serial,
                reason,
                explanation,
            } => self.disconnected(last_serial, reason, explanation),
            connection::Event::Seat { seat } => self.seat_comes(seat.as_object().id()),
            connection::Event::InvalidObject {
                last_serial: _,
                invalid_id: _,
            } => Ok(()),
            connection::Event::Ping { ping: _ } => Ok(()),
        }
    }

    /// An event of a seat.
    #[inline(never)]
    fn take_seat(&mut self, target: &ei_client::Seat, event: seat::Event) -> Result<(), Error>
        ensures { Ends (refused (core_of self.old) (seat_says target.now.id event)) self.old
            (after_seat self.old target.now event) result self.new }
    {
        let id = target.as_object().id();
        match event {
            seat::Event::Destroyed { serial } => self.seat_goes(target, serial),
            seat::Event::Name { name } => self.seat_has_name(id, name),
            seat::Event::Capability { mask, interface } => self.seat_has(id, mask, interface),
            seat::Event::Done => self.seat_done(target),
            seat::Event::Device { device } => self.device_comes(target, device),
        }
    }

    /// An event of the device of that id.
    fn take_device<C: Clock>(
        &mut self,
        clock: &mut C,
        id: u64,
        event: device::Event,
    ) -> Result<(), Error>
        ensures does { Does self.old (device_says id event) (after_device self.old id event)
            (C.view clock.old).left (C.view clock.new).left result self.new }
        ensures kept { OnErr result (clock.new ≡ clock.old) }
        ensures clock { LentClock C.later clock.old clock.new }
    {
        match event {
            device::Event::Frame { serial, timestamp } => self.frame(id, serial, timestamp),
            device::Event::Destroyed { serial } => self.device_goes(clock, id, serial),
            device::Event::Resumed { serial } => {
                self.device_tells(clock, id, serial, Ending::Resumed)
            }
            device::Event::Paused { serial } => {
                self.device_tells(clock, id, serial, Ending::Paused)
            }
            device::Event::StartEmulating { serial, sequence } => {
                self.device_tells(clock, id, serial, Ending::StartEmulating { sequence })
            }
            device::Event::StopEmulating { serial } => {
                self.device_tells(clock, id, serial, Ending::StopEmulating)
            }
            event => self.describe_device(id, event),
        }
    }

    /// An event that describes the device of that id.
    #[inline(never)]
    fn describe_device(&mut self, id: u64, event: device::Event) -> Result<(), Error>
        requires { describes_device event ≡ true }
        ensures { (time : ℕ) → Ends (refused (core_of self.old) (device_says id event)) self.old
            (after_device self.old id event time) result self.new }
    {
        match event {
            device::Event::Name { name } => self.device_has_name(id, name),
            device::Event::DeviceType { device_type } => self.device_has_type(id, device_type),
            device::Event::Dimensions { width, height } => {
                self.device_has_dimensions(id, width, height)
            }
            device::Event::Region {
                offset_x,
                offset_y,
                width,
                hight,
                scale,
            } => self.device_has_region(
                id,
                Region {
                    x: offset_x,
                    y: offset_y,
                    width,
                    height: hight,
                    scale,
                    mapping_id: None,
                },
            ),
            device::Event::RegionMappingId { mapping_id } => {
                self.device_has_mapping_id(id, mapping_id)
            }
            device::Event::Interface { object } => self.device_gets(id, object),
            device::Event::Done => self.device_done(id),
            _other => unreachable!(),
        }
    }

    /// An event of the keyboard of that id.
    fn take_keyboard<C: Clock>(
        &mut self,
        clock: &mut C,
        id: u64,
        event: keyboard::Event,
    ) -> Result<(), Error>
        ensures does { Does self.old (keyboard_says id event) (after_keyboard self.old id event)
            (C.view clock.old).left (C.view clock.new).left result self.new }
        ensures kept { OnErr result (clock.new ≡ clock.old) }
        ensures clock { LentClock C.later clock.old clock.new }
    {
        match event {
            keyboard::Event::Key { key, state } => {
                self.hear(id, InputEvent::KeyboardKey { key, state })
            }
            keyboard::Event::Modifiers {
                serial,
                depressed,
                locked,
                latched,
                group,
            } => self.modifiers(
                clock,
                id,
                serial,
                Ending::Modifiers {
                    depressed,
                    locked,
                    latched,
                    group,
                },
            ),
            keyboard::Event::Keymap {
                keymap_type,
                size,
                keymap,
            } => self.keyboard_has_keymap(
                id,
                Keymap {
                    handle: keymap,
                    size,
                    type_: keymap_type,
                },
            ),
            keyboard::Event::Destroyed { serial } => {
                self.interface_goes(KnownInterface::Keyboard, id, serial)
            }
        }
    }
}

// Of the interfaces that bear inputs alone.
impl Kept {
    fn take_pointer(&mut self, id: u64, event: pointer::Event) -> Result<(), Error>
        ensures { (time : ℕ) → Ends (refused (core_of self.old) (pointer_says id event)) self.old
            (after_said self.old (pointer_says id event) time) result self.new }
    {
        match event {
            pointer::Event::MotionRelative { x, y } => {
                self.hear(id, InputEvent::PointerMotion { dx: x, dy: y })
            }
            pointer::Event::Destroyed { serial } => {
                self.interface_goes(KnownInterface::Pointer, id, serial)
            }
        }
    }

    fn take_pointer_absolute(
        &mut self,
        id: u64,
        event: pointer_absolute::Event,
    ) -> Result<(), Error>
        ensures { (time : ℕ) → Ends (refused (core_of self.old) (pointer_absolute_says id event)) self.old
            (after_said self.old (pointer_absolute_says id event) time) result self.new }
    {
        match event {
            pointer_absolute::Event::MotionAbsolute { x, y } => {
                let input = InputEvent::PointerMotionAbsolute {
                    dx_absolute: x,
                    dy_absolute: y,
                };
                self.hear(id, input)
            }
            pointer_absolute::Event::Destroyed { serial } => {
                self.interface_goes(KnownInterface::PointerAbsolute, id, serial)
            }
        }
    }

    fn take_scroll(&mut self, id: u64, event: scroll::Event) -> Result<(), Error>
        ensures { (time : ℕ) → Ends (refused (core_of self.old) (scroll_says id event)) self.old
            (after_said self.old (scroll_says id event) time) result self.new }
    {
        match event {
            scroll::Event::Scroll { x, y } => self.hear(
                id,
                InputEvent::ScrollDelta { dx: x, dy: y },
            ),
            scroll::Event::ScrollDiscrete { x, y } => {
                let input = InputEvent::ScrollDiscrete {
                    discrete_dx: x,
                    discrete_dy: y,
                };
                self.hear(id, input)
            }
            scroll::Event::ScrollStop { x, y, is_cancel } => {
                self.hear(id, scroll_end(x, y, is_cancel))
            }
            scroll::Event::Destroyed { serial } => {
                self.interface_goes(KnownInterface::Scroll, id, serial)
            }
        }
    }

    fn take_button(&mut self, id: u64, event: button::Event) -> Result<(), Error>
        ensures { (time : ℕ) → Ends (refused (core_of self.old) (button_says id event)) self.old
            (after_said self.old (button_says id event) time) result self.new }
    {
        match event {
            button::Event::Button { button, state } => {
                self.hear(id, InputEvent::Button { button, state })
            }
            button::Event::Destroyed { serial } => {
                self.interface_goes(KnownInterface::Button, id, serial)
            }
        }
    }

    fn take_touchscreen(&mut self, id: u64, event: touchscreen::Event) -> Result<(), Error>
        ensures { (time : ℕ) → Ends (refused (core_of self.old) (touchscreen_says id event)) self.old
            (after_said self.old (touchscreen_says id event) time) result self.new }
    {
        match event {
            touchscreen::Event::Down { touchid, x, y } => {
                let touch_id = touchid;
                self.hear(id, InputEvent::TouchDown { touch_id, x, y })
            }
            touchscreen::Event::Motion { touchid, x, y } => {
                let touch_id = touchid;
                self.hear(id, InputEvent::TouchMotion { touch_id, x, y })
            }
            touchscreen::Event::Up { touchid } => {
                self.hear(id, InputEvent::TouchUp { touch_id: touchid })
            }
            touchscreen::Event::Cancel { touchid } => {
                self.hear(id, InputEvent::TouchCancel { touch_id: touchid })
            }
            touchscreen::Event::Destroyed { serial } => {
                self.interface_goes(KnownInterface::Touchscreen, id, serial)
            }
        }
    }

    #[inline(never)]
    fn take_text(&mut self, id: u64, event: text::Event) -> Result<(), Error>
        ensures { (time : ℕ) → Ends (refused (core_of self.old) (text_says id event)) self.old
            (after_said self.old (text_says id event) time) result self.new }
    {
        match event {
            text::Event::Keysym { keysym, state } => {
                self.hear(id, InputEvent::TextKeysym { keysym, state })
            }
            text::Event::Utf8 { text } => self.hear(id, InputEvent::TextUtf8 { text }),
            text::Event::Destroyed { serial } => {
                self.interface_goes(KnownInterface::Text, id, serial)
            }
        }
    }

    fn take_gesture(&mut self, id: u64, event: gesture::Event) -> Result<(), Error>
        ensures { (time : ℕ) → Ends (refused (core_of self.old) (gesture_says id event)) self.old
            (after_said self.old (gesture_says id event) time) result self.new }
    {
        match event {
            gesture::Event::Swipe { fingers, x, y } => {
                let input = InputEvent::GestureSwipe {
                    fingers,
                    dx: x,
                    dy: y,
                };
                self.hear(id, input)
            }
            gesture::Event::Pinch { scale } => self.hear(id, InputEvent::GesturePinch { scale }),
            gesture::Event::Destroyed { serial } => {
                self.interface_goes(KnownInterface::Gesture, id, serial)
            }
        }
    }
}

/// The end of a scroll, which may be called off.
#[inline(always)]
fn scroll_end(x: u32, y: u32, is_cancel: u32) -> InputEvent
    ensures { result ≡ scroll_end x y is_cancel }
{
    let x = x != 0;
    let y = y != 0;
    if is_cancel == 0 {
        InputEvent::ScrollStop { x, y }
    } else {
        InputEvent::ScrollCancel { x, y }
    }
}

/// The id of a target, which is let go.
#[inline(always)]
fn id_of<K: Kind>(target: Proxy<K>) -> u64
    ensures { result ≡ target.id }
{
    target.as_object().id()
}
