//! What a server is asked for, and how an input becomes it.
//!
//! An input has the time of its frame, in microseconds, and comes right before it.

ghost use Rattle.std.specs.Prelude.{◌≡◌, ◌<◌, ◌+◌, ◌++◌, ◌∷◌, [], IfOk};
ghost use Rattle.std.specs.Option.{option_copied};
ghost use Rattle.ei_spec.specs.Interface.{ObjectView};
ghost use Rattle.ei_input.specs.Inputs.{scroll_end};
ghost use Rattle.ei_server.specs.declared.request.Request.TheVariants as request;
ghost use Rattle.ei_request.specs.Event.{device_in, timed};
ghost use Rattle.ei_request.specs.Typed.{input_asked};

use crate::device::Device;
use crate::seat::Seat;
use ei_input::input_event::{self, InputEvent};
use ei_input::push_timed;
use ei_server::{
    Request, button, gesture, keyboard, pointer, pointer_absolute, scroll, text, touchscreen,
};
use ei_types::DeviceCapabilities;
use ei_wire::NoMemory;
use std::alloc::Global;

/// The client binds capabilities of a seat: it wants devices of them.
#[derive(Clone, Debug, Drop, PartialEq)]
pub struct Bind {
    pub seat: Seat,
    pub capabilities: DeviceCapabilities,
}

/// The client wants a device no more.
#[derive(Clone, Debug, Drop, PartialEq)]
pub struct DeviceClosed {
    pub device: Device,
}

/// The client asks for one more device of a seat, with these capabilities.
#[derive(Clone, Debug, Drop, PartialEq)]
pub struct RequestDevice {
    pub seat: Seat,
    pub capabilities: DeviceCapabilities,
}

/// The input of a device since its last frame belongs together. The time is in microseconds.
#[derive(Clone, Debug, Drop, PartialEq)]
pub struct Frame {
    pub device: Device,
    pub last_serial: u32,
    pub time: u64,
}

/// The client has taken note of a device.
#[derive(Clone, Debug, Drop, PartialEq)]
pub struct Ready {
    pub device: Device,
}

/// The client begins to send input of a device. The sequence counts such beginnings.
#[derive(Clone, Debug, Drop, PartialEq)]
pub struct DeviceStartEmulating {
    pub device: Device,
    pub last_serial: u32,
    pub sequence: u32,
}

/// The client sends no more input of a device.
#[derive(Clone, Debug, Drop, PartialEq)]
pub struct DeviceStopEmulating {
    pub device: Device,
    pub last_serial: u32,
}

/// The pointer moved by a distance, in logical pixels.
pub type PointerMotion = input_event::PointerMotion<Device>;

/// The pointer moved to a point of a region.
pub type PointerMotionAbsolute = input_event::PointerMotionAbsolute<Device>;

/// A button went down or up. The number is a code of `linux/input-event-codes.h`.
pub type Button = input_event::Button<Device>;

/// It scrolled by a distance, in logical pixels.
pub type ScrollDelta = input_event::ScrollDelta<Device>;

/// Scrolling stopped on these axes.
pub type ScrollStop = input_event::ScrollStop<Device>;

/// Scrolling stopped on these axes, and nothing may scroll on by itself.
pub type ScrollCancel = input_event::ScrollCancel<Device>;

/// A wheel turned. A click of the wheel is 120.
pub type ScrollDiscrete = input_event::ScrollDiscrete<Device>;

/// A key went down or up.
pub type KeyboardKey = input_event::KeyboardKey<Device>;

/// A touch began at a point. The id is its name until it ends.
pub type TouchDown = input_event::TouchDown<Device>;

/// A touch moved to a point.
pub type TouchMotion = input_event::TouchMotion<Device>;

/// A touch ended.
pub type TouchUp = input_event::TouchUp<Device>;

/// A touch ended and is not to count.
pub type TouchCancel = input_event::TouchCancel<Device>;

/// A keysym, by its number in XKB, went down or up.
pub type TextKeysym = input_event::TextKeysym<Device>;

/// A text was put in. It has 1 to 254 bytes.
pub type TextUtf8 = input_event::TextUtf8<Device>;

/// Fingers moved together over a touchpad by a distance, in logical pixels.
pub type GestureSwipe = input_event::GestureSwipe<Device>;

/// Fingers moved apart or towards each other. The scale is 1 where they are as far apart as when they came down.
pub type GesturePinch = input_event::GesturePinch<Device>;

/// What a client asks of a server.
#[derive(Debug, Drop, PartialEq)]
pub enum EisRequest {
    /// The client ends the connection.
    Disconnect,
    /// The client binds capabilities of a seat: it wants devices of them.
    Bind(Bind),
    /// The client wants a device no more.
    DeviceClosed(DeviceClosed),
    /// The client asks for one more device of a seat, with these capabilities.
    RequestDevice(RequestDevice),
    /// The input of a device since its last frame belongs together. The time is in microseconds.
    Frame(Frame),
    /// The client has taken note of a device.
    Ready(Ready),
    /// The client begins to send input of a device. The sequence counts such beginnings.
    DeviceStartEmulating(DeviceStartEmulating),
    /// The client sends no more input of a device.
    DeviceStopEmulating(DeviceStopEmulating),
    /// The pointer moved by a distance, in logical pixels.
    PointerMotion(PointerMotion),
    /// The pointer moved to a point of a region.
    PointerMotionAbsolute(PointerMotionAbsolute),
    /// A button went down or up. The number is a code of `linux/input-event-codes.h`.
    Button(Button),
    /// It scrolled by a distance, in logical pixels.
    ScrollDelta(ScrollDelta),
    /// Scrolling stopped on these axes.
    ScrollStop(ScrollStop),
    /// Scrolling stopped on these axes, and nothing may scroll on by itself.
    ScrollCancel(ScrollCancel),
    /// A wheel turned. A click of the wheel is 120.
    ScrollDiscrete(ScrollDiscrete),
    /// A key went down or up.
    KeyboardKey(KeyboardKey),
    /// A touch began at a point. The id is its name until it ends.
    TouchDown(TouchDown),
    /// A touch moved to a point.
    TouchMotion(TouchMotion),
    /// A touch ended.
    TouchUp(TouchUp),
    /// A touch ended and is not to count.
    TouchCancel(TouchCancel),
    /// A keysym, by its number in XKB, went down or up.
    TextKeysym(TextKeysym),
    /// A text was put in. It has 1 to 254 bytes.
    TextUtf8(TextUtf8),
    /// Fingers moved together over a touchpad by a distance, in logical pixels.
    GestureSwipe(GestureSwipe),
    /// Fingers moved apart or towards each other. The scale is 1 where they are as far apart as when they came down.
    GesturePinch(GesturePinch),
}

/// The requests that wait to be handed out.
pub(crate) type Queue = ei_input::Queue<EisRequest>;

impl EisRequest {
    /// The device that the request is about; `None` where it is about a seat or the connection.
    pub fn device(&self) -> Option<&Device>
        ensures { option_copied result ≡ device_in self.now }
    {
        match self {
            EisRequest::Disconnect | EisRequest::Bind(_) | EisRequest::RequestDevice(_) => None,
            EisRequest::DeviceClosed(request) => Some(&request.device),
            EisRequest::Frame(request) => Some(&request.device),
            EisRequest::Ready(request) => Some(&request.device),
            EisRequest::DeviceStartEmulating(request) => Some(&request.device),
            EisRequest::DeviceStopEmulating(request) => Some(&request.device),
            EisRequest::PointerMotion(request) => Some(&request.device),
            EisRequest::PointerMotionAbsolute(request) => Some(&request.device),
            EisRequest::Button(request) => Some(&request.device),
            EisRequest::ScrollDelta(request) => Some(&request.device),
            EisRequest::ScrollStop(request) => Some(&request.device),
            EisRequest::ScrollCancel(request) => Some(&request.device),
            EisRequest::ScrollDiscrete(request) => Some(&request.device),
            EisRequest::KeyboardKey(request) => Some(&request.device),
            EisRequest::TouchDown(request) => Some(&request.device),
            EisRequest::TouchMotion(request) => Some(&request.device),
            EisRequest::TouchUp(request) => Some(&request.device),
            EisRequest::TouchCancel(request) => Some(&request.device),
            EisRequest::TextKeysym(request) => Some(&request.device),
            EisRequest::TextUtf8(request) => Some(&request.device),
            EisRequest::GestureSwipe(request) => Some(&request.device),
            EisRequest::GesturePinch(request) => Some(&request.device),
        }
    }

    /// The same request again.
    ///
    /// `NoMemory`, and only for a text.
    pub fn copy(&self, alloc: Global) -> Result<EisRequest, NoMemory>
        ensures { IfOk result (λ r. r ≡ self.now) }
    {
        Ok(match self {
            EisRequest::Disconnect => EisRequest::Disconnect,
            EisRequest::Bind(request) => EisRequest::Bind(request.clone().unwrap()),
            EisRequest::DeviceClosed(request) => EisRequest::DeviceClosed(request.clone().unwrap()),
            EisRequest::RequestDevice(request) => EisRequest::RequestDevice(
                request.clone().unwrap(),
            ),
            EisRequest::Frame(request) => EisRequest::Frame(request.clone().unwrap()),
            EisRequest::Ready(request) => EisRequest::Ready(request.clone().unwrap()),
            EisRequest::DeviceStartEmulating(request) => EisRequest::DeviceStartEmulating(
                request.clone().unwrap(),
            ),
            EisRequest::DeviceStopEmulating(request) => EisRequest::DeviceStopEmulating(
                request.clone().unwrap(),
            ),
            EisRequest::PointerMotion(request) => EisRequest::PointerMotion(
                request.clone().unwrap(),
            ),
            EisRequest::PointerMotionAbsolute(request) => EisRequest::PointerMotionAbsolute(
                request.clone().unwrap(),
            ),
            EisRequest::Button(request) => EisRequest::Button(request.clone().unwrap()),
            EisRequest::ScrollDelta(request) => EisRequest::ScrollDelta(request.clone().unwrap()),
            EisRequest::ScrollStop(request) => EisRequest::ScrollStop(request.clone().unwrap()),
            EisRequest::ScrollCancel(request) => EisRequest::ScrollCancel(request.clone().unwrap()),
            EisRequest::ScrollDiscrete(request) => EisRequest::ScrollDiscrete(
                request.clone().unwrap(),
            ),
            EisRequest::KeyboardKey(request) => EisRequest::KeyboardKey(request.clone().unwrap()),
            EisRequest::TouchDown(request) => EisRequest::TouchDown(request.clone().unwrap()),
            EisRequest::TouchMotion(request) => EisRequest::TouchMotion(request.clone().unwrap()),
            EisRequest::TouchUp(request) => EisRequest::TouchUp(request.clone().unwrap()),
            EisRequest::TouchCancel(request) => EisRequest::TouchCancel(request.clone().unwrap()),
            EisRequest::TextKeysym(request) => EisRequest::TextKeysym(request.clone().unwrap()),
            EisRequest::TextUtf8(request) => EisRequest::TextUtf8(TextUtf8 {
                device: request.device.copy(),
                time: request.time,
                text: request.text.copy(alloc)?,
            }),
            EisRequest::GestureSwipe(request) => EisRequest::GestureSwipe(request.clone().unwrap()),
            EisRequest::GesturePinch(request) => EisRequest::GesturePinch(request.clone().unwrap()),
        })
    }
}

/// Queues the request that an input of the device becomes. There is room for it.
pub(crate) fn queue_timed(input: InputEvent, queue: &mut Queue, device: &Device, time: u64)
    requires { 0 < queue.old.room }
    ensures items { queue.new.items ≡ queue.old.items ++ timed device.now time input ∷ [] }
    ensures room { queue.new.room + 1 ≡ queue.old.room }
{
    push_timed!(queue, EisRequest, input, device.copy(), time)
}

/// The input that a request to an interface of a device is; none where it is the release, or of another interface.
#[inline(always)]
pub(crate) fn input_of(request: Request) -> Option<InputEvent>
    ensures { result ≡ input_asked request }
{
    // Let go by a call: at the end of a scope the drop of each field is proved anew. Last, else the target is copied.
    match request {
        Request::Pointer(target, asked) => {
            let input = pointer_input(asked);
            drop(target);
            input
        }
        Request::PointerAbsolute(target, asked) => {
            let input = pointer_absolute_input(asked);
            drop(target);
            input
        }
        Request::Scroll(target, asked) => {
            let input = scroll_input(asked);
            drop(target);
            input
        }
        Request::Button(target, asked) => {
            let input = button_input(asked);
            drop(target);
            input
        }
        Request::Keyboard(target, asked) => {
            let input = keyboard_input(asked);
            drop(target);
            input
        }
        Request::Touchscreen(target, asked) => {
            let input = touchscreen_input(asked);
            drop(target);
            input
        }
        Request::Text(target, asked) => {
            let input = text_input(asked);
            drop(target);
            input
        }
        Request::Gesture(target, asked) => {
            let input = gesture_input(asked);
            drop(target);
            input
        }
        other => {
            drop(other);
            None
        }
    }
}

/// The input that a request to a pointer is.
#[inline(always)]
fn pointer_input(asked: pointer::Request) -> Option<InputEvent>
    ensures { (target : ObjectView) → result ≡ input_asked (request.Pointer target asked) }
{
    match asked {
        pointer::Request::Release => None,
        pointer::Request::MotionRelative { x, y } => {
            Some(InputEvent::PointerMotion { dx: x, dy: y })
        }
    }
}

/// The input that a request to an absolute pointer is.
#[inline(always)]
fn pointer_absolute_input(asked: pointer_absolute::Request) -> Option<InputEvent>
    ensures { (target : ObjectView) → result ≡ input_asked (request.PointerAbsolute target asked) }
{
    match asked {
        pointer_absolute::Request::Release => None,
        pointer_absolute::Request::MotionAbsolute { x, y } => {
            Some(InputEvent::PointerMotionAbsolute {
                dx_absolute: x,
                dy_absolute: y,
            })
        }
    }
}

/// The input that a request to a scroll is.
#[inline(always)]
fn scroll_input(asked: scroll::Request) -> Option<InputEvent>
    ensures { (target : ObjectView) → result ≡ input_asked (request.Scroll target asked) }
{
    match asked {
        scroll::Request::Release => None,
        scroll::Request::Scroll { x, y } => Some(InputEvent::ScrollDelta { dx: x, dy: y }),
        scroll::Request::ScrollDiscrete { x, y } => Some(InputEvent::ScrollDiscrete {
            discrete_dx: x,
            discrete_dy: y,
        }),
        scroll::Request::ScrollStop { x, y, is_cancel } => Some(scroll_end(x, y, is_cancel)),
    }
}

/// The input that a request to the buttons is.
#[inline(always)]
fn button_input(asked: button::Request) -> Option<InputEvent>
    ensures { (target : ObjectView) → result ≡ input_asked (request.Button target asked) }
{
    match asked {
        button::Request::Release => None,
        button::Request::Button { button, state } => Some(InputEvent::Button { button, state }),
    }
}

/// The input that a request to the keys is.
#[inline(always)]
fn keyboard_input(asked: keyboard::Request) -> Option<InputEvent>
    ensures { (target : ObjectView) → result ≡ input_asked (request.Keyboard target asked) }
{
    match asked {
        keyboard::Request::Release => None,
        keyboard::Request::Key { key, state } => Some(InputEvent::KeyboardKey { key, state }),
    }
}

/// The input that a request to a touchscreen is.
#[inline(always)]
fn touchscreen_input(asked: touchscreen::Request) -> Option<InputEvent>
    ensures { (target : ObjectView) → result ≡ input_asked (request.Touchscreen target asked) }
{
    match asked {
        touchscreen::Request::Release => None,
        touchscreen::Request::Down { touchid, x, y } => Some(InputEvent::TouchDown {
            touch_id: touchid,
            x,
            y,
        }),
        touchscreen::Request::Motion { touchid, x, y } => Some(InputEvent::TouchMotion {
            touch_id: touchid,
            x,
            y,
        }),
        touchscreen::Request::Up { touchid } => Some(InputEvent::TouchUp { touch_id: touchid }),
        touchscreen::Request::Cancel { touchid } => {
            Some(InputEvent::TouchCancel { touch_id: touchid })
        }
    }
}

/// The input that a request to a text interface is.
#[inline(always)]
fn text_input(asked: text::Request) -> Option<InputEvent>
    ensures { (target : ObjectView) → result ≡ input_asked (request.Text target asked) }
{
    match asked {
        text::Request::Release => None,
        text::Request::Keysym { keysym, state } => Some(InputEvent::TextKeysym { keysym, state }),
        text::Request::Utf8 { text } => Some(InputEvent::TextUtf8 { text }),
    }
}

/// The input that a request to the gestures is.
#[inline(always)]
fn gesture_input(asked: gesture::Request) -> Option<InputEvent>
    ensures { (target : ObjectView) → result ≡ input_asked (request.Gesture target asked) }
{
    match asked {
        gesture::Request::Release => None,
        gesture::Request::Swipe { fingers, x, y } => Some(InputEvent::GestureSwipe {
            fingers,
            dx: x,
            dy: y,
        }),
        gesture::Request::Pinch { scale } => Some(InputEvent::GesturePinch { scale }),
    }
}

/// The end of a scroll, which may be called off.
fn scroll_end(x: u32, y: u32, is_cancel: u32) -> InputEvent
    ensures { result ≡ scroll_end x y is_cancel }
{
    let x = x != 0;
    let y = y != 0;
    if is_cancel == 0 {
        InputEvent::ScrollStop { x, y }
    } else {
        InputEvent::ScrollCancel { x, y }
    }
}
