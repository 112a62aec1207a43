//! What a user is given, and how an input becomes it.
//!
//! An input has the time of its frame, in microseconds, and comes right before it.

ghost use Rattle.std.specs.Prelude.{◌≡◌, ◌<◌, ◌+◌, ◌++◌, ◌∷◌, [], IfOk};
ghost use Rattle.std.specs.Option.{option_copied};
ghost use Rattle.ei_event.specs.Event.{device_in, timed};

use crate::device::Device;
use crate::seat::Seat;
use ei_input::input_event::{self, InputEvent};
use ei_input::{Queue, push_timed};
use ei_types::DisconnectReason;
use ei_wire::{EiText, NoMemory};
use std::alloc::Global;

/// The server ends the connection, for a reason, which it may explain. The serial is the last one that came to it.
#[derive(Debug, Drop, PartialEq)]
pub struct Disconnected {
    pub last_serial: u32,
    pub reason: DisconnectReason,
    pub explanation: Option<EiText>,
}

/// There is a seat, described whole.
#[derive(Debug, Drop, PartialEq)]
pub struct SeatAdded {
    pub seat: Seat,
}

/// A seat is gone. Its devices stay until they go themselves.
#[derive(Debug, Drop, PartialEq)]
pub struct SeatRemoved {
    pub seat: Seat,
}

/// There is a device, described whole. It takes no input until it is resumed.
#[derive(Debug, Drop, PartialEq)]
pub struct DeviceAdded {
    pub device: Device,
}

/// A device is gone, with its interfaces.
#[derive(Debug, Drop, PartialEq)]
pub struct DeviceRemoved {
    pub device: Device,
}

/// A device takes no input.
#[derive(Debug, Drop, PartialEq)]
pub struct DevicePaused {
    pub device: Device,
    pub serial: u32,
}

/// A device takes input.
#[derive(Debug, Drop, PartialEq)]
pub struct DeviceResumed {
    pub device: Device,
    pub serial: u32,
}

/// The modifiers that hold: masks of those that are down, latched and locked, and the number of the layout.
#[derive(Debug, Drop, PartialEq)]
pub struct KeyboardModifiers {
    pub device: Device,
    pub serial: u32,
    pub depressed: u32,
    pub latched: u32,
    pub locked: u32,
    pub group: u32,
}

/// The input of a device since its last frame belongs together. The time is in microseconds.
#[derive(Debug, Drop, PartialEq)]
pub struct Frame {
    pub device: Device,
    pub serial: u32,
    pub time: u64,
}

/// The server begins to send input of a device. The sequence counts such beginnings.
#[derive(Debug, Drop, PartialEq)]
pub struct DeviceStartEmulating {
    pub device: Device,
    pub serial: u32,
    pub sequence: u32,
}

/// The server sends no more input of a device.
#[derive(Debug, Drop, PartialEq)]
pub struct DeviceStopEmulating {
    pub device: Device,
    pub serial: u32,
}

/// The pointer moved by a distance, in logical pixels.
pub type PointerMotion = input_event::PointerMotion<Device>;

/// The pointer moved to a point of a region.
pub type PointerMotionAbsolute = input_event::PointerMotionAbsolute<Device>;

/// A button went down or up. The number is a code of `linux/input-event-codes.h`.
pub type Button = input_event::Button<Device>;

/// It scrolled by a distance, in logical pixels.
pub type ScrollDelta = input_event::ScrollDelta<Device>;

/// Scrolling stopped on these axes.
pub type ScrollStop = input_event::ScrollStop<Device>;

/// Scrolling stopped on these axes, and nothing may scroll on by itself.
pub type ScrollCancel = input_event::ScrollCancel<Device>;

/// A wheel turned. A click of the wheel is 120.
pub type ScrollDiscrete = input_event::ScrollDiscrete<Device>;

/// A key went down or up.
pub type KeyboardKey = input_event::KeyboardKey<Device>;

/// A touch began at a point. The id is its name until it ends.
pub type TouchDown = input_event::TouchDown<Device>;

/// A touch moved to a point.
pub type TouchMotion = input_event::TouchMotion<Device>;

/// A touch ended.
pub type TouchUp = input_event::TouchUp<Device>;

/// A touch ended and is not to count.
pub type TouchCancel = input_event::TouchCancel<Device>;

/// A keysym, by its number in XKB, went down or up.
pub type TextKeysym = input_event::TextKeysym<Device>;

/// A text was put in.
pub type TextUtf8 = input_event::TextUtf8<Device>;

/// Fingers moved together over a touchpad by a distance, in logical pixels.
pub type GestureSwipe = input_event::GestureSwipe<Device>;

/// Fingers moved apart or towards each other. The scale is 1 where they are as far apart as when they came down.
pub type GesturePinch = input_event::GesturePinch<Device>;

/// What a server's events tell a client's user.
#[derive(Debug, Drop, PartialEq)]
pub enum EiEvent {
    /// The server ends the connection, for a reason, which it may explain. The serial is the last one that came to it.
    Disconnected(Disconnected),
    /// There is a seat, described whole.
    SeatAdded(SeatAdded),
    /// A seat is gone. Its devices stay until they go themselves.
    SeatRemoved(SeatRemoved),
    /// There is a device, described whole. It takes no input until it is resumed.
    DeviceAdded(DeviceAdded),
    /// A device is gone, with its interfaces.
    DeviceRemoved(DeviceRemoved),
    /// A device takes no input.
    DevicePaused(DevicePaused),
    /// A device takes input.
    DeviceResumed(DeviceResumed),
    /// The modifiers that hold: masks of those that are down, latched and locked, and the number of the layout.
    KeyboardModifiers(KeyboardModifiers),
    /// The input of a device since its last frame belongs together. The time is in microseconds.
    Frame(Frame),
    /// The server begins to send input of a device. The sequence counts such beginnings.
    DeviceStartEmulating(DeviceStartEmulating),
    /// The server sends no more input of a device.
    DeviceStopEmulating(DeviceStopEmulating),
    /// The pointer moved by a distance, in logical pixels.
    PointerMotion(PointerMotion),
    /// The pointer moved to a point of a region.
    PointerMotionAbsolute(PointerMotionAbsolute),
    /// A button went down or up. The number is a code of `linux/input-event-codes.h`.
    Button(Button),
    /// It scrolled by a distance, in logical pixels.
    ScrollDelta(ScrollDelta),
    /// Scrolling stopped on these axes.
    ScrollStop(ScrollStop),
    /// Scrolling stopped on these axes, and nothing may scroll on by itself.
    ScrollCancel(ScrollCancel),
    /// A wheel turned. A click of the wheel is 120.
    ScrollDiscrete(ScrollDiscrete),
    /// A key went down or up.
    KeyboardKey(KeyboardKey),
    /// A touch began at a point. The id is its name until it ends.
    TouchDown(TouchDown),
    /// A touch moved to a point.
    TouchMotion(TouchMotion),
    /// A touch ended.
    TouchUp(TouchUp),
    /// A touch ended and is not to count.
    TouchCancel(TouchCancel),
    /// A keysym, by its number in XKB, went down or up.
    TextKeysym(TextKeysym),
    /// A text was put in.
    TextUtf8(TextUtf8),
    /// Fingers moved together over a touchpad by a distance, in logical pixels.
    GestureSwipe(GestureSwipe),
    /// Fingers moved apart or towards each other. The scale is 1 where they are as far apart as when they came down.
    GesturePinch(GesturePinch),
}

impl EiEvent {
    /// The device that the event is of; `None` where it is of a seat or the connection.
    pub fn device(&self) -> Option<&Device>
        ensures { option_copied result ≡ device_in self.now }
    {
        match self {
            EiEvent::Disconnected(_) | EiEvent::SeatAdded(_) | EiEvent::SeatRemoved(_) => None,
            EiEvent::DeviceAdded(event) => Some(&event.device),
            EiEvent::DeviceRemoved(event) => Some(&event.device),
            EiEvent::DevicePaused(event) => Some(&event.device),
            EiEvent::DeviceResumed(event) => Some(&event.device),
            EiEvent::KeyboardModifiers(event) => Some(&event.device),
            EiEvent::Frame(event) => Some(&event.device),
            EiEvent::DeviceStartEmulating(event) => Some(&event.device),
            EiEvent::DeviceStopEmulating(event) => Some(&event.device),
            EiEvent::PointerMotion(event) => Some(&event.device),
            EiEvent::PointerMotionAbsolute(event) => Some(&event.device),
            EiEvent::Button(event) => Some(&event.device),
            EiEvent::ScrollDelta(event) => Some(&event.device),
            EiEvent::ScrollStop(event) => Some(&event.device),
            EiEvent::ScrollCancel(event) => Some(&event.device),
            EiEvent::ScrollDiscrete(event) => Some(&event.device),
            EiEvent::KeyboardKey(event) => Some(&event.device),
            EiEvent::TouchDown(event) => Some(&event.device),
            EiEvent::TouchMotion(event) => Some(&event.device),
            EiEvent::TouchUp(event) => Some(&event.device),
            EiEvent::TouchCancel(event) => Some(&event.device),
            EiEvent::TextKeysym(event) => Some(&event.device),
            EiEvent::TextUtf8(event) => Some(&event.device),
            EiEvent::GestureSwipe(event) => Some(&event.device),
            EiEvent::GesturePinch(event) => Some(&event.device),
        }
    }

    /// The same event again.
    ///
    /// `NoMemory`, and only for a text.
    pub fn copy(&self, alloc: Global) -> Result<EiEvent, NoMemory>
        ensures { IfOk result (λ e. e ≡ self.now) }
    {
        Ok(match self {
            EiEvent::Disconnected(event) => EiEvent::Disconnected(Disconnected {
                last_serial: event.last_serial,
                reason: event.reason,
                explanation: copy_text(&event.explanation, alloc)?,
            }),
            EiEvent::SeatAdded(event) => EiEvent::SeatAdded(SeatAdded {
                seat: event.seat.copy(),
            }),
            EiEvent::SeatRemoved(event) => EiEvent::SeatRemoved(SeatRemoved {
                seat: event.seat.copy(),
            }),
            EiEvent::DeviceAdded(event) => EiEvent::DeviceAdded(DeviceAdded {
                device: event.device.copy(),
            }),
            EiEvent::DeviceRemoved(event) => EiEvent::DeviceRemoved(DeviceRemoved {
                device: event.device.copy(),
            }),
            EiEvent::DevicePaused(event) => EiEvent::DevicePaused(DevicePaused {
                device: event.device.copy(),
                serial: event.serial,
            }),
            EiEvent::DeviceResumed(event) => EiEvent::DeviceResumed(DeviceResumed {
                device: event.device.copy(),
                serial: event.serial,
            }),
            EiEvent::KeyboardModifiers(event) => EiEvent::KeyboardModifiers(KeyboardModifiers {
                device: event.device.copy(),
                serial: event.serial,
                depressed: event.depressed,
                latched: event.latched,
                locked: event.locked,
                group: event.group,
            }),
            EiEvent::Frame(event) => EiEvent::Frame(Frame {
                device: event.device.copy(),
                serial: event.serial,
                time: event.time,
            }),
            EiEvent::DeviceStartEmulating(event) => EiEvent::DeviceStartEmulating(
                DeviceStartEmulating {
                    device: event.device.copy(),
                    serial: event.serial,
                    sequence: event.sequence,
                },
            ),
            EiEvent::DeviceStopEmulating(event) => EiEvent::DeviceStopEmulating(
                DeviceStopEmulating {
                    device: event.device.copy(),
                    serial: event.serial,
                },
            ),
            EiEvent::PointerMotion(event) => EiEvent::PointerMotion(event.clone().unwrap()),
            EiEvent::PointerMotionAbsolute(event) => EiEvent::PointerMotionAbsolute(
                event.clone().unwrap(),
            ),
            EiEvent::Button(event) => EiEvent::Button(event.clone().unwrap()),
            EiEvent::ScrollDelta(event) => EiEvent::ScrollDelta(event.clone().unwrap()),
            EiEvent::ScrollStop(event) => EiEvent::ScrollStop(event.clone().unwrap()),
            EiEvent::ScrollCancel(event) => EiEvent::ScrollCancel(event.clone().unwrap()),
            EiEvent::ScrollDiscrete(event) => EiEvent::ScrollDiscrete(event.clone().unwrap()),
            EiEvent::KeyboardKey(event) => EiEvent::KeyboardKey(event.clone().unwrap()),
            EiEvent::TouchDown(event) => EiEvent::TouchDown(event.clone().unwrap()),
            EiEvent::TouchMotion(event) => EiEvent::TouchMotion(event.clone().unwrap()),
            EiEvent::TouchUp(event) => EiEvent::TouchUp(event.clone().unwrap()),
            EiEvent::TouchCancel(event) => EiEvent::TouchCancel(event.clone().unwrap()),
            EiEvent::TextKeysym(event) => EiEvent::TextKeysym(event.clone().unwrap()),
            EiEvent::TextUtf8(event) => EiEvent::TextUtf8(TextUtf8 {
                device: event.device.copy(),
                time: event.time,
                text: event.text.copy(alloc)?,
            }),
            EiEvent::GestureSwipe(event) => EiEvent::GestureSwipe(event.clone().unwrap()),
            EiEvent::GesturePinch(event) => EiEvent::GesturePinch(event.clone().unwrap()),
        })
    }
}

/// A text again, or none.
fn copy_text(text: &Option<EiText>, alloc: Global) -> Result<Option<EiText>, NoMemory>
    ensures { IfOk result (λ copy. copy ≡ text.now) }
{
    match text {
        Some(text) => Ok(Some(text.copy(alloc)?)),
        None => Ok(None),
    }
}

/// Queues the event that an input of the device becomes. There is room for it.
#[inline(always)]
pub(crate) fn queue_timed(input: InputEvent, queue: &mut Queue<EiEvent>, device: &Device, time: u64)
    requires { 0 < queue.old.room }
    ensures items { queue.new.items ≡ queue.old.items ++ timed device.now time input ∷ [] }
    ensures room { queue.new.room + 1 ≡ queue.old.room }
{
    push_timed!(queue, EiEvent, input, device.copy(), time)
}
