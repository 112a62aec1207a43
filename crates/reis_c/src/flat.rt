//! A request as C reads it, with the numbers of the kinds.

ghost use Rattle.std.specs.Prelude.{◌≡◌, [], ◌∷◌};
ghost use Rattle.std.specs.Option.{option_copied};
ghost use Rattle.std.specs.Int.{cast_unsigned, w32};
ghost use Rattle.ei_types.specs.Enums.{button_state_number, key_state_number};
ghost use Rattle.reis_c.specs.Flat.{of_device, of_seat, flat, of_connected, of_notice, text_in, truth};

use ei_backend::Interface;
use ei_request::{Device, EisRequest, Seat};
use ei_types::DeviceCapabilities;
use ei_wire::RawFloat;
use reis_eis::Notice;

// ---- the kinds of requests

pub const DISCONNECT: u32 = 1;

pub const BIND: u32 = 2;

pub const DEVICE_CLOSED: u32 = 3;

pub const REQUEST_DEVICE: u32 = 4;

pub const FRAME: u32 = 5;

pub const READY: u32 = 6;

pub const START_EMULATING: u32 = 7;

pub const STOP_EMULATING: u32 = 8;

pub const POINTER_MOTION: u32 = 9;

pub const POINTER_MOTION_ABSOLUTE: u32 = 10;

pub const BUTTON: u32 = 11;

pub const SCROLL_DELTA: u32 = 12;

pub const SCROLL_STOP: u32 = 13;

pub const SCROLL_CANCEL: u32 = 14;

pub const SCROLL_DISCRETE: u32 = 15;

pub const KEY: u32 = 16;

pub const TOUCH_DOWN: u32 = 17;

pub const TOUCH_MOTION: u32 = 18;

pub const TOUCH_UP: u32 = 19;

pub const TOUCH_CANCEL: u32 = 20;

pub const TEXT_KEYSYM: u32 = 21;

pub const TEXT_UTF8: u32 = 22;

pub const GESTURE_SWIPE: u32 = 23;

pub const GESTURE_PINCH: u32 = 24;

// ---- what else a connection hands out

pub const CONNECTED: u32 = 25;

pub const SEAT_RELEASED: u32 = 26;

pub const PONG: u32 = 27;

/// A request, flat. The header says which fields each kind has; the others are 0.
#[repr(C)]
#[derive(Clone, Copy)]
pub struct ReisRequest {
    /// Which request it is.
    pub kind: u32,
    /// The id of the seat, or 0.
    pub seat: u64,
    /// The id of the device, or 0.
    pub device: u64,
    /// The time in microseconds, or 0.
    pub time: u64,
    /// What else it says.
    pub fields: [u64; 4],
}

/// A request to a seat.
fn of_seat(kind: u32, seat: &Seat, capabilities: &DeviceCapabilities) -> ReisRequest
    ensures { result ≡ of_seat kind seat.now capabilities.now }
{
    ReisRequest {
        kind,
        seat: seat.eis_seat().as_object().id(),
        device: 0,
        time: 0,
        fields: [capabilities.bits(), 0, 0, 0],
    }
}

/// A request to a device. It has no time where that is 0.
fn of_device(kind: u32, device: &Device, time: u64, fields: [u64; 4]) -> ReisRequest
    ensures { result ≡ of_device kind device.now time fields }
{
    ReisRequest {
        kind,
        seat: device.seat().eis_seat().as_object().id(),
        device: device.device().as_object().id(),
        time,
        fields,
    }
}

/// An input that is a distance or a position.
fn point(kind: u32, device: &Device, time: u64, x: RawFloat, y: RawFloat) -> ReisRequest
    ensures { result ≡ of_device kind device.now time (x.0 ∷ y.0 ∷ 0 ∷ 0 ∷ []) }
{
    of_device(kind, device, time, [u64::from(x.0), u64::from(y.0), 0, 0])
}

/// An input that stops scrolling on some axes.
fn axes(kind: u32, device: &Device, time: u64, x: bool, y: bool) -> ReisRequest
    ensures { result ≡ of_device kind device.now time (truth x ∷ truth y ∷ 0 ∷ 0 ∷ []) }
{
    of_device(kind, device, time, [truth(x), truth(y), 0, 0])
}

/// An input that says that a number goes down or up, or that bears one number alone.
fn change(kind: u32, device: &Device, time: u64, number: u32, state: u32) -> ReisRequest
    ensures { result ≡ of_device kind device.now time (number ∷ state ∷ 0 ∷ 0 ∷ []) }
{
    of_device(
        kind,
        device,
        time,
        [u64::from(number), u64::from(state), 0, 0],
    )
}

/// A touch at a place.
fn touch(kind: u32, device: &Device, time: u64, id: u32, x: RawFloat, y: RawFloat) -> ReisRequest
    ensures { result ≡ of_device kind device.now time (id ∷ x.0 ∷ y.0 ∷ 0 ∷ []) }
{
    let fields = [u64::from(id), u64::from(x.0), u64::from(y.0), 0];
    of_device(kind, device, time, fields)
}

/// 1 where it is so.
fn truth(is: bool) -> u64
    ensures { result ≡ truth is }
{
    if is { 1 } else { 0 }
}

/// A request with a time: its kind, its device and its time, and behind these what else it says.
macro_rules! timed {
    ($of:ident, $kind:ident, $request:ident: $($said:expr),+) => {
        $of($kind, &$request.device, $request.time, $($said),+)
    };
}

/// The request as C reads it.
pub(crate) fn flat(request: &EisRequest) -> ReisRequest
    ensures { result ≡ flat request.now }
{
    match request {
        EisRequest::Disconnect => ReisRequest {
            kind: DISCONNECT,
            seat: 0,
            device: 0,
            time: 0,
            fields: [0, 0, 0, 0],
        },
        EisRequest::Bind(r) => of_seat(BIND, &r.seat, &r.capabilities),
        EisRequest::DeviceClosed(r) => change(DEVICE_CLOSED, &r.device, 0, 0, 0),
        EisRequest::RequestDevice(r) => of_seat(REQUEST_DEVICE, &r.seat, &r.capabilities),
        EisRequest::Frame(r) => timed!(change, FRAME, r: r.last_serial, 0),
        EisRequest::Ready(r) => change(READY, &r.device, 0, 0, 0),
        EisRequest::DeviceStartEmulating(r) => change(
            START_EMULATING,
            &r.device,
            0,
            r.last_serial,
            r.sequence,
        ),
        EisRequest::DeviceStopEmulating(r) => {
            change(STOP_EMULATING, &r.device, 0, r.last_serial, 0)
        }
        EisRequest::PointerMotion(r) => timed!(point, POINTER_MOTION, r: r.dx, r.dy),
        EisRequest::PointerMotionAbsolute(r) => {
            timed!(point, POINTER_MOTION_ABSOLUTE, r: r.dx_absolute, r.dy_absolute)
        }
        EisRequest::Button(r) => timed!(change, BUTTON, r: r.button, u32::from(r.state)),
        EisRequest::ScrollDelta(r) => timed!(point, SCROLL_DELTA, r: r.dx, r.dy),
        EisRequest::ScrollStop(r) => timed!(axes, SCROLL_STOP, r: r.x, r.y),
        EisRequest::ScrollCancel(r) => timed!(axes, SCROLL_CANCEL, r: r.x, r.y),
        EisRequest::ScrollDiscrete(r) => {
            let (x, y) = (r.discrete_dx.cast_unsigned(), r.discrete_dy.cast_unsigned());
            timed!(change, SCROLL_DISCRETE, r: x, y)
        }
        EisRequest::KeyboardKey(r) => timed!(change, KEY, r: r.key, u32::from(r.state)),
        EisRequest::TouchDown(r) => timed!(touch, TOUCH_DOWN, r: r.touch_id, r.x, r.y),
        EisRequest::TouchMotion(r) => timed!(touch, TOUCH_MOTION, r: r.touch_id, r.x, r.y),
        EisRequest::TouchUp(r) => timed!(change, TOUCH_UP, r: r.touch_id, 0),
        EisRequest::TouchCancel(r) => timed!(change, TOUCH_CANCEL, r: r.touch_id, 0),
        EisRequest::TextKeysym(r) => timed!(change, TEXT_KEYSYM, r: r.keysym, u32::from(r.state)),
        EisRequest::TextUtf8(r) => {
            let length = r.text.len() as u64;
            timed!(of_device, TEXT_UTF8, r: [length, 0, 0, 0])
        }
        EisRequest::GestureSwipe(r) => timed!(touch, GESTURE_SWIPE, r: r.fingers, r.dx, r.dy),
        EisRequest::GesturePinch(r) => timed!(change, GESTURE_PINCH, r: r.scale.0, 0),
    }
}

/// That the handshake is done, as C reads it.
pub(crate) fn of_connected() -> ReisRequest
    ensures { result ≡ of_connected }
{
    ReisRequest {
        kind: CONNECTED,
        seat: 0,
        device: 0,
        time: 0,
        fields: [0, 0, 0, 0],
    }
}

/// The notice as C reads it.
pub(crate) fn of_notice(notice: Notice) -> ReisRequest
    ensures { result ≡ of_notice notice }
{
    match notice {
        Notice::SeatReleased { seat } => ReisRequest {
            kind: SEAT_RELEASED,
            seat,
            device: 0,
            time: 0,
            fields: [0, 0, 0, 0],
        },
        Notice::Pong {
            ping,
            callback_data,
        } => ReisRequest {
            kind: PONG,
            seat: 0,
            device: 0,
            time: 0,
            fields: [ping, callback_data, 0, 0],
        },
    }
}

/// The text that a request bears.
pub(crate) fn text_in(request: &EisRequest) -> Option<&str>
    ensures { option_copied result ≡ text_in request.now }
{
    match request {
        EisRequest::TextUtf8(r) => Some(r.text.as_str()),
        _ => None,
    }
}
