//! What a request does, told by the request itself.

ghost use Rattle.std.specs.Prelude.{◌≡◌};
ghost use Rattle.ei_replay.specs.Asked.{id_of, asked_of};
ghost use Rattle.ei_replay.specs.Steps.{step_of, IsNamed};
ghost use Rattle.ei_replay.specs.declared.step.Step.TheVariants as step;

use crate::played::SEAT_ID;
use crate::step::{InputKind, Step};
use ei_backend::Interface;
use ei_request::{Device, EisRequest, Seat};
use ei_types::DeviceCapability;

/// The id of a seat.
fn seat_id(seat: &Seat) -> u64
    ensures { result ≡ seat.now.id }
{
    seat.eis_seat().as_object().id()
}

/// The id of a device of the one seat; 0, which no device has, for a device of another seat.
pub fn device_id(device: &Device) -> u64
    ensures { result ≡ id_of device.now }
{
    if seat_id(device.seat()) == SEAT_ID {
        device.device().as_object().id()
    } else {
        0
    }
}

/// What an input does.
fn input(device: &Device, time: u64, capability: DeviceCapability, kind: InputKind) -> Step
    ensures value { result ≡ step.Input (id_of device.now) time capability kind }
    ensures named { IsNamed result }
{
    Step::Input {
        device: device_id(device),
        time,
        capability,
        kind,
    }
}

/// What an item does.
pub(crate) fn step_of(item: &EisRequest) -> Step
    ensures value { result ≡ step_of (asked_of item.now) }
    ensures named { IsNamed result }
{
    match item {
        EisRequest::Disconnect => Step::End,
        EisRequest::Bind(r) => Step::Ask {
            seat: seat_id(&r.seat),
            mask: r.capabilities,
        },
        EisRequest::RequestDevice(r) => Step::Ask {
            seat: seat_id(&r.seat),
            mask: r.capabilities,
        },
        EisRequest::DeviceClosed(r) => Step::Close {
            device: device_id(&r.device),
        },
        EisRequest::Frame(r) => Step::Frame {
            device: device_id(&r.device),
            time: r.time,
        },
        EisRequest::Ready(r) => Step::Name {
            device: device_id(&r.device),
        },
        EisRequest::DeviceStartEmulating(r) => Step::Name {
            device: device_id(&r.device),
        },
        EisRequest::DeviceStopEmulating(r) => Step::Name {
            device: device_id(&r.device),
        },
        EisRequest::PointerMotion(r) => input(
            &r.device,
            r.time,
            DeviceCapability::Pointer,
            InputKind::Plain,
        ),
        EisRequest::PointerMotionAbsolute(r) => input(
            &r.device,
            r.time,
            DeviceCapability::PointerAbsolute,
            InputKind::Plain,
        ),
        EisRequest::Button(r) => input(
            &r.device,
            r.time,
            DeviceCapability::Button,
            InputKind::Plain,
        ),
        EisRequest::ScrollDelta(r) => input(
            &r.device,
            r.time,
            DeviceCapability::Scroll,
            InputKind::Plain,
        ),
        EisRequest::ScrollStop(r) => input(
            &r.device,
            r.time,
            DeviceCapability::Scroll,
            InputKind::Plain,
        ),
        EisRequest::ScrollCancel(r) => input(
            &r.device,
            r.time,
            DeviceCapability::Scroll,
            InputKind::Plain,
        ),
        EisRequest::ScrollDiscrete(r) => input(
            &r.device,
            r.time,
            DeviceCapability::Scroll,
            InputKind::Plain,
        ),
        EisRequest::KeyboardKey(r) => input(
            &r.device,
            r.time,
            DeviceCapability::Keyboard,
            InputKind::Plain,
        ),
        EisRequest::TouchDown(r) => input(
            &r.device,
            r.time,
            DeviceCapability::Touch,
            InputKind::Down(r.touch_id),
        ),
        EisRequest::TouchMotion(r) => input(
            &r.device,
            r.time,
            DeviceCapability::Touch,
            InputKind::Move(r.touch_id),
        ),
        EisRequest::TouchUp(r) => input(
            &r.device,
            r.time,
            DeviceCapability::Touch,
            InputKind::Lift(r.touch_id),
        ),
        EisRequest::TouchCancel(r) => input(
            &r.device,
            r.time,
            DeviceCapability::Touch,
            InputKind::Lift(r.touch_id),
        ),
        EisRequest::TextKeysym(r) => input(
            &r.device,
            r.time,
            DeviceCapability::Text,
            InputKind::Plain,
        ),
        EisRequest::TextUtf8(r) => input(
            &r.device,
            r.time,
            DeviceCapability::Text,
            InputKind::Text(r.text.len()),
        ),
        EisRequest::GestureSwipe(r) => input(
            &r.device,
            r.time,
            DeviceCapability::Gesture,
            InputKind::Plain,
        ),
        EisRequest::GesturePinch(r) => input(
            &r.device,
            r.time,
            DeviceCapability::Gesture,
            InputKind::Plain,
        ),
    }
}
