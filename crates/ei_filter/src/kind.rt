//! What an item is to a filter.

ghost use Rattle.std.specs.Prelude.{◌≡◌, map};
ghost use Rattle.ei_replay.specs.Asked.{id_of, asked_of};
ghost use Rattle.ei_filter.specs.Kinds.{kind_of, is_input_of, frame_time};
ghost use Rattle.ei_filter.specs.Steps.{frame_ahead};
ghost use Rattle.ei_filter.specs.declared.kind.Kind.TheVariants as kinds;

use ei_replay::device_id;
use ei_request::{Device, EisRequest};

/// What an item is to a filter. Devices are named by their ids.
#[derive(Clone, Copy)]
pub(crate) enum Kind {
    /// An input of a device.
    Input { device: u64, touch: Touch },
    /// The frame of a device.
    Frame { device: u64, time: u64 },
    /// Neither of them: it passes.
    Other,
}

/// What an input does to a touch.
#[derive(Clone, Copy)]
pub(crate) enum Touch {
    /// It begins.
    Begin(u32),
    /// It moves.
    Move(u32),
    /// It ends.
    End(u32),
    /// The input is of no touch.
    Nothing,
}

/// An input of the device.
fn input(device: &Device, touch: Touch) -> Kind
    ensures { result ≡ kinds.Input (id_of device.now) touch }
{
    Kind::Input {
        device: device_id(device),
        touch,
    }
}

/// What an item is.
pub(crate) fn kind_of(item: &EisRequest) -> Kind
    ensures { result ≡ kind_of (asked_of item.now) }
{
    match item {
        EisRequest::Disconnect
        | EisRequest::Bind(_)
        | EisRequest::RequestDevice(_)
        | EisRequest::DeviceClosed(_)
        | EisRequest::Ready(_)
        | EisRequest::DeviceStartEmulating(_)
        | EisRequest::DeviceStopEmulating(_) => Kind::Other,
        EisRequest::Frame(r) => Kind::Frame {
            device: device_id(&r.device),
            time: r.time,
        },
        EisRequest::PointerMotion(r) => input(&r.device, Touch::Nothing),
        EisRequest::PointerMotionAbsolute(r) => input(&r.device, Touch::Nothing),
        EisRequest::Button(r) => input(&r.device, Touch::Nothing),
        EisRequest::ScrollDelta(r) => input(&r.device, Touch::Nothing),
        EisRequest::ScrollStop(r) => input(&r.device, Touch::Nothing),
        EisRequest::ScrollCancel(r) => input(&r.device, Touch::Nothing),
        EisRequest::ScrollDiscrete(r) => input(&r.device, Touch::Nothing),
        EisRequest::KeyboardKey(r) => input(&r.device, Touch::Nothing),
        EisRequest::TouchDown(r) => input(&r.device, Touch::Begin(r.touch_id)),
        EisRequest::TouchMotion(r) => input(&r.device, Touch::Move(r.touch_id)),
        EisRequest::TouchUp(r) => input(&r.device, Touch::End(r.touch_id)),
        EisRequest::TouchCancel(r) => input(&r.device, Touch::End(r.touch_id)),
        EisRequest::TextKeysym(r) => input(&r.device, Touch::Nothing),
        EisRequest::TextUtf8(r) => input(&r.device, Touch::Nothing),
        EisRequest::GestureSwipe(r) => input(&r.device, Touch::Nothing),
        EisRequest::GesturePinch(r) => input(&r.device, Touch::Nothing),
    }
}

/// Whether it is an input of the device.
fn is_input_of(kind: Kind, device: u64) -> bool
    ensures { result ≡ is_input_of device kind }
{
    match kind {
        Kind::Input { device: d, .. } => d == device,
        _ => false,
    }
}

/// The time, where it is a frame of the device.
fn frame_time(kind: Kind, device: u64) -> Option<u64>
    ensures { result ≡ frame_time device kind }
{
    match kind {
        Kind::Frame { device: d, time } if d == device => Some(time),
        _ => None,
    }
}

/// The time of the frame that comes behind inputs of the device alone, if one does.
pub(crate) fn frame_ahead(items: &[EisRequest], device: u64) -> Option<u64>
    ensures { result ≡ frame_ahead device (map asked_of items.now) }
{
    let mut later = items;
    while let Some((item, rest)) = later.split_first() {
        let kind = kind_of(item);
        if !is_input_of(kind, device) {
            return frame_time(kind, device);
        }
        later = rest;
    }
    None
}
