//! An item at another time.

ghost use Rattle.std.specs.Prelude.{◌≡◌, IfOk};
ghost use Rattle.ei_replay.specs.Asked.{asked_of};
ghost use Rattle.ei_filter.specs.Kinds.{at_time};

use ei_request::EisRequest;
use ei_wire::NoMemory;
use std::alloc::Global;

/// The same item, at this time where it has one.
///
/// `NoMemory`, and only for a text.
pub(crate) fn at_time(alloc: Global, item: &EisRequest, time: u64) -> Result<EisRequest, NoMemory>
    ensures { IfOk result (λ r. asked_of r ≡ at_time time (asked_of item.now)) }
{
    let mut copy = item.copy(alloc)?;
    set_time(&mut copy, time);
    Ok(copy)
}

/// The item has this time, where it has one.
fn set_time(item: &mut EisRequest, time: u64)
    ensures { asked_of item.new ≡ at_time time (asked_of item.old) }
{
    match item {
        EisRequest::Disconnect
        | EisRequest::Bind(_)
        | EisRequest::RequestDevice(_)
        | EisRequest::DeviceClosed(_)
        | EisRequest::Ready(_)
        | EisRequest::DeviceStartEmulating(_)
        | EisRequest::DeviceStopEmulating(_) => {}
        EisRequest::Frame(r) => r.time = time,
        EisRequest::PointerMotion(r) => r.time = time,
        EisRequest::PointerMotionAbsolute(r) => r.time = time,
        EisRequest::Button(r) => r.time = time,
        EisRequest::ScrollDelta(r) => r.time = time,
        EisRequest::ScrollStop(r) => r.time = time,
        EisRequest::ScrollCancel(r) => r.time = time,
        EisRequest::ScrollDiscrete(r) => r.time = time,
        EisRequest::KeyboardKey(r) => r.time = time,
        EisRequest::TouchDown(r) => r.time = time,
        EisRequest::TouchMotion(r) => r.time = time,
        EisRequest::TouchUp(r) => r.time = time,
        EisRequest::TouchCancel(r) => r.time = time,
        EisRequest::TextKeysym(r) => r.time = time,
        EisRequest::TextUtf8(r) => r.time = time,
        EisRequest::GestureSwipe(r) => r.time = time,
        EisRequest::GesturePinch(r) => r.time = time,
    }
}
