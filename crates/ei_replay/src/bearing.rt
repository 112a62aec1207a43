//! What an item says, as far as a message has to bear it.

ghost use Rattle.std.specs.Prelude.{◌≡◌, ◌<◌, ◌^◌, true, map};
ghost use Rattle.std.specs.List.{All};
ghost use Rattle.std.specs.Str.{is_utf8};
ghost use Rattle.ei_playing.specs.Playing.{IsBorne};
ghost use Rattle.ei_replay.specs.Asked.{asked_of};

use ei_request::EisRequest;
use ei_wire::RawFloat;

/// Reads the items. Of what was read it is known that each number is in its type's range and each text is one,
/// so that messages can bear it.
pub(crate) fn read_all(items: &[EisRequest])
    ensures { All IsBorne (map asked_of items.now) }
{
    for at in 0..items.len() {
        read(&items[at]);
    }
}

/// Reads an item.
fn read(item: &EisRequest)
    ensures { IsBorne (asked_of item.now) }
{
    match item {
        EisRequest::Disconnect
        | EisRequest::DeviceClosed(_)
        | EisRequest::Ready(_)
        | EisRequest::ScrollStop(_)
        | EisRequest::ScrollCancel(_) => {}
        EisRequest::Bind(r) => long(r.capabilities.bits()),
        EisRequest::RequestDevice(r) => long(r.capabilities.bits()),
        EisRequest::Frame(r) => {
            word(r.last_serial);
            long(r.time);
        }
        EisRequest::DeviceStartEmulating(r) => {
            word(r.last_serial);
            word(r.sequence);
        }
        EisRequest::DeviceStopEmulating(r) => word(r.last_serial),
        EisRequest::PointerMotion(r) => {
            word(r.dx.0);
            word(r.dy.0);
        }
        EisRequest::PointerMotionAbsolute(r) => {
            word(r.dx_absolute.0);
            word(r.dy_absolute.0);
        }
        EisRequest::Button(r) => word(r.button),
        EisRequest::ScrollDelta(r) => {
            word(r.dx.0);
            word(r.dy.0);
        }
        EisRequest::ScrollDiscrete(r) => {
            let _numbers = (r.discrete_dx, r.discrete_dy);
        }
        EisRequest::KeyboardKey(r) => word(r.key),
        EisRequest::TouchDown(r) => touch(r.touch_id, r.x, r.y),
        EisRequest::TouchMotion(r) => touch(r.touch_id, r.x, r.y),
        EisRequest::TouchUp(r) => word(r.touch_id),
        EisRequest::TouchCancel(r) => word(r.touch_id),
        EisRequest::TextKeysym(r) => word(r.keysym),
        EisRequest::TextUtf8(r) => text(r.text.as_str()),
        EisRequest::GestureSwipe(r) => touch(r.fingers, r.dx, r.dy),
        EisRequest::GesturePinch(r) => word(r.scale.0),
    }
}

/// A number of 32 bits.
fn word(n: u32)
    ensures { n < 2 ^ 32 }
{
    let _read = n;
}

/// A number of 64 bits.
fn long(n: u64)
    ensures { n < 2 ^ 64 }
{
    let _read = n;
}

/// A number and a place, or a way.
fn touch(n: u32, x: RawFloat, y: RawFloat)
    ensures n { n < 2 ^ 32 }
    ensures x { x.0 < 2 ^ 32 }
    ensures y { y.0 < 2 ^ 32 }
{
    word(n);
    word(x.0);
    word(y.0);
}

/// A text.
#[tactic(auto, using(ei_spec::proofs::Utf8::is_text))]
fn text(text: &str)
    ensures { is_utf8 text.now ≡ true }
{
    let _read = text;
}
