//! The lines of requests.

ghost use Rattle.std.specs.Prelude.{◌≡◌, IfOk};
ghost use Rattle.reis_report.specs.Fields.{line_text};
ghost use Rattle.reis_report.specs.RequestLine.{request_text};

use crate::fields::{Field, button_name, key_name};
use ei_request::EisRequest;
use ei_wire::{EiText, NoMemory};
use std::alloc::Global;
use std::fmt;

/// The line that reports a request, without its newline.
pub fn request_line(alloc: Global, request: &EisRequest) -> Result<EiText, NoMemory>
    ensures { IfOk result (λ line. line ≡ request_text request.now) }
{
    let line = line_of(request);
    let line = format!(in alloc; "{line}")?;
    EiText::new(alloc, line.as_str())
}

/// A request's name, and its fields.
#[derive(Clone, Copy)]
enum Line<'a> {
    Bare(&'static str),
    One(&'static str, Field<'a>),
    Two(&'static str, Field<'a>, Field<'a>),
    Three(&'static str, Field<'a>, Field<'a>, Field<'a>),
    Four(&'static str, Field<'a>, Field<'a>, Field<'a>, Field<'a>),
}

impl fmt::Display for Line<'_> {
    ghost use Rattle.std.specs.Prelude.{Some};
    ghost use Rattle.reis_report.specs.Fields.{line_text};

    ghost output = { λ line. Some (line_text line) };

    fn fmt<W: fmt::Write>(&self, f: &mut fmt::Formatter<W>) -> fmt::Result {
        match self {
            Line::Bare(name) => f.write_str(name),
            Line::One(name, a) => write!(f, "{name}{a}"),
            Line::Two(name, a, b) => write!(f, "{name}{a}{b}"),
            Line::Three(name, a, b, c) => write!(f, "{name}{a}{b}{c}"),
            Line::Four(name, a, b, c, d) => write!(f, "{name}{a}{b}{c}{d}"),
        }
    }
}

/// The line of a request.
fn line_of(request: &EisRequest) -> Line<'_>
    ensures { line_text result ≡ request_text request.now }
{
    match request {
        EisRequest::Disconnect => Line::Bare("disconnect"),
        EisRequest::Bind(r) => Line::Two(
            "bind",
            Field::Seat(&r.seat),
            Field::Number("capabilities", r.capabilities.bits()),
        ),
        EisRequest::RequestDevice(r) => Line::Two(
            "request_device",
            Field::Seat(&r.seat),
            Field::Number("capabilities", r.capabilities.bits()),
        ),
        EisRequest::DeviceClosed(r) => Line::One("device_closed", Field::Device(&r.device)),
        EisRequest::Frame(r) => Line::Three(
            "frame",
            Field::Device(&r.device),
            Field::Number("serial", u64::from(r.last_serial)),
            Field::Number("time", r.time),
        ),
        EisRequest::Ready(r) => Line::One("ready", Field::Device(&r.device)),
        EisRequest::DeviceStartEmulating(r) => Line::Three(
            "start_emulating",
            Field::Device(&r.device),
            Field::Number("serial", u64::from(r.last_serial)),
            Field::Number("sequence", u64::from(r.sequence)),
        ),
        EisRequest::DeviceStopEmulating(r) => Line::Two(
            "stop_emulating",
            Field::Device(&r.device),
            Field::Number("serial", u64::from(r.last_serial)),
        ),
        EisRequest::PointerMotion(r) => Line::Three(
            "pointer_motion",
            Field::Input(&r.device, r.time),
            Field::Word("dx", r.dx),
            Field::Word("dy", r.dy),
        ),
        EisRequest::PointerMotionAbsolute(r) => Line::Three(
            "pointer_motion_absolute",
            Field::Input(&r.device, r.time),
            Field::Word("dx", r.dx_absolute),
            Field::Word("dy", r.dy_absolute),
        ),
        EisRequest::Button(r) => Line::Three(
            "button",
            Field::Input(&r.device, r.time),
            Field::Number("button", u64::from(r.button)),
            Field::State(button_name(r.state)),
        ),
        EisRequest::ScrollDelta(r) => Line::Three(
            "scroll_delta",
            Field::Input(&r.device, r.time),
            Field::Word("dx", r.dx),
            Field::Word("dy", r.dy),
        ),
        EisRequest::ScrollStop(r) => Line::Three(
            "scroll_stop",
            Field::Input(&r.device, r.time),
            Field::Truth("x", r.x),
            Field::Truth("y", r.y),
        ),
        EisRequest::ScrollCancel(r) => Line::Three(
            "scroll_cancel",
            Field::Input(&r.device, r.time),
            Field::Truth("x", r.x),
            Field::Truth("y", r.y),
        ),
        EisRequest::ScrollDiscrete(r) => Line::Three(
            "scroll_discrete",
            Field::Input(&r.device, r.time),
            Field::Signed("dx", r.discrete_dx),
            Field::Signed("dy", r.discrete_dy),
        ),
        EisRequest::KeyboardKey(r) => Line::Three(
            "keyboard_key",
            Field::Input(&r.device, r.time),
            Field::Number("key", u64::from(r.key)),
            Field::State(key_name(r.state)),
        ),
        EisRequest::TouchDown(r) => Line::Four(
            "touch_down",
            Field::Input(&r.device, r.time),
            Field::Number("touch", u64::from(r.touch_id)),
            Field::Word("x", r.x),
            Field::Word("y", r.y),
        ),
        EisRequest::TouchMotion(r) => Line::Four(
            "touch_motion",
            Field::Input(&r.device, r.time),
            Field::Number("touch", u64::from(r.touch_id)),
            Field::Word("x", r.x),
            Field::Word("y", r.y),
        ),
        EisRequest::TouchUp(r) => Line::Two(
            "touch_up",
            Field::Input(&r.device, r.time),
            Field::Number("touch", u64::from(r.touch_id)),
        ),
        EisRequest::TouchCancel(r) => Line::Two(
            "touch_cancel",
            Field::Input(&r.device, r.time),
            Field::Number("touch", u64::from(r.touch_id)),
        ),
        EisRequest::TextKeysym(r) => Line::Three(
            "text_keysym",
            Field::Input(&r.device, r.time),
            Field::Number("keysym", u64::from(r.keysym)),
            Field::State(key_name(r.state)),
        ),
        EisRequest::TextUtf8(r) => Line::Two(
            "text_utf8",
            Field::Input(&r.device, r.time),
            Field::Bytes("text", r.text.as_str().as_bytes()),
        ),
        EisRequest::GestureSwipe(r) => Line::Four(
            "gesture_swipe",
            Field::Input(&r.device, r.time),
            Field::Number("fingers", u64::from(r.fingers)),
            Field::Word("dx", r.dx),
            Field::Word("dy", r.dy),
        ),
        EisRequest::GesturePinch(r) => Line::Two(
            "gesture_pinch",
            Field::Input(&r.device, r.time),
            Field::Word("scale", r.scale),
        ),
    }
}
