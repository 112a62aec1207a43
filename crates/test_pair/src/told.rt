//! What the converters hand out, as texts.

use crate::shown::tell;
use ei_event::EiEvent;
use ei_request::EisRequest;
use test_table::Answer;

/// Tells an input of two floats, with the time of its frame.
pub(crate) fn tell_motion(answer: &mut Answer, dx: u32, dy: u32, time: u64) {
    tell(answer, "motion ", &dx);
    tell(answer, " ", &dy);
    tell(answer, " at ", &time);
}

/// Tells a frame.
pub(crate) fn tell_frame(answer: &mut Answer, serial: u32, time: u64) {
    tell(answer, "frame ", &serial);
    tell(answer, " at ", &time);
}

/// Tells that input begins.
pub(crate) fn tell_start(answer: &mut Answer, serial: u32, sequence: u32) {
    tell(answer, "start ", &serial);
    tell(answer, " by ", &sequence);
}

/// Tells what a client asks of a seat.
pub(crate) fn tell_bind(answer: &mut Answer, mask: u64) {
    tell(answer, "bind ", &mask);
}

/// What a converter hands out.
pub(crate) trait Told {
    /// Tells what it is.
    fn tell(&self, answer: &mut Answer);
}

impl Told for EiEvent {
    fn tell(&self, answer: &mut Answer) {
        match self {
            EiEvent::PointerMotion(it) => tell_motion(answer, it.dx.0, it.dy.0, it.time),
            EiEvent::Frame(it) => tell_frame(answer, it.serial, it.time),
            EiEvent::DeviceStartEmulating(it) => tell_start(answer, it.serial, it.sequence),
            _ => answer.put("another"),
        }
    }
}

impl Told for EisRequest {
    fn tell(&self, answer: &mut Answer) {
        match self {
            EisRequest::PointerMotion(it) => tell_motion(answer, it.dx.0, it.dy.0, it.time),
            EisRequest::Frame(it) => tell_frame(answer, it.last_serial, it.time),
            EisRequest::Bind(it) => tell_bind(answer, it.capabilities.bits()),
            _ => answer.put("another"),
        }
    }
}
