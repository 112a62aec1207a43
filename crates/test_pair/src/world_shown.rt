//! What is told of a world's reads and runs.

use crate::shown::{tell, tell_arg, tell_id, tell_object, tell_read_error, tell_send_error};
use ei_backend::{MessageEnum, PendingRequestResult};
use ei_wire::Arg;
use ei_world::{Received, WorldEnd};
use std::alloc::Global;
use test_table::{Answer, Stop};

/// Tells a message that was read.
fn tell_message<T: MessageEnum>(alloc: Global, answer: &mut Answer, message: &T) {
    tell_object(answer, message.object());
    tell(answer, " ", &message.opcode());
    if let Some(args) = answer.take(message.arguments(alloc)) {
        tell_args(answer, &args);
        // Let go by a call: at the end of a scope the drop of each field is proved anew.
        drop(args);
    }
}

/// Tells values, one behind another.
fn tell_args(answer: &mut Answer, args: &[Arg<'_>]) {
    for arg in args {
        tell_arg(answer, arg);
    }
}

fn tell_pending<T: MessageEnum>(
    alloc: Global,
    answer: &mut Answer,
    pending: &PendingRequestResult<T>,
) {
    match pending {
        PendingRequestResult::Request(message) => tell_message(alloc, answer, message),
        PendingRequestResult::InvalidObject(id) => tell_id(answer, "gone ", *id),
        PendingRequestResult::ParseError(_) => answer.stop(Stop::Call),
    }
}

/// Tells what a read answers.
pub(crate) fn tell_received(alloc: Global, answer: &mut Answer, received: &Option<Received>) {
    match received {
        None => answer.put("nothing"),
        Some(Received::Client(pending)) => tell_pending(alloc, answer, pending),
        Some(Received::Server(pending)) => tell_pending(alloc, answer, pending),
    }
}

/// Tells how a run ended.
pub(crate) fn tell_end(answer: &mut Answer, end: Result<(), WorldEnd>) {
    match end {
        Ok(()) => answer.put("made"),
        Err(WorldEnd::BadStep(place)) => tell(answer, "bad ", &place),
        Err(WorldEnd::Send(error)) => tell_send_error(answer, error),
        Err(WorldEnd::Read(error)) => tell_read_error(answer, error),
        Err(WorldEnd::NoMemory) => answer.stop(Stop::NoMemory),
    }
}
