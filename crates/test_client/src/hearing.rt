//! The events of a server, as they come.

use crate::client::{Client, clear};
use crate::laying::read;
use crate::words::{push, push_shown};
use ei_backend::{PendingRequestResult, Readings};
use ei_client::{Context, Event};
use ei_event::{EiEvent, EiEventConverter};
use ei_wire::Handle;
use std::fmt::Display;
use test_table::{Answer, Stop};

/// `hear BYTES`: adds what the converter makes of the events in these bytes, or why it refuses one; a handle, 7, comes with
/// them. The events after a refused one are handled too. Where nothing comes of them it says so.
pub(crate) fn hear(client: &mut Client, digits: &str, answer: &mut Answer) {
    let all_taken = take_digits(client, digits, answer);
    client.take_told(answer);
    push_told(&client.told, answer);
    if all_taken && client.told.is_empty() {
        answer.put("nothing ");
    }
}

/// Hands the converter all events in the bytes of these digits, and adds why some are refused. Whether none is.
pub(crate) fn take_digits(client: &mut Client, digits: &str, answer: &mut Answer) -> bool {
    read(
        client.alloc,
        &mut client.context,
        digits,
        &[Handle(7)],
        answer,
    );
    match &mut client.converter {
        Some(converter) => take_all(&mut client.context, converter, &mut client.clock, answer),
        None => {
            answer.stop(Stop::Line);
            false
        }
    }
}

/// Hands the converter all events that are unread, and adds why some are refused. Whether none is.
fn take_all(
    context: &mut Context,
    converter: &mut EiEventConverter,
    clock: &mut Readings,
    answer: &mut Answer,
) -> bool {
    let mut all_taken = true;
    for _ in 0..context.unread_len() {
        match take_one(context, converter, clock, answer) {
            Some(taken) => all_taken &= taken,
            None => break,
        }
    }
    all_taken
}

/// Hands the converter what stands at the front, if there is anything, and adds why it is refused. Whether it isn't.
fn take_one(
    context: &mut Context,
    converter: &mut EiEventConverter,
    clock: &mut Readings,
    answer: &mut Answer,
) -> Option<bool> {
    match answer.take(context.pending_event()).flatten() {
        Some(pending) => Some(hand(context, converter, clock, pending, answer)),
        None => None,
    }
}

/// Hands the converter what came, and adds why it is refused. Whether it isn't.
fn hand(
    context: &mut Context,
    converter: &mut EiEventConverter,
    clock: &mut Readings,
    pending: PendingRequestResult<Event>,
    answer: &mut Answer,
) -> bool {
    match pending {
        PendingRequestResult::Request(event) => {
            is_taken(converter.handle_event(context, clock, event), answer)
        }
        PendingRequestResult::ParseError(error) => is_taken(Err(error), answer),
        PendingRequestResult::InvalidObject(id) => {
            answer.put("no object ");
            is_taken(Err(id), answer)
        }
    }
}

/// Adds why an event is refused, where it is. Whether it isn't.
fn is_taken<E: Display + Drop>(handled: Result<(), E>, answer: &mut Answer) -> bool {
    match handled {
        Ok(()) => true,
        Err(error) => {
            push_shown(answer, &error);
            answer.put("/ ");
            drop(error);
            false
        }
    }
}

/// Adds these events.
fn push_told(told: &[EiEvent], answer: &mut Answer) {
    for event in told {
        push(answer, event);
        answer.put("/ ");
    }
}

/// `drain BYTES`: adds how many events wait, once the converter handled those in these bytes, how many are moved out at
/// once, and how many wait then.
pub(crate) fn drain(client: &mut Client, digits: &str, answer: &mut Answer) {
    take_digits(client, digits, answer);
    clear(&mut client.told);
    match &mut client.converter {
        Some(converter) => drain_told(converter, &mut client.told, answer),
        None => answer.stop(Stop::Line),
    }
}

/// Moves all events that wait out, and adds how many there were, how many came, and how many are left.
fn drain_told(converter: &mut EiEventConverter, told: &mut Vec<EiEvent>, answer: &mut Answer) {
    push(answer, &converter.queued_len());
    answer.take(converter.drain_into(told));
    push(answer, &told.len());
    push(answer, &converter.queued_len());
}
