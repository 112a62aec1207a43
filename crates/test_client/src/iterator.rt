//! An iterator over the events behind a handshake that blocks.

use crate::calls::Calls;
use crate::client::{Client, keep_key, put};
use crate::laying::{Lent, lay_out, push_bytes, push_sent};
use crate::words::{capabilities, push, push_shown};
use ei_backend::{Pieces, Readings};
use ei_client::Context;
use ei_event::EiEvent;
use ei_iterator::handshake_blocking;
use ei_types::{ContextType, Error};
use std::alloc::Global;
use std::fmt::Display;
use test_table::{Answer, Reader, Stop};

/// Adds what a call answers:
/// - `shake PIECES WORD..`: whether a handshake over these pieces gives an iterator, which may take as many a call, and
///   how many pieces are left;
/// - `next SOURCE SINK WORD..`: what the iterator answers over these pieces, how many are left, and what was sent. The
///   source fails at that call, and the sink at that, 0 at none;
/// - `bind CAPABILITIES`: whether the last seat is asked for these, and what was sent.
pub(crate) fn add(calls: &mut Calls, name: &str, words: &mut Reader<'_>, answer: &mut Answer) {
    match name {
        "shake" => shake(calls, words, answer),
        "next" => next(calls, words, answer),
        "bind" => bind(calls, words, answer),
        _ => answer.stop(Stop::Line),
    }
}

/// Shakes hands as a client of the name `demo`, over what is laid out.
fn shake(calls: &mut Calls, words: &mut Reader<'_>, answer: &mut Answer) {
    let pieces = words.number();
    let mut lent = Lent::new(calls.alloc);
    let context = laid_out(calls.alloc, &mut lent.source, words.rest(), answer);
    if let Some(context) = context {
        shake_over(calls, context, &mut lent, pieces, answer);
    }
    lent.push_left(answer);
    drop(lent);
}

/// The same, on that endpoint, over what is lent.
fn shake_over(
    calls: &mut Calls,
    context: Context,
    lent: &mut Lent,
    pieces: u32,
    answer: &mut Answer,
) {
    let shaken = handshake_blocking(
        calls.alloc,
        context,
        &mut lent.source,
        &mut lent.sink,
        "demo",
        ContextType::Sender,
        pieces,
    );
    keep_connected(&mut calls.iterator, shaken, answer);
}

/// A fresh endpoint, for which everything is ready.
fn laid_out(
    alloc: Global,
    source: &mut Pieces,
    words: &str,
    answer: &mut Answer,
) -> Option<Context> {
    let mut made = answer.take(Context::new(alloc));
    if let Some(context) = &mut made {
        lay_out(alloc, context, source, words, answer);
    }
    made
}

/// Keeps what a handshake gave, and adds whether it gave anything.
fn keep_connected<T: Drop, E: Display + Drop>(
    place: &mut Option<T>,
    shaken: Result<T, E>,
    answer: &mut Answer,
) {
    match shaken {
        Ok(value) => {
            put(place, Some(value));
            answer.put("connected ");
        }
        Err(error) => {
            push_shown(answer, &error);
            drop(error);
        }
    }
}

/// Asks for the next event over what is laid out.
fn next(calls: &mut Calls, words: &mut Reader<'_>, answer: &mut Answer) {
    let mut lent = Lent::new(calls.alloc);
    lent.fail_at(words, answer);
    let made = Readings::new(calls.alloc, &[100, 101, 102, 103]);
    if let Some(mut clock) = answer.take(made) {
        next_over(calls, &mut lent, &mut clock, words.rest(), answer);
        drop(clock);
    }
    lent.push_left(answer);
    push_bytes(calls.alloc, lent.sink.bytes(), "> ", answer);
    drop(lent);
}

/// The same, over what is lent, with a clock.
fn next_over(
    calls: &mut Calls,
    lent: &mut Lent,
    clock: &mut Readings,
    words: &str,
    answer: &mut Answer,
) {
    let Some(iterator) = &mut calls.iterator else {
        return answer.stop(Stop::Line);
    };
    lay_out(
        calls.alloc,
        iterator.context_mut(),
        &mut lent.source,
        words,
        answer,
    );
    let given = iterator.next(&mut lent.source, &mut lent.sink, clock);
    push_given(&mut calls.client, &given, answer);
    drop(given);
}

/// Adds the event that the iterator gave, or why it gave none. The keys of what an event added are kept.
fn push_given(client: &mut Client, given: &Option<Result<EiEvent, Error>>, answer: &mut Answer) {
    match given {
        Some(Ok(event)) => {
            keep_key(event, &mut client.seats, &mut client.devices, answer);
            push(answer, event);
        }
        Some(Err(error)) => push_shown(answer, error),
        None => answer.put("none "),
    }
}

/// Asks the last seat for these capabilities.
fn bind(calls: &mut Calls, words: &mut Reader<'_>, answer: &mut Answer) {
    let capabilities = capabilities(words);
    let (Some(iterator), Some(seat)) = (&mut calls.iterator, calls.client.seats.last()) else {
        return answer.stop(Stop::Line);
    };
    answer.take(iterator.bind_capabilities(seat, capabilities));
    answer.put("done 0 ");
    push_sent(calls.alloc, iterator.context_mut(), "> ", answer);
}
