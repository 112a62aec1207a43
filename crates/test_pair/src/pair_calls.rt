//! The calls of two endpoints with handshakes and converters by their names.

use crate::asking::{call, sync_with};
use crate::changing::Pair;
use crate::going::{deliver, flush, look_at};
use crate::keys::Keys;
use crate::looking::look;
use crate::making::{add_device, add_seat, bear, hold, input, leave, remove_seat};
use crate::pair_drawn::schedule;
use crate::pair_firm::firm;
use crate::pair_steps::{carry, settle, step, steps};
use crate::spelled::{is_read, side_of};
use std::alloc::Global;
use test_table::{Answer, Reader};

/// Makes the call of that name.
pub(crate) fn make(
    alloc: Global,
    answer: &mut Answer,
    pair: &mut Pair,
    keys: &mut Keys,
    name: &str,
    words: Reader<'_>,
) {
    match name {
        "times" => times(alloc, answer, pair, keys, words),
        "firm" => firm(alloc, answer, pair, keys, words),
        "schedule" => schedule(alloc, answer, pair, keys, words),
        "settle" => settle(alloc, answer, pair, 1536),
        "settle-by" => settle_by(alloc, answer, pair, words),
        _ => between(alloc, answer, pair, keys, name, words),
    }
}

/// `settle-by COUNT`: what is sent comes in pieces of so many bytes.
fn settle_by(alloc: Global, answer: &mut Answer, pair: &mut Pair, mut words: Reader<'_>) {
    let many = words.count();
    if is_read(answer, &words) {
        settle(alloc, answer, pair, many);
    }
}

/// A call of the client, bytes that go and steps, or what can be seen of a side.
fn between(
    alloc: Global,
    answer: &mut Answer,
    pair: &mut Pair,
    keys: &mut Keys,
    name: &str,
    words: Reader<'_>,
) {
    match name {
        "call" => call(alloc, answer, pair, words),
        "sync" => sync_with(answer, pair, words),
        "flush" | "deliver" | "carry" | "step" | "steps" => go(alloc, answer, pair, name, words),
        "count" | "closed" | "wanted" | "sent" | "taken" => at_side(answer, pair, name, words),
        _ => serve(alloc, answer, pair, keys, name, words),
    }
}

/// A call of the server, or what can be seen of both.
fn serve(
    alloc: Global,
    answer: &mut Answer,
    pair: &mut Pair,
    keys: &mut Keys,
    name: &str,
    words: Reader<'_>,
) {
    match name {
        "seat" => add_seat(alloc, answer, pair, keys, words),
        "device" => add_device(alloc, answer, pair, keys, words),
        "remove-seat" => remove_seat(answer, pair, keys, words),
        "remove" | "resumed" | "paused" | "start" | "stop" | "frame" => {
            bear(answer, pair, keys, name, words)
        }
        "hold" => hold(answer, pair, keys, words),
        "input" => input(alloc, answer, pair, keys, words),
        "leave" => leave(alloc, answer, pair, words),
        _ => look(answer, pair, name),
    }
}

/// Bytes that go, and steps: the side stands first.
fn go(alloc: Global, answer: &mut Answer, pair: &mut Pair, name: &str, mut words: Reader<'_>) {
    let side = side_of(&mut words);
    if is_read(answer, &words) {
        match name {
            "flush" => flush(answer, pair, side),
            "deliver" => deliver(answer, pair, side, words),
            "carry" => carry(answer, pair, side),
            "step" => step(alloc, answer, pair, side),
            _ => steps(alloc, answer, pair, side),
        }
    }
}

/// What can be seen of a side, which stands first.
fn at_side(answer: &mut Answer, pair: &Pair, name: &str, mut words: Reader<'_>) {
    let side = side_of(&mut words);
    if is_read(answer, &words) {
        match name {
            "wanted" => answer.display(&pair.wanted_memory(side)),
            _ => look_at(answer, pair, name, side, words),
        }
    }
}

/// `times COUNT CALL`: the same call of the server so often; the last answer.
fn times(
    alloc: Global,
    answer: &mut Answer,
    pair: &mut Pair,
    keys: &mut Keys,
    mut words: Reader<'_>,
) {
    let many = words.count();
    let name = words.word();
    if is_read(answer, &words) {
        let mut before = Answer::new(alloc);
        for _ in 1..many {
            serve(alloc, &mut before, pair, keys, name, words);
        }
        drop(answer.take(before.text()));
        serve(alloc, answer, pair, keys, name, words);
    }
}
