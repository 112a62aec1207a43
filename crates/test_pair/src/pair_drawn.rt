//! A session between the two converters that a seed draws, compared with plain lists.

use crate::asking::{ask_sync, client_object};
use crate::changing::{ClientCall, Pair};
use crate::draws::Draws;
use crate::going::deliver_all;
use crate::keys::Keys;
use crate::linked::Linked;
use crate::making::server_object;
use crate::may::{ask, must_go, serve};
use crate::model::Lists;
use crate::pair_steps::step_once;
use crate::shown::{is_message, is_nothing, is_text};
use crate::spelled::{other, server_id};
use crate::told::Told;
use ei_backend::HasBackend;
use ei_linked::{Got, Side};
use ei_pair::ServerCall;
use ei_values::Value;
use std::alloc::Global;
use test_table::{Answer, Reader, Stop};

/// `schedule SEED STEPS`: so many steps that the seed draws, in a pair whose sides took all that was sent, with a seat `s1`, and
/// of it the first device that was made, `s2`, and its pointer `s3`. `equal` where each step answers Ok, each message that is
/// taken is the one that a plain list has in its place, and in the end all that was sent is taken, and what came of it is what
/// other plain lists have.
pub(crate) fn schedule(
    alloc: Global,
    answer: &mut Answer,
    pair: &mut Pair,
    keys: &Keys,
    mut words: Reader<'_>,
) {
    let draws = Draws::of(words.id());
    let steps = words.count();
    match keys.devices.get(0) {
        Some(device) if words.done().is_ok() => {
            let next = pair.client().backend().next_id();
            let serial = pair.handle().map_or(0, |handle| handle.last_serial());
            let mut lists = Lists::new(alloc, device, draws, next, serial);
            play(answer, pair, &mut lists, steps);
            tell_equal(answer, pair, &mut lists);
            // Let go by a call: at the end of a scope the drop of each field is proved anew.
            drop(lists);
        }
        _ => answer.stop(Stop::Line),
    }
}

/// Plays so many steps.
fn play(answer: &mut Answer, pair: &mut Pair, lists: &mut Lists<'_>, steps: usize) {
    for _ in 0..steps {
        if lists.draws.next() % 2 == 0 {
            go(answer, pair, Side::Client, lists);
        } else {
            go(answer, pair, Side::Server, lists);
        }
    }
}

/// Tells whether all came as the lists have it.
fn tell_equal(answer: &mut Answer, pair: &mut Pair, lists: &mut Lists<'_>) {
    if !lists.is_equal {
        answer.put("not equal");
        return;
    }
    take_all(answer, pair, Side::Server, lists);
    take_all(answer, pair, Side::Client, lists);
    let events = are_events(lists.alloc, answer, pair, &lists.server.told);
    let requests = are_requests(lists.alloc, answer, pair, &lists.client.told);
    let all = lists.is_equal && events && requests && are_called(pair, lists);
    answer.put(if all { "equal" } else { "not all" });
}

/// Does what is drawn at the side.
fn go(answer: &mut Answer, pair: &mut Pair, side: Side, lists: &mut Lists<'_>) {
    match lists.draws.next() % 5 {
        0 | 1 => say(answer, pair, side, lists),
        2 => pair.send_all(answer, side),
        3 => {
            let came = pair.hand_over(answer, side, 1 + lists.draws.next() as usize % 1536);
            drop(answer.take(came));
        }
        _ => {
            take(answer, pair, side, lists);
        }
    }
}

/// A step of the side. Whether it took a message: the lists keep whether that is the next that the other side sent.
fn take(answer: &mut Answer, pair: &mut Pair, side: Side, lists: &mut Lists<'_>) -> bool {
    let after = pair.sent(side).len();
    let stepped = step_once(lists.alloc, answer, pair, side);
    let took = answer.take(stepped).unwrap_or(false);
    if took {
        match pair.taken(side).last() {
            Some(got) => compare(answer, side, got, after as u64, lists),
            None => answer.stop(Stop::Call),
        }
    }
    took
}

/// Compares what the side took, once it had sent so many messages, with what the other sent.
fn compare(answer: &mut Answer, side: Side, got: &Got, after: u64, lists: &mut Lists<'_>) {
    let alloc = lists.alloc;
    let theirs = lists.theirs(side);
    let place = theirs.taken;
    theirs.taken = place.saturating_add(1);
    let (is_next, is_sync) = match theirs.sent.get(place) {
        Some(sent) => (
            is_message(alloc, answer, got, sent.as_str()) && after_of(got) == after,
            sent.as_str().starts_with("s0 ei_connection 1 0 "),
        ),
        None => (false, false),
    };
    lists.is_equal = lists.is_equal && is_next;
    if is_sync && side == Side::Server {
        lists.answers(answer);
    }
}

/// How many messages the side had sent when it took this.
fn after_of(got: &Got) -> u64 {
    match got {
        Got::Message { after, .. } => *after,
        Got::InvalidObject { after, .. } => *after,
    }
}

/// The side takes all that the other sent, one by one, once all is flushed and delivered.
fn take_all(answer: &mut Answer, pair: &mut Pair, side: Side, lists: &mut Lists<'_>) {
    pair.send_all(answer, other(side));
    let mut delivered = Answer::new(lists.alloc);
    deliver_all(&mut delivered, pair, side);
    drop(answer.take(delivered.text()));
    for _ in 0..u64::MAX {
        if !take(answer, pair, side, lists) {
            break;
        }
    }
    let theirs = lists.theirs(side);
    if theirs.taken != theirs.sent.len() {
        lists.is_equal = false;
    }
}

/// Whether the client's converter hands out these events, and no more.
fn are_events(alloc: Global, answer: &mut Answer, pair: &mut Pair, told: &[String]) -> bool {
    let mut all = true;
    for wanted in told {
        if !is_told(alloc, answer, pair.next_event(), wanted.as_str()) {
            all = false;
        }
    }
    all && is_nothing(pair.next_event())
}

/// Whether the server's converter hands out these requests, and no more.
fn are_requests(alloc: Global, answer: &mut Answer, pair: &mut Pair, told: &[String]) -> bool {
    let mut all = true;
    for wanted in told {
        if !is_told(alloc, answer, pair.next_request(), wanted.as_str()) {
            all = false;
        }
    }
    all && is_nothing(pair.next_request())
}

/// Whether what was handed out is what is wanted.
fn is_told<T: Told + Drop>(
    alloc: Global,
    answer: &mut Answer,
    told: Option<T>,
    wanted: &str,
) -> bool {
    match told {
        Some(told) => {
            let mut found = Answer::new(alloc);
            told.tell(&mut found);
            drop(told);
            is_text(answer, found, wanted)
        }
        None => {
            answer.stop(Stop::Call);
            false
        }
    }
}

/// Whether each handler was called once, in the order of the calls, and no other.
fn are_called(pair: &Pair, lists: &Lists<'_>) -> bool {
    let Some(converter) = pair.converter() else {
        return false;
    };
    let receipts = converter.receipts();
    for (receipt, asked) in receipts.iter().zip(lists.asked.iter()) {
        if receipt.callback != asked.callback || receipt.value != 0 || receipt.answer != asked.by {
            return false;
        }
    }
    receipts.len() == lists.asked.len()
}

/// The side makes a call that is drawn.
fn say(answer: &mut Answer, pair: &mut Pair, side: Side, lists: &mut Lists<'_>) {
    match side {
        Side::Client => say_client(answer, pair, lists),
        Side::Server => say_server(answer, pair, lists),
    }
}

/// The client makes a call that is drawn.
fn say_client(answer: &mut Answer, pair: &mut Pair, lists: &mut Lists<'_>) {
    match lists.draws.next() % 6 {
        0 | 1 | 2 => move_client(answer, pair, lists),
        3 => frame_client(answer, pair, lists),
        4 => bind(answer, pair, lists),
        _ => sync(answer, pair, lists),
    }
}

/// The server makes a call that is drawn.
fn say_server(answer: &mut Answer, pair: &mut Pair, lists: &mut Lists<'_>) {
    match lists.draws.next() % 6 {
        0 | 1 | 2 => move_server(answer, pair, lists),
        3 | 4 => frame_server(answer, pair, lists),
        _ => start(answer, pair, lists),
    }
}

/// The client's message to the object of the server's that has this place.
fn request(answer: &mut Answer, pair: &mut Pair, place: u64, opcode: u32, values: &[Value]) {
    match client_object(pair, server_id(place)) {
        Some(target) => {
            let call = ClientCall::Call {
                target,
                opcode,
                values,
            };
            must_go(answer, ask(pair, call));
        }
        None => answer.stop(Stop::Call),
    }
}

/// The server's message to its object of this place.
fn input(answer: &mut Answer, pair: &mut Pair, place: u64, opcode: u32, values: &[Value]) {
    match server_object(pair, server_id(place)) {
        Some(target) => {
            let call = ServerCall::Input {
                target,
                opcode,
                values,
            };
            must_go(answer, serve(pair, call));
        }
        None => answer.stop(Stop::Call),
    }
}

fn move_client(answer: &mut Answer, pair: &mut Pair, lists: &mut Lists<'_>) {
    let (dx, dy) = (lists.draws.next(), lists.draws.next());
    request(answer, pair, 3, 1, &[Value::Float(dx), Value::Float(dy)]);
    lists.client.moves(answer, dx, dy);
}

fn frame_client(answer: &mut Answer, pair: &mut Pair, lists: &mut Lists<'_>) {
    let (serial, time) = (lists.draws.next(), u64::from(lists.draws.next()));
    request(
        answer,
        pair,
        2,
        3,
        &[Value::Uint32(serial), Value::Uint64(time)],
    );
    lists.client.frames(answer, 3, serial, time);
}

fn bind(answer: &mut Answer, pair: &mut Pair, lists: &mut Lists<'_>) {
    let mask = u64::from(lists.draws.next() % 256);
    request(answer, pair, 1, 1, &[Value::Uint64(mask)]);
    lists.client.binds(answer, mask);
}

fn sync(answer: &mut Answer, pair: &mut Pair, lists: &mut Lists<'_>) {
    let by = u64::from(lists.draws.next());
    must_go(answer, ask_sync(pair, by));
    lists.asks(answer, by);
}

fn move_server(answer: &mut Answer, pair: &mut Pair, lists: &mut Lists<'_>) {
    let (dx, dy) = (lists.draws.next(), lists.draws.next());
    input(answer, pair, 3, 1, &[Value::Float(dx), Value::Float(dy)]);
    lists.server.moves(answer, dx, dy);
}

fn frame_server(answer: &mut Answer, pair: &mut Pair, lists: &mut Lists<'_>) {
    let time = u64::from(lists.draws.next());
    if let Some(device) = answer.take(lists.device.clone()) {
        must_go(answer, serve(pair, ServerCall::Frame(device, time)));
    }
    lists.server_frames(answer, time);
}

fn start(answer: &mut Answer, pair: &mut Pair, lists: &mut Lists<'_>) {
    let sequence = lists.draws.next();
    if let Some(device) = answer.take(lists.device.clone()) {
        must_go(
            answer,
            serve(pair, ServerCall::StartEmulating(device, sequence)),
        );
    }
    lists.server_starts(answer, sequence);
}
