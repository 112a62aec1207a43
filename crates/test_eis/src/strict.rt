//! The policy beside the connection, as a program asks and tells it.

use crate::acting::made;
use crate::feeding::{bytes_of, done};
use crate::told::{part, push_next};
use crate::words::capabilities;
use ei_request::EisRequest;
use ei_types::{ContextType, DeviceType};
use ei_wire::NoMemory;
use reis_eis::Connection;
use reis_strict::{Strict, Verdict};
use std::alloc::Global;
use test_table::{Answer, Reader, Stop};

/// Adds what a call answers that asks the policy beside the connection, or tells it:
/// - `feed PART ..`: whether the parts are taken as one piece;
/// - `judge`: what becomes of the requests that wait, with slashes between them;
/// - `next`: the next request that passes;
/// - `seat CAPABILITIES` and `device SEAT CAPABILITIES`: the id of a new one;
/// - `reserve ID`: whether there is room for the device;
/// - `forget`: forgets each device that the connection doesn't hold;
/// - `resume ID`, `pause ID` and `remove ID`: whether the connection did it; the policy is told then.
pub(crate) fn ask(
    alloc: Global,
    connection: &mut Connection,
    strict: &mut Strict,
    name: &str,
    words: &mut Reader<'_>,
    answer: &mut Answer,
) {
    match name {
        "feed" => feed(alloc, connection, words.rest(), answer),
        "judge" => judge(connection, strict, answer),
        "next" => next(connection, strict, answer),
        "seat" => made(connection.add_seat(None, capabilities(words)), answer),
        "device" => device(connection, words, answer),
        "reserve" => reserve(strict, words.id(), answer),
        "forget" => forget(connection, strict, answer),
        _ => act(connection, strict, name, words.id(), answer),
    }
}

fn feed(alloc: Global, connection: &mut Connection, parts: &str, answer: &mut Answer) {
    if let Some(piece) = answer.take(bytes_of(alloc, parts)) {
        done(connection.feed(&piece, &[], 0), answer);
        drop(piece);
    }
}

fn device(connection: &mut Connection, words: &mut Reader<'_>, answer: &mut Answer) {
    let (seat, set) = (words.id(), capabilities(words));
    let added = connection.add_device(seat, None, DeviceType::Virtual, set, &[]);
    made(added, answer);
}

fn reserve(strict: &mut Strict, device: u64, answer: &mut Answer) {
    answer.take(strict.reserve(device));
    answer.put("done");
}

fn forget(connection: &Connection, strict: &mut Strict, answer: &mut Answer) {
    strict.forget_gone(connection);
    answer.put("done");
}

/// A call of the program about a device.
fn act(
    connection: &mut Connection,
    strict: &mut Strict,
    name: &str,
    device: u64,
    answer: &mut Answer,
) {
    let acted = match name {
        "resume" => connection.resume(device),
        "pause" => connection.pause(device),
        "remove" => connection.remove_device(device),
        _ => return answer.stop(Stop::Line),
    };
    if acted.is_ok() {
        tell(strict, name, device, answer);
    }
    done(acted, answer);
}

/// The policy is told of it.
fn tell(strict: &mut Strict, name: &str, device: u64, answer: &mut Answer) {
    match name {
        "resume" => {
            answer.take(strict.resumed(device));
        }
        "pause" => strict.paused(device),
        _ => strict.removed(device),
    }
}

fn next(connection: &mut Connection, strict: &mut Strict, answer: &mut Answer) {
    if let Some(next) = answer.take(strict.next(connection)) {
        push_next(next, 0, answer);
    }
}

/// Who says what becomes of a `T`.
trait Judges<T> {
    fn verdict(&mut self, role: ContextType, request: &T) -> Result<Verdict, NoMemory>;
}

impl Judges<EisRequest> for Strict {
    fn verdict(&mut self, role: ContextType, request: &EisRequest) -> Result<Verdict, NoMemory> {
        self.judge(role, request)
    }
}

/// What becomes of a request, if there is one, which is let go.
fn judge_some<T: Drop, J: Judges<T>>(
    strict: &mut J,
    role: ContextType,
    request: Option<T>,
) -> Option<Result<Verdict, NoMemory>> {
    match request {
        Some(request) => Some(strict.verdict(role, &request)),
        None => None,
    }
}

fn judge(connection: &mut Connection, strict: &mut Strict, answer: &mut Answer) {
    match connection.client() {
        Some(client) => {
            let role = client.context_type();
            judge_all(connection, strict, role, answer);
        }
        None => answer.stop(Stop::Line),
    }
}

/// Adds what becomes of the requests of a client of that role.
fn judge_all(
    connection: &mut Connection,
    strict: &mut Strict,
    role: ContextType,
    answer: &mut Answer,
) {
    for place in 0..100usize {
        match judge_some(strict, role, connection.next_request()) {
            Some(verdict) => push_verdict(verdict, place, answer),
            None => break,
        }
    }
}

/// Adds what becomes of a request, behind so many others.
fn push_verdict(verdict: Result<Verdict, NoMemory>, place: usize, answer: &mut Answer) {
    part(place, answer);
    match answer.take(verdict) {
        Some(Verdict::Pass) => answer.put("pass"),
        Some(Verdict::Drop) => answer.put("drop"),
        Some(Verdict::End(fault)) => {
            answer.put("end: ");
            answer.put(fault.text());
        }
        None => {}
    }
}
