//! The calls of the server.

use crate::changing::Pair;
use crate::describing::describe;
use crate::keys::Keys;
use crate::may::serve;
use crate::shown::tell_send_error;
use crate::spelled::{capabilities, id_of, is_read, name_of, text_of, values_of};
use ei_backend::{HasBackend, Object};
use ei_pair::{Made, ServerCall};
use ei_request::Device;
use ei_types::{DeviceCapabilities, DisconnectReason};
use ei_values::Value;
use ei_wire::SendError;
use std::alloc::Global;
use std::fmt::Debug;
use test_table::{Answer, Reader, Stop};

/// Tells what a call of the server answers; what it made is kept.
fn tell_made(answer: &mut Answer, keys: &mut Keys, made: Option<Result<Made, SendError>>) {
    match made {
        Some(Ok(made)) => tell_kept(answer, keys, made),
        Some(Err(error)) => tell_send_error(answer, error),
        None => answer.put("may not"),
    }
}

/// Tells what was made, which is kept.
fn tell_kept(answer: &mut Answer, keys: &mut Keys, made: Made) {
    match made {
        Made::Nothing => answer.put("done"),
        Made::Seat(seat) => put(answer, &mut keys.seats, seat),
        Made::Device(device) => put(answer, &mut keys.devices, device),
    }
}

/// Tells it, and puts it behind the others.
fn put<T: Debug + Drop>(answer: &mut Answer, others: &mut Vec<T>, it: T) {
    answer.show(&it);
    drop(answer.take(others.push(it)));
}

/// The seat or the device that was made in that place.
fn made_at<T: Clone>(answer: &mut Answer, made: &[T], place: usize) -> Option<T> {
    match made.get(place) {
        Some(it) => answer.take(it.clone()),
        None => {
            answer.stop(Stop::Line);
            None
        }
    }
}

/// `seat NAME CAPABILITIES`.
pub(crate) fn add_seat(
    alloc: Global,
    answer: &mut Answer,
    pair: &mut Pair,
    keys: &mut Keys,
    mut words: Reader<'_>,
) {
    let name = words.word();
    let wanted = capabilities(&mut words);
    if is_read(answer, &words) {
        let made = announce(alloc, answer, pair, name, wanted);
        tell_made(answer, keys, made);
    }
}

/// What the server answers where it is to add a seat of the name that a word spells; `None` where it may not add it now.
pub(crate) fn announce(
    alloc: Global,
    answer: &mut Answer,
    pair: &mut Pair,
    name: &str,
    capabilities: DeviceCapabilities,
) -> Option<Result<Made, SendError>> {
    let text = text_of(alloc, answer, name);
    let name = name_of(name, text.as_str());
    let made = serve(pair, ServerCall::AddSeat { name, capabilities });
    // Let go by a call: at the end of a scope the drop of each field is proved anew.
    drop(text);
    made
}

/// `device SEAT NAME CAPABILITIES`: a physical one, with a description where it is to get a keyboard.
pub(crate) fn add_device(
    alloc: Global,
    answer: &mut Answer,
    pair: &mut Pair,
    keys: &mut Keys,
    mut words: Reader<'_>,
) {
    let place = words.count();
    let name = words.word();
    let wanted = capabilities(&mut words);
    if is_read(answer, &words) {
        let made = announce_device(alloc, answer, pair, keys, place, name, wanted);
        tell_made(answer, keys, made);
    }
}

/// What the server answers where it is to add a device of the seat in that place; `None` where it may not add it now.
pub(crate) fn announce_device(
    alloc: Global,
    answer: &mut Answer,
    pair: &mut Pair,
    keys: &Keys,
    place: usize,
    name: &str,
    wanted: DeviceCapabilities,
) -> Option<Result<Made, SendError>> {
    let Some(seat) = made_at(answer, &keys.seats, place) else {
        return None;
    };
    let text = text_of(alloc, answer, name);
    let made = describe(pair, seat, name_of(name, text.as_str()), wanted);
    drop(text);
    made
}

/// `remove-seat PLACE`: a seat is taken away.
pub(crate) fn remove_seat(
    answer: &mut Answer,
    pair: &mut Pair,
    keys: &mut Keys,
    mut words: Reader<'_>,
) {
    let place = words.count();
    if is_read(answer, &words) {
        if let Some(seat) = made_at(answer, &keys.seats, place) {
            tell_made(answer, keys, serve(pair, ServerCall::RemoveSeat(seat)));
        }
    }
}

/// `remove PLACE`, `resumed PLACE`, `paused PLACE`, `start PLACE SEQUENCE`, `stop PLACE`, `frame PLACE TIME`: a device is taken
/// away, or an event of it.
pub(crate) fn bear(
    answer: &mut Answer,
    pair: &mut Pair,
    keys: &mut Keys,
    name: &str,
    mut words: Reader<'_>,
) {
    let place = words.count();
    if let Some(device) = made_at(answer, &keys.devices, place) {
        let call = call_of(device, name, &mut words);
        if is_read(answer, &words) {
            tell_made(answer, keys, serve(pair, call));
        } else {
            drop(call);
        }
    }
}

/// The call of that name, with its number.
fn call_of<'a>(device: Device, name: &str, words: &mut Reader<'_>) -> ServerCall<'a> {
    match name {
        "remove" => ServerCall::RemoveDevice(device),
        "resumed" => ServerCall::Resumed(device),
        "paused" => ServerCall::Paused(device),
        "start" => ServerCall::StartEmulating(device, words.number()),
        "stop" => ServerCall::StopEmulating(device),
        _ => ServerCall::Frame(device, words.id()),
    }
}

/// `leave REASON TEXT`: the server ends the connection.
pub(crate) fn leave(alloc: Global, answer: &mut Answer, pair: &mut Pair, mut words: Reader<'_>) {
    let reason = reason_of(&mut words);
    let word = words.word();
    if is_read(answer, &words) {
        let text = text_of(alloc, answer, word);
        let explanation = name_of(word, text.as_str());
        let call = ServerCall::Disconnected {
            reason,
            explanation,
        };
        tell_done(answer, serve(pair, call));
        drop(text);
    }
}

/// Why the server ends the connection.
fn reason_of(words: &mut Reader<'_>) -> DisconnectReason {
    match words.word() {
        "mode" => DisconnectReason::Mode,
        "value" => DisconnectReason::Value,
        _ => {
            words.miss();
            DisconnectReason::Value
        }
    }
}

/// Tells what a call of the server that makes nothing answers.
fn tell_done(answer: &mut Answer, made: Option<Result<Made, SendError>>) {
    match made {
        Some(Ok(Made::Nothing)) => answer.put("done"),
        Some(Ok(made)) => {
            drop(made);
            answer.stop(Stop::Call);
        }
        Some(Err(error)) => tell_send_error(answer, error),
        None => answer.put("may not"),
    }
}

/// The object of that id in the server's table.
pub(crate) fn server_object(pair: &Pair, at: u64) -> Option<Object> {
    let found = pair.handle()?.context().backend().object_for_id(at);
    found?.clone().ok()
}

/// `hold ID`: keeps that object of the server, for calls when it is gone.
pub(crate) fn hold(answer: &mut Answer, pair: &Pair, keys: &mut Keys, mut words: Reader<'_>) {
    let at = id_of(&mut words);
    if is_read(answer, &words) {
        match server_object(pair, at) {
            Some(object) => {
                drop(answer.take(keys.objects.push(object)));
                answer.put("held");
            }
            None => answer.stop(Stop::Line),
        }
    }
}

/// The object of that id among those that were kept.
fn held_object(keys: &Keys, at: u64) -> Option<Object> {
    for object in &keys.objects {
        if object.id() == at {
            return object.clone().ok();
        }
    }
    None
}

/// `input ID OPCODE VALUE ..`: an event to an object that the server has, or that was kept.
pub(crate) fn input(
    alloc: Global,
    answer: &mut Answer,
    pair: &mut Pair,
    keys: &Keys,
    mut words: Reader<'_>,
) {
    let at = id_of(&mut words);
    let opcode = words.number();
    let values = values_of(alloc, answer, &mut words);
    if is_read(answer, &words) {
        input_to(answer, pair, keys, at, opcode, values.as_slice());
    }
    drop(values);
}

/// An event of these values to the object of that id.
fn input_to(
    answer: &mut Answer,
    pair: &mut Pair,
    keys: &Keys,
    at: u64,
    opcode: u32,
    values: &[Value],
) {
    match server_object(pair, at).or_else(|| held_object(keys, at)) {
        Some(target) => {
            let call = ServerCall::Input {
                target,
                opcode,
                values,
            };
            tell_done(answer, serve(pair, call));
        }
        None => answer.put("no object"),
    }
}
