//! Seats, devices and the end, as a program calls them.

use crate::feeding::done;
use crate::inputs::input;
use crate::words::{capabilities, capability, device_type, items, letters, reason, text};
use reis_eis::{CallError, Connection};
use std::alloc::Global;
use test_table::{Answer, Reader, Stop};

/// Adds what a call answers that says something to the client:
/// - `add-seat TEXT CAPABILITIES` and `remove-seat ID`;
/// - `add-device SEAT TEXT TYPE CAPABILITIES ITEM ..`, and the calls of `act_on`;
/// - `send ID INPUT VALUE ..`;
/// - `ping`, and `disconnect REASON TEXT`.
pub(crate) fn act(
    alloc: Global,
    connection: &mut Connection,
    name: &str,
    words: &mut Reader<'_>,
    answer: &mut Answer,
) {
    match name {
        "add-seat" => add_seat(alloc, connection, words, answer),
        "add-device" => add_device(alloc, connection, words, answer),
        "remove-seat" => done(connection.remove_seat(words.id()), answer),
        "send" => send(alloc, connection, words, answer),
        "ping" => made(connection.ping(), answer),
        "disconnect" => disconnect(alloc, connection, words, answer),
        _ => act_on(connection, name, words.id(), words, answer),
    }
}

/// Adds what a call answers that says something of a device:
/// - `remove-device ID`, `resume ID` and `pause ID`;
/// - `has ID CAPABILITY`: whether the device has it left;
/// - `start-emulating ID SEQUENCE`, `stop-emulating ID` and `frame ID TIME`;
/// - `modifiers ID DEPRESSED LOCKED LATCHED GROUP`.
fn act_on(
    connection: &mut Connection,
    name: &str,
    device: u64,
    words: &mut Reader<'_>,
    answer: &mut Answer,
) {
    match name {
        "remove-device" => done(connection.remove_device(device), answer),
        "resume" => done(connection.resume(device), answer),
        "pause" => done(connection.pause(device), answer),
        "has" => answer.show(&connection.device_has(device, capability(words))),
        "start-emulating" => done(connection.start_emulating(device, words.number()), answer),
        "stop-emulating" => done(connection.stop_emulating(device), answer),
        "frame" => done(connection.frame(device, words.id()), answer),
        "modifiers" => modifiers(connection, device, words, answer),
        _ => answer.stop(Stop::Line),
    }
}

/// Adds the id that a call made, or why it made none.
pub(crate) fn made(made: Result<u64, CallError>, answer: &mut Answer) {
    match made {
        Ok(id) => answer.display(&id),
        Err(error) => answer.show(&error),
    }
}

fn add_seat(
    alloc: Global,
    connection: &mut Connection,
    words: &mut Reader<'_>,
    answer: &mut Answer,
) {
    if let Some(name) = answer.take(text(alloc, words.word())) {
        made(
            connection.add_seat(letters(&name), capabilities(words)),
            answer,
        );
        drop(name);
    }
}

fn add_device(
    alloc: Global,
    connection: &mut Connection,
    words: &mut Reader<'_>,
    answer: &mut Answer,
) {
    let seat = words.id();
    if let Some(name) = answer.take(text(alloc, words.word())) {
        add_named(alloc, connection, seat, letters(&name), words, answer);
        drop(name);
    }
}

/// The same, of a device of that name.
fn add_named(
    alloc: Global,
    connection: &mut Connection,
    seat: u64,
    name: Option<&str>,
    words: &mut Reader<'_>,
    answer: &mut Answer,
) {
    let (device_type, set) = (device_type(words), capabilities(words));
    let items = items(alloc, words, answer);
    let added = connection.add_device(seat, name, device_type, set, &items);
    drop(items);
    made(added, answer);
}

fn modifiers(
    connection: &mut Connection,
    device: u64,
    words: &mut Reader<'_>,
    answer: &mut Answer,
) {
    let (depressed, locked) = (words.number(), words.number());
    let (latched, group) = (words.number(), words.number());
    let changed = connection.modifiers(device, depressed, locked, latched, group);
    done(changed, answer);
}

fn send(alloc: Global, connection: &mut Connection, words: &mut Reader<'_>, answer: &mut Answer) {
    let device = words.id();
    if let Some(input) = answer.take(input(alloc, words)) {
        done(connection.send(device, &input), answer);
        drop(input);
    }
}

fn disconnect(
    alloc: Global,
    connection: &mut Connection,
    words: &mut Reader<'_>,
    answer: &mut Answer,
) {
    let reason = reason(words);
    if let Some(explanation) = answer.take(text(alloc, words.rest())) {
        done(connection.disconnect(reason, letters(&explanation)), answer);
        drop(explanation);
    }
}
