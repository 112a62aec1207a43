//! The calls of a converter by their names.

use crate::calling::call_back;
use crate::calls::Calls;
use crate::client::Client;
use crate::connecting::{connect, reconnect};
use crate::events::events;
use crate::hearing::{drain, hear};
use crate::keys::{bind, compare};
use crate::laying::push_sent;
use crate::telling::{connection, device, seat};
use ei_event::EiEventConverter;
use test_table::{Answer, Reader, Stop};

/// Adds what a call answers:
/// - `connect TIME BYTES`: nothing; begins with a fresh connection, behind a handshake in which the server sent these
///   bytes. The frames that it makes have this time and those after it;
/// - `again TIME`: nothing; the same behind the same bytes, with the seats and the devices of the connection before;
/// - `call-back NUMBER BYTES`: see `calling`.
pub(crate) fn add(calls: &mut Calls, name: &str, words: &mut Reader<'_>, answer: &mut Answer) {
    match name {
        "connect" => connect(calls, words, answer),
        "again" => reconnect(calls, words.id(), answer),
        "call-back" => {
            let called = call_back(calls.alloc, &calls.hello, words, answer);
            answer.take(called);
        }
        _ => make(&mut calls.client, name, words, answer),
    }
}

/// Adds what a call answers, each with what was sent behind it:
/// - `hear BYTES`: the events that the converter makes of the server's, or why it refuses one;
/// - `drain BYTES`: how many there are, and how many are moved out;
/// - `bind PLACE CAPABILITIES`: whether it is done.
fn make(client: &mut Client, name: &str, words: &mut Reader<'_>, answer: &mut Answer) {
    match name {
        "hear" => hear(client, words.rest(), answer),
        "drain" => drain(client, words.rest(), answer),
        "bind" => bind(client, words, answer),
        _ => return tell(client, name, words, answer),
    }
    push_sent(client.alloc, &mut client.context, "> ", answer);
}

/// Adds what a call tells of seats or devices by their keys, or of the last events.
fn tell(client: &Client, name: &str, words: &mut Reader<'_>, answer: &mut Answer) {
    match (name, &client.converter) {
        ("seats", _) => compare(&client.seats, words, answer),
        ("devices", _) => compare(&client.devices, words, answer),
        ("events", _) => events(client, answer),
        (_, Some(converter)) => tell_of(client, converter, name, words, answer),
        _ => answer.stop(Stop::Line),
    }
}

/// Adds what a call tells of the connection, a seat or a device.
fn tell_of(
    client: &Client,
    converter: &EiEventConverter,
    name: &str,
    words: &mut Reader<'_>,
    answer: &mut Answer,
) {
    match name {
        "connection" => connection(converter, answer),
        "seat" => seat(converter, client.seats.get(words.count()), answer),
        "device" => device(converter, client.devices.get(words.count()), answer),
        _ => answer.stop(Stop::Line),
    }
}
