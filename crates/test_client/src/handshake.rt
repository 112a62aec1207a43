//! A handshaker on an endpoint, event by event.

use crate::blocking::block;
use crate::client::{Client, put};
use crate::connecting::next_event;
use crate::laying::{push_sent, read};
use crate::words::{kind, letters, push, push_shown};
use ei_client::Context;
use ei_handshake::{EiHandshaker, HandshakeResp};
use ei_types::{ContextType, Error};
use test_table::{Answer, Reader, Stop};

/// Adds what a call answers:
/// - `new KIND NAME`: nothing, and a handshake begins on a fresh endpoint;
/// - `long KIND LENGTH`: the same, with a name of so many letters;
/// - `event BYTES`: what the handshaker answers to the event, and how many bytes wait to be sent;
/// - `sent`: the bytes that wait to be sent, and takes them out;
/// - `block ..`: what a handshake on a fresh endpoint answers, see `blocking`;
/// - `again ..`: the same on the endpoint of the last one.
pub(crate) fn add(client: &mut Client, name: &str, words: &mut Reader<'_>, answer: &mut Answer) {
    match name {
        "new" => begin(client, kind(words), words.rest(), answer),
        "long" => begin_long(client, words, answer),
        "event" => event(client, words.rest(), answer),
        "sent" => push_sent(client.alloc, &mut client.context, "", answer),
        "block" => {
            client.begin(answer);
            block(client.alloc, &mut client.context, words, answer);
        }
        "again" => block(client.alloc, &mut client.context, words, answer),
        _ => answer.stop(Stop::Line),
    }
}

/// Begins a handshake of a client whose name has so many letters.
fn begin_long(client: &mut Client, words: &mut Reader<'_>, answer: &mut Answer) {
    let kind = kind(words);
    if let Some(name) = answer.take(letters(client.alloc, words.count())) {
        begin(client, kind, name.as_str(), answer);
        drop(name);
    }
}

/// Begins a handshake of a client of that name on a fresh endpoint.
fn begin(client: &mut Client, kind: ContextType, name: &str, answer: &mut Answer) {
    client.begin(answer);
    let handshaker = answer.take(EiHandshaker::new(client.alloc, name, kind));
    put(&mut client.handshaker, handshaker);
    answer.put("done");
}

/// Adds what the handshaker answers to the event of these bytes, and how many bytes wait to be sent.
fn event(client: &mut Client, digits: &str, answer: &mut Answer) {
    read(client.alloc, &mut client.context, digits, &[], answer);
    match &mut client.handshaker {
        Some(handshaker) => hand(handshaker, &mut client.context, answer),
        None => answer.stop(Stop::Line),
    }
    push(answer, &client.context.unsent_len());
}

/// Hands the handshaker what came, and adds what it answers.
fn hand(handshaker: &mut EiHandshaker, context: &mut Context, answer: &mut Answer) {
    match next_event(context, answer) {
        Some(event) => {
            let handled = handshaker.handle_event(context, event);
            push_handled(answer, &handled);
            drop(handled);
        }
        None => answer.stop(Stop::Line),
    }
}

/// Adds what a handshaker answers.
fn push_handled(answer: &mut Answer, handled: &Result<Option<HandshakeResp>, Error>) {
    match handled {
        Ok(Some(resp)) => push_complete(answer, resp),
        Ok(None) => answer.put("goes on "),
        Err(error) => push_shown(answer, error),
    }
}

/// Adds what a complete handshake tells: the connection, its serial, how many names have a version, and the versions of
/// some names.
pub(crate) fn push_complete(answer: &mut Answer, resp: &HandshakeResp) {
    push(answer, &resp.connection);
    push(answer, &resp.serial);
    let versions = &resp.negotiated_interfaces;
    push(answer, &versions.len());
    push(answer, &versions.get("ei_seat"));
    push(answer, &versions.get("ei_strange"));
    push(answer, &versions.contains("x"));
}
