//! The handshake of a client, up to the connection.

use crate::calls::Calls;
use crate::client::{Client, put, replace};
use crate::laying::read_bytes;
use crate::words::bytes;
use ei_backend::{HasBackend, Readings};
use ei_client::{Context, Event};
use ei_event::EiEventConverter;
use ei_handshake::{EiHandshaker, HandshakeResp, request_result};
use ei_types::ContextType;
use ei_wire::NoMemory;
use std::alloc::Global;
use test_table::{Answer, Reader, Stop};

/// Makes a connection of what a server sends until then. The frames that it makes have this time and those after it.
pub(crate) fn connect(calls: &mut Calls, words: &mut Reader<'_>, answer: &mut Answer) {
    let time = words.id();
    replace(&mut calls.hello, bytes(calls.alloc, words.rest()), answer);
    calls.client.forget();
    reconnect(calls, time, answer);
}

/// Makes another connection of what the server sent until the last one. The seats and the devices of that one stay, to be
/// asked of the new one.
pub(crate) fn reconnect(calls: &mut Calls, time: u64, answer: &mut Answer) {
    greet(&mut calls.client, time, &calls.hello, answer);
    answer.put("done");
}

/// Begins anew, behind the handshake with a server that sends these bytes. What the handshake sent goes.
pub(crate) fn greet(client: &mut Client, time: u64, hello: &[u8], answer: &mut Answer) {
    replace(&mut client.clock, readings(client.alloc, time), answer);
    client.begin(answer);
    read_bytes(client.alloc, &mut client.context, hello, &[], answer);
    shake_hands(client, answer);
    client.context.backend_mut().clear_unsent();
}

/// A clock of eight readings, this one and those after it.
fn readings(alloc: Global, time: u64) -> Result<Readings, NoMemory> {
    let mut times = [time; 8];
    let mut next = time;
    for reading in &mut times {
        *reading = next;
        next = next.saturating_add(1);
    }
    Readings::new(alloc, &times)
}

/// Shakes hands as a client of the name `demo`, and makes a converter of what the handshake answers.
fn shake_hands(client: &mut Client, answer: &mut Answer) {
    let made = EiHandshaker::new(client.alloc, "demo", ContextType::Sender);
    if let Some(mut handshaker) = answer.take(made) {
        let resp = shaken(&mut handshaker, &mut client.context, answer);
        drop(handshaker);
        put(&mut client.converter, converter(client.alloc, resp));
    }
}

/// The converter behind a handshake, where it ended.
fn converter(alloc: Global, ended: Option<HandshakeResp>) -> Option<EiEventConverter> {
    match ended {
        Some(resp) => Some(EiEventConverter::new(alloc, resp)),
        None => None,
    }
}

/// What the handshake answers, which has to end.
fn shaken(
    handshaker: &mut EiHandshaker,
    context: &mut Context,
    answer: &mut Answer,
) -> Option<HandshakeResp> {
    let mut ended = None;
    for _ in 0..context.unread_len() {
        if ended.is_some() {
            break;
        }
        put(&mut ended, handed(handshaker, context, answer));
    }
    if ended.is_none() {
        answer.stop(Stop::Call);
    }
    ended
}

/// What the handshake answers to the event that stands at the front.
fn handed(
    handshaker: &mut EiHandshaker,
    context: &mut Context,
    answer: &mut Answer,
) -> Option<HandshakeResp> {
    match next_event(context, answer) {
        Some(event) => answer
            .take(handshaker.handle_event(context, event))
            .flatten(),
        None => None,
    }
}

/// The event that stands at the front.
pub(crate) fn next_event(context: &mut Context, answer: &mut Answer) -> Option<Event> {
    match answer.take(context.pending_event()).flatten() {
        Some(pending) => answer.take(request_result(pending)),
        None => None,
    }
}
