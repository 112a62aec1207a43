//! What a client asks.

use super::world::World;
use crate::handshakes::reach;
use crate::kept::keep;
use crate::pieces::bytes_of;
use crate::texts::{put_made, put_part, show};
use ei_backend::PendingRequestResult;
use ei_server::{Context, Request};
use std::fmt::Debug;
use test_table::{Answer, Reader};

/// `ask BYTES`: why the converter refuses messages of these bytes, and the requests that it makes of them.
pub(crate) fn ask(world: &mut World, words: &mut Reader<'_>, answer: &mut Answer) {
    let bytes = bytes_of(world.alloc, words.rest(), answer);
    reach(
        world.alloc,
        world.converter.handle_mut().context_mut(),
        &bytes,
        answer,
    );
    world.asked.clear();
    let mut told = Answer::new(world.alloc);
    take_own(world, bytes.len(), &mut told);
    drop(bytes);
    put_requests(world, &mut told);
    put_part(answer, told.text());
}

/// `ask-elsewhere BYTES`: the same of messages that an endpoint reads before its handshake.
pub(crate) fn ask_elsewhere(world: &mut World, words: &mut Reader<'_>, answer: &mut Answer) {
    if let Some(mut context) = answer.take(Context::new(world.alloc)) {
        read_elsewhere(world, &mut context, words, answer);
        drop(context);
    }
}

/// Lets the bytes come to another context, whose messages the converter is asked.
fn read_elsewhere(
    world: &mut World,
    context: &mut Context,
    words: &mut Reader<'_>,
    answer: &mut Answer,
) {
    let bytes = bytes_of(world.alloc, words.rest(), answer);
    reach(world.alloc, context, &bytes, answer);
    drop(bytes);
    world.asked.clear();
    let mut told = Answer::new(world.alloc);
    take_all(world, context, &mut told);
    put_requests(world, &mut told);
    put_part(answer, told.text());
}

/// Hands each message of the client, so many at most, to the converter.
fn take_own(world: &mut World, most: usize, told: &mut Answer) {
    for _ in 0..most {
        let context = world.converter.handle_mut().context_mut();
        let Some(Some(pending)) = told.take(context.pending_request()) else {
            break;
        };
        take(world, pending, told);
    }
}

/// Hands each message of the context to the converter.
fn take_all(world: &mut World, context: &mut Context, told: &mut Answer) {
    for _ in 0..context.unread_len() {
        let Some(Some(pending)) = told.take(context.pending_request()) else {
            break;
        };
        take(world, pending, told);
    }
}

/// Hands a message to the converter, and takes the requests that it makes.
fn take(world: &mut World, pending: PendingRequestResult<Request>, told: &mut Answer) {
    match pending {
        PendingRequestResult::Request(request) => {
            let done = world.converter.handle_request(&mut world.clock, request);
            put_refusal(told, done);
        }
        PendingRequestResult::ParseError(error) => show(told, &error),
        PendingRequestResult::InvalidObject(id) => {
            put_made(told, format!(in world.alloc; "no object {id:x} "));
        }
    }
    take_requests(world, told);
}

/// Takes the requests that are queued, and asks for one more.
fn take_requests(world: &mut World, told: &mut Answer) {
    for _ in 0..=world.converter.queued_len() {
        keep(&mut world.asked, world.converter.next_request(), told);
    }
}

/// Adds the requests that were taken.
fn put_requests(world: &World, told: &mut Answer) {
    for request in &world.asked {
        show(told, request);
    }
}

/// Adds why it wasn't done, if it wasn't.
fn put_refusal<T: Drop, E: Debug + Drop>(told: &mut Answer, done: Result<T, E>) {
    match done {
        Ok(value) => drop(value),
        Err(error) => {
            show(told, &error);
            drop(error);
        }
    }
}
