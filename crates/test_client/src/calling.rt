//! Handlers of callbacks.

use crate::client::Client;
use crate::connecting::greet;
use crate::hearing::take_digits;
use crate::words::push;
use ei_backend::Interface;
use ei_client::Callback;
use ei_event::{Handler, Run};
use std::alloc::Global;
use test_table::{Answer, Reader, Stop};

/// `call-back NUMBER BYTES`: asks a server, which sent the bytes of the last connection, for a callback, whose handler
/// changes the number that comes by this one, and for another without a handler. It adds the first callback, what
/// becomes of these bytes then, and the receipts.
pub(crate) fn call_back(
    alloc: Global,
    hello: &[u8],
    words: &mut Reader<'_>,
    answer: &mut Answer,
) -> Result<(), Stop> {
    let by = words.id();
    // Made where no converter is lent, so that the closure can't leave by one.
    let run: Run = Box::new(alloc, move |value: u64| value ^ by)?;
    call_back_with(alloc, Handler::new(run), hello, words.rest(), answer);
    Ok(())
}

/// The same, with the handler.
fn call_back_with(
    alloc: Global,
    handler: Handler,
    hello: &[u8],
    digits: &str,
    answer: &mut Answer,
) {
    match answer.take(Client::new(alloc)) {
        Some(mut client) => {
            call_back_at(&mut client, handler, hello, digits, answer);
            drop(client);
        }
        None => drop(handler),
    }
}

/// The same, of a client of its own.
fn call_back_at(
    client: &mut Client,
    handler: Handler,
    hello: &[u8],
    digits: &str,
    answer: &mut Answer,
) {
    greet(client, 0, hello, answer);
    handle(client, handler, answer);
    drop(asked(client, answer));
    take_digits(client, digits, answer);
    if let Some(converter) = &client.converter {
        push(answer, &converter.receipts());
    }
}

/// Adds the callback that the server is asked for, and keeps the handler for it.
fn handle(client: &mut Client, handler: Handler, answer: &mut Answer) {
    match asked(client, answer) {
        Some(callback) => {
            push(answer, &callback);
            keep(client, callback, handler, answer);
        }
        None => drop(handler),
    }
}

/// Keeps a handler for the callback.
fn keep(client: &mut Client, callback: Callback, handler: Handler, answer: &mut Answer) {
    match &mut client.converter {
        Some(converter) => {
            answer.take(converter.add_callback_handler(callback, handler));
        }
        None => {
            drop(callback);
            drop(handler);
        }
    }
}

/// A callback of the server, which has to be connected.
fn asked(client: &mut Client, answer: &mut Answer) -> Option<Callback> {
    match &client.converter {
        Some(converter) => {
            let connection = converter.connection().connection().copy();
            let callback = connection.sync(&mut client.context, 1);
            drop(connection);
            answer.take(callback)
        }
        None => {
            answer.stop(Stop::Line);
            None
        }
    }
}
