//! What the table doesn't hold: an end without a text, the longest name, proxies that an object doesn't have, and the calls
//! of each end's own context.

use crate::messages::end::End;
use crate::messages::joined::in_pieces;
use crate::messages::targets::{proxy, with_targets};
use crate::version::PIECE;
use crate::words::{tell_bytes, tell_next};
use ei_backend::{HasBackend, Interface, MessageEnum, Object, PendingRequestResult, Tray};
use ei_types::DisconnectReason;
use ei_wire::{Arg, SendError};
use std::alloc::Global;
use test_table::{Answer, Stop};

/// Tells each.
pub(crate) fn tell(alloc: Global, answer: &mut Answer) {
    answer.put("without a text: ");
    tell_without_a_text(alloc, answer);
    answer.put("\na name of 1048555 bytes: ");
    tell_name(alloc, answer, 1048555);
    answer.put("\na name of 1048556 bytes: ");
    tell_name(alloc, answer, 1048556);
    answer.put("\nother proxies:");
    tell_others::<ei_server::Context, ei_server::Seat>(alloc, answer);
    tell_others::<ei_client::Context, ei_client::Connection>(alloc, answer);
    answer.put("\na client: ");
    tell_client_calls(alloc, answer);
    answer.put("\na server: ");
    tell_server_calls(alloc, answer);
    answer.put("\n");
}

/// Tells what the calls of an end's own context do: it sends the version of its handshake, and a piece of five bytes
/// comes.
macro_rules! tell_own_calls {
    ($alloc:ident, $answer:ident, $context:ident, $tray:ident) => {{
        if let Some(handshake) = $context.handshake() {
            $answer.take(handshake.handshake_version($context, 1));
            // Let go by a call: at the end of a scope the drop of each field is proved anew.
            drop(handshake);
        }
        tell_count($answer, $context.unsent_len(), " bytes wait, ");
        $answer.take($context.flush($tray));
        tell_count($answer, $context.unsent_len(), " left, ");
        tell_count($answer, $tray.bytes().len(), " sent, ");
        let mut pieces = in_pieces($alloc, $answer, &[1, 2, 3, 4, 5], &[], PIECE);
        let read = $answer.take($context.read(&mut pieces));
        drop(pieces);
        tell_count($answer, read.unwrap_or(0), " read, ");
        tell_count($answer, $context.unread_len(), " unread");
    }};
}

/// Tells a count, and what of.
fn tell_count(answer: &mut Answer, count: usize, what: &str) {
    answer.display(&count);
    answer.put(what);
}

/// Tells those of a client, over a sink.
fn tell_client(
    alloc: Global,
    answer: &mut Answer,
    context: &mut ei_client::Context,
    tray: &mut Tray,
) {
    tell_own_calls!(alloc, answer, context, tray)
}

/// Tells those of a server, over a sink.
fn tell_server(
    alloc: Global,
    answer: &mut Answer,
    context: &mut ei_server::Context,
    tray: &mut Tray,
) {
    tell_own_calls!(alloc, answer, context, tray)
}

/// Tells those of a client to which five bytes come.
fn tell_client_calls(alloc: Global, answer: &mut Answer) {
    if let Some(mut context) = answer.take(ei_client::Context::new(alloc)) {
        let mut tray = Tray::new(alloc);
        tell_client(alloc, answer, &mut context, &mut tray);
        drop(tray);
        drop(context);
    }
}

/// Tells those of a server to which five bytes come.
fn tell_server_calls(alloc: Global, answer: &mut Answer) {
    if let Some(mut context) = answer.take(ei_server::Context::new(alloc)) {
        let mut tray = Tray::new(alloc);
        tell_server(alloc, answer, &mut context, &mut tray);
        drop(tray);
        drop(context);
    }
}

/// Tells the bytes of the event that ends a connection without a text, and whether the connection is alive then.
fn tell_without_a_text(alloc: Global, answer: &mut Answer) {
    if let Some(mut server) = with_targets::<ei_server::Context>(alloc, answer) {
        match proxy(&server) {
            Some(connection) => {
                tell_disconnected(alloc, answer, &mut server, &connection);
                drop(connection);
            }
            None => answer.stop(Stop::Call),
        }
        drop(server);
    }
}

/// Tells the same of this server's connection.
fn tell_disconnected(
    alloc: Global,
    answer: &mut Answer,
    server: &mut ei_server::Context,
    connection: &ei_server::Connection,
) {
    answer.take(connection.disconnected(server, 5, DisconnectReason::Value, None));
    tell_bytes(alloc, answer, server.backend().unsent());
    answer.put(", alive ");
    answer.display(&connection.is_alive(server));
}

/// A name of so many letters.
fn long_name(alloc: Global, answer: &mut Answer, count: usize) -> String {
    let mut name = String::new(alloc);
    for _ in 0..count {
        answer.take(name.push('a'));
    }
    name
}

/// Tells what becomes of a client's name of so many letters: how many bytes are sent, and how many letters are read.
fn tell_name(alloc: Global, answer: &mut Answer, count: usize) {
    if let Some(mut client) = answer.take(ei_client::Context::new(alloc)) {
        let name = long_name(alloc, answer, count);
        match send_name(&mut client, name.as_str()) {
            Ok(()) => tell_carried(alloc, answer, &mut client),
            Err(error) => {
                answer.show(&error);
                answer.put(", ");
                tell_count(answer, client.backend().unsent().len(), " bytes sent");
            }
        }
        drop(name);
        drop(client);
    }
}

/// Sends the name to the handshake.
fn send_name(client: &mut ei_client::Context, name: &str) -> Result<(), SendError> {
    match client.handshake() {
        Some(handshake) => {
            let sent = handshake.name(client, name);
            drop(handshake);
            sent
        }
        None => Ok(()),
    }
}

/// Tells how many bytes a client sends, and how many letters are read of them.
fn tell_carried(alloc: Global, answer: &mut Answer, client: &mut ei_client::Context) {
    let mut tray = Tray::new(alloc);
    answer.take(client.flush(&mut tray));
    tell_count(answer, tray.bytes().len(), " bytes sent, ");
    if let Some(mut server) = answer.take(ei_server::Context::new(alloc)) {
        tell_letters_read(alloc, answer, &mut server, &tray);
        drop(server);
    }
    drop(tray);
}

/// Tells how many letters the name has that this end reads.
fn tell_letters_read<E: End>(alloc: Global, answer: &mut Answer, end: &mut E, sent: &Tray) {
    let mut pieces = in_pieces(alloc, answer, sent.bytes(), sent.handles(), PIECE);
    for _ in sent.bytes().chunks(PIECE) {
        answer.take(end.backend_mut().read(&mut pieces));
    }
    drop(pieces);
    if let Some(next) = answer.take(end.next()) {
        match &next {
            Some(PendingRequestResult::Request(message)) => tell_letters(alloc, answer, message),
            _ => answer.stop(Stop::Call),
        }
        drop(next);
    }
}

/// Tells how many bytes the texts of the message have.
fn tell_letters<M: MessageEnum>(alloc: Global, answer: &mut Answer, message: &M) {
    if let Some(args) = answer.take(message.args(alloc)) {
        for arg in &args {
            if let Arg::String(Some(text)) = arg {
                tell_count(answer, text.len(), " letters read");
            }
        }
        drop(args);
    }
}

/// Tells whether the object of that proxy has one of a server's connection, and one of a client's seat.
fn tell_others<E: End, T: Interface + Drop>(alloc: Global, answer: &mut Answer) {
    if let Some(end) = with_targets::<E>(alloc, answer) {
        match proxy::<T, E>(&end) {
            Some(it) => {
                tell_has::<ei_server::Connection>(answer, it.as_object().copy());
                tell_has::<ei_client::Seat>(answer, it.as_object().copy());
                drop(it);
            }
            None => answer.stop(Stop::Call),
        }
        drop(end);
    }
}

/// Tells whether the object has a proxy of that type.
fn tell_has<T: Interface + Drop>(answer: &mut Answer, object: Object) {
    let proxy = object.downcast::<T>();
    tell_next(answer, &proxy.is_some());
    drop(proxy);
}
