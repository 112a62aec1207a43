//! The lines of a trace.

use crate::words::bytes;
use ei_backend::{Interface, Object};
use ei_client::Context;
use ei_wire::Arg;
use reis_trace::{trace, trace_line};
use std::alloc::Global;
use test_table::{Answer, Reader, Stop};

/// What a call answers, with a mark for each newline:
/// - `replies BYTES`: the lines of a server's replies, up to a callback that a fresh client doesn't know;
/// - `shown`: a request of a client with a text, and a message to no object.
pub(crate) fn tell(alloc: Global, answer: &mut Answer, words: &mut Reader<'_>) {
    match words.word() {
        "replies" => tell_replies(alloc, answer, words),
        "shown" => tell_shown(alloc, answer),
        _ => words.miss(),
    }
}

/// Tells the lines of these replies.
fn tell_replies(alloc: Global, answer: &mut Answer, words: &mut Reader<'_>) {
    let replies = bytes(alloc, words);
    if let Some(lines) = answer.take(trace(alloc, &replies)) {
        match str::from_utf8(&lines) {
            Ok(text) => answer.show(&text),
            Err(_) => answer.stop(Stop::Call),
        }
        // Let go by a call: at the end of a scope the drop of each field is proved anew.
        drop(lines);
    }
    drop(replies);
}

/// Tells a request of a client with a text, and a message to no object.
fn tell_shown(alloc: Global, answer: &mut Answer) {
    if let Some(client) = answer.take(Context::new(alloc)) {
        let mut lines = Answer::new(alloc);
        tell_lines(alloc, &mut lines, &client);
        drop(client);
        if let Some(text) = answer.take(lines.text()) {
            answer.show(&text);
            drop(text);
        }
    }
}

/// Tells the lines of this client.
fn tell_lines(alloc: Global, lines: &mut Answer, client: &Context) {
    if let Some(handshake) = client.handshake() {
        let args = [Arg::String(Some("ei_seat")), Arg::Uint32(2)];
        tell_line(
            alloc,
            lines,
            false,
            Some(handshake.as_object()),
            0,
            4,
            &args,
        );
        drop(handshake);
    }
    tell_line(alloc, lines, true, None, 255, 0, &[]);
}

/// Tells the line of a message.
fn tell_line(
    alloc: Global,
    lines: &mut Answer,
    incoming: bool,
    object: Option<&Object>,
    id: u64,
    opcode: u32,
    args: &[Arg<'_>],
) {
    if let Some(line) = lines.take(trace_line(alloc, true, incoming, object, id, opcode, args)) {
        lines.put(line.as_str());
        drop(line);
    }
}
