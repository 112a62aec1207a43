//! What a server tells.

use crate::kept::keep;
use crate::reports::{put_asked, put_digits};
use crate::texts::put_made;
use ei_request::Connection;
use ei_types::ContextType;
use reis_report::answer_text;
use reis_server::Server;
use std::alloc::Global;
use test_table::{Answer, Stop};

/// The next requests, so many at most, with slashes between them; they wait no more.
pub(crate) fn put_requests(alloc: Global, server: &mut Server, most: usize, answer: &mut Answer) {
    let mut taken = Vec::new(alloc);
    for _ in 0..most {
        if !keep(&mut taken, server.next_request(), answer) {
            break;
        }
    }
    put_asked(alloc, &taken, answer);
    drop(taken);
}

/// What a server tells by a call that changes nothing.
pub(crate) fn put_told(alloc: Global, server: &Server, name: &str, answer: &mut Answer) {
    match name {
        "unsent" => put_digits(alloc, server.unsent(), answer),
        "unsent-handles" => answer.display(&server.unsent_handles().len()),
        "answer" => match server.answer() {
            Some(ended) => put_made(answer, answer_text(alloc, ended)),
            None => answer.put("goes on"),
        },
        "client" => match server.connection() {
            Some(connection) => put_client(connection, answer),
            None => answer.put("nothing"),
        },
        "over" => answer.display(&server.is_over()),
        _ => answer.stop(Stop::Line),
    }
}

/// Who the client is: its context type, and its name where it told one.
fn put_client(connection: &Connection, answer: &mut Answer) {
    answer.put(match connection.context_type() {
        ContextType::Receiver => "receiver",
        ContextType::Sender => "sender",
    });
    if let Some(name) = connection.name() {
        answer.put(" ");
        answer.put(name);
    }
}
