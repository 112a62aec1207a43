//! What a connection tells.

use ei_request::Connection as Client;
use ei_types::ContextType;
use reis_eis::Connection;
use std::alloc::Global;
use std::fmt::Debug;
use test_table::Answer;

/// Adds the next requests, so many at most, with slashes between them; they wait no more.
pub(crate) fn requests(connection: &mut Connection, most: usize, answer: &mut Answer) {
    for place in 0..most {
        if !push_next(connection.next_request(), place, answer) {
            break;
        }
    }
}

/// Adds the next notices, as the requests.
pub(crate) fn notices(connection: &mut Connection, most: usize, answer: &mut Answer) {
    for place in 0..most {
        if !push_next(connection.next_notice(), place, answer) {
            break;
        }
    }
}

/// Adds what comes next behind so many others, or that nothing came. Whether there is anything.
pub(crate) fn push_next<T: Debug + Drop>(
    next: Option<T>,
    place: usize,
    answer: &mut Answer,
) -> bool {
    match next {
        Some(value) => {
            part(place, answer);
            answer.show(&value);
            drop(value);
            true
        }
        None => {
            if place == 0 {
                answer.put("nothing");
            }
            false
        }
    }
}

/// Parts one from so many before it.
pub(crate) fn part(place: usize, answer: &mut Answer) {
    if place > 0 {
        answer.put(" / ");
    }
}

/// Adds what a connection tells by a call that changes nothing.
pub(crate) fn tell(alloc: Global, connection: &Connection, name: &str, answer: &mut Answer) {
    match name {
        "unsent" => push_unsent(alloc, connection.unsent(), answer),
        "unsent-handles" => answer.show(&connection.unsent_handles()),
        "ending" => match connection.ending() {
            Some(ending) => answer.show(ending),
            None => answer.put("goes on"),
        },
        _ => match connection.client() {
            Some(client) => push_client(client, answer),
            None => answer.put("nothing"),
        },
    }
}

/// Adds the bytes that wait to be written, if there are any.
fn push_unsent(alloc: Global, unsent: &[u8], answer: &mut Answer) {
    if unsent.is_empty() {
        answer.put("nothing");
    } else if let Some(digits) = answer.take(hex::encode(alloc, unsent)) {
        answer.put(digits.as_str());
        drop(digits);
    }
}

/// Adds who the client is: its context type, and its name where it told one.
fn push_client(client: &Client, answer: &mut Answer) {
    answer.put(match client.context_type() {
        ContextType::Receiver => "receiver",
        ContextType::Sender => "sender",
    });
    if let Some(name) = client.name() {
        answer.put(" ");
        answer.put(name);
    }
}
