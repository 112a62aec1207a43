//! Clients that are served, and what is told of them.

use super::Clients;
use crate::pieces::clock_of;
use crate::reports::{put_ended, put_line};
use crate::texts::put_made;
use ei_request::EisRequest;
use std::alloc::Global;
use test_table::{Answer, Reader};

/// `serve READING,..`: serves all, over a clock of these readings.
pub(crate) fn serve(alloc: Global, hub: &mut Clients, words: &mut Reader<'_>, answer: &mut Answer) {
    if let Some(mut clock) = clock_of(alloc, words.word(), ',', answer) {
        hub.serve_all(&mut clock);
        drop(clock);
        answer.put("served");
    }
}

/// `turn CLIENT READING,..`: one turn of the client, over a clock of these readings.
pub(crate) fn turn(alloc: Global, hub: &mut Clients, words: &mut Reader<'_>, answer: &mut Answer) {
    let client = words.number();
    let Some(mut clock) = clock_of(alloc, words.word(), ',', answer) else {
        return;
    };
    if client >= hub.count() || hub.end(client).is_some() {
        words.miss();
    } else {
        hub.turn(client, &mut clock);
        answer.put("turned");
    }
    drop(clock);
}

/// `told CLIENT`: how the client ended, what it asked for, and what it was sent.
pub(crate) fn put_told(alloc: Global, hub: &Clients, words: &mut Reader<'_>, answer: &mut Answer) {
    let client = words.number();
    if client >= hub.count() {
        words.miss();
        return;
    }
    match hub.end(client) {
        Some(ended) => put_ended(answer, ended),
        None => answer.put("goes on"),
    }
    answer.put(" ");
    put_lines(alloc, hub.requests(client), answer);
    answer.put(" ");
    put_made(answer, hex::encode(alloc, hub.sink(client).bytes()));
}

/// The requests by their lines, a slash behind each.
fn put_lines(alloc: Global, requests: &[EisRequest], answer: &mut Answer) {
    for request in requests {
        put_line(alloc, request, answer);
        answer.put(" / ");
    }
}
