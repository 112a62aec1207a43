//! Clients that join.

use super::Clients;
use crate::pieces::source_of;
use crate::texts::put_made;
use ei_backend::{Pieces, Tray};
use ei_hub::JoinError;
use std::alloc::Global;
use test_table::{Answer, Reader};

/// `join PUT PART ..`: a client of these pieces, whose sink's put of that number fails; put 0 is none.
pub(crate) fn join(alloc: Global, hub: &mut Clients, words: &mut Reader<'_>, answer: &mut Answer) {
    let put = words.number();
    let mut sink = Tray::new(alloc);
    if put > 0 {
        answer.take(sink.fail_at(put));
    }
    join_with(
        alloc,
        hub,
        source_of(alloc, words.rest(), answer),
        sink,
        answer,
    );
}

/// `fails TAKE PART ..`: a client of these pieces, whose source's take of that number fails.
pub(crate) fn fails(alloc: Global, hub: &mut Clients, words: &mut Reader<'_>, answer: &mut Answer) {
    let take = words.number();
    let mut source = source_of(alloc, words.rest(), answer);
    answer.take(source.fail_at(take));
    join_with(alloc, hub, source, Tray::new(alloc), answer);
}

/// A client that talks through these.
fn join_with(alloc: Global, hub: &mut Clients, source: Pieces, sink: Tray, answer: &mut Answer) {
    match hub.join(source, sink) {
        Ok(number) => put_client(answer, number),
        Err(error) => join_again(alloc, hub, error, answer),
    }
}

/// The number of a client.
fn put_client(answer: &mut Answer, number: u32) {
    answer.put("client ");
    answer.display(&number);
}

/// A client that could not join: why, how many pieces came back, and what its sink took. Then it joins again.
fn join_again(
    alloc: Global,
    hub: &mut Clients,
    error: JoinError<Pieces, Tray>,
    answer: &mut Answer,
) {
    answer.display(&error.cause);
    answer.put(" ");
    put_made(answer, hex::encode(alloc, error.sink.bytes()));
    answer.put(" ");
    join_or_tell(hub, error.source, error.sink, answer);
}

/// The number of the client that joins through these, or why it can't.
fn join_or_tell(hub: &mut Clients, source: Pieces, sink: Tray, answer: &mut Answer) {
    let joined = hub.join(source, sink);
    match &joined {
        Ok(number) => put_client(answer, *number),
        Err(error) => answer.display(&error.cause),
    }
    drop(joined);
}

/// `joins COUNT`: so many clients without a piece; the last answer.
pub(crate) fn joins(alloc: Global, hub: &mut Clients, words: &mut Reader<'_>, answer: &mut Answer) {
    for _ in 1..words.number() {
        drop(hub.join(Pieces::new(alloc), Tray::new(alloc)));
    }
    join_or_tell(hub, Pieces::new(alloc), Tray::new(alloc), answer);
}
