//! Pieces for a server, and what is said to be sent.

use crate::pieces::{bytes_of, handles_of};
use ei_spec::Handle;
use reis_server::{CallError, Server};
use std::alloc::Global;
use test_table::{Answer, Reader};

/// `feed TIME HANDLES PART ..`: feeds the parts as one piece.
pub(crate) fn feed(
    alloc: Global,
    server: &mut Server,
    words: &mut Reader<'_>,
    answer: &mut Answer,
) {
    let time = words.id();
    let handles = handles_of(alloc, words.count(), answer);
    let piece = bytes_of(alloc, words.rest(), answer);
    put_done(answer, server.feed(&piece, &handles, time));
    drop(piece);
    drop(handles);
}

/// `cut SIZE TIME HANDLES PART ..`: feeds the parts in pieces of so many bytes, but for the last, which may have fewer, each
/// with so many handles. It stops at one that isn't taken.
pub(crate) fn feed_cut(
    alloc: Global,
    server: &mut Server,
    words: &mut Reader<'_>,
    answer: &mut Answer,
) {
    let (size, time) = (words.count(), words.id());
    let handles = handles_of(alloc, words.count(), answer);
    let whole = bytes_of(alloc, words.rest(), answer);
    put_done(answer, feed_all(server, &whole, size, &handles, time));
    drop(whole);
    drop(handles);
}

/// Feeds the bytes in pieces of so many.
fn feed_all(
    server: &mut Server,
    whole: &[u8],
    size: usize,
    handles: &[Handle],
    time: u64,
) -> Result<(), CallError> {
    for piece in whole.chunks(size.max(1)) {
        server.feed(piece, handles, time)?;
    }
    Ok(())
}

/// `sent BYTES HANDLES`: says that so many were sent.
pub(crate) fn sent(server: &mut Server, words: &mut Reader<'_>, answer: &mut Answer) {
    let (bytes, handles) = (words.count(), words.count());
    put_done(answer, server.sent(bytes, handles));
}

/// Whether a call did what it is for, or why it did nothing.
pub(crate) fn put_done(answer: &mut Answer, done: Result<(), CallError>) {
    match done {
        Ok(()) => answer.put("done"),
        Err(error) => answer.show(&error),
    }
}
