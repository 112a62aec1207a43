//! A new connection, and pieces for it.

use ei_spec::Handle;
use reis_eis::{CallError, Connection};
use std::alloc::Global;
use std::mem;
use test_table::{Answer, Reader, Stop, bytes, joined};

/// `start SERIAL`: a connection in place of that of the lines before.
pub(crate) fn start(
    alloc: Global,
    connection: &mut Option<Connection>,
    serial: u32,
    answer: &mut Answer,
) {
    let started = answer.take(Connection::start(alloc, serial));
    // Let go by a call: at the end of a scope the drop of each field is proved anew.
    drop(mem::replace(connection, started));
    answer.put("started");
}

/// `TIME HANDLES PART ..`: feeds the parts as one piece, or in pieces of so many bytes, each with so many handles.
pub(crate) fn feed(
    alloc: Global,
    connection: &mut Connection,
    size: Option<usize>,
    words: &mut Reader<'_>,
    answer: &mut Answer,
) {
    let time = words.id();
    let handles = vec![in alloc; Handle(7); words.count()];
    if let Some(handles) = answer.take(handles) {
        feed_parts(
            alloc,
            connection,
            size,
            &handles,
            time,
            words.rest(),
            answer,
        );
        drop(handles);
    }
}

/// The same with these handles.
fn feed_parts(
    alloc: Global,
    connection: &mut Connection,
    size: Option<usize>,
    handles: &[Handle],
    time: u64,
    parts: &str,
    answer: &mut Answer,
) {
    if let Some(bytes) = answer.take(bytes_of(alloc, parts)) {
        done(feed_bytes(connection, &bytes, size, handles, time), answer);
        drop(bytes);
    }
}

/// The same with these bytes.
fn feed_bytes(
    connection: &mut Connection,
    bytes: &[u8],
    size: Option<usize>,
    handles: &[Handle],
    time: u64,
) -> Result<(), CallError> {
    match size {
        Some(size) => feed_cut(connection, bytes, size, handles, time),
        None => connection.feed(bytes, handles, time),
    }
}

/// Feeds the bytes in pieces of so many.
fn feed_cut(
    connection: &mut Connection,
    whole: &[u8],
    size: usize,
    handles: &[Handle],
    time: u64,
) -> Result<(), CallError> {
    for piece in whole.chunks(size.max(1)) {
        connection.feed(piece, handles, time)?;
    }
    Ok(())
}

/// The bytes of the parts.
pub(crate) fn bytes_of(alloc: Global, parts: &str) -> Result<Vec<u8>, Stop> {
    match joined(alloc, parts) {
        Ok(digits) => {
            let bytes = bytes(alloc, digits.as_str());
            drop(digits);
            bytes
        }
        Err(error) => Err(Stop::from(error)),
    }
}

/// Adds whether a call did what it is for, or why it did nothing.
pub(crate) fn done(made: Result<(), CallError>, answer: &mut Answer) {
    match made {
        Ok(()) => answer.put("done"),
        Err(error) => answer.show(&error),
    }
}
