//! One end alone over bytes, and both ends joined in memory.

use crate::messages::end::End;
use crate::messages::reading::{is_nothing, tell_object, tell_taken};
use crate::messages::row::Row;
use crate::messages::targets::with_targets;
use crate::version::{PIECE, give};
use ei_backend::{FIRST_SERVER_ID, HasBackend, Pieces};
use ei_spec::Handle;
use std::alloc::Global;
use test_table::Answer;

/// The bytes in pieces of this size, but for the last, and the handles with the first.
pub(crate) fn in_pieces(
    alloc: Global,
    answer: &mut Answer,
    bytes: &[u8],
    handles: &[Handle],
    size: usize,
) -> Pieces {
    let mut pieces = Pieces::new(alloc);
    let mut with = handles;
    for piece in bytes.chunks(size.max(1)) {
        give(answer, &mut pieces, piece, with);
        with = &[];
    }
    pieces
}

/// Where the bytes of a row that is read alone lie.
#[derive(Clone, Copy)]
pub(crate) enum Lies {
    /// In one stretch: most messages are read the shorter way of lawful ones.
    InPlace,
    /// Across the end of the ring of unread bytes: each message is read the general way.
    Across,
}

/// The sizes of two messages that fill a new ring, of 131072 bytes, but for its last eight.
const AHEAD: [u32; 2] = [65536, 65528];

/// Reads a message of that size to no object, and takes it out.
fn take_one<E: End>(alloc: Global, answer: &mut Answer, end: &mut E, size: u32) {
    let mut bytes = Vec::new(alloc);
    answer.take(bytes.extend_from_slice(&99u64.to_le_bytes()));
    answer.take(bytes.extend_from_slice(&size.to_le_bytes()));
    answer.take(bytes.resize(size as usize, 0));
    read_all(alloc, answer, end, &bytes, &[]);
    drop(answer.take(end.next()));
    // Let go by a call: at the end of a scope the drop of each field is proved anew.
    drop(bytes);
}

/// Lets these bytes and handles come.
fn read_all<E: End>(
    alloc: Global,
    answer: &mut Answer,
    end: &mut E,
    bytes: &[u8],
    handles: &[Handle],
) {
    let mut pieces = in_pieces(alloc, answer, bytes, handles, PIECE);
    answer.take(end.backend_mut().read(&mut pieces));
    drop(pieces);
}

/// Tells what the bytes of a row are read as by a fresh end, with these handles: the first answer, the second where
/// there is one, and how many bytes are left.
pub(crate) fn tell_alone<E: End>(
    alloc: Global,
    answer: &mut Answer,
    row: &Row,
    handles: &[Handle],
    lies: Lies,
) {
    if let Some(mut end) = with_targets::<E>(alloc, answer) {
        if let Lies::Across = lies {
            take_ahead(alloc, answer, &mut end);
        }
        read_all(alloc, answer, &mut end, &row.bytes, handles);
        tell_answers(alloc, answer, &mut end);
        drop(end);
    }
}

/// Takes such messages as lie ahead of the row.
fn take_ahead<E: End>(alloc: Global, answer: &mut Answer, end: &mut E) {
    for size in &AHEAD {
        take_one(alloc, answer, end, *size);
    }
}

/// Tells the first answer, the second where there is one, and how many bytes are left.
fn tell_answers<E: End>(alloc: Global, answer: &mut Answer, end: &mut E) {
    tell_taken(alloc, answer, end);
    if let Some(second) = taken(alloc, answer, end) {
        answer.put(" | then ");
        answer.put(second.as_str());
        drop(second);
    }
    let left = end.backend().unread_len();
    if left > 0 {
        answer.put(" | ");
        answer.display(&left);
        answer.put(" bytes left");
    }
}

/// What the next message is told as, if one is whole.
pub(crate) fn taken<E: End>(alloc: Global, answer: &mut Answer, end: &mut E) -> Option<String> {
    let mut message = Answer::new(alloc);
    tell_taken(alloc, &mut message, end);
    match answer.take(message.text()) {
        Some(text) if is_nothing(text.as_str()) => {
            drop(text);
            None
        }
        other => other,
    }
}

/// Tells the objects among the first of each end.
pub(crate) fn tell_objects<E: End>(answer: &mut Answer, end: &E) {
    for id in (0..4).chain(FIRST_SERVER_ID..FIRST_SERVER_ID + 32) {
        if let Some(object) = end.backend().object_for_id(id) {
            answer.put(" | ");
            tell_object(answer, object);
        }
    }
}
