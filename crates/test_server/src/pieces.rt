//! What a client sends, in pieces, and the clock of a server.

use crate::kept::or;
use ei_backend::{Pieces, Readings};
use ei_spec::Handle;
use std::alloc::Global;
use test_table::{Answer, Stop, bytes, count, id, joined};

/// The most bytes of a piece.
const MOST_BYTES: usize = 65536;

/// The most handles of a piece.
const MOST_HANDLES: usize = 64;

/// The bytes of hexadecimal digits, two for each byte, with blanks between them.
pub(crate) fn bytes_of(alloc: Global, digits: &str, answer: &mut Answer) -> Vec<u8> {
    let digits = or(answer, joined(alloc, digits), String::new(alloc));
    let bytes = or(answer, bytes(alloc, digits.as_str()), Vec::new(alloc));
    drop(digits);
    bytes
}

/// So many handles.
pub(crate) fn handles_of(alloc: Global, count: usize, answer: &mut Answer) -> Vec<Handle> {
    or(answer, vec![in alloc; Handle(7); count], Vec::new(alloc))
}

/// The bytes in pieces.
pub(crate) fn in_pieces(alloc: Global, bytes: &[u8], answer: &mut Answer) -> Pieces {
    let mut pieces = Pieces::new(alloc);
    push_pieces(alloc, &mut pieces, bytes, MOST_BYTES, 0, answer);
    pieces
}

/// The parts, each a piece.
pub(crate) fn source_of(alloc: Global, parts: &str, answer: &mut Answer) -> Pieces {
    pieces_of(alloc, "each", parts.trim_end(), 0, answer)
}

/// The parts in pieces of this cut, with so many handles.
pub(crate) fn pieces_of(
    alloc: Global,
    cut: &str,
    parts: &str,
    handles: usize,
    answer: &mut Answer,
) -> Pieces {
    let mut pieces = Pieces::new(alloc);
    match cut {
        "each" => push_parts(alloc, &mut pieces, parts, handles, answer),
        _ => {
            let size = or(answer, count(cut), 0);
            push_part(alloc, &mut pieces, parts, size, handles, answer);
        }
    }
    pieces
}

/// Adds the parts, each a piece, with so many handles each.
fn push_parts(
    alloc: Global,
    pieces: &mut Pieces,
    parts: &str,
    handles: usize,
    answer: &mut Answer,
) {
    for part in parts.split(' ') {
        push_part(alloc, pieces, part, MOST_BYTES, handles, answer);
    }
}

/// Adds the bytes of a part in pieces, each of so many bytes, with so many handles.
fn push_part(
    alloc: Global,
    pieces: &mut Pieces,
    part: &str,
    size: usize,
    handles: usize,
    answer: &mut Answer,
) {
    let bytes = bytes_of(alloc, part, answer);
    push_pieces(alloc, pieces, &bytes, size, handles, answer);
    drop(bytes);
}

/// Adds the bytes in pieces, each of so many bytes, but for the last one, which may have fewer. So many handles come with
/// the first of them, 64 with each.
fn push_pieces(
    alloc: Global,
    pieces: &mut Pieces,
    bytes: &[u8],
    size: usize,
    handles: usize,
    answer: &mut Answer,
) {
    let mut left = handles;
    for chunk in bytes.chunks(size.max(1)) {
        let with = left.min(MOST_HANDLES);
        left -= with;
        push_piece(alloc, pieces, chunk, with, answer);
    }
}

/// Adds a piece of these bytes and so many handles.
fn push_piece(
    alloc: Global,
    pieces: &mut Pieces,
    bytes: &[u8],
    handles: usize,
    answer: &mut Answer,
) {
    let handles = handles_of(alloc, handles, answer);
    if bytes.is_empty() || bytes.len() > MOST_BYTES || handles.len() > MOST_HANDLES {
        answer.stop(Stop::Line);
    } else {
        answer.take(pieces.push(bytes, &handles));
    }
    drop(handles);
}

/// A clock of these readings, with that sign between them.
pub(crate) fn clock_of(
    alloc: Global,
    text: &str,
    between: char,
    answer: &mut Answer,
) -> Option<Readings> {
    let mut readings = Vec::new(alloc);
    for reading in text.split(between) {
        push_reading(&mut readings, reading, answer);
    }
    let clock = answer.take(Readings::new(alloc, &readings));
    drop(readings);
    clock
}

/// Adds the reading of a word, if it has letters.
fn push_reading(readings: &mut Vec<u64>, word: &str, answer: &mut Answer) {
    if !word.is_empty() {
        let reading = or(answer, id(word), 0);
        answer.take(readings.push(reading));
    }
}
