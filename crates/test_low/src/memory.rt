//! Each call of the types in memory, with ample memory.

use crate::words::tell_whether;
use ei_backend::{Clock, Fault, Pieces, Readings, Sink, Source, Taken, Tray};
use ei_spec::Handle;
use reis_lines::{Input, MemoryText};
use std::alloc::Global;
use test_table::{Answer, Reader};

/// Tells whether the source, the sink, the text or the clock answers as it should, and fails where it is said to.
pub(crate) fn tell(alloc: Global, answer: &mut Answer, words: &mut Reader<'_>) {
    match words.word() {
        "pieces" => tell_pieces(alloc, answer),
        "failing-pieces" => tell_failing_pieces(alloc, answer),
        "tray" => tell_tray(alloc, answer),
        "failing-tray" => tell_failing_tray(alloc, answer),
        "text" => tell_text(alloc, answer),
        "failing-text" => tell_failing_text(alloc, answer),
        "clock" => tell_clock(alloc, answer),
        _ => words.miss(),
    }
}

/// The calls, and which of them fail.
const CALLS: [bool; 5] = [false, true, false, true, false];

/// Whether the next piece has so many bytes and handles.
fn is_next(taken: Result<Taken, Fault>, bytes: usize, handles: usize) -> bool {
    taken == Ok(Taken { bytes, handles })
}

/// Tells whether pieces are handed on, and then none.
fn tell_pieces(alloc: Global, answer: &mut Answer) {
    let mut pieces = Pieces::new(alloc);
    answer.take(pieces.push(b"ab", &[Handle(7)]));
    tell_whether(answer, are_handed_on(&mut pieces));
    // Let go by a call: at the end of a scope the drop of each field is proved anew.
    drop(pieces);
}

/// Whether the first piece is handed on, and then none.
fn are_handed_on(pieces: &mut Pieces) -> bool {
    let mut room = [0; 65536];
    let mut handle_room = [Handle(0); 64];
    let is_first = is_next(pieces.take(&mut room, &mut handle_room), 2, 1);
    let are_moved = room.starts_with(b"ab") && handle_room.starts_with(&[Handle(7)]);
    is_first && are_moved && is_next(pieces.take(&mut room, &mut handle_room), 0, 0)
}

/// Tells whether a source fails where it is said to.
fn tell_failing_pieces(alloc: Global, answer: &mut Answer) {
    let mut pieces = Pieces::new(alloc);
    answer.take(pieces.fail_at(4));
    answer.take(pieces.fail_at(2));
    tell_whether(answer, takes_fail_where_named(&mut pieces));
    drop(pieces);
}

/// Whether the source's second and fourth call fail.
fn takes_fail_where_named(pieces: &mut Pieces) -> bool {
    let mut room = [0; 65536];
    let mut handle_room = [Handle(0); 64];
    let mut right = true;
    for fails in &CALLS {
        right = pieces.take(&mut room, &mut handle_room).is_err() == *fails && right;
    }
    right
}

/// Whether the tray has these bytes and handles.
fn has(tray: &Tray, bytes: &[u8], handles: &[Handle]) -> bool {
    tray.bytes() == bytes && tray.handles() == handles
}

/// Tells whether a tray keeps what is put into it.
fn tell_tray(alloc: Global, answer: &mut Answer) {
    let mut tray = Tray::new(alloc);
    let first = tray.put(b"ab", &[Handle(7)]);
    let second = tray.put(b"c", &[]);
    let right = first == Ok(2) && second == Ok(1) && has(&tray, b"abc", &[Handle(7)]);
    tell_whether(answer, right);
    drop(tray);
}

/// Tells whether a tray fails where it is said to, and takes nothing then.
fn tell_failing_tray(alloc: Global, answer: &mut Answer) {
    let mut tray = Tray::new(alloc);
    answer.take(tray.fail_at(4));
    answer.take(tray.fail_at(2));
    tell_whether(answer, puts_fail_where_named(&mut tray));
    drop(tray);
}

/// Whether the tray's second and fourth call fail, and take nothing.
fn puts_fail_where_named(tray: &mut Tray) -> bool {
    let mut right = true;
    for fails in &CALLS {
        right = tray.put(b"a", &[]).is_err() == *fails && right;
    }
    right && has(tray, b"aaa", &[])
}

/// How many bytes each call fetches of three, with room for two, and what the room holds then.
const FETCHES: [(usize, [u8; 2]); 3] = [(2, *b"ab"), (1, *b"cb"), (0, *b"cb")];

/// Tells whether a text is handed on.
fn tell_text(alloc: Global, answer: &mut Answer) {
    if let Some(mut text) = answer.take(MemoryText::new(alloc, b"abc")) {
        tell_whether(answer, is_handed_on(&mut text));
        drop(text);
    }
}

/// Whether the text is handed on in parts of two bytes at most.
fn is_handed_on(text: &mut MemoryText) -> bool {
    let mut bytes = [b'-'; 2];
    let mut right = true;
    for (count, held) in &FETCHES {
        right = text.fetch(&mut bytes) == Ok(*count) && bytes == *held && right;
    }
    right
}

/// Tells whether a text fails where it is said to, and hands on nothing then.
fn tell_failing_text(alloc: Global, answer: &mut Answer) {
    if let Some(mut text) = answer.take(MemoryText::new(alloc, b"abcde")) {
        answer.take(text.fail_at(4));
        answer.take(text.fail_at(2));
        tell_whether(answer, fetches_fail_where_named(&mut text));
        drop(text);
    }
}

/// Whether the text's second and fourth call fail, and hand on nothing.
fn fetches_fail_where_named(text: &mut MemoryText) -> bool {
    let mut byte = [b'-'];
    let mut right = true;
    for fails in &CALLS {
        right = text.fetch(&mut byte).is_err() == *fails && right;
    }
    right && byte == [b'c']
}

/// Tells whether a clock shows its readings, and then 0.
fn tell_clock(alloc: Global, answer: &mut Answer) {
    if let Some(mut readings) = answer.take(Readings::new(alloc, &[5, 9])) {
        tell_whether(answer, are_shown(&mut readings));
        drop(readings);
    }
}

/// Whether the clock shows its readings, and then 0.
fn are_shown(clock: &mut Readings) -> bool {
    let mut right = true;
    for reading in &[5, 9, 0, 0] {
        right = clock.now() == *reading && right;
    }
    right
}
