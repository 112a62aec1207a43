//! The pieces that the lines of a text spell.

use crate::options::Row;
use crate::texts::{number, tell_found};
use ei_backend::{Fault, Source};
use ei_spec::Handle;
use reis_lines::{HexSource, Input};
use reis_run::std_io::StdInput;
use std::alloc::Global;
use std::cell::Cell;
use test_table::Answer;

/// `pieces COUNT`: what so many calls of the source give, and its bad line, in each of the cuts.
pub(crate) fn tell_pieces(alloc: Global, answer: &mut Answer, row: &Row<'_>) {
    let mut told = String::new(alloc);
    for cut in row.options.cuts.split(',') {
        let mut found = Answer::new(alloc);
        tell_pieces_in(alloc, &mut found, row, cut);
        tell_found(answer, &mut told, cut, found);
    }
    // Let go by a call: at the end of a scope the drop of each field is proved anew.
    drop(told);
}

/// Tells what so many calls give in this cut.
fn tell_pieces_in(alloc: Global, answer: &mut Answer, row: &Row<'_>, cut: &str) {
    let count = number(answer, row.words);
    if row.options.is_std {
        let calls = Cell::new(0);
        let reader = row.options.reader(answer, cut, &row.text, &calls);
        let mut input = StdInput::new(reader);
        tell_taken(alloc, answer, &mut input, count);
        drop(input);
    } else if let Some(mut input) = row.options.memory_text(alloc, answer, &row.text) {
        tell_taken(alloc, answer, &mut input, count);
        drop(input);
    }
}

/// Tells what so many calls over this input give, and the bad line.
fn tell_taken<I: Input>(alloc: Global, answer: &mut Answer, input: &mut I, count: u32) {
    if let Some(mut source) = answer.take(HexSource::new(alloc, input)) {
        for _ in 0..count {
            tell_piece(alloc, answer, &mut source);
        }
        match source.bad_line() {
            Some(line) => {
                answer.put("bad line ");
                answer.display(&line);
            }
            None => answer.put("no bad line"),
        }
        drop(source);
    }
}

/// Tells what one call gives: the piece in hexadecimal digits, or how many bytes where there are many; `end`; `fault`.
fn tell_piece<S: Source>(alloc: Global, answer: &mut Answer, source: &mut S) {
    let mut bytes = [0; 65536];
    let mut handles = [Handle(0); 64];
    match source.take(&mut bytes, &mut handles) {
        Ok(taken) if taken.bytes == 0 => answer.put("end "),
        Ok(taken) => tell_bytes(alloc, answer, &bytes[..taken.bytes]),
        Err(Fault) => answer.put("fault "),
    }
}

/// Tells the piece in hexadecimal digits, or how many bytes where there are many.
fn tell_bytes(alloc: Global, answer: &mut Answer, bytes: &[u8]) {
    if bytes.len() > 16 {
        answer.display(&bytes.len());
        answer.put(" bytes ");
    } else if let Some(digits) = answer.take(hex::encode(alloc, bytes)) {
        answer.put(digits.as_str());
        answer.put(" ");
        drop(digits);
    }
}
