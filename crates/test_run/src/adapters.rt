//! Standard input, standard output and the clock, call by call.

use crate::options::Row;
use crate::texts::{number, tell_text};
use ei_backend::{Clock, Fault, PutError, Sink};
use reis_lines::Input;
use reis_run::std_io::{StdClock, StdInput, StdOutput};
use std::alloc::Global;
use std::cell::Cell;
use test_table::Answer;

/// `fetches COUNT`: what so many calls give, each with room for eight bytes.
pub(crate) fn tell_fetches(alloc: Global, answer: &mut Answer, row: &Row<'_>) {
    let calls = Cell::new(0);
    let reader = row
        .options
        .reader(answer, row.options.cuts, &row.text, &calls);
    let mut input = StdInput::new(reader);
    for _ in 0..number(answer, row.words) {
        tell_fetch(alloc, answer, &mut input);
    }
    drop(input);
}

/// Tells what a call gives: how many bytes, and what the room holds then.
fn tell_fetch<I: Input>(alloc: Global, answer: &mut Answer, input: &mut I) {
    let mut room = [b'-'; 8];
    match input.fetch(&mut room) {
        Ok(count) => answer.display(&count),
        Err(Fault) => answer.put("fault"),
    }
    answer.put(" ");
    tell_text(alloc, answer, &room);
    answer.put(" ");
}

/// `puts COUNT`: how many bytes of the text each of so many calls takes, and what was written.
pub(crate) fn tell_puts(alloc: Global, answer: &mut Answer, row: &Row<'_>) {
    let mut written = Vec::new(alloc);
    let mut output = StdOutput::new(row.options.writer(&mut written));
    for _ in 0..number(answer, row.words) {
        tell_put(answer, output.put(&row.text, &[]));
    }
    drop(output);
    tell_text(alloc, answer, &written);
    // Let go by a call: at the end of a scope the drop of each field is proved anew.
    drop(written);
}

/// Tells how many bytes a call takes.
fn tell_put(answer: &mut Answer, put: Result<usize, PutError>) {
    match put {
        Ok(count) => answer.display(&count),
        Err(PutError::Fault) => answer.put("fault"),
        Err(PutError::NoMemory) => answer.put("no memory"),
    }
    answer.put(" ");
}

/// `readings COUNT`: what the clock shows so many times.
pub(crate) fn tell_readings(alloc: Global, answer: &mut Answer, row: &Row<'_>) {
    let ticks = row.options.ticks(alloc, answer);
    let mut clock = StdClock::new(&ticks);
    for _ in 0..number(answer, row.words) {
        answer.display(&clock.now());
        answer.put(" ");
    }
    drop(clock);
    drop(ticks);
}
