//! The calls of the table by their names.

use crate::adapters::{tell_fetches, tell_puts, tell_readings};
use crate::faults::{tell_fetch_faults, tell_put_faults};
use crate::options::Row;
use crate::pieces::tell_pieces;
use crate::running::{tell_fetch_calls, tell_run};
use std::alloc::Global;
use test_table::{Answer, Answers, Stop, first};

/// The calls. A row of each is `NAME WORD .. : OPTION .. : TEXT`. Blanks count nowhere in the text, a slash is a newline
/// in it, and `^` a carriage return. In an answer ` /` is a newline.
#[derive(Drop)]
pub(crate) struct Calls;

impl Answers for Calls {
    fn answer(&mut self, alloc: Global, call: &str) -> Result<String, Stop> {
        let mut answer = Answer::new(alloc);
        let (name, line) = first(call);
        let row = Row::of(alloc, &mut answer, line);
        tell(alloc, &mut answer, name, &row);
        // Let go by a call: at the end of a scope the drop of each field is proved anew.
        drop(row);
        answer.text()
    }
}

/// Tells what a call answers:
/// - `run WORD ..`: the status, and what was written;
/// - `fetch-faults WORD ..` and `put-faults WORD ..`: how often the run fails where the first call of the input or of the
///   output fails, the second one, and so on, and its status where none does;
/// - `fetch-calls WORD ..`: the status, and how often the reader was asked, over the outside of the system;
/// - what `tell_part` says.
fn tell(alloc: Global, answer: &mut Answer, name: &str, row: &Row<'_>) {
    match name {
        "run" => tell_run(alloc, answer, row),
        "fetch-faults" => tell_fetch_faults(alloc, answer, row),
        "fetch-calls" => tell_fetch_calls(alloc, answer, row),
        "put-faults" => tell_put_faults(alloc, answer, row),
        _ => tell_part(alloc, answer, name, row),
    }
}

/// Tells what a call of a part of the outside answers:
/// - `pieces COUNT`: what so many calls of the source over the text's lines give, and its bad line;
/// - `fetches COUNT`, `puts COUNT` and `readings COUNT`: what so many calls of the standard input, of the standard output
///   and of the clock give.
fn tell_part(alloc: Global, answer: &mut Answer, name: &str, row: &Row<'_>) {
    match name {
        "pieces" => tell_pieces(alloc, answer, row),
        "fetches" => tell_fetches(alloc, answer, row),
        "puts" => tell_puts(alloc, answer, row),
        "readings" => tell_readings(alloc, answer, row),
        _ => answer.stop(Stop::Line),
    }
}
