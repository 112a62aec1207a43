//! What is told of a session.

use super::world::Stage;
use crate::kept::or;
use crate::reports::{put_asked, put_digits, put_ended};
use ei_serve::Ended;
use ei_types::Error;
use test_table::Answer;

/// A line of how the session ended, one of what the client asked for, and one of all bytes that were sent, in hexadecimal
/// digits.
pub(crate) fn told_of(stage: &Stage, ended: &Result<Ended, Error>, answer: &mut Answer) -> String {
    let mut told = Answer::new(stage.alloc);
    put_ended(&mut told, ended);
    told.put("\n");
    put_asked(stage.alloc, &stage.out, &mut told);
    told.put("\n");
    put_digits(stage.alloc, stage.sink.tray.bytes(), &mut told);
    or(answer, told.text(), String::new(stage.alloc))
}

/// The three lines that are told.
pub(crate) fn lines_of(told: &str) -> (&str, &str, &str) {
    let (ended, rest) = told.split_once('\n').unwrap_or((told, ""));
    let (asked, reply) = rest.split_once('\n').unwrap_or((rest, ""));
    (ended, asked, reply)
}
