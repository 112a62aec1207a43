//! Whole runs.

use crate::fakes::{Ticks, Writer};
use crate::options::{Options, Row};
use crate::texts::{tell_found, tell_text};
use ei_wire::EiText;
use reis_lines::Input;
use reis_run::run;
use reis_run::std_io::{StdClock, StdInput, StdOutput};
use std::alloc::Global;
use std::cell::Cell;
use test_table::Answer;

/// `run WORD ..`: the status and what was written, in each of the cuts.
pub(crate) fn tell_run(alloc: Global, answer: &mut Answer, row: &Row<'_>) {
    let mut told = String::new(alloc);
    let mut options = row.options;
    for cut in row.options.cuts.split(',') {
        let mut found = Answer::new(alloc);
        options.cuts = cut;
        tell_run_of(alloc, &mut found, row, options);
        tell_found(answer, &mut told, cut, found);
    }
    // Let go by a call: at the end of a scope the drop of each field is proved anew.
    drop(told);
}

/// Tells the status and what was written.
fn tell_run_of(alloc: Global, answer: &mut Answer, row: &Row<'_>, options: Options<'_>) {
    let mut written = Vec::new(alloc);
    let status = run_of(alloc, answer, row, options, &mut written);
    answer.display(&status);
    answer.put(" ");
    tell_text(alloc, answer, &written);
    drop(written);
}

/// `fetch-calls WORD ..`: the status, and how often the reader was asked.
pub(crate) fn tell_fetch_calls(alloc: Global, answer: &mut Answer, row: &Row<'_>) {
    let calls = Cell::new(0);
    let mut written = Vec::new(alloc);
    let words = row.started_with(alloc, answer);
    let status = run_over_std(
        alloc,
        answer,
        row,
        row.options,
        &words,
        &calls,
        &mut written,
    );
    drop(words);
    drop(written);
    answer.display(&status);
    answer.put(" ");
    answer.display(&calls.get());
}

/// Runs the program as the row and these options say, and answers the status. What is written is added.
pub(crate) fn run_of(
    alloc: Global,
    answer: &mut Answer,
    row: &Row<'_>,
    options: Options<'_>,
    written: &mut Vec<u8>,
) -> u8 {
    let words = row.started_with(alloc, answer);
    let status = if options.is_std {
        run_over_std(alloc, answer, row, options, &words, &Cell::new(0), written)
    } else {
        run_in_memory(alloc, answer, row, options, &words, written)
    };
    drop(words);
    status
}

/// Runs it over the types in memory.
fn run_in_memory(
    alloc: Global,
    answer: &mut Answer,
    row: &Row<'_>,
    options: Options<'_>,
    words: &[EiText],
    written: &mut Vec<u8>,
) -> u8 {
    let mut status = 0;
    let mut input = options.memory_text(alloc, answer, &row.text);
    let mut clock = options.readings(alloc, answer);
    if let (Some(input), Some(clock)) = (&mut input, &mut clock) {
        let mut output = options.tray(alloc, answer);
        status = run(alloc, words, input, &mut output, clock);
        answer.take(written.extend_from_slice(output.bytes()));
        drop(output);
    }
    drop(clock);
    drop(input);
    status
}

/// Runs it over the outside of the system.
fn run_over_std(
    alloc: Global,
    answer: &mut Answer,
    row: &Row<'_>,
    options: Options<'_>,
    words: &[EiText],
    calls: &Cell<u32>,
    written: &mut Vec<u8>,
) -> u8 {
    let ticks = options.ticks(alloc, answer);
    let mut input = StdInput::new(options.reader(answer, options.cuts, &row.text, calls));
    let status = run_over(alloc, words, &mut input, options.writer(written), &ticks);
    drop(input);
    drop(ticks);
    status
}

/// Runs it over this input, into this writer.
fn run_over<I: Input>(
    alloc: Global,
    words: &[EiText],
    input: &mut I,
    writer: Writer<'_>,
    ticks: &Ticks,
) -> u8 {
    let mut output = StdOutput::new(writer);
    let mut clock = StdClock::new(ticks);
    let status = run(alloc, words, input, &mut output, &mut clock);
    drop(clock);
    drop(output);
    status
}
