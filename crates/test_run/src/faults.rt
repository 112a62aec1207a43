//! Runs in which one call of the outside fails.

use crate::options::{Options, Row};
use crate::running::run_of;
use std::alloc::Global;
use test_table::{Answer, Stop};

/// The status of a run whose input failed, and of one whose output failed.
const READ_FAULT: u8 = 3;

const WRITE_FAULT: u8 = 4;

/// More calls than any run makes.
const MANY: u32 = 10000;

/// `fetch-faults WORD ..`: how many runs fail where the first call of the input fails, the second one, and so on; and the
/// status of the next one.
pub(crate) fn tell_fetch_faults(alloc: Global, answer: &mut Answer, row: &Row<'_>) {
    let mut options = row.options;
    for call in 1..=MANY {
        options.fetch = call;
        let status = status_of(alloc, answer, row, options, None);
        if status != READ_FAULT {
            return tell_faults(answer, call, status);
        }
    }
    answer.stop(Stop::Call);
}

/// `put-faults WORD ..`: the same of the output, where what was written is a front of what a run without a fault writes.
pub(crate) fn tell_put_faults(alloc: Global, answer: &mut Answer, row: &Row<'_>) {
    let mut whole = Vec::new(alloc);
    run_of(alloc, answer, row, row.options, &mut whole);
    tell_faults_before(alloc, answer, row, &whole);
    // Let go by a call: at the end of a scope the drop of each field is proved anew.
    drop(whole);
}

/// Tells the same, where the whole is written without a fault.
fn tell_faults_before(alloc: Global, answer: &mut Answer, row: &Row<'_>, whole: &[u8]) {
    let mut options = row.options;
    for call in 1..=MANY {
        options.put = call;
        let status = status_of(alloc, answer, row, options, Some(whole));
        if status != WRITE_FAULT {
            return tell_faults(answer, call, status);
        }
    }
    answer.stop(Stop::Call);
}

/// The status of the run of the row with these options. Tells where what was written is no front of the whole.
fn status_of(
    alloc: Global,
    answer: &mut Answer,
    row: &Row<'_>,
    options: Options<'_>,
    whole: Option<&[u8]>,
) -> u8 {
    let mut written = Vec::new(alloc);
    let status = run_of(alloc, answer, row, options, &mut written);
    if let Some(whole) = whole {
        if !whole.starts_with(&written) {
            answer.put("no front, ");
        }
    }
    drop(written);
    status
}

/// Tells how many runs failed before that one, and its status.
fn tell_faults(answer: &mut Answer, call: u32, status: u8) {
    answer.display(&call.saturating_sub(1));
    answer.put(" faults, then ");
    answer.display(&status);
}
