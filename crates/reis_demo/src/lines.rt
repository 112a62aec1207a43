//! The six lines.

ghost use Rattle.std.specs.Prelude.{◌≡◌, ◌++◌, count_by, OnOk, IfOk};
ghost use Rattle.reis_demo.specs.Summary.{is_input_request, number_line, six_lines};

use crate::tally::Tally;
use ei_request::EisRequest;
use ei_serve::Ended;
use ei_types::Error;
use ei_wire::NoMemory;
use reis_report::{answer_text, push_line};
use std::alloc::Global;

/// What a session came to.
#[derive(Clone, Copy)]
pub(crate) struct Counts {
    pub(crate) groups: u32,
    pub(crate) tally: Tally,
    pub(crate) bytes_in: u64,
    pub(crate) bytes_out: usize,
}

/// Whether a request is an input: any but these.
fn is_input(request: &EisRequest) -> bool
    ensures { result ≡ is_input_request request.now }
{
    match request {
        EisRequest::Disconnect
        | EisRequest::Bind(_)
        | EisRequest::RequestDevice(_)
        | EisRequest::DeviceClosed(_)
        | EisRequest::Frame(_)
        | EisRequest::Ready(_)
        | EisRequest::DeviceStartEmulating(_)
        | EisRequest::DeviceStopEmulating(_) => false,
        _ => true,
    }
}

/// How many of the requests are inputs.
pub(crate) fn count_inputs(requests: &[EisRequest]) -> usize
    ensures { result ≡ count_by is_input_request requests.now }
{
    let mut count = 0;
    for request in requests {
        if is_input(request) {
            count += 1;
        }
    }
    count
}

/// Puts the line of a name and a number behind the others.
fn push_number(alloc: Global, out: &mut Vec<u8>, name: &str, number: u128) -> Result<(), NoMemory>
    ensures { OnOk result (out.new.items ≡ out.old.items ++ number_line name.now number) }
{
    let line = format!(in alloc; "{name} {number}")?;
    push_line(out, line.as_str())
}

/// The six lines of what a session came to, and how it ended.
pub(crate) fn six_lines(
    alloc: Global,
    counts: &Counts,
    answer: &Result<Ended, Error>,
) -> Result<Vec<u8>, NoMemory>
    ensures { IfOk result (λ text. text.items ≡
        six_lines counts.now.groups counts.now.tally.inputs counts.now.tally.requests counts.now.bytes_in
        counts.now.bytes_out answer.now) }
{
    let mut out = Vec::new(alloc);
    push_number(alloc, &mut out, "groups", u128::from(counts.groups))?;
    push_number(alloc, &mut out, "inputs", counts.tally.inputs)?;
    push_number(alloc, &mut out, "requests", counts.tally.requests)?;
    push_number(alloc, &mut out, "bytes in", u128::from(counts.bytes_in))?;
    push_number(alloc, &mut out, "bytes out", counts.bytes_out as u128)?;
    let end = answer_text(alloc, answer)?;
    push_line(&mut out, end.as_str())?;
    Ok(out)
}
