//! The text that the program writes, and the status that it ends with.

ghost use Rattle.std.specs.Prelude.{◌≡◌, ◌⊎◌, ◌++◌, ℕ, Some, IfOk, OnOk};
ghost use Rattle.std.specs.String.{string_bytes};
ghost use Rattle.ei_backend.specs.Lent.{LentSink};
ghost use Rattle.ei_backend.specs.Outside.{Piece};
ghost use Rattle.reis_run.specs.Tell.{last_text, request_lines, report_text, told_text, status_of, Tells};

use crate::session::LastLine;
use ei_backend::{PutError, Sink};
use ei_request::EisRequest;
use ei_types::Error;
use ei_wire::NoMemory;
use reis_report::{answer_text, push_line, push_reply_line, request_line, write_all};
use reis_trace::trace;
use std::alloc::Global;

/// The session came to its end.
pub(crate) const DONE: u8 = 0;

/// The session stopped: a message was refused, or a limit reached.
const REFUSED: u8 = 1;

/// The input failed, or a line is bad.
const READ_FAULT: u8 = 3;

/// The output failed.
const WRITE_FAULT: u8 = 4;

/// Memory ran out.
pub const NO_MEMORY: u8 = 5;

/// What is told of a session.
#[derive(Clone, Copy, Debug, PartialEq, Eq)]
pub(crate) enum Form {
    /// Its report.
    Plain,
    /// Its report, and behind it the trace of its replies.
    Traced,
}

/// The last line of a report.
fn last_text(alloc: Global, last: &LastLine) -> Result<String, NoMemory>
    ensures { IfOk result (λ text. string_bytes text ≡ last_text last.now) }
{
    match last {
        LastLine::Answer(answer) => answer_text(alloc, answer),
        LastLine::BadLine(line) => {
            let number = format!(in alloc; "{line}")?;
            let mut text = String::from_str(alloc, "error bad line ")?;
            text.push_str(number.as_str())?;
            Ok(text)
        }
    }
}

/// Puts a line for each request behind the report.
fn push_requests(alloc: Global, out: &mut Vec<u8>, requests: &[EisRequest]) -> Result<(), NoMemory>
    ensures { OnOk result (out.new.items ≡ out.old.items ++ request_lines requests.now) }
{
    for request in requests {
        let line = request_line(alloc, request)?;
        push_line(out, line.as_str())?;
    }
    Ok(())
}

/// The report of a session.
fn report_text(
    alloc: Global,
    reply: &[u8],
    requests: &[EisRequest],
    last: &LastLine,
) -> Result<Vec<u8>, NoMemory>
    ensures { IfOk result (λ text. text.items ≡
        report_text (record { reply = reply.now; requests = requests.now; last = last.now })) }
{
    let mut out = Vec::new(alloc);
    push_reply_line(alloc, &mut out, reply)?;
    push_requests(alloc, &mut out, requests)?;
    let end = last_text(alloc, last)?;
    push_line(&mut out, end.as_str())?;
    Ok(out)
}

/// What is told of a session, in this form.
fn told_text(
    alloc: Global,
    form: Form,
    reply: &[u8],
    requests: &[EisRequest],
    last: &LastLine,
) -> Result<Vec<u8>, NoMemory>
    ensures { IfOk result (λ text. text.items ≡
        told_text form (record { reply = reply.now; requests = requests.now; last = last.now })) }
{
    let mut out = report_text(alloc, reply, requests, last)?;
    match form {
        Form::Plain => Ok(out),
        Form::Traced => {
            let lines = trace(alloc, reply)?;
            out.extend_from_slice(&lines)?;
            Ok(out)
        }
    }
}

/// The status of how a session ended.
fn status_of(last: &LastLine) -> u8
    ensures { result ≡ status_of last.now }
{
    match last {
        LastLine::Answer(Ok(_)) => DONE,
        LastLine::Answer(Err(Error::ReadFault)) | LastLine::BadLine(_) => READ_FAULT,
        // the replies are kept in memory
        LastLine::Answer(Err(Error::WriteFault | Error::NoMemory)) => NO_MEMORY,
        LastLine::Answer(Err(_)) => REFUSED,
    }
}

/// Writes the text. It answers the status, or why not all of the text was written.
pub(crate) fn tell<O: Sink>(output: &mut O, text: &[u8], status: u8) -> u8
    requires unfailing { status ≡ 4 → ⊥ }
    ensures told { (held : Piece) → (O.view output.old).taken ≡ Some held →
        Tells status text.now held result (O.view output.new).taken }
    ensures statuses { (result ≡ status) ⊎ ((result ≡ 4) ⊎ (result ≡ 5)) }
    ensures output { LentSink O.view O.later (result ≡ 4) output.old output.new }
{
    match write_all(output, text) {
        Ok(()) => status,
        Err(PutError::Fault) => WRITE_FAULT,
        Err(PutError::NoMemory) => NO_MEMORY,
    }
}

/// Tells of a session.
pub(crate) fn tell_session<O: Sink>(
    alloc: Global,
    form: Form,
    output: &mut O,
    reply: &[u8],
    requests: &[EisRequest],
    last: &LastLine,
) -> u8
    ensures told { (held : Piece) → (O.view output.old).taken ≡ Some held →
        Tells (status_of last.now) (told_text form
        (record { reply = reply.now; requests = requests.now; last = last.now })) held result
        (O.view output.new).taken }
    ensures statuses { (result ≡ status_of last.now) ⊎ ((result ≡ 4) ⊎ (result ≡ 5)) }
    ensures output { LentSink O.view O.later (result ≡ 4) output.old output.new }
{
    match told_text(alloc, form, reply, requests, last) {
        Ok(text) => tell(output, &text, status_of(last)),
        Err(NoMemory) => NO_MEMORY,
    }
}
