//! The report: the reply bytes, a line for each request, and how the session ended.

ghost use Rattle.std.specs.Prelude.{◌≡◌, ◌++◌, ℕ, Some, OnOk, OnErr, IsErrOf};
ghost use Rattle.ei_backend.specs.Lent.{LentSink};
ghost use Rattle.ei_backend.specs.Outside.{Piece};
ghost use Rattle.ei_backend.specs.declared.outside.PutError.TheVariants as put_error;
ghost use Rattle.reis_report.specs.Report.{line_of, reply_line, Writes};

use ei_backend::{PutError, Sink};
use ei_wire::NoMemory;
use std::alloc::Global;

/// Puts a line and its newline behind the report. Where there is no memory the report stays.
pub fn push_line(out: &mut Vec<u8>, line: &str) -> Result<(), NoMemory>
    ensures ok { OnOk result (out.new.items ≡ out.old.items ++ line_of line.now) }
    ensures err { OnErr result (out.new.items ≡ out.old.items) }
{
    let len = out.len();
    out.extend_from_slice(line.as_bytes())?;
    if out.push(b'\n').is_err() {
        out.truncate(len);
        return Err(NoMemory);
    }
    Ok(())
}

/// Puts the line of the reply bytes behind the report. Where there is no memory the report stays.
pub fn push_reply_line(alloc: Global, out: &mut Vec<u8>, reply: &[u8]) -> Result<(), NoMemory>
    ensures ok { OnOk result (out.new.items ≡ out.old.items ++ reply_line reply.now) }
    ensures err { OnErr result (out.new.items ≡ out.old.items) }
{
    let digits = hex::encode(alloc, reply)?;
    let mut line = String::from_str(alloc, "reply ")?;
    line.push_str(digits.as_str())?;
    push_line(out, line.as_str())
}

/// Writes all of the text. After an error a front of it is written.
pub fn write_all<O: Sink>(output: &mut O, text: &[u8]) -> Result<(), PutError>
    ensures written { (held : Piece) → (O.view output.old).taken ≡ Some held →
        Writes held text.now result (O.view output.new).taken }
    ensures sink { LentSink O.view O.later (IsErrOf result put_error.Fault) output.old output.new }
{
    let mut done = 0;
    while done < text.len() {
        done += output.put(&text[done..], &[])?;
    }
    Ok(())
}
