//! A session over the lines of an input.

ghost use Rattle.std.specs.Prelude.{◌≡◌, ◌<◌, ◌≤◌, ℕ};
ghost use Rattle.ei_types.specs.Capability.{bits_of, all_bits};
ghost use Rattle.ei_backend.specs.Lent.{LentClock};
ghost use Rattle.ei_backend.specs.Memory.{sink_of};
ghost use Rattle.ei_serve.specs.Standing.{setup_of};
ghost use Rattle.reis_lines.specs.Asking.{fetches_since};
ghost use Rattle.reis_lines.specs.Given.{MetBadLine};
ghost use Rattle.reis_lines.specs.InputText.{ForText};
ghost use Rattle.reis_lines.specs.Lent.{LentInput};
ghost use Rattle.reis_run.specs.Session.{beside, last_line_of, ServesText, FailedLast, IsReadFault, IsBadLine, TellsFault};

use ei_backend::{Clock, Tray};
use ei_request::EisRequest;
use ei_serve::{Ended, Setup, serve};
use ei_types::Error;
use ei_wire::NoMemory;
use reis_lines::{Held, HexSource, Input};
use std::alloc::Global;

/// How a session over lines ended: what the last line of its report says.
#[derive(Debug, Drop)]
pub(crate) enum LastLine {
    /// As the session over the pieces did.
    Answer(Result<Ended, Error>),
    /// At the bad line of this number, from 1.
    BadLine(u64),
}

/// The bad line, where one was met, or the session's answer.
fn last_line(bad: Option<u64>, answer: Result<Ended, Error>) -> LastLine
    ensures { result ≡ last_line_of bad answer }
{
    match bad {
        Some(line) => LastLine::BadLine(line),
        None => LastLine::Answer(answer),
    }
}

/// Serves a client that the input's lines speak for, and keeps the replies and the requests.
pub(crate) fn serve_lines<I: Input, C: Clock>(
    alloc: Global,
    setup: Setup,
    input: &mut I,
    clock: &mut C,
    reply: &mut Tray,
    requests: &mut Vec<EisRequest>,
) -> LastLine
    requires lawful { bits_of setup.capabilities ≤ all_bits }
    // over a text of the input, told or given: the session over its pieces, or its first bad line
    ensures serves { ForText I.view input.old input.new (λ text left.
        ServesText (setup_of setup) (fetches_since I.view input.old input.new) text left result
        (beside requests.old.items (sink_of reply.old) (C.view clock.old).left)
        (beside requests.new.items (sink_of reply.new) (C.view clock.new).left)) }
    // over any input
    ensures fault { IsReadFault result → FailedLast I.view input.old input.new }
    ensures risen { (I.view input.old).faults < (I.view input.new).faults → TellsFault result }
    ensures bad_line { (n : ℕ) → IsBadLine n result → MetBadLine I.view input.old input.new n }
    ensures input { LentInput I.view I.later input.old input.new }
    ensures clock { LentClock C.later clock.old clock.new }
{
    let held = match Held::new(alloc) {
        Ok(held) => held,
        Err(NoMemory) => return LastLine::Answer(Err(Error::NoMemory)),
    };
    let mut source = HexSource::over(held, input);
    let answer = serve(alloc, &mut source, reply, clock, setup, requests);
    let bad = source.bad_line();
    let _input = source.close();
    last_line(bad, answer)
}
