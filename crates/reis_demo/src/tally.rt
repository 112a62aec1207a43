//! The session over a source, whose requests are counted as they come and let go of behind each turn.

ghost use Rattle.std.specs.Prelude.{◌≡◌, ◌≤◌, ◌+◌, ◌^◌, ℕ, List, [], Option, count_by, length, IsErrOf};
ghost use Rattle.ei_types.specs.Capability.{bits_of, all_bits};
ghost use Rattle.ei_types.specs.declared.error.Error.TheVariants as error;
ghost use Rattle.ei_session.specs.Setup.{Setup as Started};
ghost use Rattle.ei_backend.specs.Outside.{Piece, SinkView};
ghost use Rattle.ei_backend.specs.Lent.{LentSource, LentSink, LentClock};
ghost use Rattle.ei_serve.specs.Around.{around};
ghost use Rattle.ei_request.specs.declared.event.EisRequest.{EisRequest as Handed};
ghost use Rattle.ei_serve.specs.Standing.{IsOver, Stands, setup_of};
ghost use Rattle.ei_serve.specs.Serving.{IsSourceEnd, Replied};
ghost use Rattle.ei_backend.specs.Pieces.{ForPieces};
ghost use Rattle.ei_types.specs.Decided.{IsDecided};
ghost use Rattle.reis_demo.specs.Summary.{is_input_request};
ghost use Rattle.ei_serve.specs.Turning.{IsAtEnd};
ghost use Rattle.reis_demo.specs.Tally.{Counts, ServesCounted, TurnsCounted};

use crate::lines::count_inputs;
use ei_backend::{Clock, Sink, Source};
use ei_request::EisRequest;
use ei_serve::{Ended, Session, Setup, Turn};
use ei_types::Error;
use std::alloc::Global;

/// How many requests came, and how many of them are inputs.
#[derive(Clone, Copy)]
pub(crate) struct Tally {
    pub(crate) inputs: u128,
    pub(crate) requests: u128,
}

impl Tally {
    /// None came yet.
    pub(crate) fn none() -> Tally
        ensures { Counts [] result }
    {
        Tally {
            inputs: 0,
            requests: 0,
        }
    }

    /// Counts these requests too.
    fn count(&mut self, requests: &[EisRequest])
        requires room { self.old.requests ≤ 2 ^ 127 }
        requires input_room { self.old.inputs ≤ 2 ^ 127 }
        ensures requests { self.new.requests ≡ self.old.requests + length requests.now }
        ensures inputs { self.new.inputs ≡ self.old.inputs + count_by is_input_request requests.now }
    {
        self.requests += requests.len() as u128;
        self.inputs += count_inputs(requests) as u128;
    }
}

/// Takes a turn, counts its requests and lets go of them. The list is empty before and behind it, and lent for its room alone.
fn count_turn<S: Source, K: Sink, C: Clock>(
    session: &mut Session,
    source: &mut S,
    sink: &mut K,
    clock: &mut C,
    requests: &mut Vec<EisRequest>,
    tally: &mut Tally,
) -> Result<Turn, Error>
    requires going { ¬ IsOver session.old }
    requires none { requests.old.items ≡ [] }
    requires room { tally.old.requests ≤ 2 ^ 127 }
    requires input_room { tally.old.inputs ≤ 2 ^ 127 }
    // behind any requests that were counted before
    ensures turns { (setup : Started) (pieces : List Piece) (times : List ℕ) (came : List Handed) →
        Stands setup pieces times session.old → Counts came tally.old →
        TurnsCounted setup pieces times came result session.new tally.new
        (around (S.view source.old) [] (K.view sink.old) (C.view clock.old).left)
        (around (S.view source.new) [] (K.view sink.new) (C.view clock.new).left) }
    ensures none { requests.new.items ≡ [] }
    ensures few { tally.new.requests ≤ tally.old.requests + 2 ^ 64 }
    ensures few_inputs { tally.new.inputs ≤ tally.old.inputs + 2 ^ 64 }
    // what source, sink and clock say
    ensures source { LentSource S.view S.later (IsErrOf result error.ReadFault) (IsAtEnd result) source.old source.new }
    ensures sink { LentSink K.view K.later (IsErrOf result error.WriteFault) sink.old sink.new }
    ensures clock { LentClock C.later clock.old clock.new }
{
    let answer = session.turn(source, sink, clock, requests);
    tally.count(requests);
    requests.clear();
    answer
}

/// Serves one client, as `ei_serve::serve` does, and counts its requests in place of handing them out.
///
/// It is refused as that is.
pub(crate) fn serve_counted<S: Source, K: Sink, C: Clock>(
    alloc: Global,
    source: &mut S,
    sink: &mut K,
    clock: &mut C,
    setup: Setup,
    tally: &mut Tally,
) -> Result<Ended, Error>
    requires lawful { bits_of setup.capabilities ≤ all_bits }
    requires none { Counts [] tally.old }
    ensures serves { IsDecided result →
        ForPieces (IsSourceEnd result) (S.view source.old) (S.view source.new)
        (λ told left. ServesCounted (setup_of setup) told left result tally.new
        (around (S.view source.old) [] (K.view sink.old) (C.view clock.old).left)
        (around (S.view source.new) [] (K.view sink.new) (C.view clock.new).left)) }
    // what source, sink and clock say
    ensures source { LentSource S.view S.later (IsErrOf result error.ReadFault)
        (IsSourceEnd result) source.old source.new }
    ensures sink { LentSink K.view K.later (IsErrOf result error.WriteFault) sink.old sink.new }
    ensures clock { LentClock C.later clock.old clock.new }
{
    match Session::start(alloc, setup, sink) {
        Ok(mut session) => {
            let ended = count_turns(alloc, &mut session, source, sink, clock, setup, tally);
            // Let go by a call: at the end of a scope the drop of each field is proved anew.
            drop(session);
            ended
        }
        Err(error) => Err(error),
    }
}

/// Takes the turns of a session that has just started, until one of them ends it, and counts the requests of each.
///
/// No more of the requests are in memory than those of one piece.
fn count_turns<S: Source, K: Sink, C: Clock>(
    alloc: Global,
    session: &mut Session,
    source: &mut S,
    sink: &mut K,
    clock: &mut C,
    setup: Setup,
    tally: &mut Tally,
) -> Result<Ended, Error>
    requires started { Stands (setup_of setup) [] [] session.old }
    requires none { Counts [] tally.old }
    // where the sink was greeted since it said this: the session that the definitions say
    ensures serves { (before : SinkView) → Replied (setup_of setup) [] before (K.view sink.old) →
        ForPieces (IsSourceEnd result) (S.view source.old) (S.view source.new)
        (λ told left. ServesCounted (setup_of setup) told left result tally.new
        (around (S.view source.old) [] before (C.view clock.old).left)
        (around (S.view source.new) [] (K.view sink.new) (C.view clock.new).left)) }
    // what source, sink and clock say
    ensures source { LentSource S.view S.later (IsErrOf result error.ReadFault)
        (IsSourceEnd result) source.old source.new }
    ensures sink { LentSink K.view K.later (IsErrOf result error.WriteFault) sink.old sink.new }
    ensures clock { LentClock C.later clock.old clock.new }
{
    let mut requests = Vec::new(alloc);
    for _turn in 0..u64::from(setup.pieces) + 1 {
        match count_turn(session, source, sink, clock, &mut requests, tally)? {
            Turn::GoOn => {}
            Turn::Disconnect => return Ok(Ended::Disconnect),
            Turn::End => return Ok(Ended::End),
        }
    }
    Err(Error::PieceLimit)
}
