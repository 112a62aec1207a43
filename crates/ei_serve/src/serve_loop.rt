//! A whole session.

ghost use Rattle.std.specs.Prelude.{◌≤◌, [], IsErrOf, IfErr};
ghost use Rattle.ei_types.specs.Capability.{bits_of, all_bits};
ghost use Rattle.ei_types.specs.declared.error.Error.TheVariants as error;
ghost use Rattle.ei_session.specs.Served.{session};
ghost use Rattle.ei_backend.specs.Outside.{SinkView};
ghost use Rattle.ei_backend.specs.Lent.{LentSource, LentSink, LentClock};
ghost use Rattle.ei_serve.specs.Around.{around};
ghost use Rattle.ei_serve.specs.Standing.{Stands, setup_of};
ghost use Rattle.ei_serve.specs.Serving.{AnswersAs, EndsWell, IsOfSession, IsSourceEnd, Replied};
ghost use Rattle.ei_backend.specs.Pieces.{ForPieces, GavePieces};
ghost use Rattle.ei_serve.specs.Whole.{Serves};

use crate::session::{Ended, Session, Setup, Turn};
use ei_backend::{Clock, Sink, Source};
use ei_request::EisRequest;
use ei_types::Error;
use std::alloc::Global;

/// Serves one client: greets it, shakes hands, announces one seat, and hands out its requests until it
/// disconnects or the source is at its end.
///
/// It takes the setup's number of pieces and one more at most, and the capabilities have no bit that stands for none.
///
/// It is refused as `Session::start` and `Session::turn` are: `UnexpectedEof` where the source ends before
/// the connection; `PieceLimit` where more pieces come than are taken; `HandleLimit` where more than 4096
/// handles would be unread; `ReadFault`, `WriteFault` and `NoMemory`; `Parse` of what can't be read in a
/// message; before the connection `Handshake` of `InvalidObject`, `DuplicateEvent` and `MissingInterface`;
/// after it `InvalidInterfaceVersion` of a callback or a touchscreen, `Request` of `InvalidCapabilities`,
/// `TooManyTouches`, `DuplicatedTouchDown` and `InvalidTextLength`, and `IdsExhausted` where the ids for a
/// new device run out.
pub fn serve<S: Source, K: Sink, C: Clock>(
    alloc: Global,
    source: &mut S,
    sink: &mut K,
    clock: &mut C,
    setup: Setup,
    out: &mut Vec<EisRequest>,
) -> Result<Ended, Error>
    requires lawful { bits_of setup.capabilities ≤ all_bits }
    // over the pieces that the source tells, or that it gives: the session that the definitions say
    ensures serves { ForPieces (IsSourceEnd result) (S.view source.old) (S.view source.new) (λ told left.
        Serves (setup_of setup) told left result
        (around (S.view source.old) out.old.items (K.view sink.old) (C.view clock.old).left)
        (around (S.view source.new) out.new.items (K.view sink.new) (C.view clock.new).left)) }
    ensures answer { ForPieces (IsSourceEnd result) (S.view source.old) (S.view source.new) (λ told left.
        AnswersAs (session (setup_of setup) told).answer result) }
    // over pieces that make a good end sure, with no fault of the source and none of the sink
    ensures complete { ForPieces (IsSourceEnd result) (S.view source.old) (S.view source.new) (λ told left.
        EndsWell (setup_of setup) told
        (S.view source.old) (S.view source.new) (K.view sink.old) (K.view sink.new) result) }
    // over any source
    ensures gave { GavePieces (S.view source.old) (S.view source.new) }
    ensures only { IfErr result IsOfSession }
    // what source, sink and clock say
    ensures source { LentSource S.view S.later (IsErrOf result error.ReadFault) (IsSourceEnd result)
        source.old source.new }
    ensures sink { LentSink K.view K.later (IsErrOf result error.WriteFault) sink.old sink.new }
    ensures clock { LentClock C.later clock.old clock.new }
{
    match Session::start(alloc, setup, sink) {
        Ok(mut session) => {
            let ended = take_turns(&mut session, source, sink, clock, setup, out);
            // Let go by a call: at the end of a scope the drop of each field is proved anew.
            drop(session);
            ended
        }
        Err(error) => Err(error),
    }
}

/// Takes the turns of a session that has just started, until one of them ends it.
fn take_turns<S: Source, K: Sink, C: Clock>(
    session: &mut Session,
    source: &mut S,
    sink: &mut K,
    clock: &mut C,
    setup: Setup,
    out: &mut Vec<EisRequest>,
) -> Result<Ended, Error>
    requires started { Stands (setup_of setup) [] [] session.old }
    // where the sink was greeted since it said this: the session that the definitions say
    ensures serves { (before : SinkView) → Replied (setup_of setup) [] before (K.view sink.old) →
        ForPieces (IsSourceEnd result) (S.view source.old) (S.view source.new) (λ told left.
        Serves (setup_of setup) told left result
        (around (S.view source.old) out.old.items before (C.view clock.old).left)
        (around (S.view source.new) out.new.items (K.view sink.new) (C.view clock.new).left)) }
    ensures gave { GavePieces (S.view source.old) (S.view source.new) }
    // over any source
    ensures only { IfErr result IsOfSession }
    // what source, sink and clock say
    ensures source { LentSource S.view S.later (IsErrOf result error.ReadFault) (IsSourceEnd result)
        source.old source.new }
    ensures sink { LentSink K.view K.later (IsErrOf result error.WriteFault) sink.old sink.new }
    ensures clock { LentClock C.later clock.old clock.new }
{
    for _turn in 0..u64::from(setup.pieces) + 1 {
        match session.turn(source, sink, clock, out)? {
            Turn::GoOn => {}
            Turn::Disconnect => return Ok(Ended::Disconnect),
            Turn::End => return Ok(Ended::End),
        }
    }
    Err(Error::PieceLimit)
}
