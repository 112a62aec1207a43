//! One client: its session, and what it talks through.

ghost use Rattle.std.specs.Prelude.{◌≡◌, ◌+◌, ℕ, List};
ghost use Rattle.std.specs.declared.option.Option.TheVariants.{None};
ghost use Rattle.ei_types.specs.declared.error.Error.TheVariants as error;
ghost use Rattle.ei_serve.specs.Standing.{IsOver};

use ei_backend::{Clock, Sink, Source};
use ei_request::EisRequest;
use ei_serve::{Ended, Session, ended_by};
use ei_types::Error;

/// A client of a hub.
#[derive(Drop)]
pub(crate) struct Client<S, K> {
    pub(crate) session: Session,
    pub(crate) source: S,
    pub(crate) sink: K,
    pub(crate) requests: Vec<EisRequest>,
    /// How its session ended; `None` while that goes on.
    pub(crate) end: Option<Result<Ended, Error>>,
}

impl<S: Source, K: Sink> Client<S, K> {
    ghost use Rattle.ei_session.specs.Setup.{Setup as Started};
    ghost use Rattle.ei_backend.specs.Outside.{Piece};
    ghost use Rattle.ei_backend.specs.Lent.{LentSource, LentSink, LentClock};
    ghost use Rattle.ei_hub.specs.Alone.{Start, IsAlone, TurnsAlone};
    ghost use Rattle.ei_hub.specs.Clients.{seen, IsEndOf, IsInputEnd};
    ghost use Rattle.ei_hub.specs.Clocks.{AreTaken, GaveReadings};
    ghost use Rattle.ei_hub.specs.Limit.{IsWithin};

    /// Takes one piece. The client goes on: its session isn't over.
    pub(crate) fn turn<C: Clock>(&mut self, clock: &mut C)
        requires going { ¬ IsOver self.old.session }
        ensures alone { (setup : Started) (start : Start) (pieces : List Piece) (times : List ℕ) →
            IsAlone setup start pieces times (seen S.view K.view self.old) →
            TurnsAlone setup start pieces times (AreTaken (C.view clock.old).left (C.view clock.new).left)
            (seen S.view K.view self.old) (seen S.view K.view self.new) }
        // where it goes on it took one piece more, within the same limit
        ensures within { (limit : ℕ) → IsWithin limit self.old.session → self.new.end ≡ None →
            IsWithin limit self.new.session }
        ensures more { self.new.end ≡ None → self.new.session.taken ≡ self.old.session.taken + 1 }
        // what source, sink and clock say
        ensures source { LentSource S.view S.later (IsEndOf self.new.end error.ReadFault) (IsInputEnd self.new.end)
            self.old.source self.new.source }
        ensures sink { LentSink K.view K.later (IsEndOf self.new.end error.WriteFault) self.old.sink self.new.sink }
        ensures clock { LentClock C.later clock.old clock.new }
        ensures gave { GaveReadings (C.view clock.old).left (C.view clock.new).left }
    {
        let turned = self.session.turn(&mut self.source, &mut self.sink, clock, &mut self.requests);
        self.end = ended_by(turned);
    }
}
