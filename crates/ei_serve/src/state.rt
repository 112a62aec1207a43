//! What a session holds, and the parts of a turn over it.

ghost use Rattle.std.specs.Prelude.{◌≡◌, ◌↔◌, List, Option, ℕ, ◌<◌, ◌^◌, nat_le, Ok, false, IsErrOf};
ghost use Rattle.ei_session.specs.Setup.{Setup as Started};
ghost use Rattle.ei_types.specs.declared.error.Error.TheVariants as error;
ghost use Rattle.ei_backend.specs.Outside.{Piece, SourceView};
ghost use Rattle.ei_backend.specs.Lent.{LentSource, LentSink, LentClock};
ghost use Rattle.ei_serve.specs.Around.{around};
ghost use Rattle.ei_serve.specs.Standing.{Stands, StandsForSome, setup_of, terms_of, unlimited};
ghost use Rattle.ei_serve.specs.Taking.{TakesPiece, piece_came};
ghost use Rattle.ei_serve.specs.Turning.{Turns, IsAtEnd, goes_on, at_end};
ghost use Rattle.ei_serve.specs.declared.state.SessionState.{SessionState};

use crate::phase::Phase;
use crate::session::{Setup, Turn};
use ei_backend::{Clock, Sink, Source};
use ei_request::EisRequest;
use ei_types::{DeviceCapabilities, Error};
use ei_wire::ReadError;
use std::alloc::Global;

/// What a session keeps of its setup. It counts more pieces than a setup can name.
#[derive(Clone, Copy)]
pub(crate) struct Terms {
    pub(crate) initial_serial: u32,
    pub(crate) capabilities: DeviceCapabilities,
    pub(crate) pieces: u64,
}

impl Terms {
    /// With the limit of a setup.
    pub(crate) fn of(setup: Setup) -> Terms
        ensures { terms_of result ≡ setup_of setup }
    {
        Terms {
            initial_serial: setup.initial_serial,
            capabilities: setup.capabilities,
            pieces: u64::from(setup.pieces),
        }
    }

    /// With no limit that a client could come to.
    pub(crate) fn unlimited(initial_serial: u32, capabilities: DeviceCapabilities) -> Terms
        ensures { terms_of result ≡ unlimited initial_serial capabilities }
    {
        Terms {
            initial_serial,
            capabilities,
            pieces: u64::MAX,
        }
    }
}

/// What a session starts with: where memory comes from, and the terms.
#[derive(Clone, Copy)]
pub(crate) struct Start {
    pub(crate) alloc: Global,
    pub(crate) terms: Terms,
}

/// What a session holds: between two turns, and while one is under way.
#[derive(Drop)]
pub(crate) struct SessionState {
    pub(crate) start: Start,
    pub(crate) phase: Phase,
    pub(crate) taken: u64,
}

impl SessionState {
    /// Takes a piece; false at the source's end.
    pub(crate) fn take_piece<S: Source>(&mut self, source: &mut S) -> Result<bool, Error>
        ensures takes { (setup : Started) (pieces : List Piece) (times : List ℕ) → Stands setup pieces times self.old →
            TakesPiece setup pieces times self.old result self.new (S.view source.old) (S.view source.new) }
        ensures source { LentSource S.view S.later (IsErrOf result error.ReadFault)
            (StandsForSome self.old × (result ≡ Ok false)) source.old source.new }
        ensures no_write_fault { IsErrOf result error.WriteFault → ⊥ }
    {
        let is_full = is_full(self.taken, self.start.terms.pieces);
        let read = self.phase.read(source);
        if !piece_came(is_full, read)? {
            return Ok(false);
        }
        self.taken = self.taken.saturating_add(1);
        Ok(true)
    }

    /// Answers what was taken: handles every message that the piece made whole, or says what the source's end means.
    pub(crate) fn answer<K: Sink, C: Clock>(
        &mut self,
        came: Result<bool, Error>,
        sink: &mut K,
        clock: &mut C,
        out: &mut Vec<EisRequest>,
    ) -> Result<Turn, Error>
        requires no_write_fault { IsErrOf came error.WriteFault → ⊥ }
        // over a session that stood for some pieces before it took this
        ensures turns { (setup : Started) (pieces : List Piece) (times : List ℕ) (before : SessionState)
            (source_old source_new : SourceView) →
            Stands setup pieces times before →
            TakesPiece setup pieces times before came self.old source_old source_new →
            Turns setup pieces times result self.new
            (around source_old out.old.items (K.view sink.old) (C.view clock.old).left)
            (around source_new out.new.items (K.view sink.new) (C.view clock.new).left) }
        ensures ends { (setup : Started) (pieces : List Piece) (times : List ℕ) (before : SessionState)
            (source_old source_new : SourceView) →
            Stands setup pieces times before →
            TakesPiece setup pieces times before came self.old source_old source_new →
            IsAtEnd result → came ≡ Ok false }
        // what source, sink and clock say
        ensures read_fault { IsErrOf result error.ReadFault ↔ IsErrOf came error.ReadFault }
        ensures sink { LentSink K.view K.later (IsErrOf result error.WriteFault) sink.old sink.new }
        ensures clock { LentClock C.later clock.old clock.new }
    {
        if !came? {
            return at_end(self.phase.is_connected());
        }
        self.phase.handle_messages(self.start, sink, clock, out)
    }
}

/// Whether as many pieces were taken as may be.
fn is_full(taken: u64, limit: u64) -> bool
    ensures is { result ≡ nat_le limit taken }
    ensures in_range { limit < 2 ^ 64 }
{
    taken >= limit
}

/// Whether a piece came, where no more may be taken or where one may.
fn piece_came(is_full: bool, read: Result<usize, ReadError>) -> Result<bool, Error>
    ensures { result ≡ piece_came is_full read }
{
    match read {
        Ok(_) if is_full => Err(Error::PieceLimit),
        Ok(_) => Ok(true),
        Err(ReadError::HandleLimit) if is_full => Err(Error::PieceLimit),
        Err(ReadError::UnexpectedEof) => Ok(false),
        Err(error) => Err(Error::from(error)),
    }
}

/// What the source's end means, after the connection or before it.
fn at_end(is_connected: bool) -> Result<Turn, Error>
    ensures { result ≡ at_end is_connected }
{
    if is_connected {
        Ok(Turn::End)
    } else {
        Err(Error::UnexpectedEof)
    }
}

/// Whether the session goes on after the answer.
pub(crate) fn goes_on(answer: &Result<Turn, Error>) -> bool
    ensures { result ≡ goes_on answer.now }
{
    matches!(answer, Ok(Turn::GoOn))
}
