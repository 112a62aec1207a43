//! The two phases of a session, message by message.

ghost use Rattle.std.specs.Prelude.{◌≡◌, ◌≤◌, ◌<◌, ◌↔◌, List, [], ℕ, true, false, length, None, Some, IsTrue, IsErrOf, OnOk, OnErr, IfOk, IfErr};
ghost use Rattle.std.specs.Option.{option_map};
ghost use Rattle.ei_spec.specs.declared.handle.Handle.{Handle};
ghost use Rattle.ei_spec.specs.Message.{Raw};
ghost use Rattle.ei_types.specs.Capability.{all_bits};
ghost use Rattle.ei_types.specs.Errors.{error_of_flush, error_of_send};
ghost use Rattle.ei_types.specs.declared.error.Error.TheVariants as error;
ghost use Rattle.ei_wire.specs.declared.error.ReadError.TheVariants as read_error;
ghost use Rattle.ei_backend.specs.Outside.{Piece};
ghost use Rattle.ei_backend.specs.Lent.{LentSource, LentSink, LentClock};
ghost use Rattle.ei_session.specs.Setup.{Setup as Started};
ghost use Rattle.ei_session.specs.Handshake.{connected, is_finish};
ghost use Rattle.ei_serve.specs.declared.phase.Phase.TheVariants as phases;
ghost use Rattle.ei_serve.specs.Around.{beside};
ghost use Rattle.ei_serve.specs.Causes.{Greeted, GreetedInPart, RefusesToStart};
ghost use Rattle.ei_serve.specs.Standing.{context_in, unread_in, unsent_in, capacity_in, IsOpenIn, IsShaking, StandsAt, terms_of, connection_in};
ghost use Rattle.ei_serve.specs.Steps.{Steps, StepsInHandshake, AsksToFinishIn, HandsOverIn, ConnectsPhase, told};
ghost use Rattle.ei_serve.specs.Taking.{ReadsPhase};
ghost use Rattle.ei_serve.specs.Turning.{HandlesAll};

use crate::connected::{connect, converse};
use crate::handshaking::{Shaken, shake};
use crate::session::Turn;
use crate::state::Start;
use ei_backend::{Clock, Sink, Source};
use ei_handshake::{EisHandshakeResp, EisHandshaker};
use ei_request::{Connection, EisRequest, EisRequestConverter};
use ei_server::{Context, Handshake};
use ei_types::{Error, HandshakeError};
use ei_wire::{FlushError, ParseError, ReadError, SendError};
use std::alloc::Global;
use std::mem;

/// What a session is doing.
#[derive(Drop)]
pub(crate) enum Phase {
    /// It shakes hands.
    Handshake(Context, EisHandshaker),
    /// The connection stands.
    Connected(EisRequestConverter),
    /// It is over.
    Over,
}

/// What became of the message at the front, where it wasn't refused.
#[derive(Drop)]
pub(crate) enum Step {
    /// There was no whole message.
    Waiting,
    /// It was handled.
    Handled,
    /// The client disconnected.
    Disconnect,
}

/// The message at the front was refused. Why stands where the caller wants it, since an error is large.
#[derive(Drop)]
pub(crate) struct Rejected;

/// Says why the message at the front is refused.
#[inline(never)]
pub(crate) fn refuse(why: &mut Error, error: Error) -> Rejected
    ensures { why.new ≡ error }
{
    *why = error;
    Rejected
}

/// The same: it can't be read.
// An error that is made where it is told takes its place there, at each message. So each kind of error has a call.
#[inline(never)]
pub(crate) fn refuse_parse(why: &mut Error, fault: ParseError) -> Rejected
    ensures { why.new ≡ error.Parse fault }
{
    refuse(why, Error::Parse(fault))
}

/// The same: the handshake doesn't allow it.
#[inline(never)]
pub(crate) fn refuse_handshake(why: &mut Error, fault: HandshakeError) -> Rejected
    ensures { why.new ≡ error.Handshake fault }
{
    refuse(why, Error::Handshake(fault))
}

/// The same: what it asks for can't be sent.
#[inline(never)]
pub(crate) fn refuse_send(why: &mut Error, error: SendError) -> Rejected
    ensures { why.new ≡ error_of_send error }
{
    refuse(why, Error::from(error))
}

/// The same: the sink didn't take what answers it.
#[inline(never)]
pub(crate) fn refuse_flush(why: &mut Error, error: FlushError) -> Rejected
    ensures { why.new ≡ error_of_flush error }
{
    refuse(why, Error::from(error))
}

/// The same: memory ran out.
#[inline(never)]
pub(crate) fn refuse_memory(why: &mut Error) -> Rejected
    ensures { why.new ≡ error.NoMemory }
{
    refuse(why, Error::NoMemory)
}

impl Phase {
    /// Greets the client.
    pub(crate) fn start<K: Sink>(
        alloc: Global,
        initial_serial: u32,
        sink: &mut K,
    ) -> Result<Phase, Error>
        ensures stands { (setup : Started) → setup.capabilities ≤ all_bits → setup.serial ≡ initial_serial →
            IfOk result (λ phase. StandsAt setup [] [] [] [] phase) }
        ensures only { IfErr result RefusesToStart }
        ensures greeted { OnOk result (Greeted (K.view sink.old) (K.view sink.new)) }
        ensures greeted_in_part { OnErr result (GreetedInPart (K.view sink.old) (K.view sink.new)) }
        ensures sink { LentSink K.view K.later (IsErrOf result error.WriteFault) sink.old sink.new }
    {
        let mut context = Context::new(alloc)?;
        // Let go by a call: at the end of a scope the drop of each field is proved anew.
        let handshaker = match EisHandshaker::new(alloc, &mut context, initial_serial) {
            Ok(handshaker) => handshaker,
            Err(error) => {
                drop(context);
                return Err(Error::from(error));
            }
        };
        if let Err(error) = context.flush(sink) {
            drop(handshaker);
            drop(context);
            return Err(Error::from(error));
        }
        Ok(Phase::Handshake(context, handshaker))
    }

    /// Ends it.
    // It is called once a session.
    #[inline(never)]
    pub(crate) fn end(&mut self)
        ensures { self.new ≡ phases.Over }
    {
        drop(mem::replace(self, Phase::Over));
    }

    /// Whether it is over.
    pub(crate) fn is_over(&self) -> bool
        ensures { IsTrue result ↔ (self.now ≡ phases.Over) }
    {
        matches!(self, Phase::Over)
    }

    /// Whether the connection stands.
    pub(crate) fn is_connected(&self) -> bool
        ensures { (setup : Started) (past : List Raw) (times rest : List ℕ) (handles : List Handle) →
            StandsAt setup past times rest handles self.now
            → result ≡ connected past }
    {
        matches!(self, Phase::Connected(_))
    }

    /// The connection, where it stands.
    pub(crate) fn connection(&self) -> Option<&Connection>
        ensures { option_map (λ c. c.now) result ≡ connection_in self.now }
    {
        match self {
            Phase::Connected(converter) => Some(converter.handle()),
            _ => None,
        }
    }

    /// The endpoint; none where it is over.
    fn context(&self) -> Option<&Context>
        ensures { option_map (λ c. c.now) result ≡ context_in self.now }
    {
        match self {
            Phase::Handshake(context, _) => Some(context),
            Phase::Connected(converter) => Some(converter.handle().context()),
            Phase::Over => None,
        }
    }

    /// How many bytes came and are not read yet.
    pub(crate) fn unread_len(&self) -> usize
        ensures { result ≡ unread_in self.now }
    {
        self.context().map_or(0, |context| context.unread_len())
    }

    /// How many bytes wait to be sent.
    pub(crate) fn unsent_len(&self) -> usize
        ensures { result ≡ unsent_in self.now }
    {
        self.context().map_or(0, |context| context.unsent_len())
    }

    /// How many bytes may be unread before the ring that holds them grows.
    pub(crate) fn ring_capacity(&self) -> usize
        ensures { result ≡ capacity_in self.now }
    {
        self.context().map_or(0, |context| context.ring_capacity())
    }

    /// Takes a piece.
    pub(crate) fn read<S: Source>(&mut self, source: &mut S) -> Result<usize, ReadError>
        ensures reads { (setup : Started) (past : List Raw) (times rest : List ℕ) (handles : List Handle) →
            length rest < 1048576 → StandsAt setup past times rest handles self.old →
            ReadsPhase setup past times rest handles result self.new (S.view source.old) (S.view source.new) }
        ensures source { LentSource S.view S.later (IsErrOf result read_error.ReadFault)
            (IsOpenIn self.old × IsErrOf result read_error.UnexpectedEof) source.old source.new }
    {
        match self {
            Phase::Handshake(context, _) => context.read(source),
            Phase::Connected(converter) => converter.handle_mut().context_mut().read(source),
            Phase::Over => Err(ReadError::UnexpectedEof),
        }
    }

    /// Handles the message at the front, if one is whole, and sends what answers it.
    #[inline(always)]
    pub(crate) fn step<K: Sink, C: Clock>(
        &mut self,
        start: Start,
        sink: &mut K,
        clock: &mut C,
        out: &mut Vec<EisRequest>,
        why: &mut Error,
    ) -> Result<Step, Rejected>
        ensures steps { (past : List Raw) (times rest : List ℕ) (handles : List Handle) →
            StandsAt (terms_of start.terms) past times rest handles self.old →
            Steps (terms_of start.terms) past times rest handles (told result why.new) self.new
            (beside out.old.items (K.view sink.old) (C.view clock.old).left)
            (beside out.new.items (K.view sink.new) (C.view clock.new).left) }
        ensures sink { LentSink K.view K.later (IsErrOf (told result why.new) error.WriteFault) sink.old sink.new }
        ensures no_read_fault { IsErrOf (told result why.new) error.ReadFault → ⊥ }
        ensures clock { LentClock C.later clock.old clock.new }
    {
        match self {
            Phase::Connected(converter) => converse(converter, sink, clock, out, why),
            Phase::Handshake(_, _) => self.step_in_handshake(start, sink, why),
            Phase::Over => Ok(Step::Waiting),
        }
    }

    /// Handles the message at the front during the handshake, if one is whole.
    #[inline(never)]
    fn step_in_handshake<K: Sink>(
        &mut self,
        start: Start,
        sink: &mut K,
        why: &mut Error,
    ) -> Result<Step, Rejected>
        requires { IsShaking self.old }
        ensures steps { (past : List Raw) (times rest : List ℕ) (handles : List Handle) →
            StandsAt (terms_of start.terms) past times rest handles self.old →
            StepsInHandshake (terms_of start.terms) past times rest handles (told result why.new) self.new
            (K.view sink.old) (K.view sink.new) }
        ensures sink { LentSink K.view K.later (IsErrOf (told result why.new) error.WriteFault) sink.old sink.new }
        ensures no_read_fault { IsErrOf (told result why.new) error.ReadFault → ⊥ }
    {
        let Phase::Handshake(context, handshaker) = self else {
            unreachable!();
        };
        match shake(context, handshaker, why) {
            Ok(Shaken::Waiting) => Ok(Step::Waiting),
            Ok(Shaken::Handled) => Ok(Step::Handled),
            Ok(Shaken::Finish(handshake)) => self.finish(&handshake, start, sink, why),
            Err(rejected) => Err(rejected),
        }
    }

    /// Ends the handshake, as the finish that was at the front asks, and goes over to the connection.
    // What it makes on the way is large, and it is called once a session.
    #[inline(never)]
    fn finish<K: Sink>(
        &mut self,
        handshake: &Handshake,
        start: Start,
        sink: &mut K,
        why: &mut Error,
    ) -> Result<Step, Rejected>
        requires { IsShaking self.old }
        ensures steps { (past : List Raw) (times rest : List ℕ) (handles : List Handle) →
            AsksToFinishIn (terms_of start.terms) past times rest handles handshake.now self.old →
            StepsInHandshake (terms_of start.terms) past times rest handles (told result why.new) self.new
            (K.view sink.old) (K.view sink.new) }
        ensures sink { LentSink K.view K.later (IsErrOf (told result why.new) error.WriteFault) sink.old sink.new }
        ensures no_read_fault { IsErrOf (told result why.new) error.ReadFault → ⊥ }
    {
        let Phase::Handshake(context, handshaker) = self else {
            unreachable!();
        };
        // Where it is refused it takes no memory.
        if !handshaker.has_required() {
            return Err(refuse_handshake(why, HandshakeError::MissingInterface));
        }
        match handshaker.finish(context, handshake) {
            Ok(resp) => match self.connect(start, resp, sink) {
                Ok(()) => Ok(Step::Handled),
                Err(error) => Err(refuse(why, error)),
            },
            Err(error) => Err(refuse(why, error)),
        }
    }

    /// Goes over to the connection.
    fn connect<K: Sink>(
        &mut self,
        start: Start,
        resp: EisHandshakeResp,
        sink: &mut K,
    ) -> Result<(), Error>
        ensures connects { (before : List Raw) (finish : Raw) (after : List ℕ) (handles : List Handle) →
            connected before ≡ false → is_finish finish ≡ true →
            HandsOverIn (terms_of start.terms) before after handles resp self.old →
            ConnectsPhase (terms_of start.terms) before finish after handles result self.new (K.view sink.old)
            (K.view sink.new) }
        ensures sink { LentSink K.view K.later (IsErrOf result error.WriteFault) sink.old sink.new }
        ensures no_read_fault { IsErrOf result error.ReadFault → ⊥ }
    {
        match mem::replace(self, Phase::Over) {
            Phase::Handshake(context, handshaker) => {
                drop(handshaker);
                let converter = connect(start, context, resp, sink)?;
                drop(mem::replace(self, Phase::Connected(converter)));
                Ok(())
            }
            other => {
                drop(other);
                drop(resp);
                Ok(())
            }
        }
    }

    /// Handles every whole message.
    pub(crate) fn handle_messages<K: Sink, C: Clock>(
        &mut self,
        start: Start,
        sink: &mut K,
        clock: &mut C,
        out: &mut Vec<EisRequest>,
    ) -> Result<Turn, Error>
        ensures handles { (past : List Raw) (times rest : List ℕ) (handles : List Handle) →
            StandsAt (terms_of start.terms) past times rest handles self.old →
            HandlesAll (terms_of start.terms) past times rest handles result self.new
            (beside out.old.items (K.view sink.old) (C.view clock.old).left)
            (beside out.new.items (K.view sink.new) (C.view clock.new).left) }
        ensures sink { LentSink K.view K.later (IsErrOf result error.WriteFault) sink.old sink.new }
        ensures no_read_fault { IsErrOf result error.ReadFault → ⊥ }
        ensures clock { LentClock C.later clock.old clock.new }
    {
        // Each message has bytes, so there are no more messages than bytes.
        let mut why = Error::NoMemory;
        for _message in 0..self.unread_len() {
            let step = match self.step(start, sink, clock, out, &mut why) {
                Ok(step) => step,
                Err(_) => return Err(why),
            };
            match step {
                Step::Waiting => return Ok(Turn::GoOn),
                Step::Handled => {}
                Step::Disconnect => return Ok(Turn::Disconnect),
            }
        }
        Ok(Turn::GoOn)
    }
}
