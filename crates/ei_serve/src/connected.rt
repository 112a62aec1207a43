//! The connection, message by message.

ghost use Rattle.std.specs.Prelude.{◌≡◌, ◌++◌, List, [], ℕ, length, Option, IfErr, IsErrOf, OnErr, OnOk, IfOk, None, true, false};
ghost use Rattle.ei_spec.specs.declared.handle.Handle.{Handle};
ghost use Rattle.ei_spec.specs.Message.{Raw};
ghost use Rattle.ei_types.specs.declared.error.Error.TheVariants as error;
ghost use Rattle.ei_backend.specs.Lent.{LentSink, LentClock};
ghost use Rattle.ei_session.specs.Setup.{Setup as Started};
ghost use Rattle.ei_session.specs.Handshake.{connected, is_finish};
ghost use Rattle.ei_serve.specs.Around.{beside};
ghost use Rattle.ei_serve.specs.Standing.{IsConnected, terms_of};
ghost use Rattle.ei_serve.specs.Steps.{HandsOver, Connects, Steps, told};
ghost use Rattle.ei_serve.specs.AtFront.{IsAsked};
ghost use Rattle.ei_serve.specs.HandedOut.{IsHandedOut, handed_at};
ghost use Rattle.ei_serve.specs.Policy.{policy_behind};
ghost use Rattle.ei_serve.specs.declared.phase.Phase.TheVariants as phases;
ghost use Rattle.ei_serve.specs.declared.policy.Policy.TheVariants as policies;

use crate::phase::{
    Rejected, Step, refuse, refuse_flush, refuse_memory, refuse_parse, refuse_send,
};
use crate::policy::{Policy, may_follow_any, policy_behind};
use crate::state::Start;
use ei_backend::{Clock, PendingRequestResult, Sink};
use ei_handshake::EisHandshakeResp;
use ei_request::{EisRequest, EisRequestConverter};
use ei_server::{Context, Request};
use ei_types::Error;
use ei_wire::{NoMemory, SendError};

/// Goes over to the connection, and announces the seat.
pub(crate) fn connect<K: Sink>(
    start: Start,
    context: Context,
    resp: EisHandshakeResp,
    sink: &mut K,
) -> Result<EisRequestConverter, Error>
    ensures connects { (before : List Raw) (finish : Raw) (after : List ℕ) (handles : List Handle) →
        connected before ≡ false → is_finish finish ≡ true →
        HandsOver (terms_of start.terms) before after handles resp context →
        Connects (terms_of start.terms) before finish after handles result (K.view sink.old) (K.view sink.new) }
    ensures sink { LentSink K.view K.later (IsErrOf result error.WriteFault) sink.old sink.new }
    ensures no_read_fault { IsErrOf result error.ReadFault → ⊥ }
{
    let mut converter = EisRequestConverter::new(
        start.alloc,
        context,
        resp,
        start.terms.initial_serial,
    );
    let handle = converter.handle_mut();
    // Let go by a call: at the end of a scope the drop of each field is proved anew.
    match handle.add_seat(None, start.terms.capabilities) {
        Ok(seat) => drop(seat),
        Err(error) => {
            drop(converter);
            return Err(Error::from(error));
        }
    }
    if let Err(error) = handle.context_mut().flush(sink) {
        drop(converter);
        return Err(Error::from(error));
    }
    Ok(converter)
}

/// Handles the message at the front of the connection.
pub(crate) fn converse<K: Sink, C: Clock>(
    converter: &mut EisRequestConverter,
    sink: &mut K,
    clock: &mut C,
    out: &mut Vec<EisRequest>,
    why: &mut Error,
) -> Result<Step, Rejected>
    ensures converses { (setup : Started) (past : List Raw) (times rest : List ℕ) (handles : List Handle) →
        IsConnected setup past times rest handles converter.old →
        Steps setup past times rest handles (told result why.new) (phases.Connected converter.new)
        (beside out.old.items (K.view sink.old) (C.view clock.old).left)
        (beside out.new.items (K.view sink.new) (C.view clock.new).left) }
    ensures sink { LentSink K.view K.later (IsErrOf (told result why.new) error.WriteFault) sink.old sink.new }
    ensures no_read_fault { IsErrOf (told result why.new) error.ReadFault → ⊥ }
    ensures clock { LentClock C.later clock.old clock.new }
{
    match converter.handle_mut().context_mut().pending_request() {
        Ok(Some(PendingRequestResult::Request(request))) => {
            take_request(converter, sink, clock, out, request, why)
        }
        Ok(None) => Ok(Step::Waiting),
        Ok(Some(PendingRequestResult::ParseError(error))) => { Err(refuse_parse(why, error)) }
        Ok(Some(PendingRequestResult::InvalidObject(id))) => {
            let handle = converter.handle_mut();
            if let Err(error) = handle.invalid_object(id) {
                return Err(refuse_send(why, error));
            }
            if let Err(error) = handle.flush(sink) {
                return Err(refuse_flush(why, error));
            }
            Ok(Step::Handled)
        }
        Err(NoMemory) => Err(refuse_memory(why)),
    }
}

/// Takes a request: it is handled, what is queued is handed out, then comes what the policy does behind it, and all
/// that this sends is flushed.
fn take_request<K: Sink, C: Clock>(
    converter: &mut EisRequestConverter,
    sink: &mut K,
    clock: &mut C,
    out: &mut Vec<EisRequest>,
    request: Request,
    why: &mut Error,
) -> Result<Step, Rejected>
    ensures takes { (setup : Started) (past : List Raw) (times rest : List ℕ) (handles : List Handle) →
        IsAsked setup past times rest handles request converter.old →
        Steps setup past times rest handles (told result why.new) (phases.Connected converter.new)
        (beside out.old.items (K.view sink.old) (C.view clock.old).left)
        (beside out.new.items (K.view sink.new) (C.view clock.new).left) }
    ensures sink { LentSink K.view K.later (IsErrOf (told result why.new) error.WriteFault) sink.old sink.new }
    ensures no_read_fault { IsErrOf (told result why.new) error.ReadFault → ⊥ }
    ensures clock { LentClock C.later clock.old clock.new }
{
    if let Err(error) = converter.handle_request(clock, request) {
        return Err(refuse(why, error));
    }
    let handed = out.as_slice().len();
    let may_follow = match hand_out(converter, out) {
        Ok(may_follow) => may_follow,
        Err(_) => return Err(refuse_memory(why)),
    };
    if may_follow {
        return follow(converter, sink, out, handed, why);
    }
    let handle = converter.handle_mut();
    if let Err(error) = handle.flush(sink) {
        return Err(refuse_flush(why, error));
    }
    Ok(Step::Handled)
}

/// Hands out the requests that are queued, all or none, and answers whether something may be done behind the last of them.
#[inline(always)]
fn hand_out(
    converter: &mut EisRequestConverter,
    out: &mut Vec<EisRequest>,
) -> Result<bool, NoMemory>
    ensures hands_out { OnOk result (out.new.items ≡ out.old.items ++ converter.old.queue) }
    ensures nothing { IfOk result (λ may. may ≡ false → policy_behind converter.old.queue ≡ policies.Nothing) }
    ensures last { IfOk result (λ may. may ≡ true → policy_behind out.new.items ≡ policy_behind converter.old.queue) }
    ensures queue { OnOk result (converter.new ≡ record converter.old { queue = [] }) }
    ensures kept { OnErr result (out.new.items ≡ out.old.items) }
{
    if converter.queued_len() == 0 {
        return Ok(false);
    }
    converter.drain_into(out)?;
    Ok(may_follow_any(out))
}

/// Does what the policy does behind the last of the requests that were handed out, and sends what this makes. Where memory
/// runs out for it, those behind the first `handed` are taken back.
// What it makes on the way is large, and few requests ask for it.
#[inline(never)]
fn follow<K: Sink>(
    converter: &mut EisRequestConverter,
    sink: &mut K,
    out: &mut Vec<EisRequest>,
    handed: usize,
    why: &mut Error,
) -> Result<Step, Rejected>
    ensures follows { (setup : Started) (past : List Raw) (times rest : List ℕ) (handles : List Handle) →
        (before : List EisRequest) (read read_now : Option (List ℕ)) → handed ≡ length before →
        IsHandedOut setup past times rest handles before out.old.items read read_now converter.old →
        Steps setup past times rest handles (told result why.new) (phases.Connected converter.new)
        (beside before (K.view sink.old) read) (beside out.new.items (K.view sink.new) read_now) }
    ensures sink { LentSink K.view K.later (IsErrOf (told result why.new) error.WriteFault) sink.old sink.new }
    ensures no_read_fault { IsErrOf (told result why.new) error.ReadFault → ⊥ }
{
    let policy = policy_behind(out);
    let handle = converter.handle_mut();
    if let Err(error) = policy.follow(handle) {
        drop(policy);
        take_back(out, handed, &error);
        return Err(refuse_send(why, error));
    }
    if let Err(error) = handle.flush(sink) {
        drop(policy);
        return Err(refuse_flush(why, error));
    }
    let step = match &policy {
        Policy::End => Step::Disconnect,
        _ => Step::Handled,
    };
    drop(policy);
    Ok(step)
}

/// Takes back what was handed out behind the first `handed` requests, where memory ran out for what answers them.
fn take_back(out: &mut Vec<EisRequest>, handed: usize, error: &SendError)
    ensures { out.new.items ≡ handed_at error.now handed out.old.items }
{
    if matches!(error, SendError::NoMemory) {
        out.truncate(handed);
    }
}
