//! The whole messages that a client reads: each event goes through the converter, and what answers it is sent.

ghost use Rattle.std.specs.Prelude.{◌≡◌, ◌<◌, ℕ, List, Ok, IsErrOf, IfErr, OnOk, length};
ghost use Rattle.ei_types.specs.declared.error.Error.TheVariants as error;
ghost use Rattle.ei_backend.specs.Backend.{BackendView};
ghost use Rattle.ei_backend.specs.Lent.{LentSink, LentClock};
ghost use Rattle.ei_iterator.specs.declared.messages.Read.TheVariants as read;
ghost use Rattle.ei_iterator.specs.Turns.{Turn};
ghost use Rattle.ei_iterator.specs.Around.{Around, around};
ghost use Rattle.ei_iterator.specs.Steps.{Ran, WasRead, ByOne, ByAll, Behind, IsOfMessages};

use ei_backend::{Clock, PendingRequestResult, Sink};
use ei_client::{Context, Event};
use ei_event::EiEventConverter;
use ei_handler::Call;
use ei_types::Error;

/// What became of the message at the front, where it wasn't refused.
pub(crate) enum Read {
    /// There was no whole message.
    Waiting,
    /// It was taken: an event, or a message to no object, which is skipped.
    Taken,
}

/// Takes every whole message, and sends what answers each.
pub(crate) fn take_all<H: Call, K: Sink, C: Clock>(
    context: &mut Context,
    converter: &mut EiEventConverter<H>,
    sink: &mut K,
    clock: &mut C,
) -> Result<(), Error>
    ensures steps { (most : ℕ) (old : Around H) (turns : List Turn) →
        Ran H.may_answer most old turns
        (around context.old converter.old (K.view sink.old) (C.view clock.old).left) →
        Behind turns (ByAll H.may_answer most old result
        (around context.new converter.new (K.view sink.new) (C.view clock.new).left)) }
    ensures only { IfErr result IsOfMessages }
    ensures sink { LentSink K.view K.later (IsErrOf result error.WriteFault) sink.old sink.new }
    ensures clock { LentClock C.later clock.old clock.new }
{
    // Each message has bytes, so there are no more messages than bytes.
    for _message in 0..context.unread_len() {
        match take_next(context, converter, sink, clock)? {
            Read::Waiting => return Ok(()),
            Read::Taken => {}
        }
    }
    Ok(())
}

/// Takes the message at the front, if one is whole, and sends what answers it.
fn take_next<H: Call, K: Sink, C: Clock>(
    context: &mut Context,
    converter: &mut EiEventConverter<H>,
    sink: &mut K,
    clock: &mut C,
) -> Result<Read, Error>
    ensures steps { (most : ℕ) (old : Around H) (turns : List Turn) →
        Ran H.may_answer most old turns
        (around context.old converter.old (K.view sink.old) (C.view clock.old).left) →
        Behind turns (ByOne H.may_answer most old result
        (around context.new converter.new (K.view sink.new) (C.view clock.new).left)) }
    ensures shorter { result ≡ Ok read.Taken → length context.new.unread < length context.old.unread }
    ensures only { IfErr result IsOfMessages }
    ensures sink { LentSink K.view K.later (IsErrOf result error.WriteFault) sink.old sink.new }
    ensures clock { LentClock C.later clock.old clock.new }
{
    let Some(pending) = context.pending_event()? else {
        return Ok(Read::Waiting);
    };
    match pending {
        PendingRequestResult::Request(event) => take_event(context, converter, sink, clock, event),
        PendingRequestResult::InvalidObject(_id) => Ok(Read::Taken),
        PendingRequestResult::ParseError(error) => Err(Error::from(error)),
    }
}

/// Takes an event that was read, and sends what answers it.
fn take_event<H: Call, K: Sink, C: Clock>(
    context: &mut Context,
    converter: &mut EiEventConverter<H>,
    sink: &mut K,
    clock: &mut C,
    event: Event,
) -> Result<Read, Error>
    ensures steps { (most : ℕ) (old : Around H) (turns : List Turn) (before : BackendView) →
        Ran H.may_answer most old turns
        (around before converter.old (K.view sink.old) (C.view clock.old).left) →
        WasRead before event context.old →
        Behind turns (ByOne H.may_answer most old result
        (around context.new converter.new (K.view sink.new) (C.view clock.new).left)) }
    ensures unread { OnOk result (context.new.unread ≡ context.old.unread) }
    ensures only { IfErr result IsOfMessages }
    ensures sink { LentSink K.view K.later (IsErrOf result error.WriteFault) sink.old sink.new }
    ensures clock { LentClock C.later clock.old clock.new }
{
    converter.handle_event(context, clock, event)?;
    context.flush(sink)?;
    Ok(Read::Taken)
}
