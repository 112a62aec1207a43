//! The whole messages of a client's handshake: each is handled, and what answers it is sent.

ghost use Rattle.std.specs.Prelude.{◌≡◌, ◌<◌, ◌++◌, List, Ok, IsErrOf, IfErr, length};
ghost use Rattle.ei_spec.specs.Message.{Raw};
ghost use Rattle.ei_types.specs.declared.error.Error.TheVariants as error;
ghost use Rattle.ei_backend.specs.Backend.{BackendView};
ghost use Rattle.ei_backend.specs.Outside.{SinkView};
ghost use Rattle.ei_backend.specs.Lent.{LentSink};
ghost use Rattle.ei_greeting.specs.Shaking.{Greeter};
ghost use Rattle.ei_blocking.specs.declared.messages.Shaken.TheVariants as shaken;
ghost use Rattle.ei_blocking.specs.Sending.{SentAll};
ghost use Rattle.ei_blocking.specs.Steps.{Shakes, Steps, StepsOn, IsOfMessages};

use ei_backend::Sink;
use ei_client::Context;
use ei_handshake::{EiHandshaker, HandshakeResp, request_result};
use ei_types::Error;

/// What became of the message at the front, where it wasn't refused.
#[derive(Drop)]
pub(crate) enum Shaken {
    /// There was no whole message.
    Waiting,
    /// It was handled.
    Handled,
    /// It handed the connection over.
    Connected(HandshakeResp),
}

/// Handles every whole message up to the connection, and sends what answers each. It answers the connection, where one was handed over.
pub(crate) fn handle_all<K: Sink>(
    handshaker: &mut EiHandshaker,
    ctx: &mut Context,
    sink: &mut K,
) -> Result<Option<HandshakeResp>, Error>
    ensures steps { (g : Greeter) (b : BackendView) (past : List Raw) (before : SinkView) →
        Shakes g b past handshaker.old ctx.old → SentAll g b past before (K.view sink.old) ctx.old →
        (behind : List Raw) × StepsOn g b (behind ++ past) result handshaker.new before (K.view sink.new) ctx.new }
    ensures only { IfErr result IsOfMessages }
    ensures sink { LentSink K.view K.later (IsErrOf result error.WriteFault) sink.old sink.new }
{
    // Each message has bytes, so there are no more messages than bytes.
    for _message in 0..ctx.unread_len() {
        match handle_next(handshaker, ctx, sink)? {
            Shaken::Waiting => return Ok(None),
            Shaken::Handled => {}
            Shaken::Connected(resp) => return Ok(Some(resp)),
        }
    }
    Ok(None)
}

/// Handles the message at the front, if one is whole, and sends what answers it.
fn handle_next<K: Sink>(
    handshaker: &mut EiHandshaker,
    ctx: &mut Context,
    sink: &mut K,
) -> Result<Shaken, Error>
    ensures steps { (g : Greeter) (b : BackendView) (past : List Raw) (before : SinkView) →
        Shakes g b past handshaker.old ctx.old → SentAll g b past before (K.view sink.old) ctx.old →
        Steps g b past result handshaker.new before (K.view sink.new) ctx.new }
    ensures shorter { result ≡ Ok shaken.Handled → length ctx.new.unread < length ctx.old.unread }
    ensures only { IfErr result IsOfMessages }
    ensures sink { LentSink K.view K.later (IsErrOf result error.WriteFault) sink.old sink.new }
{
    let Some(pending) = ctx.pending_event()? else {
        return Ok(Shaken::Waiting);
    };
    let event = request_result(pending)?;
    let answer = handshaker.handle_event(ctx, event)?;
    ctx.flush(sink)?;
    match answer {
        Some(resp) => Ok(Shaken::Connected(resp)),
        None => Ok(Shaken::Handled),
    }
}
