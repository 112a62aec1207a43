//! The handshake, message by message.

ghost use Rattle.std.specs.Prelude.{◌≡◌, List, ℕ};
ghost use Rattle.ei_spec.specs.declared.handle.Handle.{Handle};
ghost use Rattle.ei_spec.specs.Message.{Raw};
ghost use Rattle.ei_session.specs.Setup.{Setup};
ghost use Rattle.ei_serve.specs.Causes.{NoFault};
ghost use Rattle.ei_serve.specs.Standing.{ShakesHands};
ghost use Rattle.ei_serve.specs.Steps.{Shakes, told};

use crate::phase::{Rejected, refuse, refuse_handshake, refuse_memory, refuse_parse};
use ei_backend::PendingRequestResult;
use ei_handshake::EisHandshaker;
use ei_server::{Context, Handshake};
use ei_types::{Error, HandshakeError};
use ei_wire::NoMemory;

/// What became of the message at the front during the handshake, where it wasn't refused.
#[derive(Drop)]
pub(crate) enum Shaken {
    /// There was no whole message.
    Waiting,
    /// It was handled.
    Handled,
    /// It was the finish of this handshake, of which nothing is done yet.
    Finish(Handshake),
}

/// Handles the message at the front during the handshake, all but a finish. Its answer is small, since it comes at each message.
pub(crate) fn shake(
    context: &mut Context,
    handshaker: &mut EisHandshaker,
    why: &mut Error,
) -> Result<Shaken, Rejected>
    ensures no_fault { NoFault (told result why.new) }
    ensures shakes { (setup : Setup) (past : List Raw) (rest : List ℕ) (handles : List Handle) →
        ShakesHands setup past rest handles context.old handshaker.old →
        Shakes setup past rest handles (told result why.new) context.new handshaker.new }
{
    match context.pending_request() {
        Ok(Some(PendingRequestResult::Request(request))) => match handshaker.keep(request) {
            Ok(None) => Ok(Shaken::Handled),
            Ok(Some(handshake)) => Ok(Shaken::Finish(handshake)),
            Err(error) => Err(refuse(why, error)),
        },
        Ok(None) => Ok(Shaken::Waiting),
        Ok(Some(PendingRequestResult::ParseError(error))) => Err(refuse_parse(why, error)),
        Ok(Some(PendingRequestResult::InvalidObject(id))) => {
            Err(refuse_handshake(why, HandshakeError::InvalidObject(id)))
        }
        Err(NoMemory) => Err(refuse_memory(why)),
    }
}
