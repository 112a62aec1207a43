//! The handshake, message by message.

ghost use Rattle.std.specs.Prelude.{◌≡◌, ◌<◌, length, IfOk};
ghost use Rattle.reis_eis.specs.declared.shaking.Shaken.TheVariants as shaken;
ghost use Rattle.reis_eis.specs.declared.step.Step.TheVariants as step;
ghost use Rattle.reis_eis.specs.Words.{greeted};
ghost use Rattle.reis_eis.specs.Handling.{Shakes, IsGone, failed};

use crate::ending::Ending;
use crate::step::Step;
use ei_backend::PendingRequestResult;
use ei_handshake::{EisHandshakeResp, EisHandshaker};
use ei_server::Context;
use ei_types::{Error, HandshakeError};
use ei_wire::NoMemory;
use std::alloc::Global;

/// A handshake that isn't done.
#[derive(Drop)]
pub(crate) struct Shaking {
    pub(crate) context: Context,
    pub(crate) handshaker: EisHandshaker,
    pub(crate) initial_serial: u32,
}

/// What became of the message at the front of a handshake.
#[derive(Drop)]
pub(crate) enum Shaken {
    /// It goes on, or it failed.
    Still(Step),
    /// It is done.
    Done(EisHandshakeResp),
}

impl Shaking {
    /// A handshake on a fresh endpoint, whose greeting waits to be sent.
    pub(crate) fn start(alloc: Global, initial_serial: u32) -> Result<Shaking, NoMemory>
        ensures { IfOk result (λ shaking. shaking ≡ greeted initial_serial) }
    {
        let mut context = Context::new(alloc)?;
        let handshaker = EisHandshaker::new(alloc, &mut context, initial_serial)?;
        Ok(Shaking {
            context,
            handshaker,
            initial_serial,
        })
    }

    /// The endpoint, and the serial that the connection will bear.
    pub(crate) fn into_parts(self) -> (Context, u32)
        ensures { result ≡ (self.context, self.initial_serial) }
    {
        let Shaking {
            context,
            handshaker,
            initial_serial,
        } = self;
        drop(handshaker);
        (context, initial_serial)
    }

    /// Handles the message at the front, if one is whole.
    pub(crate) fn step(&mut self) -> Shaken
        ensures shakes { Shakes self.old result self.new }
        ensures shorter { IsGone result → length self.new.context.unread < length self.old.context.unread }
    {
        match self.context.pending_request() {
            Ok(None) => Shaken::Still(Step::Waiting),
            Ok(Some(PendingRequestResult::Request(request))) => {
                match self.handshaker.handle_request(&mut self.context, request) {
                    Ok(None) => Shaken::Still(Step::Handled),
                    Ok(Some(resp)) => Shaken::Done(resp),
                    Err(error) => refused(error),
                }
            }
            Ok(Some(PendingRequestResult::ParseError(error))) => refused(Error::Parse(error)),
            Ok(Some(PendingRequestResult::InvalidObject(id))) => {
                refused(Error::Handshake(HandshakeError::InvalidObject(id)))
            }
            Err(NoMemory) => refused(Error::NoMemory),
        }
    }
}

/// The handshake failed.
fn refused(error: Error) -> Shaken
    ensures { result ≡ failed error }
{
    Shaken::Still(Step::Ended(Ending::Refused(error)))
}
