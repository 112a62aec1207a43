//! A client that plays items to a session.

ghost use Rattle.std.specs.Prelude.{◌≤◌, List, Option, IfOk};
ghost use Rattle.ei_types.specs.Capability.{bits_of, all_bits};
ghost use Rattle.ei_session.specs.Setup.{Setup as Started};
ghost use Rattle.ei_session.specs.Requests.{Request};
ghost use Rattle.ei_serve.specs.Standing.{setup_of};
ghost use Rattle.ei_replay.specs.Asked.{asked_of};
ghost use Rattle.ei_replay.specs.Sending.{of_most_pieces};
ghost use Rattle.ei_replay.specs.Player.{HasBegun, CanOpen, Opens, CanPlay, ComesNext, PlaysOne};

use crate::asked::step_of;
use crate::calls::send;
use crate::delivery::{deliver, greet, start};
use crate::error::ReplayError;
use crate::played::Played;
use ei_client::Context;
use ei_player::announce_first;
use ei_request::EisRequest;
use ei_serve::{Session, Setup};
use ei_wire::NoMemory;
use std::alloc::Global;

/// A client and a session, joined in memory, and what the items so far come to.
#[derive(Drop)]
pub(crate) struct Player {
    alloc: Global,
    client: Context,
    session: Session,
    played: Played,
}

impl Player {
    /// A client that has sent its handshake, and a session that has taken nothing yet.
    pub(crate) fn new(alloc: Global, setup: &Setup) -> Result<Player, NoMemory>
        requires lawful { bits_of setup.now.capabilities ≤ all_bits }
        ensures { IfOk result (HasBegun (of_most_pieces (setup_of setup.now))) }
    {
        let client = greet(alloc)?;
        let session = start(alloc, setup)?;
        Ok(Player {
            alloc,
            client,
            session,
            played: Played::new(alloc, setup.capabilities),
        })
    }

    /// The session takes the handshake, and the client is told of the connection and its seat.
    pub(crate) fn open(
        &mut self,
        stream: &mut Vec<u8>,
        out: &mut Vec<EisRequest>,
    ) -> Result<(), ReplayError>
        requires can { CanOpen self.old }
        ensures { (setup : Started) → HasBegun setup self.old → Opens setup result self.new
            stream.old.items stream.new.items out.old.items out.new.items }
    {
        deliver(self.alloc, &mut self.client, &mut self.session, stream, out)?;
        announce_first(&mut self.client)?;
        Ok(())
    }

    /// Plays an item: it is sent, flushed and handed over, and the session takes its turn.
    pub(crate) fn play(
        &mut self,
        item: &EisRequest,
        stream: &mut Vec<u8>,
        out: &mut Vec<EisRequest>,
    ) -> Result<(), ReplayError>
        requires can { CanPlay (asked_of item.now) self.old }
        ensures { (setup : Started) (before : List Request) (next : Option Request) →
            ComesNext setup before (asked_of item.now) next self.old →
            PlaysOne setup before (asked_of item.now) result self.new
            stream.old.items stream.new.items out.old.items out.new.items }
    {
        let step = step_of(item);
        let target = self.played.target(step);
        if send(&mut self.client, target, item).is_err() {
            return Err(ReplayError::NoMemory);
        }
        deliver(self.alloc, &mut self.client, &mut self.session, stream, out)?;
        self.played.announce(&mut self.client, step)?;
        self.played.take(step)?;
        Ok(())
    }
}
