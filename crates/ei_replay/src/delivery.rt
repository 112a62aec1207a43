//! A client and a session, joined in memory.

ghost use Rattle.std.specs.Prelude.{◌≡◌, ◌<◌, ◌≤◌, List, ℕ, [], length, OnOk, IfOk};
ghost use Rattle.ei_spec.specs.Piece.{Piece};
ghost use Rattle.ei_spec.specs.declared.limits.TheConstants.{MOST_PIECE_BYTES};
ghost use Rattle.ei_types.specs.Capability.{bits_of, all_bits};
ghost use Rattle.ei_backend.specs.Outgoing.{nothing};
ghost use Rattle.ei_backend.specs.Backend.{with_unsent};
ghost use Rattle.ei_session.specs.Setup.{Setup as Started};
ghost use Rattle.ei_serve.specs.Standing.{Stands, IsOver, setup_of};
ghost use Rattle.ei_replay.specs.Sending.{Delivers, of_most_pieces};
ghost use Rattle.ei_replay.specs.Player.{HasGreeted};

use crate::error::ReplayError;
use ei_backend::{Pieces, Readings, Tray};
use ei_client::Context;
use ei_player::shake_hands;
use ei_request::EisRequest;
use ei_serve::{Session, Setup};
use ei_wire::NoMemory;
use std::alloc::Global;

/// A client that has sent its handshake.
pub(crate) fn greet(alloc: Global) -> Result<Context, NoMemory>
    ensures { IfOk result HasGreeted }
{
    let mut client = Context::new(alloc)?;
    shake_hands(alloc, &mut client)?;
    Ok(client)
}

/// Starts a session that takes as many pieces as one can.
pub(crate) fn start(alloc: Global, setup: &Setup) -> Result<Session, NoMemory>
    requires lawful { bits_of setup.now.capabilities ≤ all_bits }
    ensures { IfOk result (λ session. Stands (of_most_pieces (setup_of setup.now)) [] [] session) }
{
    let mut greeting = Tray::new(alloc);
    let most = Setup {
        pieces: u32::MAX,
        ..*setup
    };
    match Session::start(alloc, most, &mut greeting) {
        Ok(session) => Ok(session),
        Err(_) => Err(NoMemory),
    }
}

/// Hands over what the client has to send, and lets the session take its turn. What it answers is let go.
pub(crate) fn deliver(
    alloc: Global,
    client: &mut Context,
    session: &mut Session,
    stream: &mut Vec<u8>,
    out: &mut Vec<EisRequest>,
) -> Result<(), ReplayError>
    requires going { ¬ IsOver session.old }
    requires some { 0 < length client.old.unsent }
    requires few { length client.old.unsent ≤ MOST_PIECE_BYTES }
    ensures flushed { OnOk result (client.new ≡ with_unsent nothing client.old) }
    ensures delivers { (setup : Started) (pieces : List Piece) (times : List ℕ) →
        Stands setup pieces times session.old →
        Delivers setup pieces times client.old.unsent result session.new
        stream.old.items stream.new.items out.old.items out.new.items }
{
    let mut sent = Tray::new(alloc);
    if client.flush(&mut sent).is_err() {
        return Err(ReplayError::NoMemory);
    }
    let mut source = Pieces::new(alloc);
    source.push(sent.bytes(), &[])?;
    let mut clock = Readings::new(alloc, &[])?;
    stream.extend_from_slice(sent.bytes())?;
    let mut answers = Tray::new(alloc);
    match session.turn(&mut source, &mut answers, &mut clock, out) {
        Ok(_) => Ok(()),
        Err(_) => Err(ReplayError::NoMemory),
    }
}
