//! A record played back.

ghost use Rattle.std.specs.Prelude.{◌≤◌, length, map};
ghost use Rattle.ei_types.specs.Capability.{bits_of, all_bits};
ghost use Rattle.ei_session.specs.Setup.{Setup as Started};
ghost use Rattle.ei_serve.specs.Standing.{setup_of};
ghost use Rattle.ei_replay.specs.Asked.{asked_of};
ghost use Rattle.ei_replay.specs.Replays.{CanPlayAll, IsReady, Replays};

use crate::bearing::read_all;
use crate::error::ReplayError;
use crate::player::Player;
use crate::record_check::check;
use ei_request::EisRequest;
use ei_serve::Setup;
use std::alloc::Global;

/// Plays a record back to a server of this setup, whose number of pieces doesn't count: a client of the name
/// `replay`, which sends input, makes one call for each item, and a session takes each for a piece.
///
/// The session's requests go behind those in `out`, and the bytes that the client sends behind those in `stream`.
/// They ask what the items ask; the versions of seats and devices may be others.
///
/// `NotReplayable`: the first item that can't be played, by its place from 0 on; nothing is played then.
/// `NoMemory`: memory ran out; what was played until then stays in `stream` and `out`.
pub fn replay(
    alloc: Global,
    setup: &Setup,
    items: &[EisRequest],
    stream: &mut Vec<u8>,
    out: &mut Vec<EisRequest>,
) -> Result<(), ReplayError>
    requires lawful { bits_of setup.now.capabilities ≤ all_bits }
    requires few { length items.now ≤ 4294967000 }
    ensures replays { Replays (setup_of setup.now) (map asked_of items.now) result
        stream.old.items stream.new.items out.old.items out.new.items }
{
    check(alloc, setup, items)?;
    read_all(items);
    let mut player = Player::new(alloc, setup)?;
    let played = play_all(&mut player, items, stream, out);
    // by a call: at the end of a scope the drop of each field is proved anew
    drop(player);
    played
}

/// Plays the items to a session that has taken nothing yet.
fn play_all(
    player: &mut Player,
    items: &[EisRequest],
    stream: &mut Vec<u8>,
    out: &mut Vec<EisRequest>,
) -> Result<(), ReplayError>
    requires can { CanPlayAll (map asked_of items.now) player.old }
    ensures { (setup : Started) → IsReady setup (map asked_of items.now) player.old →
        Replays setup (map asked_of items.now) result
        stream.old.items stream.new.items out.old.items out.new.items }
{
    player.open(stream, out)?;
    for at in 0..items.len() {
        player.play(&items[at], stream, out)?;
    }
    Ok(())
}
