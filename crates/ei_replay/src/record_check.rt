//! The test of a record.

ghost use Rattle.std.specs.Prelude.{◌≡◌, ◌<◌, ◌+◌, length, map, slice_get};
ghost use Rattle.std.specs.Option.{option_map};
ghost use Rattle.ei_serve.specs.Standing.{setup_of};
ghost use Rattle.ei_replay.specs.Asked.{asked_of};
ghost use Rattle.ei_replay.specs.Steps.{step_of};
ghost use Rattle.ei_replay.specs.Checks.{Checks};

use crate::asked::step_of;
use crate::error::ReplayError;
use crate::played::Played;
use crate::step::Step;
use ei_request::EisRequest;
use ei_serve::Setup;
use std::alloc::Global;

/// Tests whether a record can be played back to a server of this setup.
///
/// `NotReplayable`: the first item that can't, by its place from 0 on. `NoMemory`: memory ran out. The number of pieces in the
/// setup doesn't count.
pub fn check(alloc: Global, setup: &Setup, items: &[EisRequest]) -> Result<(), ReplayError>
    ensures { Checks (setup_of setup.now) (map asked_of items.now) result }
{
    let mut played = Played::new(alloc, setup.capabilities);
    for at in 0..items.len() {
        let step = step_of(&items[at]);
        if played.is_wrong(step, next_step(items, at)) {
            return Err(ReplayError::NotReplayable(at as u64));
        }
        played.take(step)?;
    }
    Ok(())
}

/// What the item behind that place does, if there is one.
fn next_step(items: &[EisRequest], at: usize) -> Option<Step>
    requires { at < length items.now }
    ensures { result ≡ option_map step_of (slice_get (map asked_of items.now) (at + 1)) }
{
    match items.get(at + 1) {
        Some(item) => Some(step_of(item)),
        None => None,
    }
}
