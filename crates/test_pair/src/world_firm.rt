//! A step that may want memory: what it leaves of the world.

ghost use Rattle.std.specs.Prelude.{◌≡◌, ◌<◌, false, length};

use crate::counted::{counts_of, lists_as_before};
use crate::spelled::is_read;
use crate::world_steps::steps_of;
use ei_wire::{ReadError, SendError};
use ei_world::{Step, World, WorldEnd};
use std::alloc::Global;
use test_table::{Answer, Reader, Stop};

/// `firm STEP`: makes the step, and once more where it wants memory and left all as it was. A world that is spent by it has the
/// lists that it had.
pub(crate) fn firm(alloc: Global, answer: &mut Answer, world: &mut World, mut words: Reader<'_>) {
    let steps = steps_of(alloc, answer, &mut words);
    if is_read(answer, &words) {
        make_one(answer, world, &steps);
    }
    // Let go by a call: at the end of a scope the drop of each field is proved anew.
    drop(steps);
}

/// Makes the one step.
fn make_one(answer: &mut Answer, world: &mut World, steps: &[Step]) {
    if world.is_spent() {
        answer.put("spent before");
    } else if steps.len() != 1 {
        answer.stop(Stop::Line);
    } else {
        make(answer, world, steps);
    }
}

/// Makes the one step of a world that isn't spent.
fn make(answer: &mut Answer, world: &mut World, steps: &[Step])
    requires whole { world.old.spent ≡ false }
    requires few { length steps.now < 4294967295 }
{
    let before = counts_of(world);
    if !wants_memory(answer, world.run(steps)) {
        answer.put("made");
    } else if world.is_spent() {
        answer.put(lists_as_before(world, before));
    } else if counts_of(world) != before {
        answer.put("changed");
    } else if wants_memory(answer, world.run(steps)) {
        answer.stop(Stop::NoMemory);
    } else {
        answer.put("made again");
    }
}

/// Whether the step wanted memory. Any other refusal is a wrong line.
fn wants_memory(answer: &mut Answer, end: Result<(), WorldEnd>) -> bool {
    match end {
        Ok(()) => false,
        Err(WorldEnd::NoMemory)
        | Err(WorldEnd::Send(SendError::NoMemory))
        | Err(WorldEnd::Read(ReadError::NoMemory)) => true,
        Err(_) => {
            answer.stop(Stop::Line);
            false
        }
    }
}
