//! Steps by the words that spell them, and steps until nothing is left to do.

ghost use Rattle.std.specs.Prelude.{◌≡◌, ◌<◌, false, IfOk, length};

use crate::shown::is_nothing;
use crate::spelled::{id_of, side_of, values_of};
use crate::world_shown::tell_received;
use ei_linked::Side;
use ei_world::{Received, Step, World};
use std::alloc::Global;
use test_table::{Answer, Reader, Stop};

/// The steps that the words not yet read spell, with `;` between them.
pub(crate) fn steps_of(alloc: Global, answer: &mut Answer, words: &mut Reader<'_>) -> Vec<Step> {
    let mut steps = Vec::new(alloc);
    for spelled in words.rest().split(';') {
        if !spelled.trim().is_empty() {
            let mut step = Reader::new(spelled.trim());
            let made = step_of(alloc, answer, &mut step);
            drop(answer.take(steps.push(made)));
            words.or(step.done(), ());
        }
    }
    steps
}

fn step_of(alloc: Global, answer: &mut Answer, words: &mut Reader<'_>) -> Step {
    let name = words.word();
    let side = side_of(words);
    match name {
        "call" => call_of(alloc, answer, side, words),
        "flush" => Step::Flush(side),
        "deliver" => Step::Deliver(side, words.count()),
        "read" => Step::Read(side),
        _ => {
            words.miss();
            Step::Read(side)
        }
    }
}

/// `TARGET OPCODE VALUE ..`: a call.
pub(crate) fn call_of(
    alloc: Global,
    answer: &mut Answer,
    side: Side,
    words: &mut Reader<'_>,
) -> Step {
    Step::Call {
        side,
        target: id_of(words),
        opcode: words.number(),
        values: values_of(alloc, answer, words),
    }
}

/// The next message of the side, where there is one.
fn next(answer: &mut Answer, world: &mut World, side: Side) -> Option<Received> {
    if world.is_spent() {
        answer.stop(Stop::Call);
        return None;
    }
    answer.take(world.read(side)).unwrap_or(None)
}

/// Reads the next message of the side, and tells it, or `nothing`.
pub(crate) fn read(alloc: Global, answer: &mut Answer, world: &mut World, side: Side) {
    let received = next(answer, world, side);
    tell_received(alloc, answer, &received);
    // Let go by a call: at the end of a scope the drop of each field is proved anew.
    drop(received);
}

/// Reads all that is whole at the side: how many messages these are.
pub(crate) fn read_all(answer: &mut Answer, world: &mut World, side: Side) -> usize {
    let mut many = 0usize;
    for _ in 0..u64::MAX {
        if is_nothing(next(answer, world, side)) {
            break;
        }
        many = many.saturating_add(1);
    }
    many
}
