//! The calls of two endpoints over links by their names.

ghost use Rattle.std.specs.Prelude.{◌≡◌, ◌<◌, false, length};

use crate::going::{deliver, deliver_all, flush, look_at};
use crate::linked::Linked;
use crate::shown::tell_sent;
use crate::spelled::{id_of, is_read, other, side_of, values_of};
use crate::world_drawn::schedule;
use crate::world_firm::firm;
use crate::world_shown::tell_end;
use crate::world_steps::{read, read_all, steps_of};
use ei_backend::{HasBackend, Object};
use ei_linked::Side;
use ei_values::Value;
use ei_world::{Step, World};
use std::alloc::Global;
use test_table::{Answer, Reader, Stop};

/// Makes the call of that name.
pub(crate) fn make(
    alloc: Global,
    answer: &mut Answer,
    world: &mut World,
    name: &str,
    words: Reader<'_>,
) {
    match name {
        "times" => times(alloc, answer, world, words),
        "run" => run(alloc, answer, world, words),
        "firm" => firm(alloc, answer, world, words),
        "spent" => answer.display(&world.is_spent()),
        _ => at_side(alloc, answer, world, name, words),
    }
}

/// A call that names a side first.
fn at_side(
    alloc: Global,
    answer: &mut Answer,
    world: &mut World,
    name: &str,
    mut words: Reader<'_>,
) {
    let side = side_of(&mut words);
    if is_read(answer, &words) {
        match name {
            "call" => call(alloc, answer, world, side, words),
            "pass" => pass(alloc, answer, world, side, words),
            "schedule" => schedule(alloc, answer, world, side, words),
            "read" => read(alloc, answer, world, side),
            "read-all" => tell_many(answer, world, side),
            "flush" => flush(answer, world, side),
            "deliver" => deliver(answer, world, side, words),
            "deliver-all" => deliver_all(answer, world, side),
            _ => look_at(answer, world, name, side, words),
        }
    }
}

/// Reads all that is whole at the side, and tells how many messages these are.
fn tell_many(answer: &mut Answer, world: &mut World, side: Side) {
    let many = read_all(answer, world, side);
    answer.display(&many);
}

/// The object of that id in the table of the side.
fn object(world: &World, side: Side, id: u64) -> Option<Object> {
    let found = match side {
        Side::Client => world.client().backend().object_for_id(id),
        Side::Server => world.server().backend().object_for_id(id),
    };
    found?.clone().ok()
}

/// `call SIDE TARGET OPCODE VALUE ..`: a call to an object that the side has.
fn call(alloc: Global, answer: &mut Answer, world: &mut World, side: Side, mut words: Reader<'_>) {
    let at = id_of(&mut words);
    let opcode = words.number();
    let values = values_of(alloc, answer, &mut words);
    if is_read(answer, &words) {
        call_to(answer, world, side, at, opcode, values.as_slice());
    }
    // Let go by a call: at the end of a scope the drop of each field is proved anew.
    drop(values);
}

/// A call of these values to the object of that id.
fn call_to(
    answer: &mut Answer,
    world: &mut World,
    side: Side,
    at: u64,
    opcode: u32,
    values: &[Value],
) {
    match object(world, side, at) {
        Some(target) => {
            call_by(answer, world, side, &target, opcode, values);
            drop(target);
        }
        None => answer.put("no object"),
    }
}

/// Tells what a call of these values to the object answers.
fn call_by(
    answer: &mut Answer,
    world: &mut World,
    side: Side,
    target: &Object,
    opcode: u32,
    values: &[Value],
) {
    if world.is_spent() || !world.may_call(side, target, opcode, values) {
        answer.put("may not");
        return;
    }
    let sent = match side {
        Side::Client => world.client_call(target, opcode, values),
        Side::Server => world.server_call(target, opcode, values),
    };
    tell_sent(answer, sent);
}

/// `pass SIDE TARGET OPCODE VALUE ..`: the side calls and flushes, and the other is delivered all and reads.
fn pass(alloc: Global, answer: &mut Answer, world: &mut World, side: Side, words: Reader<'_>) {
    let mut before = Answer::new(alloc);
    call(alloc, &mut before, world, side, words);
    world.send_all(&mut before, side);
    deliver_all(&mut before, world, other(side));
    drop(answer.take(before.text()));
    read(alloc, answer, world, other(side));
}

/// `times COUNT CALL`: the same call so often; the last answer.
fn times(alloc: Global, answer: &mut Answer, world: &mut World, mut words: Reader<'_>) {
    let many = words.count();
    let name = words.word();
    if is_read(answer, &words) {
        let mut before = Answer::new(alloc);
        for _ in 1..many {
            at_side(alloc, &mut before, world, name, words);
        }
        drop(answer.take(before.text()));
        at_side(alloc, answer, world, name, words);
    }
}

/// `run STEP ; STEP ..`: makes the steps.
fn run(alloc: Global, answer: &mut Answer, world: &mut World, mut words: Reader<'_>) {
    let steps = steps_of(alloc, answer, &mut words);
    if is_read(answer, &words) {
        run_all(answer, world, &steps);
    }
    drop(steps);
}

/// Tells how the run of the steps ended.
fn run_all(answer: &mut Answer, world: &mut World, steps: &[Step]) {
    if world.is_spent() || steps.len() >= 4294967295 {
        answer.stop(Stop::Call);
    } else {
        tell_end(answer, world.run(steps));
    }
}
