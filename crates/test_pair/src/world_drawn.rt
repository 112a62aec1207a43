//! Steps that a seed draws, compared with plain lists of what was sent.

ghost use Rattle.std.specs.Prelude.{◌≡◌, ◌<◌, false, length};

use crate::draws::Draws;
use crate::going::deliver_all;
use crate::linked::Linked;
use crate::shown::{is_message, keep_text, tell, tell_id};
use crate::spelled::{id_of, is_read, other, values_of};
use crate::world_steps::{read, read_all};
use ei_backend::HasBackend;
use ei_linked::{Got, Side};
use ei_world::{Step, World};
use std::alloc::Global;
use test_table::{Answer, Reader, Stop};

/// What one side sent, each message as a text, how many of them the other side took, and whether each was the one in its place.
#[derive(Drop)]
struct Plain {
    alloc: Global,
    sent: Vec<String>,
    taken: usize,
    next: u64,
    is_equal: bool,
}

/// What is drawn, and both sides.
#[derive(Drop)]
struct Lists {
    alloc: Global,
    draws: Draws,
    client: Plain,
    server: Plain,
}

impl Plain {
    fn new(alloc: Global, next: u64) -> Plain {
        Plain {
            alloc,
            sent: Vec::new(alloc),
            taken: 0,
            next,
            is_equal: true,
        }
    }

    /// The side says this: with the next own id in the place of a new one.
    fn says(&mut self, answer: &mut Answer, message: Message, values: &str) {
        let mut text = Answer::new(self.alloc);
        text.put(message.target);
        tell(&mut text, " ", &message.opcode);
        match values.strip_prefix("new") {
            Some(rest) => {
                tell_id(&mut text, " #", self.next);
                text.put(rest);
                self.next = self.next.saturating_add(1);
            }
            None => tell(&mut text, " ", &values),
        }
        keep_text(answer, &mut self.sent, text);
    }

    /// The other side took this, or nothing.
    fn is_taken(&mut self, text: &str) {
        if text == "nothing" {
            return;
        }
        match self.sent.get(self.taken) {
            Some(sent) if sent.as_str() == text => self.taken = self.taken.saturating_add(1),
            _ => self.is_equal = false,
        }
    }
}

impl Lists {
    /// None of what stands in the world already.
    fn new(alloc: Global, world: &World, draws: Draws) -> Lists {
        Lists {
            alloc,
            draws,
            client: Plain::new(alloc, world.client().backend().next_id()),
            server: Plain::new(alloc, world.server().backend().next_id()),
        }
    }

    fn of(&mut self, side: Side) -> &mut Plain {
        match side {
            Side::Client => &mut self.client,
            Side::Server => &mut self.server,
        }
    }
}

/// `schedule SIDE SEED STEPS`: so many steps that the seed draws, the side's first, in a world in which both sides took all that
/// was sent: `equal` where each message that is read is the one that a plain list has in its place, and in the end all that was
/// sent is taken.
///
/// The world has a seat `s1`, with a device `s2` and its keyboard `s3`.
pub(crate) fn schedule(
    alloc: Global,
    answer: &mut Answer,
    world: &mut World,
    side: Side,
    mut words: Reader<'_>,
) {
    let draws = Draws::of(words.id());
    let steps = words.count();
    if is_read(answer, &words) {
        let mut lists = Lists::new(alloc, world, draws);
        play(answer, world, side, &mut lists, steps);
        tell_equal(answer, world, &lists);
        // Let go by a call: at the end of a scope the drop of each field is proved anew.
        drop(lists);
    }
}

/// Plays so many steps.
fn play(answer: &mut Answer, world: &mut World, side: Side, lists: &mut Lists, steps: usize) {
    let mut side = side;
    for _ in 0..steps {
        step(answer, world, side, lists);
        if lists.draws.next() % 2 != 0 {
            side = other(side);
        }
    }
}

/// Tells whether all came as the lists have it.
fn tell_equal(answer: &mut Answer, world: &mut World, lists: &Lists) {
    if !lists.client.is_equal || !lists.server.is_equal {
        answer.put("not equal");
        return;
    }
    let client = all_taken(answer, world, Side::Client, &lists.server);
    let server = all_taken(answer, world, Side::Server, &lists.client);
    answer.put(if client && server { "equal" } else { "not all" });
}

/// Makes one step of the side.
fn step(answer: &mut Answer, world: &mut World, side: Side, lists: &mut Lists) {
    match lists.draws.next() % 4 {
        0 => call(answer, world, side, lists),
        1 => world.send_all(answer, side),
        2 => {
            let came = world.hand_over(answer, side, 1 + lists.draws.next() as usize % 1536);
            drop(answer.take(came));
        }
        _ => take(answer, world, side, lists.of(other(side))),
    }
}

/// Reads the next of the messages that the other side sent, if there is one.
fn take(answer: &mut Answer, world: &mut World, side: Side, theirs: &mut Plain) {
    let mut found = Answer::new(theirs.alloc);
    read(theirs.alloc, &mut found, world, side);
    if let Some(found) = answer.take(found.text()) {
        theirs.is_taken(found.as_str());
        drop(found);
    }
}

/// Whether the side takes all that the other sent, one by one, once all is flushed and delivered.
fn all_taken(answer: &mut Answer, world: &mut World, side: Side, theirs: &Plain) -> bool {
    let mut before = Answer::new(theirs.alloc);
    world.send_all(&mut before, other(side));
    deliver_all(&mut before, world, side);
    drop(answer.take(before.text()));
    read_all(answer, world, side);
    are_last(answer, world.taken(side), theirs)
}

/// Whether the last that was taken are the messages of the other.
fn are_last(answer: &mut Answer, taken: &[Got], theirs: &Plain) -> bool {
    let many = theirs.sent.len();
    let mut all = taken.len() >= many;
    let past = taken.len().saturating_sub(many);
    for (got, sent) in taken.iter().skip(past).zip(theirs.sent.iter()) {
        if !is_message(theirs.alloc, answer, got, sent.as_str()) {
            all = false;
        }
    }
    all
}

/// A message: the object that it is to, with its interface and version, and its opcode.
#[derive(Clone, Copy)]
struct Message {
    target: &'static str,
    opcode: u32,
}

/// The side sends a message that is drawn.
fn call(answer: &mut Answer, world: &mut World, side: Side, lists: &mut Lists) {
    let mut values = Answer::new(lists.alloc);
    let message = match side {
        Side::Client => request(&mut values, &mut lists.draws),
        Side::Server => event(&mut values, &mut lists.draws),
    };
    if let Some(values) = answer.take(values.text()) {
        let steps = [Step::Call {
            side,
            target: id_of(&mut Reader::new(message.target)),
            opcode: message.opcode,
            values: values_of(lists.alloc, answer, &mut Reader::new(values.as_str())),
        }];
        run(answer, world, &steps);
        drop(steps);
        lists.of(side).says(answer, message, values.as_str());
        drop(values);
    }
}

/// Makes the one step.
fn run(answer: &mut Answer, world: &mut World, steps: &[Step]) {
    if world.is_spent() || steps.len() != 1 || world.run(steps).is_err() {
        answer.stop(Stop::Call);
    }
}

/// A request: its values are told.
fn request(values: &mut Answer, draws: &mut Draws) -> Message {
    let number = draws.next();
    match draws.next() % 5 {
        0 => with_one(values, "s0 ei_connection 1", 0, "new u", number),
        1 => with_one(values, "s1 ei_seat 2", 1, "#", number),
        2 => {
            tell(values, "u", &number);
            with_one(values, "s2 ei_device 3", 1, " u", draws.next())
        }
        3 => {
            tell(values, "u", &number);
            with_one(values, "s2 ei_device 3", 3, " #", draws.next())
        }
        _ => {
            tell(values, "u", &number);
            with_one(values, "s3 ei_keyboard 1", 1, " u", number % 2)
        }
    }
}

/// An event: its values are told.
fn event(values: &mut Answer, draws: &mut Draws) -> Message {
    let number = draws.next();
    match draws.next() % 5 {
        0 => with_one(values, "s0 ei_connection 1", 1, "new u", number),
        1 => with_one(values, "s1 ei_seat 2", 1, "t", number),
        2 => {
            tell(values, "u", &number);
            with_one(values, "s2 ei_device 3", 4, " u2 u3 u4 f", draws.next())
        }
        3 => {
            tell(values, "u1 u", &number);
            with_one(values, "s3 ei_keyboard 1", 1, " h", draws.next())
        }
        _ => {
            tell(values, "u", &number);
            with_one(values, "s0 ei_connection 1", 2, " #", draws.next())
        }
    }
}

/// The message, of whose values the last is told.
fn with_one(
    values: &mut Answer,
    target: &'static str,
    opcode: u32,
    kind: &str,
    number: u32,
) -> Message {
    tell(values, kind, &number);
    Message { target, opcode }
}
