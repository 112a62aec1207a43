//! Tests of the wire, of the small types, of one endpoint, of the messages of both ends and of the lines of a trace, over
//! their public calls: two tables, read from the standard input. Nothing stands on this program: it holds tests alone.
//!
//! The first table has all messages, and ends with an empty line: `messages` says how it is written.
//!
//! Of the second one a call is made by its name with its arguments; what it answers was typed by hand from the protocol.
//! Calls of an endpoint go on with the endpoint, the source and the sink of the lines before. How a line is written:
//! `test_table`.
//!
//! The program writes what becomes of the messages, how many calls are as they should be, and each line that isn't above
//! what was found. Begin with `messages::show` and `tell`.
#![tactic(auto)]

mod arguments;
mod bytes;
mod enums;
mod errors;
mod laws;
mod memory;
mod messages;
mod names;
mod objects;
mod ring;
mod texts;
mod trace;
mod version;
mod words;
mod world;

use crate::world::World;
use std::alloc::Global;
use std::io::{Input, Print};
use test_table::{Answer, Answers, Reader, Stop, count_right};

fn main(rt: HostRuntime) -> Result<(), Stop> {
    laws::laws_at_types();
    messages::show(&rt)?;
    let mut world = World::new(rt.alloc())?;
    let shown = show_right(&rt, &mut world);
    // Let go by a call: at the end of a scope the drop of each field is proved anew.
    drop(world);
    shown
}

/// Shows how many calls of the second table are as they should be.
fn show_right<R>(rt: &R, world: &mut World) -> Result<(), Stop>
where
    R: Input + Print + AllocGlobal,
{
    let right = count_right(rt, world)?;
    println!(rt; "as they should be: {right}").map_err(Stop::from)
}

impl Answers for World {
    fn answer(&mut self, alloc: Global, call: &str) -> Result<String, Stop> {
        let mut answer = Answer::new(alloc);
        let mut words = Reader::new(call);
        tell(&mut answer, self, &mut words);
        answer.take(words.done());
        answer.text()
    }
}

/// Tells what a call answers. A call whose words are wrong does something too, but what it tells is lost.
fn tell(answer: &mut Answer, world: &mut World, words: &mut Reader<'_>) {
    let alloc = world.alloc;
    match words.word() {
        "argument" => arguments::tell(alloc, answer, words),
        "text" => texts::tell(alloc, answer, words),
        "enum" => enums::tell(answer, words),
        "errors" => errors::tell(alloc, answer, words),
        "name" => names::tell(alloc, answer, words),
        "memory" => memory::tell(alloc, answer, words),
        "ring" => ring::tell(alloc, answer, words),
        "trace" => trace::tell(alloc, answer, words),
        "object" => objects::tell(answer, world, words),
        name => bytes::tell(answer, world, name, words),
    }
}
