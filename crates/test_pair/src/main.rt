//! Tests of two endpoints in memory: over links, with their handshakes and converters, and with a script for a receiver; and a
//! caller that the documents show. A table of calls is read from the standard input: the first word of a call is `world`, `pair`,
//! `emit` or `caller`. Nothing stands on this program: it holds tests alone.
//!
//! An id of the server's is written `s0`, `s1` and so on. A value is `u7` (a number of 32 bits), `i-7`, `#7` (a number of 64
//! bits, or an id), `f7` (the word of a float), `tab` (a text), `t*9` (a text of nine letters), `n` (no text), `h7` (a handle),
//! `new`, or `new:ei_button`. A message is its target with interface and version, its opcode and its values. Begin with `table`.
#![tactic(auto)]

mod asking;
mod caller;
mod changing;
mod counted;
mod describing;
mod draws;
mod going;
mod keys;
mod linked;
mod looking;
mod making;
mod may;
mod model;
mod pair_calls;
mod pair_drawn;
mod pair_firm;
mod pair_steps;
mod script;
mod shown;
mod spelled;
mod table;
mod told;
mod world_calls;
mod world_drawn;
mod world_firm;
mod world_shown;
mod world_steps;

use crate::table::Calls;
use std::io::{Input, Print};
use test_table::{Answers, Stop, count_right};

fn main(rt: HostRuntime) -> Result<(), Stop> {
    tell(&rt, Calls::new(rt.alloc()))
}

/// Tells how many lines of the table are as they should be.
fn tell<R, A>(rt: &R, mut calls: A) -> Result<(), Stop>
where
    R: Input + Print + AllocGlobal,
    A: Answers + Drop,
{
    let right = count_right(rt, &mut calls);
    drop(calls);
    let right = right?;
    println!(rt; "as they should be: {right}")?;
    Ok(())
}
