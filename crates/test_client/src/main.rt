//! Tests of a client over its public calls: its handshake, the converter behind it, and the calls that block. They are a
//! table of calls, read from the standard input. Nothing stands on this program: it holds tests alone.
//!
//! A call is made by its part and its name with its arguments; what it answers was typed by hand from the protocol. Bytes
//! are hexadecimal digits, and blanks count nowhere in an answer. Calls go on with what the lines before made. How a line
//! is written: `test_table`.
//!
//! The program writes how many lines are as they should be, and each line that isn't above what was found.
//! Begin with `calls`.
#![tactic(auto)]

mod blocking;
mod calling;
mod calls;
mod client;
mod connecting;
mod converter;
mod events;
mod handshake;
mod hearing;
mod iterator;
mod keys;
mod laying;
mod telling;
mod words;

use crate::calls::Calls;
use std::io::{Input, Print};
use test_table::{Stop, count_right};

fn main(rt: HostRuntime) -> Result<(), Stop> {
    let mut calls = Calls::new(rt.alloc())?;
    let shown = show_right(&rt, &mut calls);
    // Large values are let go by a call: at the end of a scope the drop of each field is proved anew.
    drop(calls);
    shown
}

/// Shows how many lines of the table are as they should be.
fn show_right<R>(rt: &R, calls: &mut Calls) -> Result<(), Stop>
where
    R: Input + Print + AllocGlobal,
{
    let right = count_right(rt, calls)?;
    print_right(rt, right)
}

/// Prints how many lines are right.
fn print_right<R: Print>(rt: &R, right: usize) -> Result<(), Stop> {
    println!(rt; "as they should be: {right}")?;
    Ok(())
}
