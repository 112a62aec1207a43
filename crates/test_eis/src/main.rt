//! Tests of a connection for a program with a policy of its own, and of the policy that such a program may ask beside it: a
//! table of calls, read from the standard input. Nothing stands on this program: it holds tests alone.
//!
//! A call is made by its name with its arguments; what it answers was typed by hand from the protocol and the rules of that
//! policy. `start` makes the connection that the lines below it call, and `strict start` its policy too. How a line is
//! written: `test_table`.
//!
//! The program writes how many lines are as they should be, and each line that isn't above what was found.
//! Begin with `calls`.
#![tactic(auto)]

mod acting;
mod calls;
mod feeding;
mod inputs;
mod strict;
mod told;
mod words;

use crate::calls::Calls;
use test_table::{Stop, count_right};

fn main(rt: HostRuntime) -> Result<(), Stop> {
    let mut calls = Calls {
        connection: None,
        strict: None,
    };
    let right = count_right(&rt, &mut calls);
    // Let go by a call: at the end of a scope the drop of each field is proved anew.
    drop(calls);
    let right = right?;
    println!(rt; "as they should be: {right}")?;
    Ok(())
}
