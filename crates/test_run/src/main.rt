//! Tests of the program but for its `main`: a table of calls, read from the standard input. Nothing stands on this
//! program: it holds tests alone.
//!
//! A call is made by its name with its arguments; what it answers was typed by hand from the rule. `run` is a whole run:
//! its status, and the report. How a line is written: `test_table`.
//!
//! The program writes how many lines are as they should be, and each line that isn't above what was found.
//! Begin with `calls`.
#![tactic(auto)]

mod adapters;
mod calls;
mod fakes;
mod faults;
mod options;
mod pieces;
mod running;
mod texts;

use crate::calls::Calls;
use test_table::{Stop, count_right};

fn main(rt: HostRuntime) -> Result<(), Stop> {
    let right = count_right(&rt, &mut Calls)?;
    println!(rt; "as they should be: {right}").map_err(Stop::from)
}
