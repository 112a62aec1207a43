//! Tests of a server's end: tables of calls, read from the standard input. Nothing stands on this program: it holds tests
//! alone.
//!
//! The first word of a call names its table, the second the call; what it answers was typed by hand from the protocol.
//! `requests` are the calls of the converter, `sessions` whole sessions, `server` a session for a program with a loop of its
//! own, `hub` several clients in one loop, `replay` records that are tested and played back, `filter` rules over records. How
//! a line is written: `test_table`.
//!
//! The program writes how many lines are as they should be, and each line that isn't above what was found.
//! Begin with `tables`.
#![tactic(auto)]

mod handshakes;
mod hub;
mod kept;
mod pieces;
mod records;
mod reports;
mod requests;
mod server;
mod sessions;
mod setups;
mod tables;
mod texts;

use crate::hub::Hubs;
use crate::records::Records;
use crate::requests::Greeting;
use crate::server::Servers;
use crate::sessions::World;
use crate::tables::Tables;
use ei_backend::Readings;
use std::io::{Input, Print};
use test_table::{Answers, Stop, count_right};

fn main(rt: HostRuntime) -> Result<(), Stop> {
    let alloc = rt.alloc();
    let clock = Readings::new(alloc, &[])?;
    let mut tables = Tables::new(
        Greeting::new(alloc),
        World::new(alloc, clock),
        Servers::new(),
        Hubs::new(),
        Records::new(alloc),
    );
    let told = tell(&rt, &mut tables);
    drop(tables);
    told
}

/// Tells how many lines of the tables are as they should be.
fn tell<R, A>(rt: &R, tables: &mut A) -> Result<(), Stop>
where
    R: Input + Print + AllocGlobal,
    A: Answers,
{
    let right = count_right(rt, tables)?;
    println!(rt; "as they should be: {right}")?;
    Ok(())
}
