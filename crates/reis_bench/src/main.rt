//! What a message costs: rows that are run under a counter of instructions.
//!
//! Each row makes its bytes beforehand, and then calls one function that is counted, whose name `bench/run` knows. It prints
//! how many messages there were, so that nothing is left out. Nothing stands on this program.
#![tactic(auto)]

ghost use Rattle.std.specs.Prelude.{◌≡◌, drop, IfOk, IfSome};
ghost use Rattle.std.specs.Vec.Iter.{into_iter_items};
ghost use Rattle.reis_bench.specs.Words.{IsWithin};

mod announcing;
mod client;
mod connection;
mod events;
mod handshake;
mod outside;
mod parse;
mod row;
mod saying;
mod send;
mod serving;
mod session;
mod stream;
mod tally;
mod words;

use crate::row::{Outcome, run};
use crate::tally::Tally;
use crate::words::{Row, USAGE};
use ei_types::Error;
use std::alloc::Global;
use std::env::Args;
use std::io::Print;
use std::process::ExitCode;
use std::rt::Env;
use std::{env, io};

/// The row ended early.
const STOPPED: u8 = 1;

/// The words are no row.
const NO_ROW: u8 = 2;

/// The output failed.
const UNTOLD: u8 = 4;

/// The words after the program's name, each as a text of its own.
fn words_of(alloc: Global, mut arguments: Args) -> Result<Vec<String>, Error>
    ensures { IfOk result (λ words. words.items ≡ drop 1 (into_iter_items arguments)) }
{
    let mut words = Vec::new(alloc);
    let _name = arguments.next();
    'words: while let Some(argument) = arguments.next() {
        words.push(argument)?;
    }
    Ok(words)
}

/// The row that the words ask for: none where one of them isn't text.
fn asked<R: Env + AllocGlobal>(rt: &R) -> Option<Row>
    ensures { IfSome result IsWithin }
{
    let arguments = env::args(rt).ok()?;
    let words = words_of(rt.alloc(), arguments).ok()?;
    Row::from_words(&words)
}

/// Tells what a row came to.
fn tell<R: Print>(rt: &R, outcome: Outcome) -> io::Result<()> {
    match outcome {
        Outcome::Read(Tally { messages, refused }) => {
            println!(rt; "messages {messages}, refused {refused}")
        }
        Outcome::Sent(messages, bytes) => println!(rt; "messages {messages}, bytes {bytes}"),
        Outcome::Served(messages, bytes) => {
            println!(rt; "messages {messages}, bytes of replies {bytes}")
        }
    }
}

/// Runs the row of the words, and tells what it came to. It answers the status.
fn run_asked(rt: &HostRuntime) -> io::Result<u8> {
    let Some(row) = asked(rt) else {
        println!(rt; "{USAGE}")?;
        return Ok(NO_ROW);
    };
    match run(rt.alloc(), row) {
        Ok(outcome) => {
            tell(rt, outcome)?;
            Ok(0)
        }
        Err(error) => {
            println!(rt; "stopped: {error}")?;
            Ok(STOPPED)
        }
    }
}

fn main(rt: HostRuntime) -> ExitCode {
    ExitCode::from(run_asked(&rt).unwrap_or(UNTOLD))
}
