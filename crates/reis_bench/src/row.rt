//! The rows.

ghost use Rattle.reis_bench.specs.Words.{IsWithin};

use crate::tally::Tally;
use crate::words::Row;
use crate::{client, connection, events, handshake, parse, send, session};
use ei_backend::Tray;
use ei_types::Error;
use std::alloc::Global;

/// What a row came to.
#[derive(Clone, Copy)]
pub(crate) enum Outcome {
    /// These messages were read.
    Read(Tally),
    /// So many messages were sent, in so many bytes.
    Sent(u32, u64),
    /// A session took so many messages, and answered so many bytes.
    Served(u64, u64),
}

/// Runs a row.
pub(crate) fn run(alloc: Global, row: Row) -> Result<Outcome, Error>
    requires { IsWithin row }
{
    let mut said = Tray::new(alloc);
    let outcome = run_over(alloc, row, &mut said);
    // Let go by a call: at the end of a scope the drop of each field is proved anew.
    drop(said);
    outcome
}

/// The same, where the other end says into this tray what is read.
fn run_over(alloc: Global, row: Row, said: &mut Tray) -> Result<Outcome, Error>
    requires { IsWithin row }
{
    match row {
        Row::Parse(piece, groups) => parse::row(alloc, piece as usize, groups, said),
        Row::Send(messages) => send::row(alloc, messages),
        Row::Client(messages) => client::row(alloc, messages, said),
        Row::Events(groups) => events::row(alloc, groups, said),
        Row::Handshake(messages) => handshake::row(alloc, messages, said),
        Row::Session(doing) => session::row(alloc, doing, said),
        Row::Sends(groups) => connection::sends(alloc, groups, said),
        Row::Tells(groups) => connection::tells(alloc, groups),
    }
}
