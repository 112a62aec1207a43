//! Both ends' messages: the table of all of them against what each end sends and reads; then both ends joined in memory.
//!
//! A line of the table is `event` or `request`, the bytes of the message in hexadecimal digits, and behind them what
//! they are read as (`tell_message` says how), in the order in which they are sent: what takes its target away is the
//! last message to it. A line `event-alone` or `request-alone` is read, and not sent. An empty line ends the table.
//!
//! Shown is how many lines are as they should be, and each line that isn't beside what was found. Begin with `sides`.

mod client;
mod edges;
mod end;
mod joined;
mod proxies;
mod reading;
mod row;
mod server;
mod sides;
mod targets;

use crate::messages::row::Table;
use std::io::{Input, Print};
use test_table::{Answer, Stop};

/// Shows what becomes of the messages of the table, and of what it doesn't hold.
pub(crate) fn show<R: Input + Print + AllocGlobal>(rt: &R) -> Result<(), Stop> {
    let alloc = rt.alloc();
    let mut answer = Answer::new(alloc);
    let table = Table::from_input(rt, &mut answer);
    sides::tell_events(alloc, &mut answer, &table);
    sides::tell_requests(alloc, &mut answer, &table);
    // Let go by a call: at the end of a scope the drop of each field is proved anew.
    drop(table);
    proxies::tell(alloc, &mut answer);
    edges::tell(alloc, &mut answer);
    show_text(rt, answer.text())
}

/// Shows the text.
fn show_text<R: Print>(rt: &R, text: Result<String, Stop>) -> Result<(), Stop> {
    let text = text?;
    print!(rt; "{text}").map_err(Stop::from)
}
