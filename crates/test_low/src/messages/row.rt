//! The table of messages, line by line.

use crate::messages::targets::interface_of;
use ei_spec::KnownInterface;
use ei_wire::Header;
use std::alloc::Global;
use std::io;
use std::io::Input;
use test_table::{Answer, Stop, first};

/// A message: its bytes, and what it is read as.
#[derive(Drop)]
pub(crate) struct Row {
    pub(crate) bytes: Vec<u8>,
    pub(crate) read_as: String,
}

impl Row {
    /// The interface of the object that the message is to, and its opcode.
    pub(crate) fn message(&self) -> Option<(KnownInterface, u32)> {
        let (bytes, _) = self.bytes.split_first_chunk::<16>()?;
        let header = Header::parse(*bytes);
        Some((interface_of(header.object_id)?, header.opcode))
    }
}

/// The messages of each end, and those that are only read.
#[derive(Drop)]
pub(crate) struct Table {
    pub(crate) events: Vec<Row>,
    pub(crate) requests: Vec<Row>,
    pub(crate) lone_events: Vec<Row>,
    pub(crate) lone_requests: Vec<Row>,
}

impl Table {
    /// The table that the input spells, up to an empty line.
    pub(crate) fn from_input<R: Input + AllocGlobal>(rt: &R, answer: &mut Answer) -> Table {
        let alloc = rt.alloc();
        let mut table = Table {
            events: Vec::new(alloc),
            requests: Vec::new(alloc),
            lone_events: Vec::new(alloc),
            lone_requests: Vec::new(alloc),
        };
        for line in rt.lines(alloc) {
            if !table.takes(alloc, answer, line) {
                break;
            }
        }
        table
    }

    /// Adds the line, unless it ends the table, and says whether it was added.
    fn takes(&mut self, alloc: Global, answer: &mut Answer, line: io::Result<String>) -> bool {
        match answer.take(line) {
            Some(line) => {
                let more = !line.is_empty();
                if more {
                    self.push(alloc, answer, line.as_str());
                }
                // Let go by a call: at the end of a scope the drop of each field is proved anew.
                drop(line);
                more
            }
            None => false,
        }
    }

    /// Adds a line.
    fn push(&mut self, alloc: Global, answer: &mut Answer, line: &str) {
        let (front, read_as) = line.split_once(" | ").unwrap_or((line, ""));
        let (kind, digits) = first(front);
        let row = Row {
            bytes: bytes_of(alloc, answer, digits),
            read_as: text_of(alloc, answer, read_as),
        };
        match kind {
            "event" => push_row(answer, &mut self.events, row),
            "request" => push_row(answer, &mut self.requests, row),
            "event-alone" => push_row(answer, &mut self.lone_events, row),
            "request-alone" => push_row(answer, &mut self.lone_requests, row),
            _ => {
                drop(row);
                answer.stop(Stop::Line);
            }
        }
    }
}

/// Adds a row.
fn push_row(answer: &mut Answer, rows: &mut Vec<Row>, row: Row) {
    answer.take(rows.push(row));
}

/// A text of these letters.
fn text_of(alloc: Global, answer: &mut Answer, letters: &str) -> String {
    let mut text = String::new(alloc);
    answer.take(text.push_str(letters));
    text
}

/// The bytes of hexadecimal digits, two for each byte.
fn bytes_of(alloc: Global, answer: &mut Answer, digits: &str) -> Vec<u8> {
    let mut bytes = Vec::new(alloc);
    for word in digits.split(' ') {
        push_bytes(alloc, answer, &mut bytes, word);
    }
    bytes
}

/// Adds the bytes of a word.
fn push_bytes(alloc: Global, answer: &mut Answer, bytes: &mut Vec<u8>, digits: &str) {
    if let Some(more) = answer.take(hex::decode(alloc, digits)) {
        answer.take(bytes.extend_from_slice(&more));
        drop(more);
    }
}
