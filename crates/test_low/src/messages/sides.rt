//! The two directions: what is sent, what is read, and what is carried from one end to the other.

use crate::messages::end::End;
use crate::messages::joined::{Lies, in_pieces, taken, tell_alone, tell_objects};
use crate::messages::row::{Row, Table};
use crate::messages::targets::with_targets;
use ei_backend::{HasBackend, Tray};
use ei_spec::Handle;
use std::alloc::Global;
use test_table::Answer;

/// The sizes of the pieces in which the bytes come.
const SIZES: [usize; 3] = [1, 5, 65536];

/// The handles that come with the bytes of a row that is read alone: one where the row takes it.
fn handles_of(row: &Row) -> &'static [Handle] {
    if row.read_as.contains("takes a handle") {
        &[Handle(7)]
    } else {
        &[]
    }
}

/// The server sends, the client reads.
pub(crate) fn tell_events(alloc: Global, answer: &mut Answer, table: &Table) {
    answer.put("events\n");
    tell_side::<ei_client::Context>(alloc, answer, &table.lone_events, &table.events);
    tell_joined::<ei_server::Context, ei_client::Context>(alloc, answer, &table.events);
}

/// The client sends, the server reads.
pub(crate) fn tell_requests(alloc: Global, answer: &mut Answer, table: &Table) {
    answer.put("requests\n");
    tell_side::<ei_server::Context>(alloc, answer, &table.lone_requests, &table.requests);
    tell_joined::<ei_client::Context, ei_server::Context>(alloc, answer, &table.requests);
}

/// Tells what an end alone reads of the rows that are only read, and of the others.
fn tell_side<E: End>(alloc: Global, answer: &mut Answer, lone: &[Row], rows: &[Row]) {
    tell_rows::<E>(alloc, answer, lone, Lies::InPlace);
    tell_rows::<E>(alloc, answer, rows, Lies::Across);
    tell_rows::<E>(alloc, answer, rows, Lies::InPlace);
}

/// Tells how many rows a fresh end reads as they should be.
fn tell_rows<E: End>(alloc: Global, answer: &mut Answer, rows: &[Row], lies: Lies) {
    let mut right = 0usize;
    for row in rows {
        if is_read_alone::<E>(alloc, answer, row, lies) {
            right = right.saturating_add(1);
        }
    }
    answer.put("read alone: ");
    answer.display(&right);
    answer.put("\n");
}

/// Whether a fresh end reads the row as it should be.
fn is_read_alone<E: End>(alloc: Global, answer: &mut Answer, row: &Row, lies: Lies) -> bool {
    let mut found = Answer::new(alloc);
    tell_alone::<E>(alloc, &mut found, row, handles_of(row), lies);
    match answer.take(found.text()) {
        Some(text) => {
            let right = is_right(answer, row, text.as_str());
            // Let go by a call: at the end of a scope the drop of each field is proved anew.
            drop(text);
            right
        }
        None => false,
    }
}

/// Whether the text is what the row is read as. Tells both where it isn't.
fn is_right(answer: &mut Answer, row: &Row, text: &str) -> bool {
    let right = text == row.read_as.as_str();
    if !right {
        answer.put("wanted ");
        answer.put(row.read_as.as_str());
        answer.put("\nfound  ");
        answer.put(text);
        answer.put("\n");
    }
    right
}

/// Tells how many rows are sent as they should be, and how many are read by the other end in pieces of each size;
/// the handles that are sent; and the objects of both ends afterwards.
fn tell_joined<S: End, E: End>(alloc: Global, answer: &mut Answer, rows: &[Row]) {
    let mut tray = Tray::new(alloc);
    if let Some(mut sender) = with_targets::<S>(alloc, answer) {
        send(answer, &mut sender, &mut tray, rows);
        tell_sent(answer, &tray, rows);
        answer.put("\nobjects of the sender");
        tell_objects(answer, &sender);
        drop(sender);
    }
    for size in &SIZES {
        tell_carried::<E>(alloc, answer, &tray, rows, *size);
    }
    answer.put("\n");
    drop(tray);
}

/// Sends the message of each row, in their order, into the tray.
fn send<S: End>(answer: &mut Answer, sender: &mut S, tray: &mut Tray, rows: &[Row]) {
    for row in rows {
        if let Some((interface, opcode)) = row.message() {
            answer.take(sender.send(interface, opcode));
        }
    }
    answer.take(sender.backend_mut().flush(tray));
}

/// Tells how many rows are sent as they should be, and each handle.
fn tell_sent(answer: &mut Answer, tray: &Tray, rows: &[Row]) {
    let mut rest = tray.bytes();
    let mut right = 0usize;
    for row in rows {
        if is_first(answer, rest, row) {
            right = right.saturating_add(1);
        }
        rest = rest.get(row.bytes.len()..).unwrap_or(&[]);
    }
    answer.put("sent: ");
    answer.display(&right);
    answer.put(", and ");
    answer.display(&rest.len());
    answer.put(" bytes, with ");
    answer.show(&tray.handles());
}

/// Whether the bytes of the row are the first. Tells the row where they aren't.
fn is_first(answer: &mut Answer, bytes: &[u8], row: &Row) -> bool {
    let right = bytes.starts_with(&row.bytes);
    if !right {
        answer.put("not sent: ");
        answer.put(row.read_as.as_str());
        answer.put("\n");
    }
    right
}

/// Tells how many of the rows an end reads in pieces of this size, one after another; what is left, and the objects
/// then.
fn tell_carried<E: End>(
    alloc: Global,
    answer: &mut Answer,
    tray: &Tray,
    rows: &[Row],
    size: usize,
) {
    answer.put("\nin pieces of ");
    answer.display(&size);
    answer.put("\n");
    if let Some(mut reader) = with_targets::<E>(alloc, answer) {
        carry(alloc, answer, &mut reader, tray, rows, size);
        tell_left(answer, &reader);
        drop(reader);
    }
}

/// Tells what is left, and the objects.
fn tell_left<E: End>(answer: &mut Answer, reader: &E) {
    answer.put("\nleft: ");
    answer.display(&reader.backend().unread_len());
    answer.put(" bytes and ");
    answer.display(&reader.backend().unread_handles());
    answer.put(" handles\nobjects of the reader");
    tell_objects(answer, reader);
}

/// How many messages were read, and how many of them as the rows say.
#[derive(Drop)]
struct Read<'a> {
    rows: &'a [Row],
    count: usize,
    right: usize,
}

/// Carries what was sent to an end in pieces of this size, and tells how many of the rows it reads.
fn carry<E: End>(
    alloc: Global,
    answer: &mut Answer,
    reader: &mut E,
    tray: &Tray,
    rows: &[Row],
    size: usize,
) {
    let mut read = Read {
        rows,
        count: 0,
        right: 0,
    };
    let mut pieces = in_pieces(alloc, answer, tray.bytes(), tray.handles(), size);
    for _ in tray.bytes().chunks(size.max(1)) {
        answer.take(reader.backend_mut().read(&mut pieces));
        take_whole(alloc, answer, reader, &mut read);
    }
    drop(pieces);
    answer.put("read: ");
    answer.display(&read.right);
    answer.put(" of ");
    answer.display(&read.count);
}

/// Takes each message that is whole.
fn take_whole<E: End>(alloc: Global, answer: &mut Answer, reader: &mut E, read: &mut Read<'_>) {
    for _ in 0..reader.backend().unread_len() {
        match taken(alloc, answer, reader) {
            Some(text) => {
                note(answer, read, text.as_str());
                drop(text);
            }
            None => break,
        }
    }
}

/// A message was read.
fn note(answer: &mut Answer, read: &mut Read<'_>, text: &str) {
    if let Some(row) = read.rows.get(read.count) {
        if is_right(answer, row, text) {
            read.right = read.right.saturating_add(1);
        }
    }
    read.count = read.count.saturating_add(1);
}
