//! A connection, and what the calls before made of it.

use crate::texts::put_made;
use ei_backend::{HasBackend, Readings, Tray};
use ei_request::{Connection, Device, EisRequest, EisRequestConverter, Seat};
use std::alloc::Global;
use test_table::Answer;

/// A converter with its clock, the seats and the devices that were made, in this order, and the requests of the last
/// call that took some.
#[derive(Drop)]
pub(crate) struct World {
    pub(crate) alloc: Global,
    pub(crate) converter: EisRequestConverter,
    pub(crate) clock: Readings,
    pub(crate) seats: Vec<Seat>,
    pub(crate) devices: Vec<Device>,
    pub(crate) asked: Vec<EisRequest>,
}

impl World {
    /// The world around a fresh converter, with its clock.
    pub(crate) fn new(alloc: Global, converter: EisRequestConverter, clock: Readings) -> World {
        World {
            alloc,
            converter,
            clock,
            seats: Vec::new(alloc),
            devices: Vec::new(alloc),
            asked: Vec::new(alloc),
        }
    }

    /// The connection, to look at.
    pub(crate) fn handle(&self) -> &Connection {
        self.converter.handle()
    }

    /// Adds what was sent: the bytes, or how many where there are many, and the handles.
    pub(crate) fn put_sent(&mut self, answer: &mut Answer) {
        let mut tray = Tray::new(self.alloc);
        answer.take(self.converter.handle_mut().flush(&mut tray));
        put_bytes(self.alloc, tray.bytes(), answer);
        if !tray.handles().is_empty() {
            answer.put(" with ");
            answer.show(&tray.handles());
        }
        drop(tray);
    }
}

/// The most bytes that are shown.
const MOST_SHOWN: usize = 4096;

/// Adds the bytes that were sent, if any were.
fn put_bytes(alloc: Global, bytes: &[u8], answer: &mut Answer) {
    if bytes.len() > MOST_SHOWN {
        answer.put(" > ");
        answer.display(&bytes.len());
        answer.put(" bytes");
    } else if !bytes.is_empty() {
        answer.put(" > ");
        put_made(answer, hex::encode(alloc, bytes));
    }
}
