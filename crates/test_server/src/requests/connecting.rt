//! A client, up to the connection.

use super::world::World;
use crate::handshakes::connected;
use crate::kept::set;
use crate::pieces::bytes_of;
use crate::texts::show;
use ei_backend::{Readings, Tray};
use ei_request::{Connection, EisRequestConverter};
use std::alloc::Global;
use test_table::{Answer, Reader};

/// What a client sends until the connection, and the connection that was made last.
#[derive(Drop)]
pub(crate) struct Greeting {
    alloc: Global,
    sent: Vec<u8>,
    pub(crate) world: Option<World>,
}

impl Greeting {
    /// A client that sends nothing.
    pub(crate) fn new(alloc: Global) -> Greeting {
        Greeting {
            alloc,
            sent: Vec::new(alloc),
            world: None,
        }
    }

    /// The client sends nothing any more.
    pub(crate) fn forget(&mut self, answer: &mut Answer) {
        self.sent.clear();
        answer.put("done");
    }

    /// The client sends these bytes too. It answers how many there are then.
    pub(crate) fn send(&mut self, words: &mut Reader<'_>, answer: &mut Answer) {
        let bytes = bytes_of(self.alloc, words.rest(), answer);
        answer.take(self.sent.extend_from_slice(&bytes));
        drop(bytes);
        answer.display(&self.sent.len());
    }

    /// Makes the connection, with that serial, and answers what the client told.
    pub(crate) fn connect(&mut self, words: &mut Reader<'_>, answer: &mut Answer) {
        let serial = words.number();
        if let Some(converter) = connected(self.alloc, serial, &self.sent, answer) {
            self.go_on(converter, answer);
        }
    }

    /// Goes on with this converter, over a clock that has no reading.
    fn go_on(&mut self, mut converter: EisRequestConverter, answer: &mut Answer) {
        put_client(self.alloc, converter.handle_mut(), answer);
        match answer.take(Readings::new(self.alloc, &[])) {
            Some(clock) => set(
                &mut self.world,
                Some(World::new(self.alloc, converter, clock)),
            ),
            None => drop(converter),
        }
    }
}

/// What the client told of itself, and how many interfaces both ends have. What the handshake sent goes.
fn put_client(alloc: Global, handle: &mut Connection, answer: &mut Answer) {
    let mut tray = Tray::new(alloc);
    answer.take(handle.flush(&mut tray));
    drop(tray);
    show(answer, &handle.context_type());
    show(answer, &handle.name());
    answer.display(&handle.negotiated().len());
}
