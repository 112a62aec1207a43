//! What two endpoints over links are asked for, with handshakes or without.

use crate::changing::Pair;
use crate::counted::Counted;
use crate::shown::{tell_records, tell_taken};
use ei_backend::HasBackend;
use ei_linked::Side;
use ei_wire::ReadError;
use ei_world::World;
use test_table::{Answer, Stop};

/// Two endpoints over links.
pub(crate) trait Linked {
    /// What can be counted at the side.
    fn counted(&self, side: Side) -> Counted;

    /// Tells what the side sent behind the first so many messages.
    fn tell_sent(&self, answer: &mut Answer, side: Side, past: usize);

    /// Tells what the side took behind the first so many messages.
    fn tell_taken(&self, answer: &mut Answer, side: Side, past: usize);

    /// All that waits at the side goes.
    fn send_all(&mut self, answer: &mut Answer, side: Side);

    /// Hands so many bytes to the side: how many came.
    fn hand_over(&mut self, answer: &mut Answer, side: Side, n: usize) -> Result<usize, ReadError>;
}

impl Linked for World {
    fn counted(&self, side: Side) -> Counted {
        let (unsent, unread) = match side {
            Side::Client => (self.client().unsent_len(), self.client().unread_len()),
            Side::Server => (self.server().unsent_len(), self.server().unread_len()),
        };
        Counted {
            sent: self.sent(side).len(),
            taken: self.taken(side).len(),
            unsent,
            unread,
            is_closed: self.is_closed(side),
        }
    }

    fn tell_sent(&self, answer: &mut Answer, side: Side, past: usize) {
        tell_records(answer, self.sent(side), past);
    }

    fn tell_taken(&self, answer: &mut Answer, side: Side, past: usize) {
        tell_taken(answer, self.taken(side), past);
    }

    fn send_all(&mut self, answer: &mut Answer, side: Side) {
        if self.is_spent() {
            answer.stop(Stop::Call);
        } else {
            drop(answer.take(self.flush(side)));
        }
    }

    fn hand_over(&mut self, answer: &mut Answer, side: Side, n: usize) -> Result<usize, ReadError> {
        if self.is_spent() || n == 0 || n > 1536 {
            answer.stop(Stop::Line);
            return Ok(0);
        }
        self.deliver(side, n)
    }
}

impl Linked for Pair {
    fn counted(&self, side: Side) -> Counted {
        let (unsent, unread) = match (side, self.handle()) {
            (Side::Client, _) => (self.client().unsent_len(), self.client().unread_len()),
            (Side::Server, Some(handle)) => {
                (handle.context().unsent_len(), handle.context().unread_len())
            }
            (Side::Server, None) => (0, 0),
        };
        Counted {
            sent: self.sent(side).len(),
            taken: self.taken(side).len(),
            unsent,
            unread,
            is_closed: self.is_closed(side),
        }
    }

    fn tell_sent(&self, answer: &mut Answer, side: Side, past: usize) {
        tell_records(answer, self.sent(side), past);
    }

    fn tell_taken(&self, answer: &mut Answer, side: Side, past: usize) {
        tell_taken(answer, self.taken(side), past);
    }

    fn send_all(&mut self, answer: &mut Answer, side: Side) {
        if self.is_spent() {
            answer.stop(Stop::Call);
        } else {
            drop(answer.take(self.flush(side)));
        }
    }

    fn hand_over(&mut self, answer: &mut Answer, side: Side, n: usize) -> Result<usize, ReadError> {
        if self.is_spent() || n == 0 || n > 1536 {
            answer.stop(Stop::Line);
            return Ok(0);
        }
        self.deliver(side, n)
    }
}
