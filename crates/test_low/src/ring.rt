//! The ring of the bytes that are unread: messages that lie across its end, and how it grows.

use crate::version::{PIECE, give, next};
use crate::words::tell_whether;
use ei_backend::{Backend, PendingRequestResult, Pieces};
use ei_server::{Request, handshake};
use std::alloc::Global;
use test_table::{Answer, Reader};

/// Tells whether messages are read `across` its end, and whether it `grows` for the longest message.
pub(crate) fn tell(alloc: Global, answer: &mut Answer, words: &mut Reader<'_>) {
    if let Some(backend) = answer.take(Backend::new(alloc, false)) {
        let mut end = End {
            backend,
            pieces: Pieces::new(alloc),
            next: Vec::new(alloc),
            waiting: 0,
            right: true,
        };
        match words.word() {
            "across" => end.reads_across(alloc, answer),
            "grows" => end.grows(alloc, answer),
            _ => words.miss(),
        }
        tell_whether(answer, end.right);
        // Let go by a call: at the end of a scope the drop of each field is proved anew.
        drop(end);
    }
}

/// An id that no object has.
const NOBODY: u64 = 5;

/// The version in each `interface_version`.
const VERSION: u32 = 7;

/// Whether an `interface_version` can have that length. Of those that come here 16 is too short for one, and 31 isn't a
/// multiple of four.
fn is_version(len: u32) -> bool {
    len != 16 && len != 31
}

/// Adds a name of so many letters, with its length and what closes it.
fn push_name(answer: &mut Answer, bytes: &mut Vec<u8>, letters: u32) {
    answer.take(bytes.extend_from_slice(&letters.wrapping_add(1).to_le_bytes()));
    let mut letter = b'a';
    for _ in 0..letters {
        answer.take(bytes.push(letter));
        letter = behind(letter);
    }
    answer.take(bytes.push(0));
}

/// Adds the header of a message of opcode 4 of this length to this object.
fn push_header(answer: &mut Answer, bytes: &mut Vec<u8>, id: u64, len: u32) {
    answer.take(bytes.extend_from_slice(&id.to_le_bytes()));
    answer.take(bytes.extend_from_slice(&len.to_le_bytes()));
    answer.take(bytes.extend_from_slice(&4u32.to_le_bytes()));
}

/// Adds a message of this length, at least 16: an `interface_version` with as long a name as there is room for, where
/// one can have that length, and else a message to no object.
fn push_message(answer: &mut Answer, bytes: &mut Vec<u8>, len: u32) {
    if is_version(len) {
        push_header(answer, bytes, 0, len);
        push_name(answer, bytes, len.wrapping_sub(25));
        answer.take(bytes.extend_from_slice(&VERSION.to_le_bytes()));
    } else {
        push_header(answer, bytes, NOBODY, len);
        answer.take(bytes.resize(len as usize, 0));
    }
}

/// A message of this length.
fn message(alloc: Global, answer: &mut Answer, len: u32) -> Vec<u8> {
    let mut bytes = Vec::new(alloc);
    push_message(answer, &mut bytes, len);
    bytes
}

/// The letter behind that one in a name: behind the last one the first.
fn behind(letter: u8) -> u8 {
    if letter == b'z' {
        return b'a';
    }
    letter.wrapping_add(1)
}

/// Whether it is the name in a message of that length.
fn is_name(name: &[u8], len: u32) -> bool {
    let mut right = name.len().saturating_add(25) == len as usize;
    let mut letter = b'a';
    for byte in name {
        right = *byte == letter && right;
        letter = behind(letter);
    }
    right
}

/// Whether that is what a message of that length is read as; nothing, where the length is 0.
fn is_right(next: &Option<PendingRequestResult<Request>>, len: u32) -> bool {
    match next {
        None => len == 0,
        Some(PendingRequestResult::InvalidObject(id)) => !is_version(len) && *id == NOBODY,
        Some(
            PendingRequestResult::Request(
                Request::Handshake(_, handshake::Request::InterfaceVersion { name, version }),
            ),
        ) => *version == VERSION && is_name(name.as_str().as_bytes(), len),
        _ => false,
    }
}

/// What the ring holds after each of sixteen pieces of 65536 bytes, the last of 65535.
const HELD: [usize; 16] = [
    131072, 131072, 262144, 262144, 524288, 524288, 524288, 524288, 1048576, 1048576, 1048576,
    1048576, 1048576, 1048576, 1048576, 1048576,
];

/// An endpoint, its source, the bytes that come next, and the length of the message that comes, or 0; and whether all was
/// right until now.
#[derive(Drop)]
struct End {
    backend: Backend,
    pieces: Pieces,
    next: Vec<u8>,
    waiting: u32,
    right: bool,
}

impl End {
    /// What is to hold.
    fn check(&mut self, holds: bool) {
        self.right = self.right && holds;
    }

    /// Lets these bytes come, and checks how much the ring holds then.
    fn holds_after(&mut self, answer: &mut Answer, bytes: &[u8], held: usize) {
        self.come(answer, bytes);
        let capacity = self.backend.ring_capacity();
        self.check(capacity == held);
    }

    /// Lets these bytes come.
    fn come(&mut self, answer: &mut Answer, bytes: &[u8]) {
        give(answer, &mut self.pieces, bytes, &[]);
        answer.take(self.backend.read(&mut self.pieces));
    }

    /// Takes the next message, which is to be one of this length; of length 0 where none is whole.
    fn take(&mut self, answer: &mut Answer, len: u32) {
        if let Some(next) = answer.take(next(&mut self.backend)) {
            self.check(is_right(&next, len));
            drop(next);
        }
    }

    /// Checks that no message is whole, and so many bytes are unread.
    fn holds(&mut self, answer: &mut Answer, count: u32) {
        self.take(answer, 0);
        let unread = self.backend.unread_len();
        self.check(unread == count as usize);
    }

    /// Lets the next bytes come, and takes the message that they end.
    fn come_next(&mut self, answer: &mut Answer) {
        give(answer, &mut self.pieces, &self.next, &[]);
        self.next.clear();
        answer.take(self.backend.read(&mut self.pieces));
        self.take(answer, self.waiting);
    }

    /// Lets the first bytes of a message of this length come behind the others of the last one.
    fn begin(&mut self, answer: &mut Answer, first: &[u8], others: &[u8], len: u32) {
        answer.take(self.next.extend_from_slice(first));
        self.come_next(answer);
        answer.take(self.next.extend_from_slice(others));
        self.waiting = len;
    }

    /// Lets the message of this length come with each start.
    fn begin_each(&mut self, answer: &mut Answer, bytes: &[u8], len: u32) {
        for before in 1..len {
            let (first, others) = bytes.split_at(bytes.len().min(before as usize));
            self.begin(answer, first, others, len);
            self.holds(answer, before);
        }
    }

    /// Lets a message of this length come with each start.
    fn begin_at_each(&mut self, alloc: Global, answer: &mut Answer, len: u32) {
        let bytes = message(alloc, answer, len);
        self.begin_each(answer, &bytes, len);
        drop(bytes);
    }

    /// Lets a message of this length come, and takes it.
    fn pass(&mut self, alloc: Global, answer: &mut Answer, len: u32) {
        let bytes = message(alloc, answer, len);
        self.come(answer, &bytes);
        self.take(answer, len);
        drop(bytes);
    }

    // What lies across the end is moved to the end. So many bytes are passed that the first bytes of each message are the
    // last four of the ring, and the others come with the next piece. Then nothing is unread, and the ring is as long as
    // before.
    fn reads_across(&mut self, alloc: Global, answer: &mut Answer) {
        self.pass(alloc, answer, 65536);
        self.pass(alloc, answer, 65532);
        self.holds(answer, 0);
        for len in &[16, 28, 31, 200] {
            self.begin_at_each(alloc, answer, *len);
        }
        self.come_next(answer);
        self.holds(answer, 0);
        let capacity = self.backend.ring_capacity();
        self.check(capacity == 131072);
    }

    // The ring is doubled where a piece may not find room in it. The longest message is whole with its last byte.
    fn grows(&mut self, alloc: Global, answer: &mut Answer) {
        let bytes = message(alloc, answer, 1048576);
        let (most, last) = bytes.split_at(bytes.len().min(1048575));
        for (piece, held) in most.chunks(PIECE).zip(&HELD) {
            self.holds_after(answer, piece, *held);
        }
        self.holds(answer, 1048575);
        self.holds_after(answer, last, 2097152);
        self.take(answer, 1048576);
        drop(bytes);
    }
}
