//! A source and a sink of the program's own: bytes in memory, with no handles.

ghost use Rattle.std.specs.Prelude.{None};

use ei_backend::{Fault, GivenPieces, LastAnswer, PutError, Sink, Source, Taken};
use ei_spec::Handle;
use std::alloc::Global;

/// The most bytes of a piece.
const MOST: usize = 65536;

/// Where an end reads what the other one wrote. It tells nothing, and never fails.
#[derive(Drop)]
pub(crate) struct Inbox<'a> {
    bytes: &'a [u8],
    given: GivenPieces,
    last: LastAnswer,
}

impl<'a> Inbox<'a> {
    /// These bytes, and then the end.
    pub(crate) fn new(bytes: &'a [u8]) -> Inbox<'a> {
        Inbox {
            bytes,
            given: GivenPieces::new(),
            last: LastAnswer::Nothing,
        }
    }

    /// How many bytes it has left.
    pub(crate) fn left(&self) -> usize {
        self.bytes.len()
    }
}

impl Source for Inbox<'_> {
    // its calls aren't counted: that count stands at its last value
    ghost view = { λ s. record {
      left = None;
      given = s.given.pieces;
      faults = 0;
      asked = 18446744073709551615;
      last = s.last;
    } };

    ghost later = { λ _ _. Unit {0} };

    ghost later_refl = { λ _. tt };

    ghost later_trans = { λ _ _ _ _ _. tt };

    fn take(&mut self, bytes: &mut [u8], _handles: &mut [Handle]) -> Result<Taken, Fault> {
        let count = self.bytes.len().min(MOST);
        let (piece, rest) = self.bytes.split_at(count);
        bytes[..count].copy_from_slice(piece);
        self.bytes = rest;
        self.last = LastAnswer::at(count);
        if count > 0 {
            self.given.note(piece, &[]);
        }
        Ok(Taken {
            bytes: count,
            handles: 0,
        })
    }
}

/// Where an end writes. It tells nothing, and counts how often it wanted memory.
#[derive(Drop)]
pub(crate) struct Outbox {
    pub(crate) bytes: Vec<u8>,
    wants: u64,
}

impl Outbox {
    /// Nothing was written.
    pub(crate) fn new(alloc: Global) -> Outbox {
        Outbox {
            bytes: Vec::new(alloc),
            wants: 0,
        }
    }
}

impl Sink for Outbox {
    ghost view = { λ s. record { taken = None; puts = None; faults = 0; wants = s.wants } };

    ghost later = { λ _ _. Unit {0} };

    ghost later_refl = { λ _. tt };

    ghost later_trans = { λ _ _ _ _ _. tt };

    fn put(&mut self, bytes: &[u8], _handles: &[Handle]) -> Result<usize, PutError> {
        if self.bytes.extend_from_slice(bytes).is_err() {
            self.wants = self.wants.saturating_add(1);
            return Err(PutError::NoMemory);
        }
        Ok(bytes.len())
    }
}
