//! Bytes in memory that come in pieces of one size, and a sink that drops what it takes.

ghost use Rattle.std.specs.Prelude.{◌<◌, ◌≤◌, ◌≡◌, None};
ghost use Rattle.ei_spec.specs.declared.limits.TheConstants.{MOST_PIECE_BYTES};

use ei_backend::{Fault, GivenPieces, LastAnswer, PutError, Sink, Source, Taken};
use ei_spec::Handle;

/// Bytes in pieces of one size, the last of which may be shorter, without handles but for one that it is asked to send. It
/// tells nothing, and never fails.
#[derive(Drop)]
pub(crate) struct Cut<'a> {
    left: &'a [u8],
    size: usize,
    descriptor: bool,
    given: GivenPieces,
    last: LastAnswer,
    ghost some: { 0 < size },
    ghost within: { size ≤ MOST_PIECE_BYTES },
}

impl<'a> Cut<'a> {
    /// These bytes, in pieces of that size.
    pub(crate) fn new(bytes: &'a [u8], size: usize) -> Cut<'a>
        requires some { 0 < size }
        requires within { size ≤ MOST_PIECE_BYTES }
    {
        Cut {
            left: bytes,
            size,
            descriptor: false,
            given: GivenPieces::new(),
            last: LastAnswer::Nothing,
        }
    }

    /// The next piece bears a descriptor.
    pub(crate) fn send_descriptor(&mut self) {
        self.descriptor = true;
    }

    /// How many bytes weren't handed out.
    pub(crate) fn left(&self) -> usize {
        self.left.len()
    }
}

impl Source for Cut<'_> {
    ghost view = { λ s. record {
      left = None;
      given = s.given.pieces;
      faults = 0;
      asked = 18446744073709551615;
      last = s.last;
    } };

    ghost later = { λ _ _. Unit {0} };

    ghost later_refl = { λ _. tt };

    ghost later_trans = { λ _ _ _ _ _. tt };

    fn take(&mut self, bytes: &mut [u8], handles: &mut [Handle]) -> Result<Taken, Fault> {
        let count = self.left.len().min(self.size);
        let (piece, rest) = self.left.split_at(count);
        bytes[..count].copy_from_slice(piece);
        self.left = rest;
        self.last = LastAnswer::at(count);
        let mut borne = 0;
        if count > 0 {
            if self.descriptor {
                handles[0] = Handle(0);
                borne = 1;
                self.descriptor = false;
            }
            self.given.note(piece, &handles[..borne]);
        }
        Ok(Taken {
            bytes: count,
            handles: borne,
        })
    }
}

/// A sink that counts the bytes that it takes, and drops them. It tells nothing, and never fails.
#[derive(Drop)]
pub(crate) struct Dropped {
    pub(crate) bytes: u64,
}

impl Sink for Dropped {
    ghost view = { λ _. record { taken = None; puts = None; faults = 0; wants = 0 } };

    ghost later = { λ _ _. Unit {0} };

    ghost later_refl = { λ _. tt };

    ghost later_trans = { λ _ _ _ _ _. tt };

    fn put(&mut self, bytes: &[u8], _handles: &[Handle]) -> Result<usize, PutError> {
        self.bytes = self.bytes.saturating_add(bytes.len() as u64);
        Ok(bytes.len())
    }
}
