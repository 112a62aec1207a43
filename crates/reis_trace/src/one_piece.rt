//! A source of one piece that lies in memory.

ghost use Rattle.std.specs.Prelude.{◌≡◌, ◌<◌, ◌≤◌, length};
ghost use Rattle.ei_spec.specs.declared.limits.TheConstants.{MOST_PIECE_BYTES};
ghost use Rattle.ei_backend.specs.declared.outside.LastAnswer.TheVariants as answers;

use ei_backend::{Fault, GivenPieces, LastAnswer, Source, Taken};
use ei_spec::Handle;

/// A source of the bytes that are left, in one piece without handles. It never fails.
#[derive(Drop)]
pub(crate) struct OnePiece<'a> {
    bytes: &'a [u8],
    given: GivenPieces,
    last: LastAnswer,
    ghost most: { length bytes.now ≤ MOST_PIECE_BYTES },
}

impl<'a> OnePiece<'a> {
    pub(crate) fn new(bytes: &'a [u8]) -> OnePiece<'a>
        requires { length bytes.now ≤ MOST_PIECE_BYTES }
        ensures { result.bytes.now ≡ bytes.now }
    {
        OnePiece {
            bytes,
            given: GivenPieces::new(),
            last: LastAnswer::Nothing,
        }
    }
}

impl Source for OnePiece<'_> {
    ghost use Rattle.reis_trace.specs.Pieces.{piece_view};

    ghost view = { λ s. piece_view s.bytes.now s.given.pieces s.last };

    ghost later = { λ _ _. Unit {0} };

    ghost later_refl = { λ _. tt };

    ghost later_trans = { λ _ _ _ _ _. tt };

    fn take(&mut self, bytes: &mut [u8], _handles: &mut [Handle]) -> Result<Taken, Fault> {
        let count = self.bytes.len();
        if count == 0 {
            self.last = LastAnswer::End;
            return Ok(Taken {
                bytes: 0,
                handles: 0,
            });
        }
        bytes[..count].copy_from_slice(self.bytes);
        self.given.note(self.bytes, &[]);
        self.bytes = &[];
        self.last = LastAnswer::Piece;
        Ok(Taken {
            bytes: count,
            handles: 0,
        })
    }
}
