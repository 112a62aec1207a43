//! A source of one piece.

ghost use Rattle.std.specs.Prelude.{◌≡◌, ◌<◌, ◌≤◌, List, [], ◌∷◌, length, drop, Some, Ok, IfOk};
ghost use Rattle.ei_backend.specs.Outside.{IsPieceSize, IsTake};
ghost use Rattle.ei_spec.specs.declared.limits.TheConstants.{MOST_PIECE_BYTES, MOST_PIECE_HANDLES};

use ei_backend::{Fault, GivenPieces, LastAnswer, Source, Taken};
use ei_spec::Handle;
use ei_spec::limits::{MOST_PIECE_BYTES, MOST_PIECE_HANDLES};

/// A piece that was handed in, or none where it has no byte. It is handed out once.
#[derive(Drop)]
pub(crate) struct OnePiece<'a> {
    bytes: &'a [u8],
    handles: &'a [Handle],
    given: GivenPieces,
    last: LastAnswer,
    ghost few_bytes: { length bytes.now ≤ 65536 },
    ghost few_handles: { length handles.now ≤ 64 },
}

impl<'a> OnePiece<'a> {
    /// A source of this piece, which has at most 65536 bytes and 64 handles.
    pub(crate) fn of(bytes: &'a [u8], handles: &'a [Handle]) -> OnePiece<'a>
        requires bytes { length bytes.now ≤ 65536 }
        requires handles { length handles.now ≤ 64 }
        ensures bytes { result.bytes.now ≡ bytes.now }
        ensures handles { result.handles.now ≡ handles.now }
    {
        OnePiece {
            bytes,
            handles,
            given: GivenPieces::new(),
            last: LastAnswer::Nothing,
        }
    }
}

impl<'a> Source for OnePiece<'a> {
    ghost use Rattle.reis_eis.specs.Lent.{lent, lent_view};

    ghost view = { λ s. lent_view (lent s.bytes.now s.handles.now) s.given.pieces s.last };

    ghost later = { λ _ _. Unit {0} };

    ghost later_refl = { λ _. tt };

    ghost later_trans = { λ _ _ _ _ _. tt };

    fn take(&mut self, bytes: &mut [u8], handles: &mut [Handle]) -> Result<Taken, Fault> {
        let count = self.bytes.len();
        if count == 0 {
            self.last = LastAnswer::End;
            return Ok(Taken {
                bytes: 0,
                handles: 0,
            });
        }
        let handle_count = self.handles.len();
        bytes[..count].copy_from_slice(self.bytes);
        handles[..handle_count].copy_from_slice(self.handles);
        self.given.note(self.bytes, self.handles);
        self.bytes = &[];
        self.handles = &[];
        self.last = LastAnswer::Piece;
        Ok(Taken {
            bytes: count,
            handles: handle_count,
        })
    }
}
