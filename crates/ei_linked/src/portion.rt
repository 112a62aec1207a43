//! A portion of what lies between two ends, as a source.

ghost use Rattle.std.specs.Prelude.{◌≡◌, ◌<◌, ◌≤◌, false, length};
ghost use Rattle.ei_spec.specs.declared.limits.TheConstants.{MOST_PIECE_BYTES, MOST_PIECE_HANDLES};
ghost use Rattle.ei_backend.specs.declared.outside.LastAnswer.TheVariants as LastAnswers;
ghost use Rattle.ei_linked.specs.Delivered.{portion, seen_portion};

use ei_backend::{Fault, LastAnswer, Source, Taken};
use ei_spec::Handle;
use std::marker::Model;

/// One piece, and then the end.
#[derive(Drop)]
pub struct Portion<'a> {
    bytes: &'a [u8],
    handles: &'a [Handle],
    given: bool,
    last: LastAnswer,
}

impl<'a> Model for Portion<'a> {
    ghost use Rattle.std.specs.Prelude.{length, ◌<◌, ◌≤◌};
    ghost use Rattle.ei_spec.specs.declared.limits.TheConstants.{MOST_PIECE_BYTES, MOST_PIECE_HANDLES};
    ghost use Rattle.ei_linked.specs.Delivered.{PortionView, portion};

    ghost Value = { PortionView };

    ghost view = { λ p. portion p.given (record { bytes = p.bytes.now; handles = p.handles.now }) p.last };

    ghost invariant = { λ p. (0 < length p.bytes.now) × (length p.bytes.now ≤ MOST_PIECE_BYTES)
        × (length p.handles.now ≤ MOST_PIECE_HANDLES) };
}

impl<'a> Portion<'a> {
    pub fn new(bytes: &'a [u8], handles: &'a [Handle]) -> Portion<'a>
        requires some { 0 < length bytes.now }
        requires bytes { length bytes.now ≤ MOST_PIECE_BYTES }
        requires handles { length handles.now ≤ MOST_PIECE_HANDLES }
        ensures { result ≡ portion false (record { bytes = bytes.now; handles = handles.now }) LastAnswers.Nothing }
    {
        Portion {
            bytes,
            handles,
            given: false,
            last: LastAnswer::Nothing,
        }
    }
}

impl Source for Portion<'_> {
    ghost view = { seen_portion };

    ghost later = { λ _ _. Unit {0} };

    ghost later_refl = { λ _. tt };

    ghost later_trans = { λ _ _ _ _ _. tt };

    fn take(&mut self, bytes: &mut [u8], handles: &mut [Handle]) -> Result<Taken, Fault> {
        if self.given {
            self.last = LastAnswer::End;
            return Ok(Taken {
                bytes: 0,
                handles: 0,
            });
        }
        let count = self.bytes.len();
        let handle_count = self.handles.len();
        bytes[..count].copy_from_slice(self.bytes);
        handles[..handle_count].copy_from_slice(self.handles);
        self.given = true;
        self.last = LastAnswer::Piece;
        Ok(Taken {
            bytes: count,
            handles: handle_count,
        })
    }
}
