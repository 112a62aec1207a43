//! A sink for bytes that were written already.

ghost use Rattle.std.specs.Prelude.{◌≡◌, ◌+◌, ◌<◌, ◌≤◌, [], length, take, Some, IfOk};
ghost use Rattle.ei_backend.specs.Outside.{IsPut, IsPutSize};

use ei_backend::{PutError, Sink, TakenPiece};
use ei_spec::Handle;

/// It takes so many bytes, and fails where more are put to it. It keeps none of them.
#[derive(Drop)]
pub(crate) struct Written {
    left: usize,
    faults: u64,
    taken: TakenPiece,
}

impl Written {
    /// So many bytes were written.
    pub(crate) fn of(bytes: usize) -> Written
        ensures left { result.left ≡ bytes }
        ensures faults { result.faults ≡ 0 }
        ensures taken { result.taken.piece ≡ record { bytes = []; handles = [] } }
    {
        Written {
            left: bytes,
            faults: 0,
            taken: TakenPiece::new(),
        }
    }
}

impl Sink for Written {
    ghost use Rattle.reis_eis.specs.Lent.{written_view};
    ghost use Rattle.reis_eis.specs.Written.{IsLater, is_later_self, is_later_twice};

    ghost view = { λ w. written_view w.taken.piece w.faults };

    ghost later = { λ old new. IsLater old.left old.faults old.taken.piece new.left new.faults new.taken.piece };

    ghost later_refl = { λ w. is_later_self w.left w.faults w.taken.piece };

    ghost later_trans = { λ u v w first second. is_later_twice u.left u.faults u.taken.piece v.left v.faults
        v.taken.piece w.left w.faults w.taken.piece first second };

    fn put(&mut self, bytes: &[u8], handles: &[Handle]) -> Result<usize, PutError> {
        let count = bytes.len().min(self.left);
        if count == 0 && !bytes.is_empty() {
            self.faults = self.faults.saturating_add(1);
            return Err(PutError::Fault);
        }
        self.taken.note(&bytes[..count], handles);
        self.left -= count;
        Ok(count)
    }
}
