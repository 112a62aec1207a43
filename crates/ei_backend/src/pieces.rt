//! A source of the pieces that were pushed.

ghost use Rattle.std.specs.Prelude.{◌≡◌, ◌<◌, ◌≤◌, [], ◌∷◌, ◌++◌, Some, drop, length, OnOk, OnErr, IfOk, IsErr};
ghost use Rattle.ei_backend.specs.Outside.{IsPieceSize, IsTake};
ghost use Rattle.ei_backend.specs.Memory.{CountsCall, KeepsFailing, added, first_sizes, never_failing, keeps_failing, keeps_failing_twice, source_of};
ghost use Rattle.ei_spec.specs.declared.limits.TheConstants.{MOST_PIECE_BYTES, MOST_PIECE_HANDLES};

use crate::failing::Failing;
use crate::outside::{Fault, LastAnswer, Source, Taken};
use ei_spec::Handle;
use ei_wire::NoMemory;
use std::alloc::Global;
use std::marker::Model;

/// A piece of a `Pieces`.
#[derive(Drop)]
struct StoredPiece {
    bytes: Vec<u8>,
    handles: Vec<Handle>,
}

impl Model for StoredPiece {
    ghost use Rattle.ei_backend.specs.Memory.{IsPiece};
    ghost use Rattle.ei_spec.specs.Piece.{Piece};

    ghost Value = { Piece };

    ghost view = { λ s. record { bytes = s.bytes.items; handles = s.handles.items } };

    ghost invariant = { λ s. IsPiece (record { bytes = s.bytes.items; handles = s.handles.items }) };
}

/// A source in memory: it hands out the pieces that were pushed, in their order.
#[derive(Drop)]
pub struct Pieces {
    alloc: Global,
    failing: Failing,
    stored: Vec<StoredPiece>,
    next: usize,
    last: LastAnswer,
}

impl Model for Pieces {
    ghost use Rattle.std.specs.Prelude.{◌≤◌, take, drop, vec_len};
    ghost use Rattle.ei_backend.specs.Memory.{PiecesView};

    ghost Value = { PiecesView };

    ghost view = { λ s. record {
      left = drop s.next s.stored.items;
      given = take s.next s.stored.items;
      failing = s.failing;
      last = s.last;
    } };

    ghost invariant = { λ s. s.next ≤ vec_len s.stored };
}

impl Pieces {
    /// A source with no piece, which never fails.
    pub fn new(alloc: Global) -> Pieces
        ensures { result ≡
            record { left = []; given = []; failing = never_failing; last = LastAnswer.Nothing } }
    {
        Pieces {
            alloc,
            failing: Failing::never(alloc),
            stored: Vec::new(alloc),
            next: 0,
            last: LastAnswer::Nothing,
        }
    }

    /// The `take` of that number, from 1, fails and moves nothing.
    pub fn fail_at(&mut self, call: u32) -> Result<(), NoMemory>
        ensures ok { OnOk result (self.new ≡ record self.old { failing = added call self.old.failing }) }
        ensures err { OnErr result (self.new ≡ self.old) }
    {
        self.failing.add(call)
    }

    /// Adds a piece behind the others: 1 to 65536 bytes, and at most 64 handles.
    pub fn push(&mut self, bytes: &[u8], handles: &[Handle]) -> Result<(), NoMemory>
        requires some { 0 < length bytes.now }
        requires bytes { length bytes.now ≤ MOST_PIECE_BYTES }
        requires handles { length handles.now ≤ MOST_PIECE_HANDLES }
        ensures ok { OnOk result (self.new ≡ record self.old {
          left = self.old.left ++ record { bytes = bytes.now; handles = handles.now } ∷ [];
        }) }
        ensures err { OnErr result (self.new ≡ self.old) }
    {
        let piece = StoredPiece {
            bytes: bytes.to_vec(self.alloc)?,
            handles: handles.to_vec(self.alloc)?,
        };
        self.stored.push(piece)?;
        Ok(())
    }
}

impl Source for Pieces {
    ghost view = { source_of };

    ghost later = { λ s t. KeepsFailing s.failing t.failing };

    ghost later_refl = { λ s. keeps_failing s.failing };

    ghost later_trans = { λ s t u first second. keeps_failing_twice s.failing t.failing u.failing first second };

    fn take(&mut self, bytes: &mut [u8], handles: &mut [Handle]) -> Result<Taken, Fault>
        requires room { MOST_PIECE_BYTES ≤ length bytes.old }
        requires handle_room { MOST_PIECE_HANDLES ≤ length handles.old }
        ensures size { IfOk result IsPieceSize }
        ensures takes { IsTake (source_of self.old) (source_of self.new) result bytes.new handles.new }
        // beyond the trait's: which calls fail, and the whole piece
        ensures counts { CountsCall (IsErr result) self.old.failing self.new.failing }
        ensures whole { IfOk result (λ taken. taken ≡ first_sizes self.old.left) }
        // what the slices hold besides the piece
        ensures behind { IfOk result (λ taken. drop taken.bytes bytes.new ≡ drop taken.bytes bytes.old) }
        ensures handles_behind { IfOk result (λ taken.
            drop taken.handles handles.new ≡ drop taken.handles handles.old) }
        ensures err { OnErr result (bytes.new ≡ bytes.old) }
        ensures handles_err { OnErr result (handles.new ≡ handles.old) }
    {
        if self.failing.fails_next() {
            self.last = LastAnswer::Fault;
            return Err(Fault);
        }
        if self.next < self.stored.len() {
            let piece = &self.stored[self.next];
            let count = piece.bytes.len();
            let handle_count = piece.handles.len();
            bytes[..count].copy_from_slice(&piece.bytes);
            handles[..handle_count].copy_from_slice(&piece.handles);
            self.next += 1;
            self.last = LastAnswer::Piece;
            Ok(Taken {
                bytes: count,
                handles: handle_count,
            })
        } else {
            self.last = LastAnswer::End;
            Ok(Taken {
                bytes: 0,
                handles: 0,
            })
        }
    }
}
