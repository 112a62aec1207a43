//! What a source gave and what a sink took, which only clauses read.

ghost use Rattle.std.specs.Prelude.{◌≡◌, ℕ, List, [], ◌∷◌, ◌++◌};
ghost use Rattle.std.specs.Borrow.{ftrue};
ghost use Rattle.ei_spec.specs.Piece.{Piece};
ghost use Rattle.ei_backend.specs.Outside.{with_more};

use ei_spec::Handle;
use std::marker::{Model, PhantomData};

/// What a source that keeps none of its pieces has given: it takes no memory, and noting a piece takes no time.
///
/// A field of this type in an implementation of `Source` is what its view has as `given`.
#[derive(Drop)]
pub struct GivenPieces {
    marker: PhantomData<u8>,
    pub ghost pieces: { List Piece },
}

impl Model for GivenPieces {
    ghost also_owns = { λ _. ftrue };
}

impl GivenPieces {
    /// Nothing was given yet.
    pub fn new() -> GivenPieces
        ensures { result.pieces ≡ [] }
    {
        GivenPieces {
            marker: PhantomData,
        }
    }

    /// A piece of these bytes and handles was given behind the others.
    pub fn note(&mut self, _bytes: &[u8], _handles: &[Handle])
        ensures { self.new.pieces ≡ self.old.pieces ++ record { bytes = _bytes.now; handles = _handles.now } ∷ [] }
    {}
}

/// What was put to a sink at each call, taken or not: it takes no memory, and noting a call takes no time.
///
/// A field of this type in an implementation of `Sink` is what its view has as `puts`.
#[derive(Drop)]
pub struct PutPieces {
    marker: PhantomData<u8>,
    pub ghost pieces: { List Piece },
}

impl Model for PutPieces {
    ghost also_owns = { λ _. ftrue };
}

impl PutPieces {
    /// Nothing was put yet.
    pub fn new() -> PutPieces
        ensures { result.pieces ≡ [] }
    {
        PutPieces {
            marker: PhantomData,
        }
    }

    /// These bytes and handles were put, behind what was put before.
    pub fn note(&mut self, _bytes: &[u8], _handles: &[Handle])
        ensures { self.new.pieces ≡ self.old.pieces ++ record { bytes = _bytes.now; handles = _handles.now } ∷ [] }
    {}
}

/// What a sink that keeps none of it has taken, as one piece: it takes no memory, and noting bytes and handles takes no time.
///
/// A field of this type in an implementation of `Sink` is what its view has as `taken`.
#[derive(Drop)]
pub struct TakenPiece {
    marker: PhantomData<u8>,
    pub ghost piece: { Piece },
}

impl Model for TakenPiece {
    ghost also_owns = { λ _. ftrue };
}

impl TakenPiece {
    /// Nothing was taken yet.
    pub fn new() -> TakenPiece
        ensures { result.piece ≡ record { bytes = []; handles = [] } }
    {
        TakenPiece {
            marker: PhantomData,
        }
    }

    /// These bytes and handles were taken behind the others.
    pub fn note(&mut self, _bytes: &[u8], _handles: &[Handle])
        ensures { self.new.piece ≡ with_more _bytes.now _handles.now self.old.piece }
    {}
}
