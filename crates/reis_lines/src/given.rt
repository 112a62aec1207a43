//! What an input gave, which only clauses read.

ghost use Rattle.std.specs.Prelude.{◌≡◌, ℕ, List, [], ◌∷◌, ◌++◌, Result, Ok, Err};
ghost use Rattle.std.specs.Borrow.{ftrue};
ghost use Rattle.ei_backend.specs.declared.outside.Fault.{Fault};

use std::marker::{Model, PhantomData};

/// What an input that keeps none of its text has given: it takes no memory, and noting a fetch takes no time.
///
/// A field of this type in an implementation of `Input` is what its view has as `given` and as `fetches`.
#[derive(Drop)]
pub struct Given {
    marker: PhantomData<u8>,
    pub ghost bytes: { List ℕ },
    pub ghost fetches: { List (Result (List ℕ) Fault) },
}

impl Model for Given {
    ghost also_owns = { λ _. ftrue };
}

impl Given {
    /// Nothing was fetched yet.
    pub fn new() -> Given
        ensures { (result.bytes ≡ []) × (result.fetches ≡ []) }
    {
        Given {
            marker: PhantomData,
        }
    }

    /// A fetch gave these bytes behind the others: none at the end.
    pub fn note(&mut self, _bytes: &[u8])
        ensures { (self.new.bytes ≡ self.old.bytes ++ _bytes.now)
            × (self.new.fetches ≡ self.old.fetches ++ Ok _bytes.now ∷ []) }
    {}

    /// A fetch failed.
    pub fn note_fault(&mut self)
        ensures { (self.new.bytes ≡ self.old.bytes)
            × (self.new.fetches ≡ self.old.fetches ++ Err (record {}) ∷ []) }
    {}
}
