//! A box as the address of its block.

ghost use Rattle.std.specs.Prelude.{◌≡◌};

use std::alloc::Allocator;
use std::marker::Model;

/// What a box was: its block, and the allocator that frees it.
pub(crate) struct Unboxed<T, A: Allocator> {
    pub(crate) at: *mut T,
    pub(crate) alloc: A,
    pub(crate) ghost value: { T },
}

impl<T, A: Allocator> Model for Unboxed<T, A> {
    ghost use Rattle.std.specs.Box.Ownership.{box_owns};

    ghost also_owns = { λ u. box_owns (A.dealloc_token u.alloc) T.row u.at u.value };
}

impl<T, A: Allocator> Unboxed<T, A> {
    /// The block of a box.
    pub(crate) fn of(held: Box<T, A>) -> Unboxed<T, A>
    where
        T: Drop,
        ensures { result.value ≡ held.value }
    {
        let (at, alloc) = Box::into_raw_with_allocator(held);
        Unboxed { at, alloc }
    }

    /// The box of a block.
    pub(crate) fn boxed(self) -> Box<T, A>
        ensures { result.value ≡ self.value }
    {
        let Unboxed { at, alloc } = self;
        unsafe { Box::from_raw(alloc, at) }
    }
}
