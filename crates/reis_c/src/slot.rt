//! The word that a caller in C owns.

ghost use Rattle.std.specs.Prelude.{◌≡◌, Option};
ghost use Rattle.std.specs.Option.{MatchOption};
ghost use Rattle.std.specs.declared.option.Option.TheVariants.{None, Some};
ghost use Rattle.reis_c.specs.declared.held.Held.{Held};
ghost use Rattle.reis_c.specs.contracts.held.Held.{the_row};
ghost use Rattle.std.specs.Coded.{coded_option};

use crate::held::Held;
use crate::unboxed::Unboxed;
use std::alloc::Global;
use std::marker::Model;
use std::mem;
use std::ptr::null_mut;

/// A session, or none: a word that is zero or an address.
#[repr(C)]
#[derive(Drop)]
pub struct ReisSession {
    at: *mut u8,
    alloc: Global,
    ghost held: { Option Held } by { coded_option the_row.coded },
}

impl Model for ReisSession {
    ghost use Rattle.reis_c.specs.Slot.{slot_owns};
    ghost use Rattle.reis_c.specs.contracts.held.Held.{the_row};

    ghost also_owns = { λ s. slot_owns the_row s.alloc s.at s.held };
}

impl ReisSession {
    /// No session.
    fn none(alloc: Global) -> ReisSession
        ensures { result.held ≡ None }
    {
        ReisSession {
            at: null_mut(),
            alloc,
        }
    }

    /// The session in this block.
    fn hide(block: Unboxed<Held, Global>) -> ReisSession
        ensures { result.held ≡ Some block.value }
    {
        let Unboxed { at, alloc } = block;
        ReisSession {
            at: at as *mut u8,
            alloc,
        }
    }

    /// The block of the session, where there is one.
    fn show(self) -> Option<Unboxed<Held, Global>>
        ensures { MatchOption result (self.held ≡ None) (λ block. self.held ≡ Some block.value) }
    {
        let ReisSession { at, alloc } = self;
        if at.is_null() {
            None
        } else {
            Some(Unboxed {
                at: at as *mut Held,
                alloc,
            })
        }
    }

    /// Takes the session out.
    pub(crate) fn take(&mut self, alloc: Global) -> Option<Box<Held>>
        ensures none { self.new.held ≡ None }
        ensures taken { MatchOption result (self.old.held ≡ None) (λ held. self.old.held ≡ Some held.value) }
    {
        match mem::replace(self, ReisSession::none(alloc)).show() {
            Some(block) => Some(block.boxed()),
            None => None,
        }
    }

    /// Puts a session there. None is there yet.
    pub(crate) fn put(&mut self, held: Box<Held>)
        requires { self.old.held ≡ None }
        ensures { self.new.held ≡ Some held.value }
    {
        *self = ReisSession::hide(Unboxed::of(held));
    }
}
