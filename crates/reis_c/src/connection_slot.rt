//! The word of a connection, which a caller in C owns.

ghost use Rattle.std.specs.Prelude.{◌≡◌, Option};
ghost use Rattle.std.specs.Option.{MatchOption};
ghost use Rattle.std.specs.declared.option.Option.TheVariants.{None, Some};
ghost use Rattle.reis_c.specs.declared.connection.HeldConnection.{HeldConnection};
ghost use Rattle.reis_c.specs.contracts.connection.HeldConnection.{the_row};
ghost use Rattle.std.specs.Coded.{coded_option};

use crate::connection::HeldConnection;
use crate::unboxed::Unboxed;
use std::alloc::Global;
use std::marker::Model;
use std::mem;
use std::ptr::null_mut;

/// A connection, or none: a word that is zero or an address.
#[repr(C)]
#[derive(Drop)]
pub struct ReisConnection {
    at: *mut u8,
    alloc: Global,
    ghost held: { Option HeldConnection } by { coded_option the_row.coded },
}

impl Model for ReisConnection {
    ghost use Rattle.reis_c.specs.Slot.{slot_owns};
    ghost use Rattle.reis_c.specs.contracts.connection.HeldConnection.{the_row};

    ghost also_owns = { λ s. slot_owns the_row s.alloc s.at s.held };
}

impl ReisConnection {
    /// No connection.
    fn none(alloc: Global) -> ReisConnection
        ensures { result.held ≡ None }
    {
        ReisConnection {
            at: null_mut(),
            alloc,
        }
    }

    /// The connection in this block.
    fn hide(block: Unboxed<HeldConnection, Global>) -> ReisConnection
        ensures { result.held ≡ Some block.value }
    {
        let Unboxed { at, alloc } = block;
        ReisConnection {
            at: at as *mut u8,
            alloc,
        }
    }

    /// The block of the connection, where there is one.
    fn show(self) -> Option<Unboxed<HeldConnection, Global>>
        ensures { MatchOption result (self.held ≡ None) (λ block. self.held ≡ Some block.value) }
    {
        let ReisConnection { at, alloc } = self;
        if at.is_null() {
            None
        } else {
            Some(Unboxed {
                at: at as *mut HeldConnection,
                alloc,
            })
        }
    }

    /// Takes the connection out.
    pub(crate) fn take(&mut self, alloc: Global) -> Option<Box<HeldConnection>>
        ensures none { self.new.held ≡ None }
        ensures taken { MatchOption result (self.old.held ≡ None) (λ held. self.old.held ≡ Some held.value) }
    {
        match mem::replace(self, ReisConnection::none(alloc)).show() {
            Some(block) => Some(block.boxed()),
            None => None,
        }
    }

    /// Puts a connection there. None is there yet.
    pub(crate) fn put(&mut self, held: Box<HeldConnection>)
        requires { self.old.held ≡ None }
        ensures { self.new.held ≡ Some held.value }
    {
        *self = ReisConnection::hide(Unboxed::of(held));
    }
}
