//! A clock that gives the readings that it was made of.

ghost use Rattle.std.specs.Prelude.{◌≡◌, Some, drop, slice_index, IfOk};
ghost use Rattle.ei_backend.specs.Memory.{clock_of};

use crate::outside::Clock;
use ei_wire::NoMemory;
use std::alloc::Global;
use std::marker::Model;

/// A clock in memory: it gives the readings that it was made of, and behind the last one 0. It never fails.
#[derive(Drop)]
pub struct Readings {
    readings: Vec<u64>,
    next: usize,
}

impl Model for Readings {
    ghost use Rattle.std.specs.Prelude.{◌≤◌, drop, vec_len};
    ghost use Rattle.ei_backend.specs.Memory.{ReadingsView};

    ghost Value = { ReadingsView };

    ghost view = { λ s. record { left = drop s.next s.readings.items } };

    ghost invariant = { λ s. s.next ≤ vec_len s.readings };
}

impl Readings {
    /// A clock that gives these readings.
    pub fn new(alloc: Global, readings: &[u64]) -> Result<Readings, NoMemory>
        ensures { IfOk result (λ r. r ≡ record { left = readings.now }) }
    {
        Ok(Readings {
            readings: readings.to_vec(alloc)?,
            next: 0,
        })
    }
}

impl Clock for Readings {
    ghost view = { clock_of };

    ghost later = { λ _ _. Unit {0} };

    ghost later_refl = { λ _. tt };

    ghost later_trans = { λ _ _ _ _ _. tt };

    fn now(&mut self) -> u64
        ensures reading { result ≡ slice_index self.old.left 0 }
        ensures left { self.new.left ≡ drop 1 self.old.left }
    {
        if self.next < self.readings.len() {
            let reading = self.readings[self.next];
            self.next += 1;
            reading
        } else {
            0
        }
    }
}
