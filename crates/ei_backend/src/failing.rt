//! Which calls of a party in memory fail.

ghost use Rattle.std.specs.Prelude.{◌≡◌, OnOk, OnErr, IsTrue};
ghost use Rattle.ei_backend.specs.Memory.{CountsCall, added, never_failing};

use ei_wire::NoMemory;
use std::alloc::Global;
use std::marker::Model;

/// The calls that fail, by their numbers from 1; how many calls there were, and how many of them failed.
#[derive(Drop)]
pub struct Failing {
    numbers: Vec<u64>,
    count: u64,
    failed: u64,
}

impl Model for Failing {
    ghost use Rattle.ei_backend.specs.Memory.{FailingView};

    ghost Value = { FailingView };

    ghost view = { λ f. record { fails = f.numbers.items; calls = f.count; faults = f.failed } };
}

impl Failing {
    /// No call fails.
    pub fn never(alloc: Global) -> Failing
        ensures { result ≡ never_failing }
    {
        Failing {
            numbers: Vec::new(alloc),
            count: 0,
            failed: 0,
        }
    }

    /// The call of that number fails.
    pub fn add(&mut self, call: u32) -> Result<(), NoMemory>
        ensures ok { OnOk result (self.new ≡ added call self.old) }
        ensures err { OnErr result (self.new ≡ self.old) }
    {
        self.numbers.push(u64::from(call))?;
        Ok(())
    }

    /// Counts a call, and answers whether it fails.
    pub fn fails_next(&mut self) -> bool
        ensures { CountsCall (IsTrue result) self.old self.new }
    {
        self.count = self.count.saturating_add(1);
        let fails = self.numbers.contains(&self.count);
        if fails {
            self.failed = self.failed.saturating_add(1);
        }
        fails
    }
}
