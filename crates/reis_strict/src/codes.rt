//! The codes of what is down.

ghost use Rattle.std.specs.Prelude.{◌≡◌, OnOk, OnErr, IsTrue};
ghost use Rattle.std.specs.FinSet as set;
ghost use Rattle.reis_strict.specs.Devices.{with_code};

use ei_wire::NoMemory;
use std::alloc::Global;
use std::collections::BTreeSet;
use std::marker::Model;

/// A set of codes. Contracts see a finite set.
#[derive(Drop)]
pub(crate) struct Codes {
    codes: BTreeSet<u32>,
}

impl Model for Codes {
    ghost use Rattle.std.specs.Coded.{coded_ℕ};
    ghost use Rattle.std.specs.Ordering.{nat_cmp};
    ghost use Rattle.std.specs.FinSet as set;

    ghost Value = { set.FinSet nat_cmp };

    ghost coded = { set.code coded_ℕ };

    ghost view = { λ c. set.from_list c.codes.keys };
}

impl Codes {
    /// None.
    pub(crate) fn new(alloc: Global) -> Codes
        ensures { result ≡ set.empty }
    {
        Codes {
            codes: BTreeSet::new(alloc),
        }
    }

    /// Whether the code is among them.
    pub(crate) fn contains(&self, code: u32) -> bool
        ensures { result ≡ set.contains self.now code }
    {
        self.codes.contains(&code)
    }

    /// A code is put in or taken out.
    ///
    /// `NoMemory`: nothing changes. It comes only where one is put in.
    pub(crate) fn turn(&mut self, code: u32, down: bool) -> Result<(), NoMemory>
        ensures ok { OnOk result (self.new ≡ with_code code down self.old) }
        ensures err { OnErr result (self.new ≡ self.old) }
        ensures memory { OnErr result (IsTrue down) }
    {
        if down {
            self.codes.insert(code)?;
        } else {
            self.codes.remove(&code);
        }
        Ok(())
    }

    /// Takes all out, and lets their memory go.
    pub(crate) fn clear(&mut self)
        ensures { self.new ≡ set.empty }
    {
        self.codes.clear();
    }
}
