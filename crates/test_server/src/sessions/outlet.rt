//! A sink that takes few bytes, or wants memory.

ghost use Rattle.std.specs.Prelude.{None};

use ei_backend::{PutError, Sink, Tray};
use ei_spec::Handle;
use std::alloc::Global;

/// A tray that takes at most so many bytes a call, and at least one, and wants memory at the call of a number, from 1.
#[derive(Drop)]
pub(crate) struct Outlet {
    pub(crate) tray: Tray,
    most: usize,
    wants_at: u64,
    calls: u64,
    wants: u64,
}

impl Outlet {
    /// A sink that takes so many bytes a call, and wants memory at that call; never at call 0.
    pub(crate) fn new(alloc: Global, most: usize, wants_at: u64) -> Outlet {
        Outlet {
            tray: Tray::new(alloc),
            most,
            wants_at,
            calls: 0,
            wants: 0,
        }
    }
}

impl Sink for Outlet {
    ghost view = { λ o. record { taken = None; puts = None; faults = o.tray.failing.faults; wants = o.wants } };

    ghost later = { λ _ _. Unit {0} };

    ghost later_refl = { λ _. tt };

    ghost later_trans = { λ _ _ _ _ _. tt };

    fn put(&mut self, bytes: &[u8], handles: &[Handle]) -> Result<usize, PutError> {
        self.calls = self.calls.saturating_add(1);
        if self.calls == self.wants_at {
            self.wants = self.wants.saturating_add(1);
            return Err(PutError::NoMemory);
        }
        let count = bytes.len().min(self.most.max(1));
        let put = self.tray.put(&bytes[..count], handles);
        if matches!(put, Err(PutError::NoMemory)) {
            self.wants = self.wants.saturating_add(1);
        }
        put
    }
}
