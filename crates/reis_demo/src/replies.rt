//! The sink of the replies.

ghost use Rattle.std.specs.Prelude.{◌≡◌, [], length, Some, IfOk};
ghost use Rattle.ei_backend.specs.Memory.{sink_of};
ghost use Rattle.ei_backend.specs.Outside.{IsPut, IsPutSize};

use ei_backend::{PutError, Sink, Tray};
use ei_spec::Handle;
use std::alloc::Global;

/// A tray that never fails.
#[derive(Drop)]
pub(crate) struct Replies {
    tray: Tray,
    ghost unfailing: { tray.failing.fails ≡ [] },
}

impl Replies {
    pub(crate) fn new(alloc: Global) -> Replies
        ensures { result.tray.held ≡ record { bytes = []; handles = [] } }
    {
        Replies {
            tray: Tray::new(alloc),
        }
    }

    /// How many bytes it took.
    pub(crate) fn len(&self) -> usize
        ensures { result ≡ length self.now.tray.held.bytes }
    {
        self.tray.bytes().len()
    }
}

impl Sink for Replies {
    ghost view = { λ s. record (sink_of s.tray) { faults = 0 } };

    ghost later = { λ _ _. Unit {0} };

    ghost later_refl = { λ _. tt };

    ghost later_trans = { λ _ _ _ _ _. tt };

    fn put(&mut self, bytes: &[u8], handles: &[Handle]) -> Result<usize, PutError>
        ensures size { IfOk result (λ n. IsPutSize n bytes.now) }
        ensures puts { IsPut (record (sink_of self.old.tray) { faults = 0 })
            (record (sink_of self.new.tray) { faults = 0 }) result bytes.now handles.now }
    {
        self.tray.put(bytes, handles)
    }
}
