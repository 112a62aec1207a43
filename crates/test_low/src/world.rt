//! An endpoint, its source and its sink.

ghost use Rattle.std.specs.Prelude.{None};
ghost use Rattle.ei_backend.specs.Memory.{source_of};

use ei_backend::{Backend, Fault, Object, Pieces, PutError, Sink, Source, Taken, Tray};
use ei_spec::Handle;
use ei_wire::NoMemory;
use std::alloc::Global;

/// A source of pieces that counts how often it is asked.
#[derive(Drop)]
pub(crate) struct Asked {
    pub(crate) pieces: Pieces,
    pub(crate) calls: u64,
}

impl Source for Asked {
    ghost view = { λ a. source_of a.pieces };

    ghost later = { λ _ _. Unit {0} };

    ghost later_refl = { λ _. tt };

    ghost later_trans = { λ _ _ _ _ _. tt };

    fn take(&mut self, bytes: &mut [u8], handles: &mut [Handle]) -> Result<Taken, Fault> {
        self.calls = self.calls.saturating_add(1);
        self.pieces.take(bytes, handles)
    }
}

/// A tray that takes at most so many bytes a call, and at least one. It counts how often it is called, and how often with no byte.
#[derive(Drop)]
pub(crate) struct Narrow {
    pub(crate) tray: Tray,
    pub(crate) most: usize,
    pub(crate) calls: u64,
    pub(crate) empty: u64,
}

impl Sink for Narrow {
    ghost view = { λ n. record { taken = None; puts = None; faults = n.tray.failing.faults; wants = n.tray.wants } };

    ghost later = { λ _ _. Unit {0} };

    ghost later_refl = { λ _. tt };

    ghost later_trans = { λ _ _ _ _ _. tt };

    fn put(&mut self, bytes: &[u8], handles: &[Handle]) -> Result<usize, PutError> {
        self.calls = self.calls.saturating_add(1);
        if bytes.is_empty() {
            self.empty = self.empty.saturating_add(1);
        }
        let count = bytes.len().min(self.most.max(1));
        self.tray.put(&bytes[..count], handles)
    }
}

/// An endpoint, what it reads from, what it writes into, and an object that is kept of it.
#[derive(Drop)]
pub(crate) struct World {
    pub(crate) alloc: Global,
    pub(crate) backend: Backend,
    pub(crate) source: Asked,
    pub(crate) sink: Narrow,
    pub(crate) kept: Option<Object>,
}

impl World {
    /// A server, a source of nothing and a sink with nothing.
    pub(crate) fn new(alloc: Global) -> Result<World, NoMemory> {
        Ok(World {
            alloc,
            backend: Backend::new(alloc, false)?,
            source: new_source(alloc),
            sink: new_sink(alloc),
            kept: None,
        })
    }
}

/// A source of nothing.
pub(crate) fn new_source(alloc: Global) -> Asked {
    Asked {
        pieces: Pieces::new(alloc),
        calls: 0,
    }
}

/// A sink that takes all.
pub(crate) fn new_sink(alloc: Global) -> Narrow {
    Narrow {
        tray: Tray::new(alloc),
        most: usize::MAX,
        calls: 0,
        empty: 0,
    }
}
