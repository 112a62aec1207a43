//! What lies between two ends.

ghost use Rattle.std.specs.Prelude.{◌≡◌, ◌≤◌, [], length, drop, OnOk, OnErr};
ghost use Rattle.ei_ends.specs.Steps.{behind};

use ei_spec::Handle;
use ei_wire::NoMemory;
use std::alloc::Global;
use std::marker::Model;

/// The bytes and handles that wait for the other end.
#[derive(Drop)]
pub struct Link {
    bytes: Vec<u8>,
    start: usize,
    handles: Vec<Handle>,
    handle_start: usize,
}

impl Model for Link {
    ghost use Rattle.std.specs.Prelude.{drop, ◌≤◌, vec_len};
    ghost use Rattle.ei_spec.specs.Piece.{Piece};

    ghost Value = { Piece };

    ghost view = { λ l. record { bytes = drop l.start l.bytes.items; handles = drop l.handle_start l.handles.items } };

    ghost invariant = { λ l. (l.start ≤ vec_len l.bytes) × (l.handle_start ≤ vec_len l.handles) };
}

impl Link {
    pub fn new(alloc: Global) -> Link
        ensures { result ≡ record { bytes = []; handles = [] } }
    {
        Link {
            bytes: Vec::new(alloc),
            start: 0,
            handles: Vec::new(alloc),
            handle_start: 0,
        }
    }

    /// The bytes that wait.
    pub fn bytes(&self) -> &[u8]
        ensures { result.now ≡ self.now.bytes }
    {
        &self.bytes[self.start..]
    }

    /// The handles that wait.
    pub fn handles(&self) -> &[Handle]
        ensures { result.now ≡ self.now.handles }
    {
        &self.handles[self.handle_start..]
    }

    /// Puts these behind them, or does nothing.
    pub fn append(&mut self, bytes: &[u8], handles: &[Handle]) -> Result<(), NoMemory>
        ensures ok { OnOk result (self.new ≡ behind self.old (record { bytes = bytes.now; handles = handles.now })) }
        ensures err { OnErr result (self.new ≡ self.old) }
    {
        let before = self.bytes.len();
        self.bytes.extend_from_slice(bytes)?;
        if self.handles.extend_from_slice(handles).is_err() {
            self.bytes.truncate(before);
            return Err(NoMemory);
        }
        Ok(())
    }

    /// Takes the first of them away.
    pub fn advance(&mut self, bytes: usize, handles: usize)
        requires bytes { bytes ≤ length self.old.bytes }
        requires handles { handles ≤ length self.old.handles }
        ensures { self.new ≡ record { bytes = drop bytes self.old.bytes; handles = drop handles self.old.handles } }
    {
        self.start += bytes;
        self.handle_start += handles;
    }
}
