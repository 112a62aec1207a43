//! A sink that keeps what it takes.

ghost use Rattle.std.specs.Prelude.{◌≡◌, [], ◌++◌, Some, length, OnOk, OnErr, IfOk, IsErrOf};
ghost use Rattle.ei_backend.specs.Outside.{IsPut, IsPutSize, with_more};
ghost use Rattle.ei_backend.specs.Memory.{CountsCall, KeepsFailing, added, never_failing, keeps_failing, keeps_failing_twice, sink_of, wants_after_put};

use crate::failing::Failing;
use crate::given::PutPieces;
use crate::outside::{PutError, Sink};
use ei_spec::Handle;
use ei_wire::NoMemory;
use std::alloc::Global;
use std::marker::Model;

/// A sink in memory: it keeps the bytes and handles that it takes, all of each `put`.
#[derive(Drop)]
pub struct Tray {
    bytes: Vec<u8>,
    handles: Vec<Handle>,
    puts: PutPieces,
    failing: Failing,
    wants: u64,
}

impl Model for Tray {
    ghost use Rattle.ei_backend.specs.Memory.{TrayView};

    ghost Value = { TrayView };

    ghost view = { λ s. record {
      held = record { bytes = s.bytes.items; handles = s.handles.items };
      puts = s.puts.pieces;
      failing = s.failing;
      wants = s.wants;
    } };
}

impl Tray {
    /// A sink that took nothing yet, and never fails.
    pub fn new(alloc: Global) -> Tray
        ensures { result ≡
            record { held = record { bytes = []; handles = [] }; puts = []; failing = never_failing; wants = 0 } }
    {
        Tray {
            bytes: Vec::new(alloc),
            handles: Vec::new(alloc),
            puts: PutPieces::new(),
            failing: Failing::never(alloc),
            wants: 0,
        }
    }

    /// The `put` of that number, from 1, fails and takes nothing.
    pub fn fail_at(&mut self, call: u32) -> Result<(), NoMemory>
        ensures ok { OnOk result (self.new ≡ record self.old { failing = added call self.old.failing }) }
        ensures err { OnErr result (self.new ≡ self.old) }
    {
        self.failing.add(call)
    }

    /// The bytes that it took.
    pub fn bytes(&self) -> &[u8]
        ensures { result.now ≡ self.now.held.bytes }
    {
        &self.bytes
    }

    /// The handles that it took.
    pub fn handles(&self) -> &[Handle]
        ensures { result.now ≡ self.now.held.handles }
    {
        &self.handles
    }
}

/// Puts bytes and handles behind others, or neither.
fn extend_both(
    bytes: &mut Vec<u8>,
    handles: &mut Vec<Handle>,
    more_bytes: &[u8],
    more_handles: &[Handle],
) -> Result<(), NoMemory>
    ensures ok { OnOk result (bytes.new.items ≡ bytes.old.items ++ more_bytes.now) }
    ensures ok_handles { OnOk result (handles.new.items ≡ handles.old.items ++ more_handles.now) }
    ensures err { OnErr result (bytes.new.items ≡ bytes.old.items) }
    ensures err_handles { OnErr result (handles.new.items ≡ handles.old.items) }
{
    let before = bytes.len();
    bytes.extend_from_slice(more_bytes)?;
    if handles.extend_from_slice(more_handles).is_err() {
        bytes.truncate(before);
        return Err(NoMemory);
    }
    Ok(())
}

impl Sink for Tray {
    ghost view = { sink_of };

    ghost later = { λ s t. KeepsFailing s.failing t.failing };

    ghost later_refl = { λ s. keeps_failing s.failing };

    ghost later_trans = { λ s t u first second. keeps_failing_twice s.failing t.failing u.failing first second };

    fn put(&mut self, bytes: &[u8], handles: &[Handle]) -> Result<usize, PutError>
        ensures size { IfOk result (λ n. IsPutSize n bytes.now) }
        ensures puts { IsPut (sink_of self.old) (sink_of self.new) result bytes.now handles.now }
        // beyond the trait's: which calls fail, and all that was handed to it
        ensures counts { CountsCall (IsErrOf result PutError.Fault) self.old.failing self.new.failing }
        ensures wants { self.new.wants ≡ wants_after_put result self.old.wants }
        ensures all { IfOk result (λ n. n ≡ length bytes.now) }
        ensures ok { OnOk result (self.new.held ≡ with_more bytes.now handles.now self.old.held) }
        ensures err { OnErr result (self.new.held ≡ self.old.held) }
    {
        self.puts.note(bytes, handles);
        if self.failing.fails_next() {
            return Err(PutError::Fault);
        }
        if extend_both(&mut self.bytes, &mut self.handles, bytes, handles).is_err() {
            self.wants = self.wants.saturating_add(1);
            return Err(PutError::NoMemory);
        }
        Ok(bytes.len())
    }
}
