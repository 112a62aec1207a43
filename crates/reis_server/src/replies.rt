//! The replies that aren't taken yet.

ghost use Rattle.std.specs.Prelude.{◌≡◌, ◌++◌, ◌≤◌, ◌*◌, [], length, take, drop, vec_len, OnOk, OnErr, IfOk};
ghost use Rattle.ei_backend.specs.Outside.{IsPut, IsPutSize, with_more};
ghost use Rattle.reis_server.specs.Lent.{replies_view};

use ei_backend::{PutError, Sink};
use ei_spec::Handle;
use std::alloc::{AllocError, Global};
use std::marker::Model;

/// A sink in memory: it keeps what it takes until that is dropped at the front. Of what was dropped it keeps no more bytes
/// than wait, and none where none wait.
#[derive(Drop)]
pub(crate) struct Replies {
    bytes: Vec<u8>,
    // so many of the bytes were dropped
    start: usize,
    handles: Vec<Handle>,
}

impl Model for Replies {
    ghost use Rattle.std.specs.Prelude.{◌≤◌, ◌*◌, drop, vec_len};
    ghost use Rattle.ei_spec.specs.Piece.{Piece};

    ghost Value = { Piece };

    ghost view = { λ r. record { bytes = drop r.start r.bytes.items; handles = r.handles.items } };

    // of the bytes that were dropped no more are kept than wait
    ghost invariant = { λ r. 2 * r.start ≤ vec_len r.bytes };
}

impl Replies {
    pub(crate) fn new(alloc: Global) -> Replies
        ensures { result ≡ record { bytes = []; handles = [] } }
    {
        Replies {
            bytes: Vec::new(alloc),
            start: 0,
            handles: Vec::new(alloc),
        }
    }

    pub(crate) fn bytes(&self) -> &[u8]
        ensures { result.now ≡ self.now.bytes }
    {
        &self.bytes[self.start..]
    }

    pub(crate) fn handles(&self) -> &[Handle]
        ensures { result.now ≡ self.now.handles }
    {
        &self.handles
    }

    /// Drops the first bytes and handles.
    pub(crate) fn drop_front(&mut self, bytes: usize, handles: usize)
        requires bytes { bytes ≤ length self.old.bytes }
        requires handles { handles ≤ length self.old.handles }
        ensures { self.new ≡ record { bytes = drop bytes self.old.bytes; handles = drop handles self.old.handles } }
    {
        self.start = let_go(&mut self.bytes, self.start + bytes);
        take_out_front(&mut self.handles, handles);
    }
}

/// Takes out the bytes in front of `start` where they are half of all or more. It answers how many stay in front.
fn let_go(bytes: &mut Vec<u8>, start: usize) -> usize
    requires { start ≤ vec_len bytes.old }
    ensures waiting { drop result bytes.new.items ≡ drop start bytes.old.items }
    ensures few { 2 * result ≤ vec_len bytes.new }
{
    if start < bytes.len() - start {
        return start;
    }
    take_out_front(bytes, start);
    0
}

/// Takes the first items out.
fn take_out_front<T: Drop>(items: &mut Vec<T>, count: usize)
    ensures { items.new.items ≡ drop count items.old.items }
{
    if count >= items.len() {
        items.clear();
    } else {
        items.drain(..count);
    }
}

/// Puts bytes and handles behind others, or neither.
fn extend_both(
    bytes: &mut Vec<u8>,
    handles: &mut Vec<Handle>,
    more_bytes: &[u8],
    more_handles: &[Handle],
) -> Result<(), AllocError>
    ensures ok { OnOk result (bytes.new.items ≡ bytes.old.items ++ more_bytes.now) }
    ensures ok_handles { OnOk result (handles.new.items ≡ handles.old.items ++ more_handles.now) }
    ensures err { OnErr result (bytes.new.items ≡ bytes.old.items) }
    ensures err_handles { OnErr result (handles.new.items ≡ handles.old.items) }
{
    let before = bytes.len();
    bytes.extend_from_slice(more_bytes)?;
    if handles.extend_from_slice(more_handles).is_err() {
        bytes.truncate(before);
        return Err(AllocError);
    }
    Ok(())
}

impl Sink for Replies {
    ghost view = { replies_view };

    ghost later = { λ _ _. Unit {0} };

    ghost later_refl = { λ _. tt };

    ghost later_trans = { λ _ _ _ _ _. tt };

    fn put(&mut self, bytes: &[u8], handles: &[Handle]) -> Result<usize, PutError> {
        if extend_both(&mut self.bytes, &mut self.handles, bytes, handles).is_err() {
            return Err(PutError::NoMemory);
        }
        Ok(bytes.len())
    }
}
