//! What came from a source and isn't read yet, in two rings.

ghost use Rattle.std.specs.Prelude.{◌≡◌, ◌≤◌, ◌+◌, ◌-◌, ◌++◌, min, take, ℕ, List, length, vec_len, Option, None, OnOk, OnErr, IfOk, Ok, Err, Some, IsErrOf};
ghost use Rattle.circular_buffer.specs.Buffer.{buffer};
ghost use Rattle.ei_wire.specs.declared.error.ReadError.TheVariants as read_error;
ghost use Rattle.ei_backend.specs.Lent.{LentSource};
ghost use Rattle.ei_backend.specs.Incoming.{none_unread, ReadsIn};
ghost use Rattle.ei_spec.specs.declared.limits.TheConstants.{MOST_PIECE_BYTES};

use crate::outside::Source;
use crate::ring::{FIRST_CAPACITY, make_room};
use circular_buffer::HeapCircularBuffer;
use ei_spec::Handle;
use ei_spec::limits::{MOST_PIECE_BYTES, MOST_PIECE_HANDLES, MOST_UNREAD_HANDLES};
use ei_wire::{NoMemory, ReadError};
use std::alloc::Global;
use std::marker::Model;

/// Bytes and handles that are not read yet, and room for the next piece. The ring of the handles never grows.
#[derive(Drop)]
pub(crate) struct Incoming {
    pub(crate) bytes: HeapCircularBuffer<u8>,
    pub(crate) handles: HeapCircularBuffer<Handle>,
    pub(crate) room: Vec<u8>,
    handle_room: Vec<Handle>,
}

impl Model for Incoming {
    ghost use Rattle.std.specs.Prelude.{◌≡◌, vec_len};
    ghost use Rattle.ei_backend.specs.Codes.{incoming_code};
    ghost use Rattle.ei_spec.specs.declared.limits.TheConstants.{MOST_PIECE_BYTES, MOST_PIECE_HANDLES, MOST_UNREAD_HANDLES};
    ghost use Rattle.ei_backend.specs.Incoming.{IncomingView};

    ghost Value = { IncomingView };

    ghost coded = { incoming_code };

    ghost view = { λ i. record { bytes = i.bytes.items; handles = i.handles.items; capacity = i.bytes.capacity } };

    ghost invariant = { λ i. (vec_len i.room ≡ MOST_PIECE_BYTES) × (vec_len i.handle_room ≡ MOST_PIECE_HANDLES) ×
        (i.handles.capacity ≡ MOST_UNREAD_HANDLES) };
}

fn zeroed(alloc: Global, count: usize) -> Result<Vec<u8>, NoMemory>
    ensures { IfOk result (λ v. vec_len v ≡ count) }
{
    Ok(vec![in alloc; 0u8; count]?)
}

fn no_handles(alloc: Global, count: usize) -> Result<Vec<Handle>, NoMemory>
    ensures { IfOk result (λ v. vec_len v ≡ count) }
{
    Ok(vec![in alloc; Handle(0); count]?)
}

impl Incoming {
    pub(crate) fn new(alloc: Global) -> Result<Incoming, NoMemory>
        ensures { IfOk result (λ i. i ≡ none_unread) }
    {
        let bytes = HeapCircularBuffer::with_capacity(alloc, FIRST_CAPACITY)?;
        let handles = HeapCircularBuffer::with_capacity(alloc, MOST_UNREAD_HANDLES)?;
        let room = zeroed(alloc, MOST_PIECE_BYTES)?;
        let handle_room = no_handles(alloc, MOST_PIECE_HANDLES)?;
        Ok(Incoming {
            bytes,
            handles,
            room,
            handle_room,
        })
    }

    /// How many bytes are unread.
    #[inline]
    pub(crate) fn len(&self) -> usize
        ensures { result ≡ length self.now.bytes }
    {
        self.bytes.len()
    }

    /// How many handles are unread.
    #[inline]
    pub(crate) fn handle_count(&self) -> usize
        ensures { result ≡ length self.now.handles }
    {
        self.handles.len()
    }

    /// The most bytes that may be unread before the ring grows.
    #[inline]
    pub(crate) fn capacity(&self) -> usize
        ensures { result ≡ self.now.capacity }
    {
        self.bytes.capacity()
    }

    /// Takes a piece from the source, and puts it behind what is there. It answers how many bytes came.
    ///
    /// `NoMemory` before the source is asked, and only where the ring has to grow; `ReadFault` where the source failed; `UnexpectedEof` at its
    /// end; `HandleLimit` where more than 4096 handles would be unread: the piece is dropped.
    pub(crate) fn read<S: Source>(&mut self, source: &mut S) -> Result<usize, ReadError>
        ensures reads { ReadsIn (S.view source.old) (S.view source.new) result self.old self.new }
        ensures memory { IsErrOf result read_error.NoMemory → source.new ≡ source.old }
        ensures room { length self.old.bytes + MOST_PIECE_BYTES ≤ self.old.capacity →
            IsErrOf result read_error.NoMemory → ⊥ }
        ensures source { LentSource S.view S.later (IsErrOf result read_error.ReadFault)
            (IsErrOf result read_error.UnexpectedEof)
            source.old source.new }
    {
        make_room(&mut self.bytes)?;
        let Ok(taken) = source.take(&mut self.room, &mut self.handle_room) else {
            return Err(ReadError::ReadFault);
        };
        if taken.bytes == 0 {
            return Err(ReadError::UnexpectedEof);
        }
        if self.handles.len() + taken.handles > MOST_UNREAD_HANDLES {
            return Err(ReadError::HandleLimit);
        }
        self.bytes.fill_from_slice(&self.room[..taken.bytes]);
        add_handles(&mut self.handles, &self.handle_room[..taken.handles]);
        Ok(taken.bytes)
    }
}

/// Puts handles behind those that are there, and mostly none. It answers how many went in.
#[inline(always)]
fn add_handles(handles: &mut HeapCircularBuffer<Handle>, more: &[Handle]) -> usize
    ensures count { result ≡ min (length more.now) (handles.old.capacity - length handles.old.items) }
    ensures items { handles.new ≡ buffer (handles.old.items ++ take result more.now) handles.old.capacity }
{
    if more.is_empty() {
        0
    } else {
        handles.fill_from_slice(more)
    }
}
