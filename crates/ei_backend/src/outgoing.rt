//! What waits to be sent: messages are written to it, and it is flushed to a sink.

ghost use Rattle.std.specs.Prelude.{◌≡◌, ◌++◌, ◌+◌, ◌<◌, ◌≤◌, ◌↔◌, ℕ, List, [], length, map, take};
ghost use Rattle.std.specs.Prelude.{drop, vec_len, vec_capacity, Option, IsOk, OnOk, OnErr, IfOk, Ok, Err, Some, IsErrOf};
ghost use Rattle.ei_spec.specs.Value.{written};
ghost use Rattle.ei_spec.specs.Message.{header, bytes_of, message, size};
ghost use Rattle.ei_wire.specs.Gives.{value_of_arg};
ghost use Rattle.ei_wire.specs.declared.error.SendError.TheVariants as send_error;
ghost use Rattle.ei_wire.specs.declared.error.FlushError.TheVariants as flush_error;
ghost use Rattle.ei_backend.specs.Outside.{Piece, with_more};
ghost use Rattle.ei_backend.specs.Lent.{LentSinkWants};
ghost use Rattle.ei_backend.specs.Outgoing.{Appends, nothing, no_room, more_room, HasRoomFor, args_body, args_handles};
ghost use Rattle.ei_backend.specs.Outgoing.{with_message, beside, kept_beside, IsPutOf, Flushes};

use crate::outside::{PutError, Sink};
use crate::words::{MOST_WORDS, words_of, write_words};
use ei_spec::Handle;
use ei_spec::limits::MOST_MESSAGE_BYTES;
use ei_wire::{Arg, FlushError, Header, NoMemory, SendError};
use std::alloc::Global;
use std::marker::Model;

/// The most bytes that the arguments of a message may have.
const MOST_BODY_BYTES: u64 = MOST_MESSAGE_BYTES as u64 - 16;

/// Bytes and handles that wait for a sink, and how many of each may wait without want of memory.
#[derive(Drop)]
pub(crate) struct Outgoing {
    bytes: Vec<u8>,
    handles: Vec<Handle>,
    room_bytes: usize,
    room_handles: usize,
}

impl Model for Outgoing {
    ghost use Rattle.std.specs.Prelude.{vec_capacity};
    ghost use Rattle.ei_backend.specs.Outgoing.{Buffered, buffered, IsKept};
    ghost use Rattle.ei_backend.specs.Codes.{buffered_code};

    ghost Value = { Buffered };

    ghost coded = { buffered_code };

    ghost view = { λ o. buffered o.bytes.items o.handles.items o.room_bytes o.room_handles };

    ghost invariant = { λ o. IsKept (buffered o.bytes.items o.handles.items o.room_bytes o.room_handles)
        (vec_capacity o.bytes) (vec_capacity o.handles) };
}

impl Outgoing {
    pub(crate) fn new(alloc: Global) -> Outgoing
        ensures { result ≡ record { waiting = nothing; room = no_room } }
    {
        Outgoing {
            bytes: Vec::new(alloc),
            handles: Vec::new(alloc),
            room_bytes: 0,
            room_handles: 0,
        }
    }

    pub(crate) fn bytes(&self) -> &[u8]
        ensures { result.now ≡ self.now.waiting.bytes }
    {
        &self.bytes
    }

    pub(crate) fn handles(&self) -> &[Handle]
        ensures { result.now ≡ self.now.waiting.handles }
    {
        &self.handles
    }

    /// Makes room for so many more bytes and handles: to write them takes no memory.
    pub(crate) fn reserve(&mut self, bytes: usize, handles: usize) -> Result<(), NoMemory>
        ensures ok { OnOk result
            (self.new ≡ record self.old { room = more_room bytes handles self.old.waiting self.old.room }) }
        ensures err { OnErr result (self.new ≡ self.old) }
    {
        self.bytes.reserve(bytes)?;
        self.handles.reserve(handles)?;
        self.room_bytes = self.room_bytes.max(self.bytes.len() + bytes);
        self.room_handles = self.room_handles.max(self.handles.len() + handles);
        Ok(())
    }

    /// How many bytes and handles wait.
    pub(crate) fn mark(&self) -> (usize, usize)
        ensures bytes { result.0 ≡ length self.now.waiting.bytes }
        ensures handles { result.1 ≡ length self.now.waiting.handles }
        ensures none { result.0 ≡ 0 → result.1 ≡ 0 }
    {
        (self.bytes.len(), self.handles.len())
    }

    /// Takes back what was written since so many bytes and handles waited.
    pub(crate) fn cut_back(&mut self, mark: (usize, usize))
        requires { mark.0 ≡ 0 → mark.1 ≡ 0 }
        ensures { self.new ≡ record self.old {
          waiting = record {
            bytes = take mark.0 self.old.waiting.bytes;
            handles = take mark.1 self.old.waiting.handles;
          };
        } }
    {
        self.bytes.truncate(mark.0);
        self.handles.truncate(mark.1);
    }

    /// Writes a message behind what waits, or nothing.
    ///
    /// `MessageTooLong` exactly where the message would have more than 1048576 bytes, `NoMemory`.
    #[inline(always)]
    #[tactic(auto, using(crate::proofs::GoingOut::message_length, crate::proofs::InWords::body_length))]
    pub(crate) fn send(
        &mut self,
        object_id: u64,
        opcode: u32,
        args: &[Arg<'_>],
    ) -> Result<(), SendError>
        ensures ok { OnOk result (self.new ≡ record self.old {
          waiting = with_message object_id opcode
              (map value_of_arg args.now) self.old.waiting;
        }) }
        ensures long { (result ≡ Err send_error.MessageTooLong) ↔
            (MOST_MESSAGE_BYTES < size (message object_id opcode (map value_of_arg args.now))) }
        ensures not_exhausted { IsErrOf result send_error.IdsExhausted → ⊥ }
        ensures err { OnErr result (self.new ≡ self.old) }
        ensures room { HasRoomFor object_id opcode (map value_of_arg args.now) self.old.waiting self.old.room →
            IsErrOf result send_error.NoMemory → ⊥ }
    {
        let mut words = [0; MOST_WORDS];
        match words_of(args, &mut words) {
            Some(count) => Ok(write_words(&mut self.bytes, object_id, opcode, &words, count)?),
            None => write_message(&mut self.bytes, &mut self.handles, object_id, opcode, args),
        }
    }

    /// Puts all that waits into the sink, all handles with the first bytes. After a refusal the rest waits,
    /// which is at least a byte.
    pub(crate) fn flush<K: Sink>(&mut self, sink: &mut K) -> Result<(), FlushError>
        ensures flushes { Flushes K.view K.later result self.old.waiting self.new.waiting sink.old sink.new }
        ensures kept { self.new.room ≡ self.old.room }
    {
        if self.bytes.is_empty() {
            return Ok(());
        }
        self.put_waiting(sink)
    }

    /// The same, where something waits.
    #[inline(never)]
    fn put_waiting<K: Sink>(&mut self, sink: &mut K) -> Result<(), FlushError>
        requires some { 0 < length self.old.waiting.bytes }
        ensures flushes { Flushes K.view K.later result self.old.waiting self.new.waiting sink.old sink.new }
        ensures kept { self.new.room ≡ self.old.room }
    {
        let (done, put) = put_all(sink, &self.bytes, &self.handles);
        drop_front(&mut self.bytes, done);
        drop_beside(&mut self.handles, done);
        put
    }
}

/// The bytes of the arguments, if they are not too many.
fn body_size(args: &[Arg<'_>]) -> Result<u64, SendError>
    ensures ok { IfOk result (λ n. (n ≡ length (args_body args.now)) × (n ≤ 1048560)) }
    ensures err { OnErr result ((result ≡ Err send_error.MessageTooLong) × (1048560 < length (args_body args.now))) }
{
    let mut size = 0u64;
    for arg in args {
        let more = arg.size();
        if more > MOST_BODY_BYTES - size {
            return Err(SendError::MessageTooLong);
        }
        size += more;
    }
    Ok(size)
}

/// Appends the header of a message, or nothing.
fn push_header(out: &mut Vec<u8>, id: u64, len: u32, opcode: u32) -> Result<(), NoMemory>
    ensures appends { Appends (header id len opcode) out.old out.new result }
    ensures len { OnOk result (vec_len out.new ≡ vec_len out.old + 16) }
{
    let header = Header {
        object_id: id,
        length: len,
        opcode,
    };
    out.extend_from_slice(&header.as_bytes())?;
    Ok(())
}

/// Appends the arguments. Where memory runs out, some of them may stand there.
fn push_args(out: &mut Vec<u8>, handles: &mut Vec<Handle>, args: &[Arg<'_>]) -> Result<(), NoMemory>
    requires { length (args_body args.now) ≤ 1048560 }
    ensures bytes { OnOk result (out.new.items ≡ out.old.items ++ args_body args.now) }
    ensures handles { OnOk result (handles.new.items ≡ handles.old.items ++ args_handles args.now) }
    ensures err { OnErr result ((more : List ℕ) × (out.new.items ≡ out.old.items ++ more)) }
    ensures err_handles { OnErr result ((more : List Handle) × (handles.new.items ≡ handles.old.items ++ more)) }
    ensures succeeds { vec_len out.old + length (args_body args.now) ≤ vec_capacity out.old
        → vec_len handles.old + length (args_handles args.now) ≤ vec_capacity handles.old → IsOk result }
    ensures capacity { vec_capacity out.old ≤ vec_capacity out.new }
    ensures handle_capacity { vec_capacity handles.old ≤ vec_capacity handles.new }
{
    for arg in args {
        arg.write(out, handles)?;
    }
    Ok(())
}

/// Appends a message, whatever its arguments are, or nothing.
#[inline(never)]
#[tactic(auto, using(crate::proofs::GoingOut::header_length), unfolding(ei_spec::specs::Message::bytes_of))]
fn write_message(
    bytes: &mut Vec<u8>,
    handles: &mut Vec<Handle>,
    object_id: u64,
    opcode: u32,
    args: &[Arg<'_>],
) -> Result<(), SendError>
    ensures bytes { OnOk result (bytes.new.items ≡ bytes.old.items ++
        bytes_of (message object_id opcode (map value_of_arg args.now))) }
    ensures handles { OnOk result (handles.new.items ≡ handles.old.items ++ args_handles args.now) }
    ensures long { (result ≡ Err send_error.MessageTooLong) ↔ (1048560 < length (args_body args.now)) }
    ensures not_exhausted { IsErrOf result send_error.IdsExhausted → ⊥ }
    ensures err { OnErr result (bytes.new.items ≡ bytes.old.items) }
    ensures err_handles { OnErr result (handles.new.items ≡ handles.old.items) }
    ensures room { vec_len bytes.old + (16 + length (args_body args.now)) ≤ vec_capacity bytes.old
        → vec_len handles.old + length (args_handles args.now) ≤ vec_capacity handles.old →
        IsErrOf result send_error.NoMemory → ⊥ }
    ensures capacity { vec_capacity bytes.old ≤ vec_capacity bytes.new }
    ensures handle_capacity { vec_capacity handles.old ≤ vec_capacity handles.new }
{
    let body = body_size(args)?;
    let before = bytes.len();
    let handles_before = handles.len();
    bytes.reserve(16 + body as usize)?;
    push_header(bytes, object_id, 16 + body as u32, opcode)?;
    if push_args(bytes, handles, args).is_err() {
        bytes.truncate(before);
        handles.truncate(handles_before);
        return Err(SendError::NoMemory);
    }
    Ok(())
}

/// The handles that go with the next bytes, where so many went out.
fn next_beside(handles: &[Handle], done: usize) -> &[Handle]
    ensures { result.now ≡ kept_beside done handles.now }
{
    if done == 0 { handles } else { &[] }
}

/// Puts bytes until all are taken. It says how many the sink took, and why no more.
fn put_all<K: Sink>(
    sink: &mut K,
    bytes: &[u8],
    handles: &[Handle],
) -> (usize, Result<(), FlushError>)
    ensures ok { OnOk result.1 (result.0 ≡ length bytes.now) }
    ensures left { OnErr result.1 (result.0 < length bytes.now) }
    ensures took { (held : Piece) → (K.view sink.old).taken ≡ Some held
        → (K.view sink.new).taken ≡ Some (with_more (take result.0 bytes.now) (beside result.0 handles.now) held) }
    ensures puts { IsPutOf (record { bytes = bytes.now; handles = handles.now }) (K.view sink.old).puts
        (K.view sink.new).puts }
    ensures sink { LentSinkWants K.view K.later (IsErrOf result.1 flush_error.WriteFault)
        (IsErrOf result.1 flush_error.NoMemory)
        sink.old sink.new }
{
    let mut done = 0;
    while done < bytes.len() {
        match sink.put(&bytes[done..], next_beside(handles, done)) {
            Ok(n) => done += n,
            Err(PutError::Fault) => return (done, Err(FlushError::WriteFault)),
            Err(PutError::NoMemory) => return (done, Err(FlushError::NoMemory)),
        }
    }
    (done, Ok(()))
}

/// Takes the first items out.
pub(crate) fn drop_front<T: Drop>(items: &mut Vec<T>, count: usize)
    ensures items { items.new.items ≡ drop count items.old.items }
    ensures capacity { vec_capacity items.new ≡ vec_capacity items.old }
{
    if count >= items.len() {
        items.clear();
    } else {
        items.drain(..count);
    }
}

/// Takes the handles out that went with so many bytes.
fn drop_beside(handles: &mut Vec<Handle>, done: usize)
    ensures items { handles.new.items ≡ kept_beside done handles.old.items }
    ensures capacity { vec_capacity handles.new ≡ vec_capacity handles.old }
{
    if done > 0 {
        handles.clear();
    }
}
