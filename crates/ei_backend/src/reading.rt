//! Reading the message at the front of what is unread, in place.

ghost use Rattle.std.specs.Prelude.{◌≡◌, ◌≤◌, ◌<◌, ◌+◌, ℕ, true, List, [], length, ◌↔◌, take, drop, IfSome, IfOk, OnErr, Ok, Some, None};
ghost use Rattle.ei_wire.specs.declared.error.ParseError.TheVariants as error;
ghost use Rattle.circular_buffer.specs.Buffer.{buffer};
ghost use Rattle.ei_spec.specs.Message as message;
ghost use Rattle.ei_spec.specs.declared.handle.Handle.{Handle as Descriptor};
ghost use Rattle.ei_backend.specs.declared.front.TheConstants.{HEADER_BYTES};
ghost use Rattle.ei_backend.specs.declared.message.PendingRequestResult.TheVariants as pending;
ghost use Rattle.ei_backend.specs.Front.{front_view, front_len, IsSound};
ghost use Rattle.ei_backend.specs.Table.{found};
ghost use Rattle.ei_backend.specs.Message.{message_wants};
ghost use Rattle.ei_backend.specs.Backend.{BackendView, Message, body_read, of_outcome, of_target, next, Answers, Brings, Shortens};
ghost use Rattle.ei_backend.specs.Step.{reading, no_step, TakesNext, TakesSome, Steps};

use crate::front::{FrontMessage, HEADER_BYTES, front_in_place, front_of, is_across};
use crate::incoming::Incoming;
use crate::message::{Answer, MessageEnum, PendingRequestResult};
use crate::object::Object;
use crate::table::Table;
use circular_buffer::HeapCircularBuffer;
use ei_spec::Handle;
use ei_wire::{ByteStream, NoMemory, ParseError};
use std::alloc::Global;

/// How many bytes and handles a message took.
#[derive(Clone, Copy)]
struct Step {
    bytes: usize,
    handles: usize,
}

impl Step {
    /// Nothing is taken.
    #[inline(always)]
    fn nothing() -> Step
        ensures { result ≡ no_step }
    {
        Step {
            bytes: 0,
            handles: 0,
        }
    }
}

impl Incoming {
    /// The message at the front, taken out, if it is whole: mostly it lies in the ring's first bytes, is lawful, announces
    /// nothing and bears no handle.
    ///
    /// Where memory runs out, what is unread and the table stay.
    #[inline(always)]
    pub(crate) fn next<T: MessageEnum>(&mut self, alloc: Global, table: &mut Table) -> Answer<T>
    where
        T: Drop,
        ensures { TakesNext T.target T.code T.values T.announced T.events self.old self.new table.old table.new result }
    {
        match front_in_place(&self.bytes) {
            Some(FrontMessage::Whole(id, opcode, body, len)) => {
                if let Some(message) = read_lawful(alloc, id, opcode, body, table) {
                    drop_front(&mut self.bytes, len);
                    return Ok(Some(PendingRequestResult::Request(message)));
                }
            }
            Some(FrontMessage::Short(_)) => return Ok(None),
            _ => {}
        }
        self.next_rare(alloc, table)
    }

    /// The same, of any other. Its answer is said to a place of its own first, so that the caller's needn't be in memory.
    #[inline(always)]
    fn next_rare<T: MessageEnum>(&mut self, alloc: Global, table: &mut Table) -> Answer<T>
    where
        T: Drop,
        ensures { TakesNext T.target T.code T.values T.announced T.events self.old self.new table.old table.new result }
    {
        let answer = self.next_apart(alloc, table);
        answer
    }

    /// The same, by a call of its own.
    #[inline(never)]
    fn next_apart<T: MessageEnum>(&mut self, alloc: Global, table: &mut Table) -> Answer<T>
    where
        T: Drop,
        ensures { TakesNext T.target T.code T.values T.announced T.events self.old self.new table.old table.new result }
    {
        let mut step = Step::nothing();
        let answer = self.step(alloc, table, &mut step);
        drop_front(&mut self.bytes, step.bytes);
        drop_handles(&mut self.handles, step.handles);
        answer
    }

    /// Reads the message at the front, if it is whole. It says in `step` what the message takes. Where it lies across the end of
    /// its ring, or handles are unread, it is copied to the room for a piece, which is idle then, or the ring is made contiguous
    /// if it is longer; else nothing is copied.
    ///
    /// Where memory runs out, the table stays, and nothing is taken.
    fn step<T: MessageEnum>(
        &mut self,
        alloc: Global,
        table: &mut Table,
        step: &mut Step,
    ) -> Answer<T>
    where
        T: Drop,
        requires { step.old ≡ no_step }
        ensures steps { Steps T.target T.code T.values T.announced T.events self.old.bytes self.old.handles
            table.old table.new step.new result }
        ensures within { step.new.bytes ≤ length self.old.bytes }
        ensures kept { self.new ≡ self.old }
    {
        if self.handles.is_empty() {
            if let Some(front) = front_in_place(&self.bytes) {
                return step_apart(alloc, front, &[], table, step);
            }
        }
        let handles = self.handles.make_contiguous();
        step_across(alloc, &mut self.bytes, handles, &mut self.room, table, step)
    }
}

/// Takes the first bytes out.
#[inline(always)]
fn drop_front(bytes: &mut HeapCircularBuffer<u8>, count: usize)
    requires { count ≤ length bytes.old.items }
    ensures { bytes.new ≡ buffer (drop count bytes.old.items) bytes.old.capacity }
{
    let left = bytes.len() - count;
    bytes.truncate_front(left);
}

/// Takes the first handles out.
fn drop_handles(handles: &mut HeapCircularBuffer<Handle>, count: usize)
    ensures { handles.new ≡ buffer (drop count handles.old.items) handles.old.capacity }
{
    let left = handles.len().saturating_sub(count);
    handles.truncate_front(left);
}

/// Reads the message at the front of a ring, if it is whole, where it may lie across the end of the ring, or handles
/// are unread: it is copied to `scratch` first, if it fits there.
///
/// Where memory runs out, the table stays, and nothing is taken.
fn step_across<T: MessageEnum>(
    alloc: Global,
    bytes: &mut HeapCircularBuffer<u8>,
    handles: &[Handle],
    scratch: &mut [u8],
    table: &mut Table,
    step: &mut Step,
) -> Answer<T>
where
    T: Drop,
    requires scratch { HEADER_BYTES ≤ length scratch.old }
    requires nothing { step.old ≡ no_step }
    ensures steps { Steps T.target T.code T.values T.announced T.events bytes.old.items handles.now
        table.old table.new step.new result }
    ensures within { step.new.bytes ≤ length bytes.old.items }
    ensures kept { bytes.new ≡ bytes.old }
{
    let count = gather(bytes, scratch);
    let front = front_of(&scratch[..count]);
    if is_across(front, bytes.len()) {
        step_apart(
            alloc,
            front_of(bytes.make_contiguous()),
            handles,
            table,
            step,
        )
    } else {
        step_apart(alloc, front, handles, table, step)
    }
}

/// Copies the first bytes of a ring, as many as there are and fit. It answers how many.
fn copy_front(bytes: &HeapCircularBuffer<u8>, scratch: &mut [u8]) -> usize
    ensures within { result ≤ length bytes.now.items }
    ensures fits { result ≤ length scratch.old }
    ensures copied { take result scratch.new ≡ take result bytes.now.items }
{
    let (first, second) = bytes.as_slices();
    let from_first = first.len().min(scratch.len());
    let from_second = second.len().min(scratch.len() - from_first);
    let count = from_first + from_second;
    scratch[..from_first].copy_from_slice(&first[..from_first]);
    scratch[from_first..count].copy_from_slice(&second[..from_second]);
    count
}

/// Copies the message at the front of a ring, or as much as its header, where it isn't whole or doesn't fit.
/// It answers how many bytes.
fn gather(bytes: &HeapCircularBuffer<u8>, scratch: &mut [u8]) -> usize
    requires { HEADER_BYTES ≤ length scratch.old }
    ensures within { result ≤ length bytes.now.items }
    ensures fits { result ≤ length scratch.old }
    ensures copied { take result scratch.new ≡ take result bytes.now.items }
{
    let header = copy_front(bytes, &mut scratch[..HEADER_BYTES]);
    match front_of(&scratch[..header]) {
        FrontMessage::Short(needed) if needed <= bytes.len() && needed <= scratch.len() => {
            copy_front(bytes, &mut scratch[..needed])
        }
        _ => header,
    }
}

/// Reads a lawful message that announces nothing and bears no handle. The handles that are unread stay.
#[inline(always)]
fn read_lawful<T: MessageEnum>(
    alloc: Global,
    id: u64,
    opcode: u32,
    body: &[u8],
    table: &Table,
) -> Option<T>
where
    T: Drop,
    ensures read { IfSome result (λ m. (all rest : List ℕ) (handles : List Descriptor) (b : BackendView) →
        of_target T.events (reading all handles table.now b) (found table.now id)
        (record { id = id; opcode = opcode; body = body.now }) rest
        ≡ (Message (T.target m) (T.code m) (T.values m), reading rest handles table.now b)) }
    ensures announced { IfSome result (λ m. T.announced m ≡ None) }
{
    let target = table.object_for_id(id)?;
    let mut stream = ByteStream::new(alloc, body, &[]);
    T::parse_lawful(target, opcode, &mut stream)
}

/// Reads what stands at the front of some bytes, and says in `step` what it takes.
///
/// Where memory runs out, the table stays, and nothing is taken.
fn step_apart<T: MessageEnum>(
    alloc: Global,
    front: FrontMessage<'_>,
    handles: &[Handle],
    table: &mut Table,
    step: &mut Step,
) -> Answer<T>
where
    T: Drop,
    requires sound { IsSound front }
    requires nothing { step.old ≡ no_step }
    ensures steps { (bytes : List ℕ) → front_view bytes front.entry ≡ message.front bytes →
        Steps T.target T.code T.values T.announced T.events bytes handles.now table.old table.new step.new result }
    ensures within { step.new.bytes ≤ front_len front.entry }
{
    match front {
        FrontMessage::Short(_) => Ok(None),
        FrontMessage::Unlawful(len) => Ok(Some(PendingRequestResult::ParseError(
            ParseError::HeaderLength(len),
        ))),
        FrontMessage::Whole(id, opcode, body, len) => match table.object_for_id(id) {
            None => {
                step.bytes = len;
                Ok(Some(PendingRequestResult::InvalidObject(id)))
            }
            Some(target) => {
                let target = target.clone()?;
                let taken = &mut step.handles;
                let answer = read_body(alloc, target, opcode, body, handles, table, taken);
                if answer.is_ok() {
                    step.bytes = len;
                }
                answer
            }
        },
    }
}

/// Reads the whole body of a message, and says how many handles it took.
///
/// Where memory runs out, the table stays, and no handle is taken.
fn read_body<T: MessageEnum>(
    alloc: Global,
    target: Object,
    opcode: u32,
    body: &[u8],
    handles: &[Handle],
    table: &mut Table,
    taken: &mut usize,
) -> Answer<T>
where
    T: Drop,
    requires body { length body.now ≤ 1048560 }
    requires nothing { taken.old ≡ 0 }
    ensures ok { (rest : List ℕ) → (b : BackendView) → IfOk result (λ said. Answers T.target T.code T.values said
        (reading rest (drop taken.new handles.now) table.new b)
        (of_outcome (reading rest handles.now table.old b) target opcode rest
        (body_read T.events target opcode body.now handles.now table.old))) }
    ensures announced { IfOk result (λ said. Brings T.announced said table.old table.new) }
    ensures some { (n : ℕ) → 0 < n → IfOk result (λ said. TakesSome said n) }
    ensures err { OnErr result (table.new ≡ table.old) }
    ensures err_taken { OnErr result (taken.new ≡ 0) }
    ensures memory { OnErr result (message_wants T.events target.interface opcode ≡ true) }
{
    let mut stream = ByteStream::new(alloc, body, handles);
    let parsed = T::parse(alloc, target, opcode, &mut stream, table);
    match parsed {
        Ok(message) => {
            *taken = stream.handles_taken();
            let rest = stream.rest();
            if rest != 0 {
                return Ok(Some(PendingRequestResult::ParseError(left_over(body, rest))));
            }
            Ok(Some(PendingRequestResult::Request(message)))
        }
        Err(ParseError::NoMemory) => Err(NoMemory),
        Err(error) => {
            *taken = stream.handles_taken();
            Ok(Some(PendingRequestResult::ParseError(error)))
        }
    }
}

/// Why a message is refused of which so many bytes are left over.
fn left_over(body: &[u8], rest: usize) -> ParseError
    requires body { length body.now ≤ 1048560 }
    requires rest { rest ≤ length body.now }
    ensures { result ≡ error.MessageLength (16 + length body.now + rest) (16 + length body.now) }
{
    let len = 16 + body.len() as u32;
    ParseError::MessageLength(len + rest as u32, len)
}
