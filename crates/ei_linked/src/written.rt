//! Messages that an end wrote by the calls of what stands over its endpoint: they are read back from what waits to be sent.

ghost use Rattle.std.specs.Prelude.{◌≡◌, ℕ, ◌∷◌, [], ◌++◌, List, Some, Ok, map, length, IfSome, IsSome, IfErr, OnOk, OnErr};
ghost use Rattle.std.specs.List.{flat_map};
ghost use Rattle.ei_spec.specs.Message.{Raw, IsLawful, bytes_of, size};
ghost use Rattle.ei_spec.specs.Value.{Value as Argument, handles_of};
ghost use Rattle.ei_spec.specs.Reading.{Unread, read, all_at};
ghost use Rattle.ei_rows.specs.Parts.{kind_view};
ghost use Rattle.ei_spec.specs.Rows.{Row, row_at};
ghost use Rattle.ei_spec.specs.Table.{table};
ghost use Rattle.ei_ends.specs.Sent.{Sent};
ghost use Rattle.ei_ends.specs.Joined.{acquainted};
ghost use Rattle.ei_values.specs.Stored.{value_view};
ghost use Rattle.ei_linked.specs.declared.written.StoreError.TheVariants as store_error;
ghost use Rattle.ei_linked.specs.Asked.{IsTarget};
ghost use Rattle.ei_linked.specs.Stored.{end_in};
ghost use Rattle.ei_linked.specs.Held.{stored_by};
ghost use Rattle.ei_linked.specs.Written.{AreWritten, unsent_in, Stores, StoresNext, HasMore, ReadsBack, TakesValue, FindsValue, TakesAll, IsFirst};

use crate::half::Half;
use crate::record::{Record, Target};
use ei_backend::HasBackend;
use ei_rows::{ArgKind, row_of};
use ei_spec::{Handle, KnownInterface};
use ei_values::{Value, Values};
use ei_wire::{ByteStream, EiText, Header, NoMemory, ParseError, RawFloat};
use std::alloc::Global;

/// How many bytes and handles wait to be sent.
#[derive(Clone, Copy)]
pub struct Unsent {
    pub bytes: usize,
    pub handles: usize,
}

/// Why messages weren't stored.
#[derive(Clone, Copy)]
pub enum StoreError {
    NoMemory,
    /// What waits to be sent isn't messages of the end.
    Unwritten,
}

impl From<NoMemory> for StoreError {
    ghost use Rattle.ei_linked.specs.declared.written.StoreError.TheVariants as store_error;

    ghost from_gives = { λ _ e. e ≡ store_error.NoMemory };

    fn from(_error: NoMemory) -> StoreError {
        StoreError::NoMemory
    }
}

/// The value of the kind at the front.
pub(crate) fn value_at(stream: &mut ByteStream<'_>, kind: ArgKind) -> Result<Value, ParseError>
    ensures { (v : Argument) (left : Unread) → read (kind_view kind) stream.old ≡ Ok (v, left) →
        TakesValue (kind_view kind) v left result stream.new }
{
    Ok(match kind {
        ArgKind::I32 => Value::Int32(stream.read_arg::<i32>()?),
        ArgKind::U64 | ArgKind::New => Value::Uint64(stream.read_arg::<u64>()?),
        ArgKind::Float => Value::Float(stream.read_arg::<RawFloat>()?.0),
        ArgKind::Text => Value::Text(stream.read_arg::<EiText>()?),
        ArgKind::Nullable => match stream.read_arg::<Option<EiText>>()? {
            Some(text) => Value::Text(text),
            None => Value::NullText,
        },
        ArgKind::Handle => Value::Handle(stream.read_arg::<Handle>()?),
        _ => Value::Uint32(stream.read_arg::<u32>()?),
    })
}

/// The same; what can't be read there isn't a message of the end.
fn value_of(stream: &mut ByteStream<'_>, kind: ArgKind) -> Result<Value, StoreError>
    ensures { (v : Argument) (left : Unread) → read (kind_view kind) stream.old ≡ Ok (v, left) →
        FindsValue (kind_view kind) v left result stream.new }
{
    match value_at(stream, kind) {
        Ok(value) => Ok(value),
        Err(ParseError::NoMemory) => Err(StoreError::NoMemory),
        Err(_) => Err(StoreError::Unwritten),
    }
}

/// The values of these kinds.
fn values_of(
    alloc: Global,
    kinds: &[ArgKind],
    stream: &mut ByteStream<'_>,
) -> Result<Values, StoreError>
    ensures { (vs : List Argument) (left : Unread) →
        all_at (map kind_view kinds.now) stream.old ≡ Ok (vs, left) →
        TakesAll (map kind_view kinds.now) vs left result stream.new }
{
    let mut values = Values::new(alloc);
    for (_place, kind) in kinds.iter().enumerate() {
        values.push(value_of(stream, *kind)?)?;
    }
    Ok(values)
}

/// The header at the front, and the body behind it.
fn first_of(bytes: &[u8]) -> Option<(Header, &[u8])>
    ensures first { (m : Raw) (rest : List ℕ) → IsLawful m → bytes.now ≡ bytes_of m ++ rest →
        IfSome result (λ f. IsFirst m f.0 f.1.now) }
    ensures some { (m : Raw) (rest : List ℕ) → IsLawful m → bytes.now ≡ bytes_of m ++ rest → IsSome result }
{
    let header = Header::parse(*bytes.first_chunk::<16>()?);
    let length = header.length as usize;
    if length < 16 || length > bytes.len() {
        return None;
    }
    Some((header, &bytes[16..length]))
}

impl<C: HasBackend> Half<C> {
    /// How much waits to be sent.
    pub fn unsent(&self) -> Unsent
        ensures { result ≡ unsent_in (C.seen self.now.context) }
    {
        let backend = self.context.backend();
        Unsent {
            bytes: backend.unsent().len(),
            handles: backend.unsent_handles().len(),
        }
    }

    /// Stores the messages that were put behind what waited to be sent, or none of them.
    ///
    /// `Unwritten` never where these are messages that the end might send.
    pub fn store_sent(
        &mut self,
        alloc: Global,
        events: bool,
        before: Unsent,
    ) -> Result<(), StoreError>
        ensures stores { (ms : List Sent) → AreWritten events before ms (stored_by C.seen self.old) →
            Stores events ms self.old result self.new }
        ensures err { OnErr result (self.new ≡ self.old) }
    {
        let count = self.sent.len();
        let stored = self.store_all(alloc, events, before);
        if stored.is_err() {
            self.sent.truncate(count);
        }
        stored
    }

    /// The same, or some of them.
    fn store_all(&mut self, alloc: Global, events: bool, before: Unsent) -> Result<(), StoreError>
        ensures stores { (ms : List Sent) → AreWritten events before ms (stored_by C.seen self.old) →
            Stores events ms self.old result self.new }
        ensures more { HasMore self.old self.new }
    {
        let mut at = before;
        let end = self.context.backend().unsent_len();
        // Each message has bytes, so there are no more messages than bytes.
        for _message in 0..end {
            if at.bytes >= end {
                return Ok(());
            }
            at = self.store_next(alloc, events, at)?;
        }
        Ok(())
    }

    /// Stores the message that stands there, and answers what stands behind it.
    fn store_next(&mut self, alloc: Global, events: bool, at: Unsent) -> Result<Unsent, StoreError>
        ensures stores { (m : Sent) (ms : List Sent) → AreWritten events at (m ∷ ms) (stored_by C.seen self.old) →
            StoresNext events at m self.old result self.new }
        ensures more { HasMore self.old self.new }
    {
        let (message, behind) = self.written_at(alloc, events, at)?;
        self.keep(message)?;
        Ok(behind)
    }

    /// Stores the message.
    fn keep(&mut self, message: Record) -> Result<(), StoreError>
        ensures ok { OnOk result (self.new ≡ record self.old { sent = message ∷ self.old.sent }) }
        ensures only { IfErr result (λ e. e ≡ store_error.NoMemory) }
        ensures err { OnErr result (self.new ≡ self.old) }
    {
        match self.sent.push(message) {
            Ok(()) => Ok(()),
            Err(_) => Err(StoreError::NoMemory),
        }
    }

    /// What names the object of that id, to which the end wrote.
    fn wrote_to(&self, events: bool, id: u64) -> Option<Target>
        ensures { IsTarget result id (acquainted events (end_in (stored_by C.seen self.now)).sent
            (end_in (stored_by C.seen self.now)).taken id) }
    {
        let object = self.met(events, id)?;
        if object.id != id {
            return None;
        }
        Some(Target {
            id,
            interface: object.interface?,
            version: object.version,
        })
    }

    /// The message that stands there in what waits to be sent, and what stands behind it.
    fn written_at(
        &self,
        alloc: Global,
        events: bool,
        at: Unsent,
    ) -> Result<(Record, Unsent), StoreError>
        ensures { (m : Sent) (ms : List Sent) → AreWritten events at (m ∷ ms) (stored_by C.seen self.now) →
            ReadsBack events at m result }
    {
        let backend = self.context.backend();
        let (bytes, handles) = (backend.unsent(), backend.unsent_handles());
        if at.bytes > bytes.len() {
            return Err(StoreError::Unwritten);
        }
        let handles = &handles[at.handles.min(handles.len())..];
        let Some((header, body)) = first_of(&bytes[at.bytes..]) else {
            return Err(StoreError::Unwritten);
        };
        let Some(target) = self.wrote_to(events, header.object_id) else {
            return Err(StoreError::Unwritten);
        };
        let mut stream = ByteStream::new(alloc, body, handles);
        let values = row_values(alloc, events, target.interface, header.opcode, &mut stream)?;
        let message = Record {
            target: target.id,
            interface: target.interface,
            version: target.version,
            opcode: header.opcode,
            values,
        };
        let behind = Unsent {
            bytes: at.bytes + header.length as usize,
            handles: at.handles.saturating_add(stream.handles_taken()),
        };
        Ok((message, behind))
    }
}

/// The values of a message of the row.
fn row_values(
    alloc: Global,
    events: bool,
    interface: KnownInterface,
    opcode: u32,
    stream: &mut ByteStream<'_>,
) -> Result<Values, StoreError>
    ensures { (vs : List Argument) (left : Unread) (r : Row) →
        row_at opcode (table events interface) ≡ Some r → all_at r.kinds stream.old ≡ Ok (vs, left) →
        TakesAll r.kinds vs left result stream.new }
{
    let Some(row) = row_of(events, interface, opcode) else {
        return Err(StoreError::Unwritten);
    };
    values_of(alloc, row.kinds, stream)
}
