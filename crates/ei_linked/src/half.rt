//! One end, with what it sent and took.

ghost use Rattle.std.specs.Prelude.{reverse, ◌≡◌, ◌<◌, ◌≤◌, List, [], ◌∷◌, length, IfOk, OnOk, OnErr, None, Some, IsErrOf, true, false};
ghost use Rattle.ei_spec.specs.Interface.{Known};
ghost use Rattle.ei_spec.specs.declared.limits.TheConstants.{MOST_PIECE_BYTES, MOST_PIECE_HANDLES};
ghost use Rattle.ei_backend.specs.Backend.{unsent_of, next};
ghost use Rattle.ei_backend.specs.Table.{own, own_end};
ghost use Rattle.ei_wire.specs.declared.error.SendError.TheVariants as send_error;
ghost use Rattle.ei_ends.specs.Sent.{new_of};
ghost use Rattle.ei_ends.specs.Steps.{behind};
ghost use Rattle.ei_ends.specs.Joined.{acquainted};
ghost use Rattle.ei_linked.specs.declared.record.Got.{Got as TakenGot};
ghost use Rattle.ei_linked.specs.Stored.{sent_view, end_in, having_sent, read_as, with_endpoint};
ghost use Rattle.ei_linked.specs.Held.{stored_by, held_with, Keeps};
ghost use Rattle.ei_linked.specs.Asked.{asked, IsOfRow, IsNext, IsSendable, AreNew, IsTooLong, Sends};
ghost use Rattle.ei_linked.specs.Delivered.{Delivers, TakesIn, moves};
ghost use Rattle.ei_linked.specs.TwoEnds.{flushed_end, IsRead, ReadsRows, StoresAnswer};

use crate::link::Link;
use crate::met::{find_sent, find_taken};
use crate::portion::Portion;
use crate::record::{Announced, Got, Record, Target};
use ei_backend::{Backend, HasBackend, MessageEnum, Object, PendingRequestResult};
use ei_rows::row_of;
use ei_spec::{Handle, KnownInterface};
use ei_values::{Value, stored};
use ei_wire::{NoMemory, ReadError, SendError};
use std::alloc::Global;
use std::marker::Model;

/// Why a read gave nothing.
#[derive(Clone, Copy)]
pub enum HalfError {
    /// Nothing changed.
    NoMemory,
    /// A message was taken and isn't stored.
    Spent,
}

/// One end: what holds its endpoint, and what it sent and took.
#[derive(Drop)]
pub struct Half<C: HasBackend> {
    pub context: C,
    pub(crate) sent: Vec<Record>,
    taken: Vec<Got>,
}

impl<C: HasBackend> Model for Half<C> {
    ghost use Rattle.std.specs.Prelude.{reverse};
    ghost use Rattle.ei_linked.specs.Held.{Held, held_code};

    ghost Value = { Held C };

    ghost coded = { held_code C.code };

    ghost view = { λ h. record {
      context = h.context;
      sent = reverse h.sent.items;
      taken = reverse h.taken.items;
    } };
}

impl<C: HasBackend> Half<C> {
    /// A new end of this context.
    pub fn new(alloc: Global, context: C) -> Half<C>
        ensures { result ≡ record { context = context; sent = []; taken = [] } }
    {
        Half {
            context,
            sent: Vec::new(alloc),
            taken: Vec::new(alloc),
        }
    }

    /// What it sent, the first first.
    pub fn sent(&self) -> &[Record]
        ensures { reverse result.now ≡ self.now.sent }
    {
        &self.sent
    }

    /// What it took, the first first.
    pub fn taken(&self) -> &[Got]
        ensures { reverse result.now ≡ self.now.taken }
    {
        &self.taken
    }

    /// Whether it reads no more.
    pub fn is_closed(&self) -> bool
        ensures { result ≡ (C.seen self.now.context).closed }
    {
        self.context.backend().is_closed()
    }

    /// Takes what was taken last off the list again.
    pub fn untake(&mut self)
        ensures { (last : TakenGot) (past : List TakenGot) → self.old.taken ≡ last ∷ past →
            self.new ≡ record self.old { taken = past } }
    {
        let _last = self.taken.pop();
    }

    /// The object of that id which it made or read at some time, or object 0.
    pub fn met(&self, events: bool, id: u64) -> Option<Announced>
        ensures { AreNew result (acquainted events (end_in (stored_by C.seen self.now)).sent
            (end_in (stored_by C.seen self.now)).taken id) }
    {
        if id == 0 {
            return Some(Announced {
                id: 0,
                interface: Some(KnownInterface::Handshake),
                version: 1,
            });
        }
        match find_sent(&self.sent, events, id) {
            Some(object) => Some(object),
            None => find_taken(&self.taken, !events, id),
        }
    }

    /// Sends a message that announces nothing.
    fn call(&mut self, alloc: Global, events: bool, message: Record) -> Result<(), SendError>
        requires plain { new_of events (sent_view message) ≡ None }
        ensures ok { OnOk result (self.new ≡
            held_with C.with_backend self.old (having_sent events message (stored_by C.seen self.old))) }
        ensures short { OnOk result (IsTooLong message → ⊥) }
        ensures long { IsErrOf result send_error.MessageTooLong → IsTooLong message }
        ensures not_exhausted { IsErrOf result send_error.IdsExhausted → ⊥ }
        ensures err { OnErr result (self.new ≡ self.old) }
    {
        self.sent.reserve(1)?;
        message.send(alloc, events, self.context.backend_mut())?;
        match self.sent.push(message) {
            Ok(()) => Ok(()),
            Err(_) => unreachable!(),
        }
    }

    /// Sends a message that announces the next object.
    fn call_new(
        &mut self,
        alloc: Global,
        events: bool,
        message: Record,
        interface: KnownInterface,
        version: u32,
    ) -> Result<Object, SendError>
        requires announces { new_of events (sent_view message) ≡
            Some (record {
              id = (C.seen self.old.context).table.next_own;
              interface = Known interface;
              version = version;
            }) }
        ensures ok { IfOk result (λ o. (self.new ≡
            held_with C.with_backend self.old (having_sent events message (stored_by C.seen self.old)))
            × (o ≡ own (C.seen self.old.context).table (Known interface) version)) }
        ensures short { OnOk result (IsTooLong message → ⊥) }
        ensures left { OnOk result
            ((C.seen self.old.context).table.next_own < own_end (C.seen self.old.context).table) }
        ensures exhausted { IsErrOf result send_error.IdsExhausted →
            own_end (C.seen self.old.context).table ≤ (C.seen self.old.context).table.next_own }
        ensures long { IsErrOf result send_error.MessageTooLong →
            ((C.seen self.old.context).table.next_own < own_end (C.seen self.old.context).table) × IsTooLong message }
        ensures err { OnErr result (self.new ≡ self.old) }
    {
        self.sent.reserve(1)?;
        let object = message.send_new(
            alloc,
            events,
            self.context.backend_mut(),
            interface,
            version,
        )?;
        match self.sent.push(message) {
            Ok(()) => Ok(object),
            Err(_) => unreachable!(),
        }
    }

    /// Sends the message, and answers the object that it announces.
    fn send(
        &mut self,
        alloc: Global,
        events: bool,
        message: Record,
    ) -> Result<Option<Object>, SendError>
        requires next { IsNext (C.seen self.old.context).table.next_own (new_of events (sent_view message)) }
        ensures sends { Sends events message result (stored_by C.seen self.old) (stored_by C.seen self.new) }
        ensures keeps { Keeps C.seen C.with_backend self.old self.new }
    {
        match message.announces(events) {
            None => match self.call(alloc, events, message) {
                Ok(()) => Ok(None),
                Err(error) => Err(error),
            },
            Some(object) => match object.interface {
                Some(interface) => {
                    match self.call_new(alloc, events, message, interface, object.version) {
                        Ok(object) => Ok(Some(object)),
                        Err(error) => Err(error),
                    }
                }
                None => unreachable!(),
            },
        }
    }

    /// Sends the message of these values to the object, with the next own id in the place of a new one. It answers the object
    /// that the message announces.
    pub fn ask(
        &mut self,
        alloc: Global,
        events: bool,
        target: Target,
        opcode: u32,
        values: &[Value],
    ) -> Result<Option<Object>, SendError>
        requires row { IsOfRow events target.interface opcode values.now }
        ensures sends { Sends events
            (asked (C.seen self.old.context).table.next_own target.id target.interface target.version opcode values.now)
            result (stored_by C.seen self.old) (stored_by C.seen self.new) }
        ensures keeps { Keeps C.seen C.with_backend self.old self.new }
        ensures sendable { OnOk result (IsSendable events (C.seen self.old.context).table.next_own
            (sent_view (asked (C.seen self.old.context).table.next_own target.id target.interface target.version
            opcode values.now))) }
    {
        let next = self.context.backend().next_id();
        let message = Record::asked(alloc, target, opcode, values, next)?;
        self.send(alloc, events, message)
    }

    /// Puts all that waits to be sent into the link, or does nothing.
    pub fn flush(&mut self, link: &mut Link) -> Result<(), NoMemory>
        ensures ok { OnOk result (self.new ≡
            held_with C.with_backend self.old (flushed_end (stored_by C.seen self.old))) }
        ensures link { OnOk result (link.new ≡ behind link.old (unsent_of (C.seen self.old.context))) }
        ensures err { OnErr result (self.new ≡ self.old) }
        ensures link_err { OnErr result (link.new ≡ link.old) }
    {
        let backend = self.context.backend();
        link.append(backend.unsent(), backend.unsent_handles())?;
        self.context.backend_mut().clear_unsent();
        Ok(())
    }

    /// Takes the next message, and stores it.
    pub fn read<T: MessageEnum + Drop>(
        &mut self,
        alloc: Global,
        events: bool,
    ) -> Result<Option<PendingRequestResult<T>>, HalfError>
        requires events { T.events ≡ events }
        requires rows { ReadsRows events (stored_by C.seen self.old) }
        ensures ok { IfOk result (λ answer. StoresAnswer T.target T.code T.values events answer
            (stored_by C.seen self.old) (stored_by C.seen self.new)) }
        ensures keeps { Keeps C.seen C.with_backend self.old self.new }
        ensures memory { IsErrOf result HalfError.NoMemory → self.new ≡ self.old }
        ensures spent { IsErrOf result HalfError.Spent → self.new ≡ held_with C.with_backend self.old
            (with_endpoint (next events (C.seen self.old.context)).1 (stored_by C.seen self.old)) }
    {
        let after = self.sent.len() as u64;
        let answer = match self.context.backend_mut().pending::<T>() {
            Ok(answer) => answer,
            Err(_) => return Err(HalfError::NoMemory),
        };
        match &answer {
            None => {}
            Some(pending) => match pending {
                PendingRequestResult::ParseError(_) => {}
                PendingRequestResult::InvalidObject(id) => {
                    if self
                        .taken
                        .push(Got::InvalidObject { id: *id, after })
                        .is_err()
                    {
                        drop(answer);
                        return Err(HalfError::Spent);
                    }
                }
                PendingRequestResult::Request(message) => {
                    let Ok(message) = record_of(alloc, events, message) else {
                        // Let go by a call: at the end of a scope the drop of each field is proved anew.
                        drop(answer);
                        return Err(HalfError::Spent);
                    };
                    if self.taken.push(Got::Message { message, after }).is_err() {
                        drop(answer);
                        return Err(HalfError::Spent);
                    }
                }
            },
        }
        Ok(answer)
    }

    /// Hands the first n bytes that wait to this end, and the first 64 handles.
    pub fn deliver(&mut self, link: &mut Link, n: usize) -> Result<usize, ReadError>
        requires some { 0 < n }
        requires most { n ≤ 1536 }
        ensures delivers { Delivers n result (stored_by C.seen self.old) link.old (stored_by C.seen self.new) link.new }
        ensures keeps { Keeps C.seen C.with_backend self.old self.new }
    {
        if self.context.backend().is_closed() {
            return Err(ReadError::UnexpectedEof);
        }
        let bytes = link.bytes();
        if bytes.is_empty() {
            return Ok(0);
        }
        let handles = link.handles();
        let count = bytes.len().min(n);
        let handle_count = handles.len().min(64);
        let answer = take_in(
            self.context.backend_mut(),
            &bytes[..count],
            &handles[..handle_count],
        );
        if is_moved(&answer) {
            link.advance(count, handle_count);
        }
        answer
    }
}

/// A message that was read, as it is stored.
fn record_of<T: MessageEnum>(alloc: Global, events: bool, message: &T) -> Result<Record, NoMemory>
    requires { IsRead events (T.target message.now) (T.code message.now) (T.values message.now) }
    ensures { IfOk result (λ r. r ≡ read_as events (T.target message.now) (T.code message.now) (T.values message.now)) }
{
    let target = message.object();
    let Some(interface) = target.known_interface() else {
        unreachable!();
    };
    let opcode = message.opcode();
    let Some(row) = row_of(events, interface, opcode) else {
        unreachable!();
    };
    let args = message.arguments(alloc)?;
    let values = stored(alloc, row.kinds, &args)?;
    Ok(Record {
        target: target.id(),
        interface,
        version: target.version(),
        opcode,
        values,
    })
}

/// Whether a piece left the link.
fn is_moved(answer: &Result<usize, ReadError>) -> bool
    ensures { result ≡ moves answer.now }
{
    matches!(answer, Ok(_) | Err(ReadError::HandleLimit))
}

/// A piece comes to an open endpoint.
fn take_in(backend: &mut Backend, bytes: &[u8], handles: &[Handle]) -> Result<usize, ReadError>
    requires opened { backend.old.closed ≡ false }
    requires some { 0 < length bytes.now }
    requires bytes { length bytes.now ≤ MOST_PIECE_BYTES }
    requires handles { length handles.now ≤ MOST_PIECE_HANDLES }
    ensures takes_in { TakesIn (record { bytes = bytes.now; handles = handles.now }) result backend.old backend.new }
{
    let mut portion = Portion::new(bytes, handles);
    backend.read(&mut portion)
}
