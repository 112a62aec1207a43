//! One endpoint: its objects, what came to it and what waits to be sent.

ghost use Rattle.std.specs.Prelude.{◌≡◌, ℕ, ◌+◌, ◌-◌, ◌≤◌, ◌<◌, ◌^◌, ◌↔◌, true, false, List, [], length, drop, None, IsOk, IfOk, OnErr, OnOk, IfSome, Ok, Err};
ghost use Rattle.std.specs.Prelude.{Some, IsErrOf, IsTrue, IsSome, map, if◌then◌else◌};
ghost use Rattle.std.specs.Option.{option_copied};
ghost use Rattle.ei_spec.specs.Message.{message, size, front};
ghost use Rattle.ei_wire.specs.Gives.{Gives, value_of_arg};
ghost use Rattle.ei_wire.specs.declared.error.ParseError.TheVariants as error;
ghost use Rattle.ei_wire.specs.declared.error.SendError.TheVariants as send_error;
ghost use Rattle.ei_wire.specs.declared.error.ReadError.TheVariants as read_error;
ghost use Rattle.ei_wire.specs.declared.error.FlushError.TheVariants as flush_error;
ghost use Rattle.ei_backend.specs.declared.outside.LastAnswer.TheVariants as answers;
ghost use Rattle.ei_backend.specs.Object.{interface_view, HasFixedName};
ghost use Rattle.ei_backend.specs.Table.{Announced, new_table, first_object, first_server_id, found, accept, own, own_end, own_start, own_limit};
ghost use Rattle.ei_backend.specs.Outgoing.{nothing, Flushes, HasRoomFor};
ghost use Rattle.ei_backend.specs.Message.{front_wants};
ghost use Rattle.ei_backend.specs.Backend.{new_backend, Reads, next, Answers, Brings, Shortens, sent, sent_new, with_object, with_room};
ghost use Rattle.ei_backend.specs.Backend.{body_read, Says, removed, closed_of, unsent_of, with_unsent};
ghost use Rattle.ei_spec.specs.declared.limits.TheConstants.{MOST_MESSAGE_BYTES, MOST_PIECE_BYTES};

use crate::incoming::Incoming;
use crate::interface::InterfaceName;
use crate::message::{MessageEnum, PendingRequestResult};
use crate::object::Object;
use crate::outgoing::Outgoing;
use crate::outside::{Sink, Source};
use crate::table::{Accepted, Table};
use ei_spec::Handle;
use ei_spec::limits::FIRST_SERVER_ID;
use ei_wire::{Arg, ByteStream, FlushError, NoMemory, ParseError, ReadError, SendError};
use std::alloc::Global;
use std::marker::Model;

/// The objects and the buffers of one endpoint.
#[derive(Drop)]
pub struct Backend {
    alloc: Global,
    table: Table,
    incoming: Incoming,
    outgoing: Outgoing,
    closed: bool,
}

impl Model for Backend {
    ghost use Rattle.ei_backend.specs.Backend.{BackendView};
    ghost use Rattle.ei_backend.specs.Codes.{backend_code};

    ghost Value = { BackendView };

    ghost coded = { backend_code };

    ghost view = { λ b. record {
      table = b.table;
      unread = b.incoming.bytes;
      handles = b.incoming.handles;
      unsent = b.outgoing.waiting.bytes;
      unsent_handles =
          b.outgoing.waiting.handles;
      closed = b.closed;
      capacity = b.incoming.capacity;
      room = b.outgoing.room;
    } };
}

impl Backend {
    /// An open endpoint with object 0 and empty buffers. A client's own ids begin at 1, a server's at
    /// 0xff00000000000000.
    pub fn new(alloc: Global, client: bool) -> Result<Backend, NoMemory>
        ensures { IfOk result (λ b. b ≡ new_backend (new_table client (if client then 1 else first_server_id))) }
    {
        let next_id = if client { 1 } else { FIRST_SERVER_ID };
        Backend::with_next_id(alloc, client, next_id)
    }

    /// An open endpoint with object 0 and empty buffers, whose own ids begin at `next_id`: that of a client lies
    /// from 1 to 0xff00000000000000, that of a server from there to `u64::MAX`. At the last of them no own id
    /// is left.
    pub fn with_next_id(alloc: Global, client: bool, next_id: u64) -> Result<Backend, NoMemory>
        requires from { own_start client ≤ next_id }
        requires to { next_id ≤ own_limit client }
        ensures { IfOk result (λ b. b ≡ new_backend (new_table client next_id)) }
    {
        let table = Table::new(alloc, client, next_id)?;
        let incoming = Incoming::new(alloc)?;
        Ok(Backend {
            alloc,
            table,
            incoming,
            outgoing: Outgoing::new(alloc),
            closed: false,
        })
    }

    /// Takes one piece from the source, and puts it behind what is unread. It answers how many bytes came.
    ///
    /// `UnexpectedEof` on a closed endpoint, which doesn't ask the source, and at the source's end;
    /// `NoMemory` before the source is asked, and only where the ring has to grow; `ReadFault` where the
    /// source failed; `HandleLimit` exactly where more than 4096 handles would be unread: the piece is
    /// dropped and the endpoint closed.
    pub fn read<S: Source>(&mut self, source: &mut S) -> Result<usize, ReadError>
        ensures reads { Reads S.view S.later result self.old self.new source.old source.new }
    {
        if self.closed {
            return Err(ReadError::UnexpectedEof);
        }
        let answer = self.incoming.read(source);
        self.closed = is_limit(&answer);
        answer
    }

    /// Puts all that waits to be sent into the sink, all handles with the first bytes. After a refusal the
    /// rest waits, at least one byte: where all went out the answer is no fault.
    ///
    /// `WriteFault` where the sink failed, `NoMemory` where it wants memory. Where nothing waits the sink
    /// isn't asked.
    pub fn flush<K: Sink>(&mut self, sink: &mut K) -> Result<(), FlushError>
        ensures flushes { Flushes K.view K.later result (unsent_of self.old) (unsent_of self.new) sink.old sink.new }
        ensures kept { self.new ≡ with_unsent (unsent_of self.new) self.old }
    {
        self.outgoing.flush(sink)
    }

    /// The next message that is whole, taken out, if there is one.
    ///
    /// A message to no object and one that is refused are taken out too. An unlawful length takes nothing
    /// out. Where memory runs out, nothing changes; that is only where the message has a text or announces an
    /// object, or its target's interface isn't a known one.
    #[inline(always)]
    pub fn pending<T: MessageEnum>(&mut self) -> Result<Option<PendingRequestResult<T>>, NoMemory>
    where
        T: Drop,
        ensures ok { IfOk result (λ answer. Answers T.target T.code T.values answer self.new (next T.events self.old)) }
        ensures announced { IfOk result (λ answer. Brings T.announced answer self.old.table self.new.table) }
        ensures shorter { IfOk result (λ answer. Shortens self.old.unread self.new.unread answer) }
        ensures few_left { result ≡ Ok None → length self.new.unread < MOST_MESSAGE_BYTES }
        ensures err { OnErr result (self.new ≡ self.old) }
        ensures memory { OnErr result (front_wants T.events self.old.table (front self.old.unread) ≡ true) }
    {
        self.incoming.next(self.alloc, &mut self.table)
    }

    /// Makes room for so many more bytes and handles to be sent, and for so many own objects, as far as there are
    /// own ids: sends and new objects within it take no memory, where the names are known.
    ///
    /// `NoMemory`, and then there is no more room than before.
    pub fn reserve(&mut self, bytes: usize, handles: usize, objects: usize) -> Result<(), NoMemory>
        ensures ok { OnOk result (self.new ≡ with_room bytes handles objects self.old) }
        ensures err { OnErr result (self.new ≡ self.old) }
    {
        let room = self.table.room();
        self.table.reserve(objects)?;
        let reserved = self.outgoing.reserve(bytes, handles);
        if reserved.is_err() {
            self.table.cut_room(room);
        }
        reserved
    }

    /// Writes a message behind what waits to be sent, or nothing. The target need not be in the table.
    ///
    /// `MessageTooLong` exactly where the message would have more than 1048576 bytes, `NoMemory`.
    #[inline(always)]
    pub fn request(
        &mut self,
        object_id: u64,
        opcode: u32,
        args: &[Arg<'_>],
    ) -> Result<(), SendError>
        ensures ok { OnOk result (self.new ≡ sent self.old object_id opcode (map value_of_arg args.now)) }
        ensures long { IsErrOf result send_error.MessageTooLong ↔
            (MOST_MESSAGE_BYTES < size (message object_id opcode (map value_of_arg args.now))) }
        ensures not_exhausted { IsErrOf result send_error.IdsExhausted → ⊥ }
        ensures err { OnErr result (self.new ≡ self.old) }
        ensures room { HasRoomFor object_id opcode (map value_of_arg args.now) (unsent_of self.old) self.old.room →
            IsErrOf result send_error.NoMemory → ⊥ }
    {
        self.outgoing.send(object_id, opcode, args)
    }

    /// Writes a message that announces the next object of this end, and puts the object into the table, or
    /// does neither.
    ///
    /// In this order: `IdsExhausted` exactly where no own id is left, `MessageTooLong` exactly where the
    /// message would have more than 1048576 bytes, `NoMemory`.
    pub fn request_new(
        &mut self,
        object_id: u64,
        opcode: u32,
        args: &[Arg<'_>],
        interface: InterfaceName,
        version: u32,
    ) -> Result<Object, SendError>
        ensures ok { IfOk result (λ o. (o ≡ own self.old.table (interface_view interface) version)
            × (self.new ≡ sent_new self.old object_id opcode (map value_of_arg args.now)
            (interface_view interface) version)) }
        ensures exhausted { IsErrOf result send_error.IdsExhausted ↔
            (own_end self.old.table ≤ self.old.table.next_own) }
        ensures long { IsErrOf result send_error.MessageTooLong ↔ ((self.old.table.next_own < own_end self.old.table)
            × (MOST_MESSAGE_BYTES < size (message object_id opcode (map value_of_arg args.now)))) }
        ensures err { OnErr result (self.new ≡ self.old) }
        ensures room { HasRoomFor object_id opcode (map value_of_arg args.now) (unsent_of self.old) self.old.room
            → self.old.table.next_own < self.old.table.room → HasFixedName (interface_view interface) →
            IsErrOf result send_error.NoMemory → ⊥ }
    {
        if self.table.ids_left() == 0 {
            return Err(SendError::IdsExhausted);
        }
        let mark = self.outgoing.mark();
        self.outgoing.send(object_id, opcode, args)?;
        let object = self.table.new_object(interface, version);
        if object.is_err() {
            self.outgoing.cut_back(mark);
        }
        object
    }

    /// Makes the next object of this end.
    ///
    /// `IdsExhausted` exactly where no own id is left, `NoMemory`.
    pub fn new_object(
        &mut self,
        interface: InterfaceName,
        version: u32,
    ) -> Result<Object, SendError>
        ensures ok { IfOk result (λ o. (o ≡ own self.old.table (interface_view interface) version)
            × (self.new ≡ with_object self.old (interface_view interface) version)) }
        ensures exhausted { IsErrOf result send_error.IdsExhausted ↔
            (own_end self.old.table ≤ self.old.table.next_own) }
        ensures err { OnErr result (self.new ≡ self.old) }
        ensures not_long { IsErrOf result send_error.MessageTooLong → ⊥ }
        ensures room { self.old.table.next_own < self.old.table.room → HasFixedName (interface_view interface) →
            IsErrOf result send_error.NoMemory → ⊥ }
    {
        self.table.new_object(interface, version)
    }

    /// Puts an object that the peer announced into the table.
    ///
    /// `InvalidId` where the id is below the highest one seen plus one, or not the peer's to give.
    pub fn new_peer_object(&mut self, id: u64, interface: InterfaceName, version: u32) -> Accepted
        ensures read { Gives (λ o. (o, self.new.table)) result
            (accept self.old.table id (interface_view interface) version) }
        ensures announced { IfOk result (λ o. Announced (Some o) self.old.table self.new.table) }
        ensures kept { self.new ≡ record self.old { table = self.new.table } }
        ensures err { OnErr result (self.new ≡ self.old) }
    {
        self.table.new_peer_object(id, interface, version)
    }

    /// Takes the object of an id out of the table. An unknown id changes nothing.
    pub fn remove_id(&mut self, id: u64)
        ensures { self.new ≡ removed self.old id }
    {
        self.table.remove_id(id);
    }

    /// The object of an id.
    pub fn object_for_id(&self, id: u64) -> Option<&Object>
        ensures object { option_copied result ≡ found self.now.table id }
        ensures first { id ≡ 0 → IfSome result (λ o. o.now ≡ first_object self.now.table.client) }
    {
        self.table.object_for_id(id)
    }

    /// Whether the table has an object of the id.
    pub fn has_object_for_id(&self, id: u64) -> bool
        ensures { IsTrue result ↔ IsSome (found self.now.table id) }
    {
        self.table.object_for_id(id).is_some()
    }

    /// The id of the next object that this end makes.
    pub fn next_id(&self) -> u64
        ensures { result ≡ self.now.table.next_own }
    {
        self.table.next_id()
    }

    /// How many own ids are left.
    pub fn ids_left(&self) -> u64
        ensures { result ≡ own_end self.now.table - self.now.table.next_own }
    {
        self.table.ids_left()
    }

    /// How many bytes came and are not read yet.
    pub fn unread_len(&self) -> usize
        ensures { result ≡ length self.now.unread }
    {
        self.incoming.len()
    }

    /// How many handles came and are not read yet.
    pub fn unread_handles(&self) -> usize
        ensures { result ≡ length self.now.handles }
    {
        self.incoming.handle_count()
    }

    /// How many bytes may be unread before their ring grows: 131072 at first.
    pub fn ring_capacity(&self) -> usize
        ensures { result ≡ self.now.capacity }
    {
        self.incoming.capacity()
    }

    /// How many bytes wait to be sent.
    pub fn unsent_len(&self) -> usize
        ensures { result ≡ length self.now.unsent }
    {
        self.outgoing.bytes().len()
    }

    /// The bytes that wait to be sent.
    pub fn unsent(&self) -> &[u8]
        ensures { result.now ≡ self.now.unsent }
    {
        self.outgoing.bytes()
    }

    /// The handles that wait to be sent.
    pub fn unsent_handles(&self) -> &[Handle]
        ensures { result.now ≡ self.now.unsent_handles }
    {
        self.outgoing.handles()
    }

    /// Forgets what waits to be sent, which its caller took. Our own call.
    pub fn clear_unsent(&mut self)
        ensures { self.new ≡ with_unsent nothing self.old }
    {
        self.outgoing.cut_back((0, 0));
    }

    /// Whether the endpoint reads no more.
    pub fn is_closed(&self) -> bool
        ensures { result ≡ self.now.closed }
    {
        self.closed
    }

    /// Closes the endpoint: it reads no more pieces. What came stays.
    pub fn close(&mut self)
        ensures { self.new ≡ closed_of self.old }
    {
        self.closed = true;
    }
}

/// Whether reading closes the endpoint.
fn is_limit(answer: &Result<usize, ReadError>) -> bool
    ensures { IsTrue result ↔ IsErrOf answer.now read_error.HandleLimit }
{
    matches!(answer, Err(ReadError::HandleLimit))
}
