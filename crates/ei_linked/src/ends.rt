//! Two ends over links.

ghost use Rattle.std.specs.Prelude.{reverse, ◌≡◌, ◌<◌, ◌≤◌, ◌⊎◌, None, Ok, false, true, IfOk, OnOk, OnErr, IsErrOf};
ghost use Rattle.ei_wire.specs.declared.error.ReadError.TheVariants as read_error;
ghost use Rattle.ei_backend.specs.Backend.{Answers, new_backend, next};
ghost use Rattle.ei_backend.specs.Table.{new_table, own_start};
ghost use Rattle.ei_client.specs.Event as event;
ghost use Rattle.ei_server.specs.Request as request;
ghost use Rattle.ei_linked.specs.declared.side.Side.TheVariants as side;
ghost use Rattle.ei_linked.specs.Asked.{AreNew};
ghost use Rattle.ei_linked.specs.Held.{Keeps};
ghost use Rattle.ei_linked.specs.Ends.{world_in, IsNewEnds};
ghost use Rattle.ei_linked.specs.TwoEnds.{IsWorld, stored_of, other_side, Agrees, MayAsk, asked_for, Calls, met_at};
ghost use Rattle.ei_linked.specs.TwoEnds.{flushed_world, DeliversAt, HasSentFewHandles, read_world, spent_world, AllDeliveredAt, HasTakenAll, NotRefused};

use crate::half::{Half, HalfError};
use crate::link::Link;
use crate::record::{Announced, Got, Record, Target};
use crate::side::Side;
use ei_backend::{HasBackend, Object, PendingRequestResult};
use ei_client::{Context, Event};
use ei_server::Request;
use ei_values::Value;
use ei_wire::{NoMemory, ReadError, SendError};
use std::alloc::Global;
use std::marker::Model;

/// A client and a server, with the bytes and handles that lie between them, and all that each sent and took. The server's
/// endpoint stands in what holds it.
///
/// Each call keeps what `IsWorld` says of the two. A call that took a message may then find no memory to store it: it
/// answers `NoMemory`, and they are spent.
#[derive(Drop)]
pub struct Ends<S: HasBackend> {
    pub alloc: Global,
    pub client: Half<Context>,
    pub server: Half<S>,
    pub to_client: Link,
    pub to_server: Link,
    pub spent: bool,
}

impl<S: HasBackend> Model for Ends<S> {
    ghost use Rattle.ei_linked.specs.Ends.{EndsView, ends_code};

    ghost Value = { EndsView S };

    ghost coded = { ends_code S.code };

    ghost view = { λ e. record {
      client = e.client;
      server = e.server;
      to_client = e.to_client;
      to_server = e.to_server;
      spent = e.spent;
    } };
}

impl<S: HasBackend> Ends<S> {
    /// Two new ends of these, with nothing between them.
    pub fn new(alloc: Global, client: Context, server: S) -> Ends<S>
        ensures { IsNewEnds client server result }
    {
        Ends {
            alloc,
            client: Half::new(alloc, client),
            server: Half::new(alloc, server),
            to_client: Link::new(alloc),
            to_server: Link::new(alloc),
            spent: false,
        }
    }

    /// What the side sent, the first first.
    pub fn sent(&self, side: Side) -> &[Record]
        ensures { reverse result.now ≡ (stored_of side (world_in S.seen self.now)).sent }
    {
        match side {
            Side::Client => self.client.sent(),
            Side::Server => self.server.sent(),
        }
    }

    /// What the side took, the first first.
    pub fn taken(&self, side: Side) -> &[Got]
        ensures { reverse result.now ≡ (stored_of side (world_in S.seen self.now)).taken }
    {
        match side {
            Side::Client => self.client.taken(),
            Side::Server => self.server.taken(),
        }
    }

    /// Whether the side reads no more.
    pub fn is_closed(&self, side: Side) -> bool
        ensures { result ≡ (stored_of side (world_in S.seen self.now)).backend.closed }
    {
        match side {
            Side::Client => self.client.is_closed(),
            Side::Server => self.server.is_closed(),
        }
    }

    /// The object of that id which the side made or read at some time, or object 0.
    pub fn met(&self, side: Side, id: u64) -> Option<Announced>
        ensures { AreNew result (met_at side (world_in S.seen self.now) id) }
    {
        match side {
            Side::Client => self.client.met(false, id),
            Side::Server => self.server.met(true, id),
        }
    }

    /// A side sends the message of these values to the object. It answers the object that the message announces.
    ///
    /// `IdsExhausted` exactly where the message needs an own id and none is left, `MessageTooLong` exactly where no id is lacking
    /// and the message would have more than 1048576 bytes; but `NoMemory` may come in place of any answer. A call that is
    /// refused changes nothing.
    pub fn call(
        &mut self,
        side: Side,
        target: Target,
        opcode: u32,
        values: &[Value],
    ) -> Result<Option<Object>, SendError>
        requires world { IsWorld (world_in S.seen self.old) }
        requires whole { self.old.spent ≡ false }
        requires may { MayAsk side (world_in S.seen self.old) target.id target.interface target.version opcode
            values.now }
        ensures calls { Calls side
            (asked_for side (world_in S.seen self.old) target.id target.interface target.version opcode values.now)
            result (world_in S.seen self.old) (world_in S.seen self.new) }
        ensures keeps { Keeps S.seen S.with_backend self.old.server self.new.server }
        ensures world { IsWorld (world_in S.seen self.new) }
    {
        match side {
            Side::Client => self.client.ask(self.alloc, false, target, opcode, values),
            Side::Server => self.server.ask(self.alloc, true, target, opcode, values),
        }
    }

    /// Puts all that waits at the side behind what lies before the other side, or does nothing.
    pub fn flush(&mut self, side: Side) -> Result<(), NoMemory>
        requires world { IsWorld (world_in S.seen self.old) }
        requires whole { self.old.spent ≡ false }
        ensures ok { OnOk result (world_in S.seen self.new ≡ flushed_world side (world_in S.seen self.old)) }
        ensures err { OnErr result (world_in S.seen self.new ≡ world_in S.seen self.old) }
        ensures keeps { Keeps S.seen S.with_backend self.old.server self.new.server }
        ensures world { IsWorld (world_in S.seen self.new) }
    {
        match side {
            Side::Client => self.client.flush(&mut self.to_server),
            Side::Server => self.server.flush(&mut self.to_client),
        }
    }

    /// Hands the first n bytes that wait, and the first 64 handles, or what there is, to the side. It answers how many bytes
    /// came: 0 exactly where none waits and the side isn't closed.
    ///
    /// `UnexpectedEof` exactly where the side is closed, and that is looked at first. `HandleLimit` exactly where it isn't and
    /// more than 4096 handles would be unread: the piece is lost, and the side is closed. But `NoMemory` may come in place of
    /// both at an open side, and changes nothing. `ReadFault` never comes.
    pub fn deliver(&mut self, side: Side, n: usize) -> Result<usize, ReadError>
        requires some { 0 < n }
        requires most { n ≤ 1536 }
        requires world { IsWorld (world_in S.seen self.old) }
        requires whole { self.old.spent ≡ false }
        ensures delivers { DeliversAt side n result (world_in S.seen self.old) (world_in S.seen self.new) }
        ensures few { HasSentFewHandles (other_side side) (world_in S.seen self.old) →
            IsErrOf result read_error.HandleLimit → ⊥ }
        ensures keeps { Keeps S.seen S.with_backend self.old.server self.new.server }
        ensures world { IsWorld (world_in S.seen self.new) }
    {
        match side {
            Side::Client => self.client.deliver(&mut self.to_client, n),
            Side::Server => self.server.deliver(&mut self.to_server, n),
        }
    }

    /// The client takes its next message, which is stored.
    ///
    /// `NoMemory` where memory is wanted: before a message was taken nothing is changed, behind that the two are spent.
    pub fn read_client(&mut self) -> Result<Option<PendingRequestResult<Event>>, NoMemory>
        requires world { IsWorld (world_in S.seen self.old) }
        requires whole { self.old.spent ≡ false }
        ensures ok { IfOk result (λ a. Answers event.target_of event.opcode_of event.values_of a self.new.client.context
            (next true self.old.client.context)) }
        ensures stores { OnOk result (world_in S.seen self.new ≡ read_world side.Client (world_in S.seen self.old)) }
        ensures never_refused { IfOk result NotRefused }
        ensures all { result ≡ Ok None → AllDeliveredAt side.Client (world_in S.seen self.old) →
            HasTakenAll side.Client (world_in S.seen self.old) }
        ensures err { OnErr result ((world_in S.seen self.new ≡ world_in S.seen self.old)
            ⊎ (world_in S.seen self.new ≡ spent_world side.Client (world_in S.seen self.old))) }
        ensures server { self.new.server ≡ self.old.server }
        ensures world { IsWorld (world_in S.seen self.new) }
    {
        match self.client.read::<Event>(self.alloc, true) {
            Ok(answer) => Ok(answer),
            Err(HalfError::NoMemory) => Err(NoMemory),
            Err(HalfError::Spent) => {
                self.spent = true;
                Err(NoMemory)
            }
        }
    }

    /// The server takes its next message, as the client does by `read_client`.
    pub fn read_server(&mut self) -> Result<Option<PendingRequestResult<Request>>, NoMemory>
        requires world { IsWorld (world_in S.seen self.old) }
        requires whole { self.old.spent ≡ false }
        ensures ok { IfOk result (λ a. Answers request.target_of request.opcode_of request.values_of a
            (S.seen self.new.server.context) (next false (S.seen self.old.server.context))) }
        ensures stores { OnOk result (world_in S.seen self.new ≡ read_world side.Server (world_in S.seen self.old)) }
        ensures never_refused { IfOk result NotRefused }
        ensures all { result ≡ Ok None → AllDeliveredAt side.Server (world_in S.seen self.old) →
            HasTakenAll side.Server (world_in S.seen self.old) }
        ensures err { OnErr result ((world_in S.seen self.new ≡ world_in S.seen self.old)
            ⊎ (world_in S.seen self.new ≡ spent_world side.Server (world_in S.seen self.old))) }
        ensures keeps { Keeps S.seen S.with_backend self.old.server self.new.server }
        ensures world { IsWorld (world_in S.seen self.new) }
    {
        match self.server.read::<Request>(self.alloc, false) {
            Ok(answer) => Ok(answer),
            Err(HalfError::NoMemory) => Err(NoMemory),
            Err(HalfError::Spent) => {
                self.spent = true;
                Err(NoMemory)
            }
        }
    }
}
