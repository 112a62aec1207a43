//! Two ends over links.

ghost use Rattle.std.specs.Prelude.{reverse, ◌≡◌, ◌<◌, ◌≤◌, ◌↔◌, ◌⊎◌, None, Ok, false, true, IfOk, OnOk, OnErr, IsErrOf, IsTrue};
ghost use Rattle.ei_wire.specs.declared.error.ReadError.TheVariants as read_error;
ghost use Rattle.ei_linked.specs.declared.side.Side.TheVariants as side;
ghost use Rattle.ei_linked.specs.TwoEnds.{stored_of, other_side, new_world, Agrees, MayAsk, MayCall, asked_for, Calls, CallsTo, met_at};
ghost use Rattle.ei_linked.specs.TwoEnds.{flushed_world, DeliversAt, HasSentFewHandles, read_world, spent_world, AllDeliveredAt, HasTakenAll, NotRefused};
ghost use Rattle.ei_linked.specs.Asked.{IsTarget};
ghost use Rattle.ei_world.specs.Received.{ReceivesAt, IsNeverRefused};

use crate::received::Received;
use ei_backend::Object;
use ei_linked::{Ends, Got, Record, Side, Target};
use ei_values::Value;
use ei_wire::{NoMemory, ReadError, SendError};
use std::alloc::Global;
use std::marker::Model;

/// A client and a server, with the bytes and handles that lie between them, and all that each sent and took.
///
/// What an end took is, message by message, what the other sent, in whatever order and pieces it came: `taken` says so.
///
/// A call that took a message may then find no memory to store it. It answers `NoMemory`, and the world is spent: its lists lack
/// that message, and no further call may be made that changes it.
#[derive(Drop)]
pub struct World {
    ends: Ends<ei_server::Context>,
}

impl Model for World {
    ghost use Rattle.std.specs.Coded.{codes};
    ghost use Rattle.ei_backend.specs.Codes.{backend_code};
    ghost use Rattle.ei_linked.specs.Ends.{world_in};
    ghost use Rattle.ei_linked.specs.TwoEnds.{WorldView, IsWorld};

    ghost Value = { WorldView };

    ghost coded = { Prim.hlevel (codes, backend_code) };

    ghost view = { λ w. world_in (λ b. b) w.ends };

    ghost invariant = { λ w. IsWorld (world_in (λ b. b) w.ends) };
}

impl World {
    /// Two new ends with nothing between them.
    pub fn new(alloc: Global) -> Result<World, NoMemory>
        ensures { IfOk result (λ w. w ≡ new_world) }
    {
        let client = ei_client::Context::new(alloc)?;
        let server = ei_server::Context::new(alloc)?;
        Ok(World {
            ends: Ends::new(alloc, client, server),
        })
    }

    /// What the side sent, the first first.
    pub fn sent(&self, side: Side) -> &[Record]
        ensures { reverse result.now ≡ (stored_of side self.now).sent }
    {
        self.ends.sent(side)
    }

    /// What the side took, the first first: one by one what the other sent, but for what is dropped.
    pub fn taken(&self, side: Side) -> &[Got]
        ensures taken { reverse result.now ≡ (stored_of side self.now).taken }
        ensures agrees { Agrees side self.now }
    {
        self.ends.taken(side)
    }

    /// Whether the side reads no more: more handles came than may be unread.
    pub fn is_closed(&self, side: Side) -> bool
        ensures { result ≡ (stored_of side self.now).backend.closed }
    {
        self.ends.is_closed(side)
    }

    /// Whether what the last call took isn't stored.
    pub fn is_spent(&self) -> bool
        ensures { result ≡ self.now.spent }
    {
        self.ends.spent
    }

    /// The client's context.
    pub fn client(&self) -> &ei_client::Context
        ensures { result.now ≡ self.now.client.backend }
    {
        &self.ends.client.context
    }

    /// The server's context.
    pub fn server(&self) -> &ei_server::Context
        ensures { result.now ≡ self.now.server.backend }
    {
        &self.ends.server.context
    }

    /// What names the object of that id, where the side met one of the protocol.
    pub(crate) fn target(&self, side: Side, id: u64) -> Option<Target>
        ensures { IsTarget result id (met_at side self.now id) }
    {
        self.ends.target(side, id)
    }

    /// Whether the side may make the call, as `client_call` and `server_call` want it: it made or read the target at some time,
    /// or that is object 0; the row exists, and the values are of its kinds.
    pub fn may_call(&self, side: Side, target: &Object, opcode: u32, values: &[Value]) -> bool
        ensures { IsTrue result ↔ MayCall side self.now target.now opcode values.now }
    {
        self.ends.may_call(side, target, opcode, values)
    }

    /// The client sends the message of these values to the object, by its row. It answers the object that the message
    /// announces; `None` exactly where the row has no new id.
    ///
    /// The target is one that the client made or read at some time, or object 0, be it alive or not. `New` stands in the place
    /// of a new id; an object whose interface the message names is asked for by `NewInterface`, for both.
    ///
    /// `IdsExhausted` exactly where the message needs an own id and none is left, `MessageTooLong` exactly where no id is lacking
    /// and the message would have more than 1048576 bytes; but `NoMemory` may come in place of any answer. A call that is
    /// refused changes nothing.
    pub fn client_call(
        &mut self,
        target: &Object,
        opcode: u32,
        values: &[Value],
    ) -> Result<Option<Object>, SendError>
        requires whole { self.old.spent ≡ false }
        requires may { MayCall side.Client self.old target.now opcode values.now }
        ensures { CallsTo side.Client target.now opcode values.now result self.old self.new }
    {
        self.call(Side::Client, Target::of(target), opcode, values)
    }

    /// The server sends a message, as the client does by `client_call`.
    pub fn server_call(
        &mut self,
        target: &Object,
        opcode: u32,
        values: &[Value],
    ) -> Result<Option<Object>, SendError>
        requires whole { self.old.spent ≡ false }
        requires may { MayCall side.Server self.old target.now opcode values.now }
        ensures { CallsTo side.Server target.now opcode values.now result self.old self.new }
    {
        self.call(Side::Server, Target::of(target), opcode, values)
    }

    /// A side sends the message of these values to the object.
    pub(crate) fn call(
        &mut self,
        side: Side,
        target: Target,
        opcode: u32,
        values: &[Value],
    ) -> Result<Option<Object>, SendError>
        requires whole { self.old.spent ≡ false }
        requires may { MayAsk side self.old target.id target.interface target.version opcode values.now }
        ensures { Calls side (asked_for side self.old target.id target.interface target.version opcode values.now)
            result self.old self.new }
    {
        self.ends.call(side, target, opcode, values)
    }

    /// Puts all that waits at the side behind what lies before the other side, or does nothing.
    pub fn flush(&mut self, side: Side) -> Result<(), NoMemory>
        requires whole { self.old.spent ≡ false }
        ensures ok { OnOk result (self.new ≡ flushed_world side self.old) }
        ensures err { OnErr result (self.new ≡ self.old) }
    {
        self.ends.flush(side)
    }

    /// Hands the first n bytes that wait, and the first 64 handles, or what there is, to the side. It answers how many bytes
    /// came: 0 exactly where none waits and the side isn't closed.
    ///
    /// `UnexpectedEof` exactly where the side is closed, and that is looked at first. `HandleLimit` exactly where it isn't and
    /// more than 4096 handles would be unread: the piece is lost, and the side is closed. But `NoMemory` may come in place of
    /// both at an open side, and changes nothing. `ReadFault` never comes.
    pub fn deliver(&mut self, side: Side, n: usize) -> Result<usize, ReadError>
        requires some { 0 < n }
        requires most { n ≤ 1536 }
        requires whole { self.old.spent ≡ false }
        ensures delivers { DeliversAt side n result self.old self.new }
        ensures few { HasSentFewHandles (other_side side) self.old → IsErrOf result read_error.HandleLimit → ⊥ }
    {
        self.ends.deliver(side, n)
    }

    /// The next message that is whole at the side, taken out and stored, or the id of a message to no object. `None` exactly
    /// where no whole message is unread there; where then nothing is on its way, the side has taken all that the other sent.
    ///
    /// No message is ever refused. `NoMemory` where memory is wanted: before a message was taken nothing is changed, behind
    /// that the world is spent.
    pub fn read(&mut self, side: Side) -> Result<Option<Received>, NoMemory>
        requires whole { self.old.spent ≡ false }
        ensures ok { IfOk result (λ answer. ReceivesAt side answer self.old self.new) }
        ensures stores { OnOk result (self.new ≡ read_world side self.old) }
        ensures never_refused { IfOk result IsNeverRefused }
        ensures all { result ≡ Ok None → AllDeliveredAt side self.old → HasTakenAll side self.old }
        ensures err { OnErr result ((self.new ≡ self.old) ⊎ (self.new ≡ spent_world side self.old)) }
    {
        match side {
            Side::Client => match self.ends.read_client()? {
                Some(answer) => Ok(Some(Received::Client(answer))),
                None => Ok(None),
            },
            Side::Server => match self.ends.read_server()? {
                Some(answer) => Ok(Some(Received::Server(answer))),
                None => Ok(None),
            },
        }
    }
}
