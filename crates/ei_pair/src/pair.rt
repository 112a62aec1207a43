//! Two endpoints with handshakers and converters.

ghost use Rattle.std.specs.Prelude.{reverse, ◌≡◌, ◌<◌, ◌≤◌, ◌↔◌, false, true, IfOk, OnOk, OnErr, IsErrOf, IsTrue};
ghost use Rattle.std.specs.Option.{option_copied, option_map};
ghost use Rattle.ei_types.specs.declared.error.Error.TheVariants as error;
ghost use Rattle.ei_wire.specs.declared.error.ReadError.TheVariants as read_error;
ghost use Rattle.ei_wire.specs.declared.error.SendError.TheVariants as send_error;
ghost use Rattle.ei_backend.specs.Lent.{LentClock};
ghost use Rattle.ei_linked.specs.declared.side.Side.TheVariants as of_side;
ghost use Rattle.ei_linked.specs.TwoEnds.{stored_of, other_side, Agrees, MayCall, flushed_world, DeliversAt};
ghost use Rattle.ei_linked.specs.TwoEnds.{HasSentFewHandles};
ghost use Rattle.ei_request.specs.Converter.{ConverterView as ServerConverter};
ghost use Rattle.ei_promises.specs.Pair.{converter_in, connection_in, maps_in, wanted, with_ends, IsNew, is_done};
ghost use Rattle.ei_promises.specs.Pair.{Serves};
ghost use Rattle.ei_promises.specs.Calling.{MeetsServer, DoesAt};
ghost use Rattle.ei_promises.specs.Stepping.{StepsServer, StepsClient};
ghost use Rattle.ei_promises.specs.Promises.{SettlesTheSame, CallsInTime, Completes, ShakesFreely, RefusesNone};
ghost use Rattle.ei_promises.specs.Promises.{TakesAll};
ghost use Rattle.ei_pair.specs.Done.{TellsDone, HasFirstIds};
ghost use Rattle.ei_pair.specs.Spent.{SpendsAtCall, SpendsAtStep};
ghost use Rattle.ei_pair.specs.Stepped.{IsKept};
ghost use Rattle.ei_pair.specs.Calls.{SendsAt, ComesExactly, LacksIdsAt, IsLongAt};
ghost use Rattle.ei_pair.specs.Asked.{MeetsClient, AsksAt, RefusesSync};
ghost use Rattle.ei_pair.specs.Lent.{first_event, without_event, first_request, without_request};

use crate::by_lists::{by_lists, calls_by_lists};
use crate::client_call::ClientCall;
use crate::parts::Parts;
use ei_backend::{Clock, Object};
use ei_event::{EiEvent, EiEventConverter};
use ei_handler::{Call, Handler};
use ei_handshake::Versions;
use ei_linked::{Got, Record, Side};
use ei_promises::{Made, ServerCall, laws};
use ei_request::{Connection, EisRequest};
use ei_types::{ContextType, Error};
use ei_values::Value;
use ei_wire::{NoMemory, ReadError, SendError};
use std::alloc::Global;
use std::marker::Model;

/// A client and a server over two links, from the first byte through both handshakes to both converters, with all that
/// each sent and took. The client's handlers are boxes of closures, unless its user names a type of its own.
///
/// A call that wrote or took messages may then find no memory to store them. It answers `NoMemory`, and the pair is
/// spent: its lists lack those messages, and no further call may be made that changes it.
#[derive(Drop)]
pub struct Pair<H = Handler> {
    parts: Parts<H>,
}

impl<H> Model for Pair<H> {
    ghost use Rattle.ei_promises.specs.Pair.{PairView};
    ghost use Rattle.ei_pair.specs.Parts.{pair_in, pair_code};
    ghost use Rattle.ei_pair.specs.Done.{IsConsistent};

    ghost Value = { PairView H };

    ghost coded = { pair_code H.code };

    ghost view = { λ p. pair_in p.parts };

    ghost invariant = { λ p. IsConsistent p.parts };
}

impl<H: Call> Pair<H> {
    /// A client of this name that is for this, and a server whose connection will bear the serial. The server has begun
    /// its handshake.
    pub fn new(
        alloc: Global,
        name: &str,
        context_type: ContextType,
        initial_serial: u32,
    ) -> Result<Pair<H>, NoMemory>
        ensures { IfOk result (λ p. IsNew name.now context_type initial_serial p) }
    {
        laws::resting::<H>();
        calls_by_lists::<H>();
        Ok(Pair {
            parts: Parts::new(alloc, name, context_type, initial_serial)?,
        })
    }

    /// What the side sent, the first first.
    pub fn sent(&self, side: Side) -> &[Record]
        ensures { reverse result.now ≡ (stored_of side self.now.ends).sent }
    {
        self.parts.ends.sent(side)
    }

    /// What the side took, the first first: one by one what the other sent, but for what is dropped. What a pair keeps at
    /// any time may be relied on.
    pub fn taken(&self, side: Side) -> &[Got]
        ensures taken { reverse result.now ≡ (stored_of side self.now.ends).taken }
        ensures agrees { Agrees side self.now.ends }
        ensures keeps { IsKept self.now }
    {
        self.parts.ends.taken(side)
    }

    /// Whether the side reads no more: more handles came than may be unread, or it is a server that ended the
    /// connection.
    pub fn is_closed(&self, side: Side) -> bool
        ensures { result ≡ (stored_of side self.now.ends).backend.closed }
    {
        self.parts.ends.is_closed(side)
    }

    /// Whether what the last call wrote or took isn't stored.
    pub fn is_spent(&self) -> bool
        ensures { result ≡ self.now.ends.spent }
    {
        self.parts.ends.spent
    }

    /// The client's context.
    pub fn client(&self) -> &ei_client::Context
        ensures { result.now ≡ self.now.ends.client.backend }
    {
        &self.parts.ends.client.context
    }

    /// The client's converter; `None` exactly until its handshake is done.
    pub fn converter(&self) -> Option<&EiEventConverter<H>>
        ensures lent { option_copied result ≡ converter_in self.now.client }
        ensures in_time { CallsInTime self.now }
    {
        laws::promises::<H>();
        self.parts.converter.as_ref()
    }

    /// The server's connection; `None` exactly until its handshake is done.
    pub fn handle(&self) -> Option<&Connection>
        ensures { option_copied result ≡ connection_in self.now.server }
    {
        self.parts.handle()
    }

    /// The interfaces that both ends have by the client's handshake and by the server's; `None` exactly until both are
    /// done.
    pub fn maps(&self) -> Option<(&Versions, &Versions)>
        ensures maps { option_map (λ m. (m.0.now, m.1.now)) result ≡ maps_in self.now }
        ensures same { SettlesTheSame self.now }
        ensures completes { Completes self.now }
        ensures told { TellsDone self.now }
    {
        laws::promises::<H>();
        self.parts.maps()
    }

    /// Whether each device was added to a seat that was alive, and each input went to an interface that a held device
    /// had.
    pub fn is_steady(&self) -> bool
        ensures { result ≡ self.now.steady }
    {
        self.parts.steady
    }

    /// Whether a step of the side has answered `NoMemory`.
    pub fn wanted_memory(&self, side: Side) -> bool
        ensures { result ≡ wanted side self.now }
    {
        match side {
            Side::Client => self.parts.client_wanted,
            Side::Server => self.parts.server_wanted,
        }
    }

    /// The oldest event that is queued at the client. `None` exactly where none is, or its handshake isn't done.
    pub fn next_event(&mut self) -> Option<EiEvent>
        ensures first { result ≡ first_event self.old.client }
        ensures rest { self.new ≡ record self.old { client = without_event self.old.client } }
    {
        calls_by_lists::<H>();
        self.parts.next_event()
    }

    /// The oldest request that is queued at the server. `None` exactly where none is, or its handshake isn't done.
    pub fn next_request(&mut self) -> Option<EisRequest>
        ensures first { result ≡ first_request self.old.server }
        ensures rest { self.new ≡ record self.old { server = without_request self.old.server } }
    {
        calls_by_lists::<H>();
        self.parts.next_request()
    }

    /// Puts all that waits at the side behind what lies before the other side, or does nothing.
    pub fn flush(&mut self, side: Side) -> Result<(), NoMemory>
        requires whole { self.old.ends.spent ≡ false }
        ensures ok { OnOk result (self.new ≡ with_ends (flushed_world side self.old.ends) self.old) }
        ensures err { OnErr result (self.new ≡ self.old) }
    {
        laws::resting::<H>();
        calls_by_lists::<H>();
        self.parts.flush(side)
    }

    /// Hands the first n bytes that wait, and the first 64 handles, or what there is, to the side. It answers how many
    /// bytes came: 0 exactly where none waits and the side isn't closed.
    ///
    /// It is refused as a delivery of `World` is.
    pub fn deliver(&mut self, side: Side, n: usize) -> Result<usize, ReadError>
        requires some { 0 < n }
        requires most { n ≤ 1536 }
        requires whole { self.old.ends.spent ≡ false }
        ensures delivers { DeliversAt side n result self.old.ends self.new.ends }
        ensures kept { self.new ≡ with_ends self.new.ends self.old }
        ensures few { HasSentFewHandles (other_side side) self.old.ends →
            IsErrOf result read_error.HandleLimit → ⊥ }
    {
        laws::resting::<H>();
        calls_by_lists::<H>();
        self.parts.deliver(side, n)
    }

    /// Hands the next message on that is whole at the side: to its handshaker, or to its converter once the handshake
    /// is done. It is stored before that, and what it sends is stored behind it. `false` exactly where no whole message
    /// waits.
    ///
    /// It is refused as the handshaker or the converter refuses the message, which is gone then. Before the handshake
    /// is done a message to no object is `Handshake(InvalidObject(id))`; afterwards it is taken off. `NoMemory` where
    /// memory is wanted.
    pub fn step<C: Clock>(&mut self, side: Side, clock: &mut C) -> Result<bool, Error>
        requires whole { self.old.ends.spent ≡ false }
        // by the side, where it isn't spent
        ensures server { side ≡ of_side.Server → self.new.ends.spent ≡ false → StepsServer self.old
            (C.view clock.old).left (C.view clock.new).left result self.new }
        ensures client { side ≡ of_side.Client → self.new.ends.spent ≡ false → StepsClient H.may_answer self.old
            (C.view clock.old).left (C.view clock.new).left result self.new }
        // where it is
        ensures spent { self.new.ends.spent ≡ true →
            IsErrOf result error.NoMemory × SpendsAtStep side self.old self.new }
        // what may be relied on
        ensures freely { ShakesFreely side self.old result }
        ensures refuses_none { side ≡ of_side.Client → RefusesNone self.old result }
        ensures all { TakesAll side self.old result }
        ensures begins { side ≡ of_side.Server → self.new.ends.spent ≡ false → HasFirstIds self.old self.new }
        ensures clock { LentClock C.later clock.old clock.new }
    {
        by_lists::<H>();
        match side {
            Side::Client => self.parts.step_client(clock),
            Side::Server => self.parts.step_server(clock),
        }
    }

    /// Whether the side may ask for the message of these values to the object, as an `Input` of the server and a `Call`
    /// of the client want it: it made or read the target at some time, or that is object 0; the row exists, and the
    /// values are of its kinds.
    pub fn may_call(&self, side: Side, target: &Object, opcode: u32, values: &[Value]) -> bool
        ensures { IsTrue result ↔ MayCall side self.now.ends target.now opcode values.now }
    {
        self.parts.ends.may_call(side, target, opcode, values)
    }

    /// Makes a call of the server, whose handshake is done. What it sends is stored.
    ///
    /// It is refused as the call that it names is, and changes nothing then but how much memory is ready.
    pub fn server_do(&mut self, call: ServerCall<'_>) -> Result<Made, SendError>
        requires whole { self.old.ends.spent ≡ false }
        requires done { is_done of_side.Server self.old ≡ true }
        requires may { (c : ServerConverter) → self.old.server ≡ Serves c → MeetsServer call self.old.ends c.handle }
        ensures does { self.new.ends.spent ≡ false → DoesAt self.old.server call.entry self.old result self.new }
        ensures sends { OnOk result (SendsAt self.old.server call.entry self.old self.new) }
        // when it is refused
        ensures exhausted { ComesExactly call.entry result send_error.IdsExhausted
            (LacksIdsAt self.old.server call.entry) }
        ensures long { ComesExactly call.entry result send_error.MessageTooLong
            (IsLongAt self.old.server call.entry) }
        // where what it sent isn't stored
        ensures memory { self.new.ends.spent ≡ true → IsErrOf result send_error.NoMemory }
        ensures spent { self.new.ends.spent ≡ true → SpendsAtCall self.old self.new }
    {
        calls_by_lists::<H>();
        self.parts.server_do(call)
    }

    /// Makes a call of the client, whose handshake is done, and answers the object that it announces. What it sends is
    /// stored.
    ///
    /// It is refused as the call that it names is, and changes nothing then.
    pub fn client_do(&mut self, call: ClientCall<'_, H>) -> Result<Option<Object>, SendError>
        requires whole { self.old.ends.spent ≡ false }
        requires done { is_done of_side.Client self.old ≡ true }
        requires may { MeetsClient call self.old.ends }
        ensures does { self.new.ends.spent ≡ false → AsksAt self.old.client call.entry self.old result self.new }
        // when a sync is refused
        ensures refuses { RefusesSync call.entry result self.old.ends.client.backend.table }
        // where what it sent isn't stored
        ensures memory { self.new.ends.spent ≡ true → IsErrOf result send_error.NoMemory }
        ensures spent { self.new.ends.spent ≡ true → SpendsAtCall self.old self.new }
    {
        calls_by_lists::<H>();
        self.parts.client_do(call)
    }
}
