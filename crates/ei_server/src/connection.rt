//! `ei_connection`: the connection, which stands until one end ends it.

ghost use Rattle.std.specs.Prelude.{◌≡◌, codes, [], ◌∷◌};
ghost use Rattle.std.specs.Option.{option_copied};
ghost use Rattle.ei_spec.specs.Value.{IsOf, Nullable};
ghost use Rattle.ei_spec.specs.Reading.{or_null};
ghost use Rattle.ei_wire.specs.Gives.{value_of_arg};
ghost use Rattle.ei_server.specs.Words.{KnownInterface, Word, Long, Sends, SendsText, SendsNew, disconnect_reason_number};
ghost use Rattle.ei_server.specs.Connection.{opcode_of, values_of, announced_of, event};

use crate::callback::Callback;
use crate::pingpong::Pingpong;
use crate::prelude::*;
use crate::seat::Seat;
use ei_types::DisconnectReason;

/// The connection.
pub type Connection = Proxy<kinds::Connection>;

impl Connection {
    /// Ends the connection and says why: the last serial of the client, the reason, and a text for people, if
    /// there is one. The connection is gone then.
    ///
    /// `MessageTooLong` exactly where the message would have more than 1048576 bytes, `NoMemory`: nothing is
    /// sent, and the connection stays.
    pub fn disconnected(
        &self,
        ctx: &mut Context,
        last_serial: u32,
        reason: DisconnectReason,
        explanation: Option<&str>,
    ) -> Sent
        ensures sends { SendsText (event (codes "disconnected")) self.now
            (Word last_serial ∷ Word (disconnect_reason_number reason) ∷ or_null (option_copied explanation.entry) ∷ [])
            ctx.old ctx.new result }
    {
        let args = [
            Arg::Uint32(last_serial),
            reason.as_arg(),
            text_or_null(explanation),
        ];
        self.send_last(ctx, 0, &args)
    }

    /// Announces a seat of that version.
    ///
    /// `IdsExhausted` exactly where no own id is left, `NoMemory`: nothing is sent, and there is no seat.
    pub fn seat(&self, ctx: &mut Context, version: u32) -> Result<Seat, SendError>
        ensures sends { SendsNew (λ p. p) (event (codes "seat")) self.now
            (Long ctx.old.table.next_own ∷ Word version ∷ []) ctx.old ctx.new result }
    {
        let args = [Arg::NewId(ctx.backend().next_id()), Arg::Uint32(version)];
        self.announce(ctx, 1, &args, version)
    }

    /// Tells the client that a request was sent to an id that no object has, with the last serial of the
    /// client. That may happen where the server took the object away just before.
    ///
    /// `NoMemory`: nothing is sent.
    pub fn invalid_object(&self, ctx: &mut Context, last_serial: u32, invalid_id: u64) -> Sent
        ensures sends { Sends (event (codes "invalid_object")) self.now
            (Word last_serial ∷ Long invalid_id ∷ []) ctx.old ctx.new result }
    {
        let args = [Arg::Uint32(last_serial), Arg::Uint64(invalid_id)];
        self.object.request(ctx, 2, &args)
    }

    /// Asks the client to answer: announces a ping of that version, which the client answers by `done`.
    ///
    /// `IdsExhausted` exactly where no own id is left, `NoMemory`: nothing is sent, and there is no ping.
    pub fn ping(&self, ctx: &mut Context, version: u32) -> Result<Pingpong, SendError>
        ensures sends { SendsNew (λ p. p) (event (codes "ping")) self.now
            (Long ctx.old.table.next_own ∷ Word version ∷ []) ctx.old ctx.new result }
    {
        let args = [Arg::NewId(ctx.backend().next_id()), Arg::Uint32(version)];
        self.announce(ctx, 3, &args, version)
    }
}

/// A text as an argument, or null.
#[tactic(auto, using(ei_spec::proofs::Utf8::is_text))]
fn text_or_null(text: Option<&str>) -> Arg<'_>
    ensures value { value_of_arg result ≡ or_null (option_copied text.entry) }
    ensures kind { IsOf Nullable (or_null (option_copied text.entry)) }
{
    match text {
        None => Arg::String(None),
        Some(text) => Arg::String(Some(text)),
    }
}

/// What a client asks of the connection.
#[derive(Debug, Drop)]
pub enum Request {
    /// The callback is to be answered once all that was asked before is done.
    Sync { callback: Callback },
    /// The client ends the connection.
    Disconnect,
}

/// The rows, from which the macros of `rows.rt` write the bodies below.
macro_rules! rows {
    ($write:ident $with:tt) => {
        $write! { $with Request "connection";
            0 => Sync { callback: new Callback },
            1 => Disconnect,
        }
    };
}

impl Message for Request {
    ghost code = { opcode_of };

    ghost values = { values_of };

    ghost announced = { announced_of };

    ghost KNOWN = { KnownInterface.Connection };

    fn parse(opcode: u32, bytes: &mut ByteStream<'_>, objects: &mut Table) -> Parsed<Request> {
        rows!(read_row(opcode, bytes, objects))
    }

    #[inline(always)]
    fn parse_lawful(opcode: u32, bytes: &mut ByteStream<'_>) -> Option<Request> {
        rows!(read_lawful(opcode, bytes))
    }

    fn opcode(&self) -> u32 {
        rows!(opcode_of(self))
    }

    fn arguments(&self, alloc: Global) -> Result<Vec<Arg<'_>>, NoMemory> {
        rows!(list_row(self, alloc))
    }

    fn args(&self, alloc: Global) -> Result<Vec<Arg<'_>>, NoMemory> {
        rows!(show_row(self, alloc))
    }
}
