//! `ei_connection`: the connection, which stands until one end ends it.

ghost use Rattle.std.specs.Prelude.{codes, [], ◌∷◌};
ghost use Rattle.ei_client.specs.Words.{KnownInterface, Word, Long, Sends, SendsNew};
ghost use Rattle.ei_client.specs.Connection.{opcode_of, values_of, announced_of, request};

use crate::prelude::*;
use crate::{Callback, Pingpong, Seat};
use ei_types::DisconnectReason;

/// The connection.
pub type Connection = Proxy<kinds::Connection>;

impl Connection {
    /// Asks the server to answer once all that was asked before is done: announces a callback of that version,
    /// which the server answers by `done`.
    ///
    /// `IdsExhausted` exactly where no own id is left, `NoMemory`: nothing is sent, and there is no callback.
    pub fn sync(&self, ctx: &mut Context, version: u32) -> Result<Callback, SendError>
        ensures sends { SendsNew (λ p. p) (request (codes "sync")) self.now
            (Long ctx.old.table.next_own ∷ Word version ∷ []) ctx.old ctx.new result }
    {
        let args = [Arg::NewId(ctx.backend().next_id()), Arg::Uint32(version)];
        self.announce(ctx, 0, &args, version)
    }

    /// Ends the connection. The connection is gone then.
    ///
    /// `NoMemory`: nothing is sent, and the connection stays.
    pub fn disconnect(&self, ctx: &mut Context) -> Sent
        ensures sends { Sends (request (codes "disconnect")) self.now [] ctx.old ctx.new result }
    {
        self.send_last(ctx, 1, &[])
    }
}

/// What the server tells of the connection.
#[derive(Debug, Drop)]
pub enum Event {
    /// The server ends the connection: the last serial of the client, the reason, and a text for people, if
    /// there is one.
    Disconnected {
        last_serial: u32,
        reason: DisconnectReason,
        explanation: Option<EiText>,
    },
    /// There is a seat.
    Seat {
        seat: Seat,
    },
    /// A request was sent to an id that no object has. That may happen where the server took the object away
    /// just before.
    InvalidObject {
        last_serial: u32,
        invalid_id: u64,
    },
    /// The client is to answer the ping by `done`.
    Ping {
        ping: Pingpong,
    },
}

/// The rows, from which the macros of `rows.rt` write the bodies below.
macro_rules! rows {
    ($write:ident $with:tt) => {
        $write! { $with Event "connection";
            0 => Disconnected { last_serial: Uint32, reason: Enum, explanation: Nullable },
            1 => Seat { seat: new Seat },
            2 => InvalidObject { last_serial: Uint32, invalid_id: Uint64 },
            3 => Ping { ping: new Pingpong },
        }
    };
}

impl Message for Event {
    ghost code = { opcode_of };

    ghost values = { values_of };

    ghost announced = { announced_of };

    ghost KNOWN = { KnownInterface.Connection };

    fn parse(opcode: u32, bytes: &mut ByteStream<'_>, objects: &mut Table) -> Parsed<Event> {
        rows!(read_row(opcode, bytes, objects))
    }

    #[inline(always)]
    fn parse_lawful(opcode: u32, bytes: &mut ByteStream<'_>) -> Option<Event> {
        rows!(read_lawful(opcode, bytes))
    }

    fn opcode(&self) -> u32 {
        rows!(opcode_of(self))
    }

    fn arguments(&self, alloc: Global) -> Result<Vec<Arg<'_>>, NoMemory> {
        rows!(list_row(self, alloc))
    }

    fn args(&self, alloc: Global) -> Result<Vec<Arg<'_>>, NoMemory> {
        rows!(show_row(self, alloc))
    }
}
