//! `ei_handshake`: the object that is there from the first.

ghost use Rattle.std.specs.Prelude.{codes, [], ◌∷◌};
ghost use Rattle.ei_client.specs.Words.{KnownInterface, Word, Letters, Sends, SendsText, context_type_number};
ghost use Rattle.ei_client.specs.Handshake.{opcode_of, values_of, announced_of, request};

use crate::Connection;
use crate::prelude::*;
use ei_types::ContextType;

/// The handshake.
pub type Handshake = Proxy<kinds::Handshake>;

impl Handshake {
    /// Tells the server the version of the handshake that the client has: the first request of a session.
    ///
    /// `NoMemory`: nothing is sent.
    pub fn handshake_version(&self, ctx: &mut Context, version: u32) -> Sent
        ensures sends { Sends (request (codes "handshake_version")) self.now
            (Word version ∷ []) ctx.old ctx.new result }
    {
        self.object.request(ctx, 0, &[Arg::Uint32(version)])
    }

    /// Tells the server that the client has said all. The server answers by the connection.
    ///
    /// `NoMemory`: nothing is sent.
    pub fn finish(&self, ctx: &mut Context) -> Sent
        ensures sends { Sends (request (codes "finish")) self.now [] ctx.old ctx.new result }
    {
        self.object.request(ctx, 1, &[])
    }

    /// Tells the server what the client is for.
    ///
    /// `NoMemory`: nothing is sent.
    pub fn context_type(&self, ctx: &mut Context, context_type: ContextType) -> Sent
        ensures sends { Sends (request (codes "context_type")) self.now
            (Word (context_type_number context_type) ∷ []) ctx.old ctx.new result }
    {
        self.object.request(ctx, 2, &[context_type.as_arg()])
    }

    /// Tells the server the name of the client.
    ///
    /// `MessageTooLong` exactly where the message would have more than 1048576 bytes, `NoMemory`: nothing is
    /// sent.
    #[tactic(auto, using(ei_spec::proofs::Utf8::is_text))]
    pub fn name(&self, ctx: &mut Context, name: &str) -> Sent
        ensures sends { SendsText (request (codes "name")) self.now (Letters name.now ∷ []) ctx.old ctx.new result }
    {
        self.object.request(ctx, 3, &[Arg::String(Some(name))])
    }

    /// Tells the server the version of an interface that the client has. The name is the one on the wire.
    ///
    /// `MessageTooLong` exactly where the message would have more than 1048576 bytes, `NoMemory`: nothing is
    /// sent.
    #[tactic(auto, using(ei_spec::proofs::Utf8::is_text))]
    pub fn interface_version(&self, ctx: &mut Context, name: &str, version: u32) -> Sent
        ensures sends { SendsText (request (codes "interface_version")) self.now
            (Letters name.now ∷ Word version ∷ []) ctx.old ctx.new result }
    {
        let args = [Arg::String(Some(name)), Arg::Uint32(version)];
        self.object.request(ctx, 4, &args)
    }
}

/// What the server tells in the handshake.
#[derive(Debug, Drop)]
pub enum Event {
    /// The version of the handshake that the server has.
    HandshakeVersion { version: u32 },
    /// The version of an interface that both ends have.
    InterfaceVersion { name: EiText, version: u32 },
    /// The connection, with the serial that the server is at. The handshake is over.
    Connection { serial: u32, connection: Connection },
}

/// The rows, from which the macros of `rows.rt` write the bodies below.
macro_rules! rows {
    ($write:ident $with:tt) => {
        $write! { $with Event "handshake";
            0 => HandshakeVersion { version: Uint32 },
            1 => InterfaceVersion { name: Text, version: Uint32 },
            2 => Connection { serial: Uint32, connection: new Connection },
        }
    };
}

impl Message for Event {
    ghost code = { opcode_of };

    ghost values = { values_of };

    ghost announced = { announced_of };

    ghost KNOWN = { KnownInterface.Handshake };

    fn parse(opcode: u32, bytes: &mut ByteStream<'_>, objects: &mut Table) -> Parsed<Event> {
        rows!(read_row(opcode, bytes, objects))
    }

    #[inline(always)]
    fn parse_lawful(opcode: u32, bytes: &mut ByteStream<'_>) -> Option<Event> {
        rows!(read_lawful(opcode, bytes))
    }

    fn opcode(&self) -> u32 {
        rows!(opcode_of(self))
    }

    fn arguments(&self, alloc: Global) -> Result<Vec<Arg<'_>>, NoMemory> {
        rows!(list_row(self, alloc))
    }

    fn args(&self, alloc: Global) -> Result<Vec<Arg<'_>>, NoMemory> {
        rows!(show_row(self, alloc))
    }
}
