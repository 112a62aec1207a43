//! `ei_handshake`: the object that is there from the first.

ghost use Rattle.std.specs.Prelude.{codes, [], ◌∷◌};
ghost use Rattle.ei_server.specs.Words.{KnownInterface, Word, Long, Letters, Sends, SendsText, SendsNew};
ghost use Rattle.ei_server.specs.Handshake.{opcode_of, values_of, event};

use crate::connection::Connection;
use crate::prelude::*;
use ei_types::ContextType;

/// The handshake.
pub type Handshake = Proxy<kinds::Handshake>;

impl Handshake {
    /// Tells the client the version of the handshake: the first event of a session.
    ///
    /// `NoMemory`: nothing is sent.
    pub fn handshake_version(&self, ctx: &mut Context, version: u32) -> Sent
        ensures sends { Sends (event (codes "handshake_version")) self.now (Word version ∷ []) ctx.old ctx.new result }
    {
        self.object.request(ctx, 0, &[Arg::Uint32(version)])
    }

    /// Tells the client the version of an interface that both ends have. The name is the one on the wire.
    ///
    /// `MessageTooLong` exactly where the message would have more than 1048576 bytes, `NoMemory`: nothing is
    /// sent.
    #[tactic(auto, using(ei_spec::proofs::Utf8::is_text))]
    pub fn interface_version(&self, ctx: &mut Context, name: &str, version: u32) -> Sent
        ensures sends { SendsText (event (codes "interface_version")) self.now
            (Letters name.now ∷ Word version ∷ []) ctx.old ctx.new result }
    {
        let args = [Arg::String(Some(name)), Arg::Uint32(version)];
        self.object.request(ctx, 1, &args)
    }

    /// Hands the connection over, a new object of that version, with the serial that the server is at. The
    /// handshake is gone then.
    ///
    /// `IdsExhausted` exactly where no own id is left, `NoMemory`: nothing is sent, and the handshake stays.
    pub fn connection(
        &self,
        ctx: &mut Context,
        serial: u32,
        version: u32,
    ) -> Result<Connection, SendError>
        ensures sends { SendsNew (λ p. p) (event (codes "connection")) self.now
            (Word serial ∷ Long ctx.old.table.next_own ∷ Word version ∷ []) ctx.old ctx.new result }
    {
        let args = [
            Arg::Uint32(serial),
            Arg::NewId(ctx.backend().next_id()),
            Arg::Uint32(version),
        ];
        let proxy = self.announce(ctx, 2, &args, version)?;
        ctx.backend_mut().remove_id(self.object.id());
        Ok(proxy)
    }
}

/// What a client asks of the handshake.
#[derive(Debug, Drop)]
pub enum Request {
    /// The version of the handshake that the client has.
    HandshakeVersion { version: u32 },
    /// The client has said all.
    Finish,
    /// What the client is for.
    ContextType { context_type: ContextType },
    /// The name of the client.
    Name { name: EiText },
    /// The version of an interface that the client has.
    InterfaceVersion { name: EiText, version: u32 },
}

/// The rows, from which the macros of `rows.rt` write the bodies below.
macro_rules! rows {
    ($write:ident $with:tt) => {
        $write! { $with Request "handshake";
            0 => HandshakeVersion { version: Uint32 },
            1 => Finish,
            2 => ContextType { context_type: Enum },
            3 => Name { name: Text },
            4 => InterfaceVersion { name: Text, version: Uint32 },
        }
    };
}

impl Message for Request {
    ghost code = { opcode_of };

    ghost values = { values_of };

    ghost KNOWN = { KnownInterface.Handshake };

    fn parse(opcode: u32, bytes: &mut ByteStream<'_>, objects: &mut Table) -> Parsed<Request> {
        rows!(read_row(opcode, bytes, objects))
    }

    #[inline(always)]
    fn parse_lawful(opcode: u32, bytes: &mut ByteStream<'_>) -> Option<Request> {
        rows!(read_lawful(opcode, bytes))
    }

    fn opcode(&self) -> u32 {
        rows!(opcode_of(self))
    }

    fn arguments(&self, alloc: Global) -> Result<Vec<Arg<'_>>, NoMemory> {
        rows!(list_row(self, alloc))
    }

    fn args(&self, alloc: Global) -> Result<Vec<Arg<'_>>, NoMemory> {
        rows!(show_row(self, alloc))
    }
}
