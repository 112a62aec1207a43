//! `ei_seat`: a seat, which offers capabilities.

ghost use Rattle.std.specs.Prelude.{codes, [], ◌∷◌};
ghost use Rattle.ei_server.specs.Words.{KnownInterface, Word, Long, Letters, Sends, SendsText, SendsNew};
ghost use Rattle.ei_server.specs.Seat.{opcode_of, values_of, event};

use crate::device::Device;
use crate::prelude::*;

/// A seat.
pub type Seat = Proxy<kinds::Seat>;

impl Seat {
    /// Names the seat.
    ///
    /// `MessageTooLong` exactly where the message would have more than 1048576 bytes, `NoMemory`: nothing is
    /// sent.
    #[tactic(auto, using(ei_spec::proofs::Utf8::is_text))]
    pub fn name(&self, ctx: &mut Context, name: &str) -> Sent
        ensures sends { SendsText (event (codes "name")) self.now (Letters name.now ∷ []) ctx.old ctx.new result }
    {
        self.object.request(ctx, 1, &[Arg::String(Some(name))])
    }

    /// Offers the interface of that name under a mask, by which the client binds it.
    ///
    /// `MessageTooLong` exactly where the message would have more than 1048576 bytes, `NoMemory`: nothing is
    /// sent.
    #[tactic(auto, using(ei_spec::proofs::Utf8::is_text))]
    pub fn capability(&self, ctx: &mut Context, mask: u64, interface: &str) -> Sent
        ensures sends { SendsText (event (codes "capability")) self.now
            (Long mask ∷ Letters interface.now ∷ []) ctx.old ctx.new result }
    {
        let args = [Arg::Uint64(mask), Arg::String(Some(interface))];
        self.object.request(ctx, 2, &args)
    }

    /// Ends the description of the seat.
    ///
    /// `NoMemory`: nothing is sent.
    pub fn done(&self, ctx: &mut Context) -> Sent
        ensures sends { Sends (event (codes "done")) self.now [] ctx.old ctx.new result }
    {
        self.object.request(ctx, 3, &[])
    }

    /// Announces a device of that version.
    ///
    /// `IdsExhausted` exactly where no own id is left, `NoMemory`: nothing is sent, and there is no device.
    pub fn device(&self, ctx: &mut Context, version: u32) -> Result<Device, SendError>
        ensures sends { SendsNew (λ p. p) (event (codes "device")) self.now
            (Long ctx.old.table.next_own ∷ Word version ∷ []) ctx.old ctx.new result }
    {
        let args = [Arg::NewId(ctx.backend().next_id()), Arg::Uint32(version)];
        self.announce(ctx, 4, &args, version)
    }
}

/// What a client asks of a seat.
#[derive(Debug, Drop)]
pub enum Request {
    /// The client wants the seat no more.
    Release,
    /// The client wants devices of these capabilities: a mask of those that the seat offered.
    Bind { capabilities: u64 },
    /// The client asks for one more device of these capabilities.
    RequestDevice { capabilities: u64 },
}

/// The rows, from which the macros of `rows.rt` write the bodies below.
macro_rules! rows {
    ($write:ident $with:tt) => {
        $write! { $with Request "seat";
            0 => Release,
            1 => Bind { capabilities: Uint64 },
            2 => RequestDevice { capabilities: Uint64 },
        }
    };
}

impl Message for Request {
    ghost code = { opcode_of };

    ghost values = { values_of };

    ghost KNOWN = { KnownInterface.Seat };

    fn parse(opcode: u32, bytes: &mut ByteStream<'_>, objects: &mut Table) -> Parsed<Request> {
        rows!(read_row(opcode, bytes, objects))
    }

    #[inline(always)]
    fn parse_lawful(opcode: u32, bytes: &mut ByteStream<'_>) -> Option<Request> {
        rows!(read_lawful(opcode, bytes))
    }

    fn opcode(&self) -> u32 {
        rows!(opcode_of(self))
    }

    fn arguments(&self, alloc: Global) -> Result<Vec<Arg<'_>>, NoMemory> {
        rows!(list_row(self, alloc))
    }

    fn args(&self, alloc: Global) -> Result<Vec<Arg<'_>>, NoMemory> {
        rows!(show_row(self, alloc))
    }
}
