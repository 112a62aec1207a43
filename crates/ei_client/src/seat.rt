//! `ei_seat`: a seat, which offers capabilities.

ghost use Rattle.std.specs.Prelude.{codes, [], ◌∷◌};
ghost use Rattle.ei_client.specs.Words.{KnownInterface, Long, Sends};
ghost use Rattle.ei_client.specs.Seat.{opcode_of, values_of, announced_of, request};

use crate::Device;
use crate::prelude::*;

/// A seat.
pub type Seat = Proxy<kinds::Seat>;

impl Seat {
    /// Asks for devices of these capabilities: a mask of those that the seat offered.
    ///
    /// `NoMemory`: nothing is sent.
    pub fn bind(&self, ctx: &mut Context, capabilities: u64) -> Sent
        ensures sends { Sends (request (codes "bind")) self.now (Long capabilities ∷ []) ctx.old ctx.new result }
    {
        self.object.request(ctx, 1, &[Arg::Uint64(capabilities)])
    }

    /// Asks for one more device of these capabilities.
    ///
    /// `NoMemory`: nothing is sent.
    pub fn request_device(&self, ctx: &mut Context, capabilities: u64) -> Sent
        ensures sends { Sends (request (codes "request_device")) self.now
            (Long capabilities ∷ []) ctx.old ctx.new result }
    {
        self.object.request(ctx, 2, &[Arg::Uint64(capabilities)])
    }
}

/// What the server tells of a seat.
#[derive(Debug, Drop)]
pub enum Event {
    /// The seat is gone, as the event of this serial.
    Destroyed { serial: u32 },
    /// The name of the seat.
    Name { name: EiText },
    /// The seat offers the interface of that name under a mask, by which the client binds it.
    Capability { mask: u64, interface: EiText },
    /// The description of the seat ends.
    Done,
    /// The seat has a device.
    Device { device: Device },
}

/// The rows, from which the macros of `rows.rt` write the bodies below.
macro_rules! rows {
    ($write:ident $with:tt) => {
        $write! { $with Event "seat";
            0 => Destroyed { serial: Uint32 },
            1 => Name { name: Text },
            2 => Capability { mask: Uint64, interface: Text },
            3 => Done,
            4 => Device { device: new Device },
        }
    };
}

impl Message for Event {
    ghost code = { opcode_of };

    ghost values = { values_of };

    ghost announced = { announced_of };

    ghost KNOWN = { KnownInterface.Seat };

    fn parse(opcode: u32, bytes: &mut ByteStream<'_>, objects: &mut Table) -> Parsed<Event> {
        rows!(read_row(opcode, bytes, objects))
    }

    #[inline(always)]
    fn parse_lawful(opcode: u32, bytes: &mut ByteStream<'_>) -> Option<Event> {
        rows!(read_lawful(opcode, bytes))
    }

    fn opcode(&self) -> u32 {
        rows!(opcode_of(self))
    }

    fn arguments(&self, alloc: Global) -> Result<Vec<Arg<'_>>, NoMemory> {
        rows!(list_row(self, alloc))
    }

    fn args(&self, alloc: Global) -> Result<Vec<Arg<'_>>, NoMemory> {
        rows!(show_row(self, alloc))
    }
}
