//! `ei_pointer_absolute`: the motion of a device to points of its regions.

ghost use Rattle.std.specs.Prelude.{codes, [], ◌∷◌};
ghost use Rattle.ei_client.specs.Words.{KnownInterface, Word, Sends};
ghost use Rattle.ei_client.specs.PointerAbsolute.{opcode_of, values_of, request};

use crate::prelude::*;

/// The motion of a device to points of its regions.
pub type PointerAbsolute = Proxy<kinds::PointerAbsolute>;

impl PointerAbsolute {
    /// Tells the server that the pointer moves to the point at x and y, in logical pixels.
    ///
    /// `NoMemory`: nothing is sent.
    pub fn motion_absolute(&self, ctx: &mut Context, x: RawFloat, y: RawFloat) -> Sent
        ensures sends { Sends (request (codes "motion_absolute")) self.now
            (Word x.0 ∷ Word y.0 ∷ []) ctx.old ctx.new result }
    {
        let args = [Arg::Float(x.0), Arg::Float(y.0)];
        self.object.request(ctx, 1, &args)
    }
}

/// What the server tells of the motion to points.
#[derive(Debug, Drop)]
pub enum Event {
    /// The object is gone, as the event of this serial.
    Destroyed { serial: u32 },
    /// The pointer moves to the point at x and y, in logical pixels.
    MotionAbsolute { x: RawFloat, y: RawFloat },
}

/// The rows, from which the macros of `rows.rt` write the bodies below.
macro_rules! rows {
    ($write:ident $with:tt) => {
        $write! { $with Event "pointer_absolute";
            0 => Destroyed { serial: Uint32 },
            1 => MotionAbsolute { x: Float, y: Float },
        }
    };
}

impl Message for Event {
    ghost code = { opcode_of };

    ghost values = { values_of };

    ghost KNOWN = { KnownInterface.PointerAbsolute };

    fn parse(opcode: u32, bytes: &mut ByteStream<'_>, objects: &mut Table) -> Parsed<Event> {
        rows!(read_row(opcode, bytes, objects))
    }

    #[inline(always)]
    fn parse_lawful(opcode: u32, bytes: &mut ByteStream<'_>) -> Option<Event> {
        rows!(read_lawful(opcode, bytes))
    }

    fn opcode(&self) -> u32 {
        rows!(opcode_of(self))
    }

    fn arguments(&self, alloc: Global) -> Result<Vec<Arg<'_>>, NoMemory> {
        rows!(list_row(self, alloc))
    }

    fn args(&self, alloc: Global) -> Result<Vec<Arg<'_>>, NoMemory> {
        rows!(show_row(self, alloc))
    }
}
