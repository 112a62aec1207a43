//! `ei_pointer_absolute`: the motion of a device to points of its regions.

ghost use Rattle.std.specs.Prelude.{codes, [], ◌∷◌};
ghost use Rattle.ei_server.specs.Words.{KnownInterface, Word, Sends};
ghost use Rattle.ei_server.specs.PointerAbsolute.{opcode_of, values_of, event};

use crate::prelude::*;

/// The motion of a device to points of its regions.
pub type PointerAbsolute = Proxy<kinds::PointerAbsolute>;

impl PointerAbsolute {
    /// Tells a receiver that the pointer moves to the point at x and y, in logical pixels.
    ///
    /// `NoMemory`: nothing is sent.
    pub fn motion_absolute(&self, ctx: &mut Context, x: RawFloat, y: RawFloat) -> Sent
        ensures sends { Sends (event (codes "motion_absolute")) self.now
            (Word x.0 ∷ Word y.0 ∷ []) ctx.old ctx.new result }
    {
        let args = [Arg::Float(x.0), Arg::Float(y.0)];
        self.object.request(ctx, 1, &args)
    }
}

/// What a client asks of the absolute motion.
#[derive(Debug, Drop)]
pub enum Request {
    /// It is done with the object.
    Release,
    /// The pointer moves to the point at x and y, in logical pixels.
    MotionAbsolute { x: RawFloat, y: RawFloat },
}

/// The rows, from which the macros of `rows.rt` write the bodies below.
macro_rules! rows {
    ($write:ident $with:tt) => {
        $write! { $with Request "pointer_absolute";
            0 => Release,
            1 => MotionAbsolute { x: Float, y: Float },
        }
    };
}

impl Message for Request {
    ghost code = { opcode_of };

    ghost values = { values_of };

    ghost KNOWN = { KnownInterface.PointerAbsolute };

    fn parse(opcode: u32, bytes: &mut ByteStream<'_>, objects: &mut Table) -> Parsed<Request> {
        rows!(read_row(opcode, bytes, objects))
    }

    #[inline(always)]
    fn parse_lawful(opcode: u32, bytes: &mut ByteStream<'_>) -> Option<Request> {
        rows!(read_lawful(opcode, bytes))
    }

    fn opcode(&self) -> u32 {
        rows!(opcode_of(self))
    }

    fn arguments(&self, alloc: Global) -> Result<Vec<Arg<'_>>, NoMemory> {
        rows!(list_row(self, alloc))
    }

    fn args(&self, alloc: Global) -> Result<Vec<Arg<'_>>, NoMemory> {
        rows!(show_row(self, alloc))
    }
}
