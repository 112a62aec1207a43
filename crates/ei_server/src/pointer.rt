//! `ei_pointer`: the relative motion of a device.

ghost use Rattle.std.specs.Prelude.{codes, [], ◌∷◌};
ghost use Rattle.ei_server.specs.Words.{KnownInterface, Word, Sends};
ghost use Rattle.ei_server.specs.Pointer.{opcode_of, values_of, event};

use crate::prelude::*;

/// The relative motion of a device.
pub type Pointer = Proxy<kinds::Pointer>;

impl Pointer {
    /// Tells a receiver that the pointer moves by x and y, in logical pixels.
    ///
    /// `NoMemory`: nothing is sent.
    pub fn motion_relative(&self, ctx: &mut Context, x: RawFloat, y: RawFloat) -> Sent
        ensures sends { Sends (event (codes "motion_relative")) self.now
            (Word x.0 ∷ Word y.0 ∷ []) ctx.old ctx.new result }
    {
        let args = [Arg::Float(x.0), Arg::Float(y.0)];
        self.object.request(ctx, 1, &args)
    }
}

/// What a client asks of the relative motion.
#[derive(Debug, Drop)]
pub enum Request {
    /// It is done with the object.
    Release,
    /// The pointer moves by x and y, in logical pixels.
    MotionRelative { x: RawFloat, y: RawFloat },
}

/// The rows, from which the macros of `rows.rt` write the bodies below.
macro_rules! rows {
    ($write:ident $with:tt) => {
        $write! { $with Request "pointer";
            0 => Release,
            1 => MotionRelative { x: Float, y: Float },
        }
    };
}

impl Message for Request {
    ghost code = { opcode_of };

    ghost values = { values_of };

    ghost KNOWN = { KnownInterface.Pointer };

    fn parse(opcode: u32, bytes: &mut ByteStream<'_>, objects: &mut Table) -> Parsed<Request> {
        rows!(read_row(opcode, bytes, objects))
    }

    #[inline(always)]
    fn parse_lawful(opcode: u32, bytes: &mut ByteStream<'_>) -> Option<Request> {
        rows!(read_lawful(opcode, bytes))
    }

    fn opcode(&self) -> u32 {
        rows!(opcode_of(self))
    }

    fn arguments(&self, alloc: Global) -> Result<Vec<Arg<'_>>, NoMemory> {
        rows!(list_row(self, alloc))
    }

    fn args(&self, alloc: Global) -> Result<Vec<Arg<'_>>, NoMemory> {
        rows!(show_row(self, alloc))
    }
}
