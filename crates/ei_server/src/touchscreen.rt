//! `ei_touchscreen`: the touches on a device.

ghost use Rattle.std.specs.Prelude.{codes, [], ◌∷◌};
ghost use Rattle.ei_server.specs.Words.{KnownInterface, Word, Sends};
ghost use Rattle.ei_server.specs.Touchscreen.{opcode_of, values_of, event};

use crate::prelude::*;

/// The touches on a device.
pub type Touchscreen = Proxy<kinds::Touchscreen>;

impl Touchscreen {
    /// Tells a receiver that a touch begins at the point at x and y, in logical pixels. The id is its name until
    /// it ends.
    ///
    /// `NoMemory`: nothing is sent.
    pub fn down(&self, ctx: &mut Context, touchid: u32, x: RawFloat, y: RawFloat) -> Sent
        ensures sends { Sends (event (codes "down")) self.now
            (Word touchid ∷ Word x.0 ∷ Word y.0 ∷ []) ctx.old ctx.new result }
    {
        let args = [Arg::Uint32(touchid), Arg::Float(x.0), Arg::Float(y.0)];
        self.object.request(ctx, 1, &args)
    }

    /// Tells a receiver that a touch moves to the point at x and y, in logical pixels.
    ///
    /// `NoMemory`: nothing is sent.
    pub fn motion(&self, ctx: &mut Context, touchid: u32, x: RawFloat, y: RawFloat) -> Sent
        ensures sends { Sends (event (codes "motion")) self.now
            (Word touchid ∷ Word x.0 ∷ Word y.0 ∷ []) ctx.old ctx.new result }
    {
        let args = [Arg::Uint32(touchid), Arg::Float(x.0), Arg::Float(y.0)];
        self.object.request(ctx, 2, &args)
    }

    /// Tells a receiver that a touch ends.
    ///
    /// `NoMemory`: nothing is sent.
    pub fn up(&self, ctx: &mut Context, touchid: u32) -> Sent
        ensures sends { Sends (event (codes "up")) self.now (Word touchid ∷ []) ctx.old ctx.new result }
    {
        self.object.request(ctx, 3, &[Arg::Uint32(touchid)])
    }

    /// Tells a receiver that a touch ends and is not to count.
    ///
    /// `NoMemory`: nothing is sent.
    pub fn cancel(&self, ctx: &mut Context, touchid: u32) -> Sent
        ensures sends { Sends (event (codes "cancel")) self.now (Word touchid ∷ []) ctx.old ctx.new result }
    {
        self.object.request(ctx, 4, &[Arg::Uint32(touchid)])
    }
}

/// What a client asks of the touches.
#[derive(Debug, Drop)]
pub enum Request {
    /// It is done with the object.
    Release,
    /// A touch begins at the point at x and y, in logical pixels. The id is its name until it ends.
    Down {
        touchid: u32,
        x: RawFloat,
        y: RawFloat,
    },
    /// A touch moves to the point at x and y, in logical pixels.
    Motion {
        touchid: u32,
        x: RawFloat,
        y: RawFloat,
    },
    /// A touch ends.
    Up {
        touchid: u32,
    },
    /// A touch ends and is not to count.
    Cancel {
        touchid: u32,
    },
}

/// The rows, from which the macros of `rows.rt` write the bodies below.
macro_rules! rows {
    ($write:ident $with:tt) => {
        $write! { $with Request "touchscreen";
            0 => Release,
            1 => Down { touchid: Uint32, x: Float, y: Float },
            2 => Motion { touchid: Uint32, x: Float, y: Float },
            3 => Up { touchid: Uint32 },
            4 => Cancel { touchid: Uint32 },
        }
    };
}

impl Message for Request {
    ghost code = { opcode_of };

    ghost values = { values_of };

    ghost KNOWN = { KnownInterface.Touchscreen };

    fn parse(opcode: u32, bytes: &mut ByteStream<'_>, objects: &mut Table) -> Parsed<Request> {
        rows!(read_row(opcode, bytes, objects))
    }

    #[inline(always)]
    fn parse_lawful(opcode: u32, bytes: &mut ByteStream<'_>) -> Option<Request> {
        rows!(read_lawful(opcode, bytes))
    }

    fn opcode(&self) -> u32 {
        rows!(opcode_of(self))
    }

    fn arguments(&self, alloc: Global) -> Result<Vec<Arg<'_>>, NoMemory> {
        rows!(list_row(self, alloc))
    }

    fn args(&self, alloc: Global) -> Result<Vec<Arg<'_>>, NoMemory> {
        rows!(show_row(self, alloc))
    }
}
