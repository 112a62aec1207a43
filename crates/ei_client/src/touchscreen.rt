//! `ei_touchscreen`: the touches on a device.

ghost use Rattle.std.specs.Prelude.{codes, [], ◌∷◌};
ghost use Rattle.ei_client.specs.Words.{KnownInterface, Word, Sends};
ghost use Rattle.ei_client.specs.Touchscreen.{opcode_of, values_of, request};

use crate::prelude::*;

/// The touches on a device.
pub type Touchscreen = Proxy<kinds::Touchscreen>;

impl Touchscreen {
    /// Tells the server that a touch begins at the point at x and y, in logical pixels. The id is its name
    /// until it ends.
    ///
    /// `NoMemory`: nothing is sent.
    pub fn down(&self, ctx: &mut Context, touchid: u32, x: RawFloat, y: RawFloat) -> Sent
        ensures sends { Sends (request (codes "down")) self.now
            (Word touchid ∷ Word x.0 ∷ Word y.0 ∷ []) ctx.old ctx.new result }
    {
        let args = [Arg::Uint32(touchid), Arg::Float(x.0), Arg::Float(y.0)];
        self.object.request(ctx, 1, &args)
    }

    /// Tells the server that a touch moves to the point at x and y, in logical pixels.
    ///
    /// `NoMemory`: nothing is sent.
    pub fn motion(&self, ctx: &mut Context, touchid: u32, x: RawFloat, y: RawFloat) -> Sent
        ensures sends { Sends (request (codes "motion")) self.now
            (Word touchid ∷ Word x.0 ∷ Word y.0 ∷ []) ctx.old ctx.new result }
    {
        let args = [Arg::Uint32(touchid), Arg::Float(x.0), Arg::Float(y.0)];
        self.object.request(ctx, 2, &args)
    }

    /// Tells the server that a touch ends.
    ///
    /// `NoMemory`: nothing is sent.
    pub fn up(&self, ctx: &mut Context, touchid: u32) -> Sent
        ensures sends { Sends (request (codes "up")) self.now (Word touchid ∷ []) ctx.old ctx.new result }
    {
        self.object.request(ctx, 3, &[Arg::Uint32(touchid)])
    }

    /// Tells the server that a touch ends and is not to count.
    ///
    /// `NoMemory`: nothing is sent.
    pub fn cancel(&self, ctx: &mut Context, touchid: u32) -> Sent
        ensures sends { Sends (request (codes "cancel")) self.now (Word touchid ∷ []) ctx.old ctx.new result }
    {
        self.object.request(ctx, 4, &[Arg::Uint32(touchid)])
    }
}

/// What the server tells of the touches.
#[derive(Debug, Drop)]
pub enum Event {
    /// The object is gone, as the event of this serial.
    Destroyed {
        serial: u32,
    },
    /// A touch begins at the point at x and y, in logical pixels. The id is its name until it ends.
    Down {
        touchid: u32,
        x: RawFloat,
        y: RawFloat,
    },
    /// A touch moves to the point at x and y, in logical pixels.
    Motion {
        touchid: u32,
        x: RawFloat,
        y: RawFloat,
    },
    /// A touch ends.
    Up {
        touchid: u32,
    },
    /// A touch ends and is not to count.
    Cancel {
        touchid: u32,
    },
}

/// The rows, from which the macros of `rows.rt` write the bodies below.
macro_rules! rows {
    ($write:ident $with:tt) => {
        $write! { $with Event "touchscreen";
            0 => Destroyed { serial: Uint32 },
            1 => Down { touchid: Uint32, x: Float, y: Float },
            2 => Motion { touchid: Uint32, x: Float, y: Float },
            3 => Up { touchid: Uint32 },
            4 => Cancel { touchid: Uint32 },
        }
    };
}

impl Message for Event {
    ghost code = { opcode_of };

    ghost values = { values_of };

    ghost KNOWN = { KnownInterface.Touchscreen };

    fn parse(opcode: u32, bytes: &mut ByteStream<'_>, objects: &mut Table) -> Parsed<Event> {
        rows!(read_row(opcode, bytes, objects))
    }

    #[inline(always)]
    fn parse_lawful(opcode: u32, bytes: &mut ByteStream<'_>) -> Option<Event> {
        rows!(read_lawful(opcode, bytes))
    }

    fn opcode(&self) -> u32 {
        rows!(opcode_of(self))
    }

    fn arguments(&self, alloc: Global) -> Result<Vec<Arg<'_>>, NoMemory> {
        rows!(list_row(self, alloc))
    }

    fn args(&self, alloc: Global) -> Result<Vec<Arg<'_>>, NoMemory> {
        rows!(show_row(self, alloc))
    }
}
