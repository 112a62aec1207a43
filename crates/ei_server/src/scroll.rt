//! `ei_scroll`: the scrolling of a device.

ghost use Rattle.std.specs.Prelude.{codes, [], ◌∷◌};
ghost use Rattle.ei_server.specs.Words.{KnownInterface, Word, Signed, Sends};
ghost use Rattle.ei_server.specs.Scroll.{opcode_of, values_of, event};

use crate::prelude::*;

/// The scrolling of a device.
pub type Scroll = Proxy<kinds::Scroll>;

impl Scroll {
    /// Tells a receiver that it scrolls by x and y, in logical pixels.
    ///
    /// `NoMemory`: nothing is sent.
    pub fn scroll(&self, ctx: &mut Context, x: RawFloat, y: RawFloat) -> Sent
        ensures sends { Sends (event (codes "scroll")) self.now (Word x.0 ∷ Word y.0 ∷ []) ctx.old ctx.new result }
    {
        let args = [Arg::Float(x.0), Arg::Float(y.0)];
        self.object.request(ctx, 1, &args)
    }

    /// Tells a receiver that a wheel turns by x and y. A click of the wheel is 120.
    ///
    /// `NoMemory`: nothing is sent.
    pub fn scroll_discrete(&self, ctx: &mut Context, x: i32, y: i32) -> Sent
        ensures sends { Sends (event (codes "scroll_discrete")) self.now
            (Signed x ∷ Signed y ∷ []) ctx.old ctx.new result }
    {
        let args = [Arg::Int32(x), Arg::Int32(y)];
        self.object.request(ctx, 2, &args)
    }

    /// Tells a receiver on which axes scrolling stops: on those that aren't 0. Where `is_cancel` isn't 0,
    /// nothing may scroll on by itself.
    ///
    /// `NoMemory`: nothing is sent.
    pub fn scroll_stop(&self, ctx: &mut Context, x: u32, y: u32, is_cancel: u32) -> Sent
        ensures sends { Sends (event (codes "scroll_stop")) self.now
            (Word x ∷ Word y ∷ Word is_cancel ∷ []) ctx.old ctx.new result }
    {
        let args = [Arg::Uint32(x), Arg::Uint32(y), Arg::Uint32(is_cancel)];
        self.object.request(ctx, 3, &args)
    }
}

/// What a client asks of the scrolling.
#[derive(Debug, Drop)]
pub enum Request {
    /// It is done with the object.
    Release,
    /// It scrolls by x and y, in logical pixels.
    Scroll { x: RawFloat, y: RawFloat },
    /// A wheel turns by x and y. A click of the wheel is 120.
    ScrollDiscrete { x: i32, y: i32 },
    /// Scrolling stops on the axes that aren't 0. Where `is_cancel` isn't 0, nothing may scroll on by itself.
    ScrollStop { x: u32, y: u32, is_cancel: u32 },
}

/// The rows, from which the macros of `rows.rt` write the bodies below.
macro_rules! rows {
    ($write:ident $with:tt) => {
        $write! { $with Request "scroll";
            0 => Release,
            1 => Scroll { x: Float, y: Float },
            2 => ScrollDiscrete { x: Int32, y: Int32 },
            3 => ScrollStop { x: Uint32, y: Uint32, is_cancel: Uint32 },
        }
    };
}

impl Message for Request {
    ghost code = { opcode_of };

    ghost values = { values_of };

    ghost KNOWN = { KnownInterface.Scroll };

    fn parse(opcode: u32, bytes: &mut ByteStream<'_>, objects: &mut Table) -> Parsed<Request> {
        rows!(read_row(opcode, bytes, objects))
    }

    #[inline(always)]
    fn parse_lawful(opcode: u32, bytes: &mut ByteStream<'_>) -> Option<Request> {
        rows!(read_lawful(opcode, bytes))
    }

    fn opcode(&self) -> u32 {
        rows!(opcode_of(self))
    }

    fn arguments(&self, alloc: Global) -> Result<Vec<Arg<'_>>, NoMemory> {
        rows!(list_row(self, alloc))
    }

    fn args(&self, alloc: Global) -> Result<Vec<Arg<'_>>, NoMemory> {
        rows!(show_row(self, alloc))
    }
}
