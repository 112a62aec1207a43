//! `ei_x_gesture`: the gestures on a device.

ghost use Rattle.std.specs.Prelude.{codes, [], ◌∷◌};
ghost use Rattle.ei_client.specs.Words.{KnownInterface, Word, Sends};
ghost use Rattle.ei_client.specs.Gesture.{opcode_of, values_of, request};

use crate::prelude::*;

/// The gestures on a device.
pub type Gesture = Proxy<kinds::Gesture>;

impl Gesture {
    /// Tells the server that so many fingers move together by a distance, in logical pixels.
    ///
    /// `NoMemory`: nothing is sent.
    pub fn swipe(&self, ctx: &mut Context, fingers: u32, x: RawFloat, y: RawFloat) -> Sent
        ensures sends { Sends (request (codes "swipe")) self.now
            (Word fingers ∷ Word x.0 ∷ Word y.0 ∷ []) ctx.old ctx.new result }
    {
        let args = [Arg::Uint32(fingers), Arg::Float(x.0), Arg::Float(y.0)];
        self.object.request(ctx, 1, &args)
    }

    /// Tells the server that fingers move apart or together, by this scale.
    ///
    /// `NoMemory`: nothing is sent.
    pub fn pinch(&self, ctx: &mut Context, scale: RawFloat) -> Sent
        ensures sends { Sends (request (codes "pinch")) self.now (Word scale.0 ∷ []) ctx.old ctx.new result }
    {
        self.object.request(ctx, 2, &[Arg::Float(scale.0)])
    }
}

/// What the server tells of the gestures.
#[derive(Debug, Drop)]
pub enum Event {
    /// The object is gone, as the event of this serial.
    Destroyed {
        serial: u32,
    },
    /// So many fingers move together by a distance, in logical pixels.
    Swipe {
        fingers: u32,
        x: RawFloat,
        y: RawFloat,
    },
    /// Fingers move apart or together, by this scale.
    Pinch {
        scale: RawFloat,
    },
}

/// The rows, from which the macros of `rows.rt` write the bodies below.
macro_rules! rows {
    ($write:ident $with:tt) => {
        $write! { $with Event "x_gesture";
            0 => Destroyed { serial: Uint32 },
            1 => Swipe { fingers: Uint32, x: Float, y: Float },
            2 => Pinch { scale: Float },
        }
    };
}

impl Message for Event {
    ghost code = { opcode_of };

    ghost values = { values_of };

    ghost KNOWN = { KnownInterface.Gesture };

    fn parse(opcode: u32, bytes: &mut ByteStream<'_>, objects: &mut Table) -> Parsed<Event> {
        rows!(read_row(opcode, bytes, objects))
    }

    #[inline(always)]
    fn parse_lawful(opcode: u32, bytes: &mut ByteStream<'_>) -> Option<Event> {
        rows!(read_lawful(opcode, bytes))
    }

    fn opcode(&self) -> u32 {
        rows!(opcode_of(self))
    }

    fn arguments(&self, alloc: Global) -> Result<Vec<Arg<'_>>, NoMemory> {
        rows!(list_row(self, alloc))
    }

    fn args(&self, alloc: Global) -> Result<Vec<Arg<'_>>, NoMemory> {
        rows!(show_row(self, alloc))
    }
}
