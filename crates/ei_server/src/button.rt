//! `ei_button`: the buttons of a device.

ghost use Rattle.std.specs.Prelude.{codes, [], ◌∷◌};
ghost use Rattle.ei_server.specs.Words.{KnownInterface, Word, Sends, button_state_number};
ghost use Rattle.ei_server.specs.Button.{opcode_of, values_of, event};

use crate::prelude::*;
use ei_types::ButtonState;

/// The buttons of a device.
pub type Button = Proxy<kinds::Button>;

impl Button {
    /// Tells a receiver that a button goes down or up. The button is a code of `linux/input-event-codes.h`.
    ///
    /// `NoMemory`: nothing is sent.
    pub fn button(&self, ctx: &mut Context, button: u32, state: ButtonState) -> Sent
        ensures sends { Sends (event (codes "button")) self.now
            (Word button ∷ Word (button_state_number state) ∷ []) ctx.old ctx.new result }
    {
        let args = [Arg::Uint32(button), state.as_arg()];
        self.object.request(ctx, 1, &args)
    }
}

/// What a client asks of the buttons.
#[derive(Debug, Drop)]
pub enum Request {
    /// It is done with the object.
    Release,
    /// A button goes down or up. The button is a code of `linux/input-event-codes.h`.
    Button { button: u32, state: ButtonState },
}

/// The rows, from which the macros of `rows.rt` write the bodies below.
macro_rules! rows {
    ($write:ident $with:tt) => {
        $write! { $with Request "button";
            0 => Release,
            1 => Button { button: Uint32, state: Enum },
        }
    };
}

impl Message for Request {
    ghost code = { opcode_of };

    ghost values = { values_of };

    ghost KNOWN = { KnownInterface.Button };

    fn parse(opcode: u32, bytes: &mut ByteStream<'_>, objects: &mut Table) -> Parsed<Request> {
        rows!(read_row(opcode, bytes, objects))
    }

    #[inline(always)]
    fn parse_lawful(opcode: u32, bytes: &mut ByteStream<'_>) -> Option<Request> {
        rows!(read_lawful(opcode, bytes))
    }

    fn opcode(&self) -> u32 {
        rows!(opcode_of(self))
    }

    fn arguments(&self, alloc: Global) -> Result<Vec<Arg<'_>>, NoMemory> {
        rows!(list_row(self, alloc))
    }

    fn args(&self, alloc: Global) -> Result<Vec<Arg<'_>>, NoMemory> {
        rows!(show_row(self, alloc))
    }
}
