//! `ei_button`: the buttons of a device.

ghost use Rattle.std.specs.Prelude.{codes, [], ◌∷◌};
ghost use Rattle.ei_client.specs.Words.{KnownInterface, Word, Sends, button_state_number};
ghost use Rattle.ei_client.specs.Button.{opcode_of, values_of, request};

use crate::prelude::*;
use ei_types::ButtonState;

/// The buttons of a device.
pub type Button = Proxy<kinds::Button>;

impl Button {
    /// Tells the server that a button goes down or up. The button is a code of `linux/input-event-codes.h`.
    ///
    /// `NoMemory`: nothing is sent.
    pub fn button(&self, ctx: &mut Context, button: u32, state: ButtonState) -> Sent
        ensures sends { Sends (request (codes "button")) self.now
            (Word button ∷ Word (button_state_number state) ∷ []) ctx.old ctx.new result }
    {
        let args = [Arg::Uint32(button), state.as_arg()];
        self.object.request(ctx, 1, &args)
    }
}

/// What the server tells of the buttons.
#[derive(Debug, Drop)]
pub enum Event {
    /// The object is gone, as the event of this serial.
    Destroyed { serial: u32 },
    /// A button goes down or up. The button is a code of `linux/input-event-codes.h`.
    Button { button: u32, state: ButtonState },
}

/// The rows, from which the macros of `rows.rt` write the bodies below.
macro_rules! rows {
    ($write:ident $with:tt) => {
        $write! { $with Event "button";
            0 => Destroyed { serial: Uint32 },
            1 => Button { button: Uint32, state: Enum },
        }
    };
}

impl Message for Event {
    ghost code = { opcode_of };

    ghost values = { values_of };

    ghost KNOWN = { KnownInterface.Button };

    fn parse(opcode: u32, bytes: &mut ByteStream<'_>, objects: &mut Table) -> Parsed<Event> {
        rows!(read_row(opcode, bytes, objects))
    }

    #[inline(always)]
    fn parse_lawful(opcode: u32, bytes: &mut ByteStream<'_>) -> Option<Event> {
        rows!(read_lawful(opcode, bytes))
    }

    fn opcode(&self) -> u32 {
        rows!(opcode_of(self))
    }

    fn arguments(&self, alloc: Global) -> Result<Vec<Arg<'_>>, NoMemory> {
        rows!(list_row(self, alloc))
    }

    fn args(&self, alloc: Global) -> Result<Vec<Arg<'_>>, NoMemory> {
        rows!(show_row(self, alloc))
    }
}
