//! `ei_text`: the keysyms and the text of a device.

ghost use Rattle.std.specs.Prelude.{codes, [], ◌∷◌};
ghost use Rattle.ei_client.specs.Words.{KnownInterface, Word, Letters, Sends, SendsText, key_state_number};
ghost use Rattle.ei_client.specs.Text.{opcode_of, values_of, request};

use crate::prelude::*;
use ei_types::KeyState;

/// The keysyms and the text of a device.
pub type Text = Proxy<kinds::Text>;

impl Text {
    /// Tells the server that a keysym, by its number in XKB, goes down or up.
    ///
    /// `NoMemory`: nothing is sent.
    pub fn keysym(&self, ctx: &mut Context, keysym: u32, state: KeyState) -> Sent
        ensures sends { Sends (request (codes "keysym")) self.now
            (Word keysym ∷ Word (key_state_number state) ∷ []) ctx.old ctx.new result }
    {
        let args = [Arg::Uint32(keysym), state.as_arg()];
        self.object.request(ctx, 1, &args)
    }

    /// Tells the server that a text is put in. The protocol wants 1 to 254 bytes; that isn't tested here.
    ///
    /// `MessageTooLong` exactly where the message would have more than 1048576 bytes, `NoMemory`: nothing is
    /// sent.
    #[tactic(auto, using(ei_spec::proofs::Utf8::is_text))]
    pub fn utf8(&self, ctx: &mut Context, text: &str) -> Sent
        ensures sends { SendsText (request (codes "utf8")) self.now (Letters text.now ∷ []) ctx.old ctx.new result }
    {
        self.object.request(ctx, 2, &[Arg::String(Some(text))])
    }
}

/// What the server tells of the text.
#[derive(Debug, Drop)]
pub enum Event {
    /// The object is gone, as the event of this serial.
    Destroyed { serial: u32 },
    /// A keysym, by its number in XKB, goes down or up.
    Keysym { keysym: u32, state: KeyState },
    /// A text is put in. The protocol wants 1 to 254 bytes; that isn't tested here.
    Utf8 { text: EiText },
}

/// The rows, from which the macros of `rows.rt` write the bodies below.
macro_rules! rows {
    ($write:ident $with:tt) => {
        $write! { $with Event "text";
            0 => Destroyed { serial: Uint32 },
            1 => Keysym { keysym: Uint32, state: Enum },
            2 => Utf8 { text: Text },
        }
    };
}

impl Message for Event {
    ghost code = { opcode_of };

    ghost values = { values_of };

    ghost KNOWN = { KnownInterface.Text };

    fn parse(opcode: u32, bytes: &mut ByteStream<'_>, objects: &mut Table) -> Parsed<Event> {
        rows!(read_row(opcode, bytes, objects))
    }

    #[inline(always)]
    fn parse_lawful(opcode: u32, bytes: &mut ByteStream<'_>) -> Option<Event> {
        rows!(read_lawful(opcode, bytes))
    }

    fn opcode(&self) -> u32 {
        rows!(opcode_of(self))
    }

    fn arguments(&self, alloc: Global) -> Result<Vec<Arg<'_>>, NoMemory> {
        rows!(list_row(self, alloc))
    }

    fn args(&self, alloc: Global) -> Result<Vec<Arg<'_>>, NoMemory> {
        rows!(show_row(self, alloc))
    }
}
