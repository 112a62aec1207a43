//! `ei_keyboard`: the keys of a device.

ghost use Rattle.std.specs.Prelude.{codes, [], ◌∷◌};
ghost use Rattle.ei_client.specs.Words.{KnownInterface, Word, Sends, key_state_number};
ghost use Rattle.ei_client.specs.Keyboard.{opcode_of, values_of, request};

use crate::prelude::*;
use ei_types::{KeyState, KeymapType};

/// The keys of a device.
pub type Keyboard = Proxy<kinds::Keyboard>;

impl Keyboard {
    /// Tells the server that a key goes down or up. The key is a code of the keymap, or without one of
    /// `linux/input-event-codes.h`.
    ///
    /// `NoMemory`: nothing is sent.
    pub fn key(&self, ctx: &mut Context, key: u32, state: KeyState) -> Sent
        ensures sends { Sends (request (codes "key")) self.now
            (Word key ∷ Word (key_state_number state) ∷ []) ctx.old ctx.new result }
    {
        let args = [Arg::Uint32(key), state.as_arg()];
        self.object.request(ctx, 1, &args)
    }
}

/// What the server tells of the keys.
#[derive(Debug, Drop)]
pub enum Event {
    /// The object is gone, as the event of this serial.
    Destroyed {
        serial: u32,
    },
    /// What the keys mean: the handle is of a keymap of so many bytes.
    Keymap {
        keymap_type: KeymapType,
        size: u32,
        keymap: Handle,
    },
    /// A key goes down or up. The key is a code of the keymap, or without one of `linux/input-event-codes.h`.
    Key {
        key: u32,
        state: KeyState,
    },
    /// The modifiers that hold, as the event of this serial: masks of those that are down, locked and latched,
    /// and the number of the layout.
    Modifiers {
        serial: u32,
        depressed: u32,
        locked: u32,
        latched: u32,
        group: u32,
    },
}

/// The rows, from which the macros of `rows.rt` write the bodies below.
macro_rules! rows {
    ($write:ident $with:tt) => {
        $write! { $with Event "keyboard";
            0 => Destroyed { serial: Uint32 },
            1 => Keymap { keymap_type: Enum, size: Uint32, keymap: Fd },
            2 => Key { key: Uint32, state: Enum },
            3 => Modifiers {
                serial: Uint32, depressed: Uint32, locked: Uint32, latched: Uint32, group: Uint32
            },
        }
    };
}

impl Message for Event {
    ghost code = { opcode_of };

    ghost values = { values_of };

    ghost KNOWN = { KnownInterface.Keyboard };

    fn parse(opcode: u32, bytes: &mut ByteStream<'_>, objects: &mut Table) -> Parsed<Event> {
        rows!(read_row(opcode, bytes, objects))
    }

    #[inline(always)]
    fn parse_lawful(opcode: u32, bytes: &mut ByteStream<'_>) -> Option<Event> {
        rows!(read_lawful(opcode, bytes))
    }

    fn opcode(&self) -> u32 {
        rows!(opcode_of(self))
    }

    fn arguments(&self, alloc: Global) -> Result<Vec<Arg<'_>>, NoMemory> {
        rows!(list_row(self, alloc))
    }

    fn args(&self, alloc: Global) -> Result<Vec<Arg<'_>>, NoMemory> {
        rows!(show_row(self, alloc))
    }
}
