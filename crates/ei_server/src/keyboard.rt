//! `ei_keyboard`: the keys of a device.

ghost use Rattle.std.specs.Prelude.{codes, [], ◌∷◌};
ghost use Rattle.ei_server.specs.Words.{KnownInterface, Word, Fd, Sends, key_state_number, keymap_type_number};
ghost use Rattle.ei_server.specs.Keyboard.{opcode_of, values_of, event};

use crate::prelude::*;
use ei_types::{KeyState, KeymapType};

/// The keys of a device.
pub type Keyboard = Proxy<kinds::Keyboard>;

impl Keyboard {
    /// Tells the client what the keys mean: the handle is of a keymap of so many bytes.
    ///
    /// `NoMemory`: nothing is sent.
    pub fn keymap(
        &self,
        ctx: &mut Context,
        keymap_type: KeymapType,
        size: u32,
        keymap: Handle,
    ) -> Sent
        ensures sends { Sends (event (codes "keymap")) self.now
            (Word (keymap_type_number keymap_type) ∷ Word size ∷ Fd keymap ∷ []) ctx.old ctx.new result }
    {
        let args = [keymap_type.as_arg(), Arg::Uint32(size), Arg::Fd(keymap)];
        self.object.request(ctx, 1, &args)
    }

    /// Tells a receiver that a key goes down or up. The key is a code of the keymap, or without one of
    /// `linux/input-event-codes.h`.
    ///
    /// `NoMemory`: nothing is sent.
    pub fn key(&self, ctx: &mut Context, key: u32, state: KeyState) -> Sent
        ensures sends { Sends (event (codes "key")) self.now
            (Word key ∷ Word (key_state_number state) ∷ []) ctx.old ctx.new result }
    {
        let args = [Arg::Uint32(key), state.as_arg()];
        self.object.request(ctx, 2, &args)
    }

    /// Tells the client which modifiers hold, as the event of this serial: masks of those that are down, locked
    /// and latched, and the number of the layout.
    ///
    /// `NoMemory`: nothing is sent.
    pub fn modifiers(
        &self,
        ctx: &mut Context,
        serial: u32,
        depressed: u32,
        locked: u32,
        latched: u32,
        group: u32,
    ) -> Sent
        ensures sends { Sends (event (codes "modifiers")) self.now
            (Word serial ∷ Word depressed ∷ Word locked ∷ Word latched ∷ Word group ∷ []) ctx.old ctx.new result }
    {
        let args = [
            Arg::Uint32(serial),
            Arg::Uint32(depressed),
            Arg::Uint32(locked),
            Arg::Uint32(latched),
            Arg::Uint32(group),
        ];
        self.object.request(ctx, 3, &args)
    }
}

/// What a client asks of the keys.
#[derive(Debug, Drop)]
pub enum Request {
    /// It is done with the object.
    Release,
    /// A key goes down or up. The key is a code of the keymap, or without one of `linux/input-event-codes.h`.
    Key { key: u32, state: KeyState },
}

/// The rows, from which the macros of `rows.rt` write the bodies below.
macro_rules! rows {
    ($write:ident $with:tt) => {
        $write! { $with Request "keyboard";
            0 => Release,
            1 => Key { key: Uint32, state: Enum },
        }
    };
}

impl Message for Request {
    ghost code = { opcode_of };

    ghost values = { values_of };

    ghost KNOWN = { KnownInterface.Keyboard };

    fn parse(opcode: u32, bytes: &mut ByteStream<'_>, objects: &mut Table) -> Parsed<Request> {
        rows!(read_row(opcode, bytes, objects))
    }

    #[inline(always)]
    fn parse_lawful(opcode: u32, bytes: &mut ByteStream<'_>) -> Option<Request> {
        rows!(read_lawful(opcode, bytes))
    }

    fn opcode(&self) -> u32 {
        rows!(opcode_of(self))
    }

    fn arguments(&self, alloc: Global) -> Result<Vec<Arg<'_>>, NoMemory> {
        rows!(list_row(self, alloc))
    }

    fn args(&self, alloc: Global) -> Result<Vec<Arg<'_>>, NoMemory> {
        rows!(show_row(self, alloc))
    }
}
