//! `ei_callback`: a callback of a client, which the server answers.

ghost use Rattle.ei_client.specs.Words.{KnownInterface};
ghost use Rattle.ei_client.specs.Callback.{opcode_of, values_of};

use crate::prelude::*;

/// A callback, which a client waits for.
pub type Callback = Proxy<kinds::Callback>;

/// What the server tells of a callback.
#[derive(Debug, Drop)]
pub enum Event {
    /// All that was asked before the callback is done. The data is whatever the server likes.
    Done { callback_data: u64 },
}

/// The rows, from which the macros of `rows.rt` write the bodies below.
macro_rules! rows {
    ($write:ident $with:tt) => {
        $write! { $with Event "callback";
            0 => Done { callback_data: Uint64 },
        }
    };
}

impl Message for Event {
    ghost code = { opcode_of };

    ghost values = { values_of };

    ghost KNOWN = { KnownInterface.Callback };

    fn parse(opcode: u32, bytes: &mut ByteStream<'_>, objects: &mut Table) -> Parsed<Event> {
        rows!(read_row(opcode, bytes, objects))
    }

    #[inline(always)]
    fn parse_lawful(opcode: u32, bytes: &mut ByteStream<'_>) -> Option<Event> {
        rows!(read_lawful(opcode, bytes))
    }

    fn opcode(&self) -> u32 {
        rows!(opcode_of(self))
    }

    fn arguments(&self, alloc: Global) -> Result<Vec<Arg<'_>>, NoMemory> {
        rows!(list_row(self, alloc))
    }

    fn args(&self, alloc: Global) -> Result<Vec<Arg<'_>>, NoMemory> {
        rows!(show_row(self, alloc))
    }
}
