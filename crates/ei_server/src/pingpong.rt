//! `ei_pingpong`: a ping of the server, which the client answers.

ghost use Rattle.ei_server.specs.Words.{KnownInterface};
ghost use Rattle.ei_server.specs.Pingpong.{opcode_of, values_of};

use crate::prelude::*;

/// A ping, which a client answers.
pub type Pingpong = Proxy<kinds::Pingpong>;

/// What a client asks of a ping.
#[derive(Debug, Drop)]
pub enum Request {
    /// The answer. It bears whatever the client likes.
    Done { callback_data: u64 },
}

/// The rows, from which the macros of `rows.rt` write the bodies below.
macro_rules! rows {
    ($write:ident $with:tt) => {
        $write! { $with Request "pingpong";
            0 => Done { callback_data: Uint64 },
        }
    };
}

impl Message for Request {
    ghost code = { opcode_of };

    ghost values = { values_of };

    ghost KNOWN = { KnownInterface.Pingpong };

    fn parse(opcode: u32, bytes: &mut ByteStream<'_>, objects: &mut Table) -> Parsed<Request> {
        rows!(read_row(opcode, bytes, objects))
    }

    #[inline(always)]
    fn parse_lawful(opcode: u32, bytes: &mut ByteStream<'_>) -> Option<Request> {
        rows!(read_lawful(opcode, bytes))
    }

    fn opcode(&self) -> u32 {
        rows!(opcode_of(self))
    }

    fn arguments(&self, alloc: Global) -> Result<Vec<Arg<'_>>, NoMemory> {
        rows!(list_row(self, alloc))
    }

    fn args(&self, alloc: Global) -> Result<Vec<Arg<'_>>, NoMemory> {
        rows!(show_row(self, alloc))
    }
}
