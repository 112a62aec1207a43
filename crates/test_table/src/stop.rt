//! Why a program that tests stops.

use ei_types::Error;
use ei_wire::{FlushError, NoMemory, ReadError, SendError};
use hex::FromHexError;
use std::alloc::{AllocError, AllocFailed};
use std::io;
use std::num::ParseIntError;

/// Why the program stops: in no case is what was shown until then all that there is.
#[derive(Debug, Drop)]
pub enum Stop {
    /// The table has another line than it may have.
    Line,
    /// A call that the line rests on answers otherwise than it must.
    Call,
    /// Memory ran out.
    NoMemory,
    /// Nothing more can be read from the standard input, or written to the standard output.
    Io,
}

impl From<AllocError> for Stop {
    fn from(_e: AllocError) -> Stop {
        Stop::NoMemory
    }
}

impl<T: Drop> From<AllocFailed<T>> for Stop {
    fn from(_e: AllocFailed<T>) -> Stop {
        Stop::NoMemory
    }
}

impl From<NoMemory> for Stop {
    fn from(_e: NoMemory) -> Stop {
        Stop::NoMemory
    }
}

impl From<Error> for Stop {
    fn from(_e: Error) -> Stop {
        Stop::Call
    }
}

impl From<ReadError> for Stop {
    fn from(_e: ReadError) -> Stop {
        Stop::Call
    }
}

impl From<FlushError> for Stop {
    fn from(_e: FlushError) -> Stop {
        Stop::Call
    }
}

impl From<SendError> for Stop {
    fn from(_e: SendError) -> Stop {
        Stop::Call
    }
}

impl From<FromHexError> for Stop {
    fn from(_e: FromHexError) -> Stop {
        Stop::Line
    }
}

impl From<ParseIntError> for Stop {
    fn from(_e: ParseIntError) -> Stop {
        Stop::Line
    }
}

impl From<io::Error> for Stop {
    fn from(_e: io::Error) -> Stop {
        Stop::Io
    }
}
