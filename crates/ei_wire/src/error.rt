//! Why a message can't be read or sent, and why reading and flushing stop.

ghost use Rattle.std.specs.Prelude.{◌≡◌};
ghost use Rattle.ei_wire.specs.Texts.{send_error_text, read_error_text, flush_error_text};
ghost use Rattle.ei_wire.specs.declared.error.ParseError.TheVariants as error;
ghost use Rattle.ei_wire.specs.declared.error.SendError.TheVariants as send_error;
ghost use Rattle.ei_wire.specs.declared.error.ReadError.TheVariants as read_error;
ghost use Rattle.ei_wire.specs.declared.error.FlushError.TheVariants as flush_error;

use crate::text::EiText;
use std::alloc::{AllocError, AllocFailed};
use std::fmt;
use thiserror::Error;

/// Memory ran out.
#[derive(Clone, Copy, Debug, PartialEq, Eq, Hash)]
pub struct NoMemory;

/// What an allocation answers where memory ran out. The errors here are made of it.
pub trait MemoryError: Drop {}

impl MemoryError for NoMemory {}

impl MemoryError for AllocError {}

impl<T: Drop> MemoryError for AllocFailed<T> {}

impl From<AllocError> for NoMemory {
    fn from(_e: AllocError) -> NoMemory {
        NoMemory
    }
}

impl<T: Drop> From<AllocFailed<T>> for NoMemory {
    fn from(_e: AllocFailed<T>) -> NoMemory {
        NoMemory
    }
}

/// What is wrong with a message.
#[derive(Debug, PartialEq, Eq, Drop)]
pub enum ParseError {
    /// The message ends inside an argument.
    EndOfMessage,
    /// A text isn't UTF-8: the length of its longest valid prefix.
    Utf8(u32),
    /// The peer may not give this id to a new object.
    InvalidId(u64),
    /// No handle came with the message.
    NoFd,
    /// The interface, without `ei_`, has no message of this opcode.
    InvalidOpcode(&'static str, u32),
    /// The enum of that name has no such value.
    InvalidVariant(&'static str, u32),
    /// No interface of the protocol has this name.
    InvalidInterface(EiText),
    /// The header's length is below 16 or above 1048576.
    HeaderLength(u32),
    /// The length that the arguments leave too long, and the length that the header says.
    MessageLength(u32, u32),
    /// A text that must be there is null.
    InvalidNull,
    /// Memory ran out.
    NoMemory,
}

impl fmt::Display for ParseError {
    ghost use Rattle.std.specs.Prelude.{Some};
    ghost use Rattle.ei_wire.specs.Texts.{parse_error_text};

    ghost output = { λ e. Some (parse_error_text e) };

    fn fmt<W: fmt::Write>(&self, f: &mut fmt::Formatter<W>) -> fmt::Result {
        match self {
            ParseError::EndOfMessage => f.write_str("found end of message while parsing argument"),
            ParseError::Utf8(place) => write!(
                f,
                "invalid UTF-8 string in message: at byte {place}"
            ),
            ParseError::InvalidId(id) => write!(f, "new object id '{id}' invalid"),
            ParseError::NoFd => f.write_str("expected fd"),
            ParseError::InvalidOpcode(interface, opcode) => {
                write!(f, "opcode '{opcode}' invalid for interface '{interface}'")
            }
            ParseError::InvalidVariant(type_name, number) => {
                write!(f, "variant '{number}' invalid for enum '{type_name}'")
            }
            ParseError::InvalidInterface(name) => {
                let name = name.as_str();
                write!(f, "unknown interface '{name}'")
            }
            ParseError::HeaderLength(length) => write!(f, "header length {length} < 16"),
            ParseError::MessageLength(found, said) => {
                write!(f, "message length didn't match header ({found} != {said})")
            }
            ParseError::InvalidNull => f.write_str("NULL value for non-nullable argument"),
            ParseError::NoMemory => f.write_str("out of memory"),
        }
    }
}

impl std::error::Error for ParseError {}

/// Why a message isn't sent. Nothing is written then.
#[derive(Debug, PartialEq, Eq, Drop, Error)]
#[error("{}", self.text())]
pub enum SendError {
    /// The message would have more than 1048576 bytes.
    MessageTooLong,
    /// Fewer own ids are left than the call needs.
    IdsExhausted,
    /// Memory ran out.
    NoMemory,
}

impl SendError {
    /// Why the message isn't sent, as a text for people.
    pub fn text(&self) -> &'static str
        ensures { result.now ≡ send_error_text self.now }
    {
        match self {
            SendError::MessageTooLong => "message too long",
            SendError::IdsExhausted => "no object id is left",
            SendError::NoMemory => "out of memory",
        }
    }
}

/// Why no piece was read.
#[derive(Debug, PartialEq, Eq, Drop, Error)]
#[error("{}", self.text())]
pub enum ReadError {
    /// The source is at its end, or the endpoint is closed.
    UnexpectedEof,
    /// The source failed.
    ReadFault,
    /// More than 4096 handles would be unread.
    HandleLimit,
    /// Memory ran out before the source was asked.
    NoMemory,
}

impl ReadError {
    /// Why no piece was read, as a text for people.
    pub fn text(&self) -> &'static str
        ensures { result.now ≡ read_error_text self.now }
    {
        match self {
            ReadError::UnexpectedEof => "IO error: unexpected EOF reading ei socket",
            ReadError::ReadFault => "IO error: read fault",
            ReadError::HandleLimit => "too many unread handles",
            ReadError::NoMemory => "out of memory",
        }
    }
}

/// Why not all was written. The rest stays buffered.
#[derive(Debug, PartialEq, Eq, Drop, Error)]
#[error("{}", self.text())]
pub enum FlushError {
    /// The sink failed.
    WriteFault,
    /// The sink wants memory.
    NoMemory,
}

impl FlushError {
    /// Why not all was written, as a text for people.
    pub fn text(&self) -> &'static str
        ensures { result.now ≡ flush_error_text self.now }
    {
        match self {
            FlushError::WriteFault => "IO error: write fault",
            FlushError::NoMemory => "out of memory",
        }
    }
}

impl<E: MemoryError> From<E> for ParseError {
    ghost from_gives = { λ _ e. e ≡ error.NoMemory };

    fn from(_e: E) -> ParseError {
        ParseError::NoMemory
    }
}

impl<E: MemoryError> From<E> for SendError {
    ghost from_gives = { λ _ e. e ≡ send_error.NoMemory };

    fn from(_e: E) -> SendError {
        SendError::NoMemory
    }
}

impl<E: MemoryError> From<E> for ReadError {
    ghost from_gives = { λ _ e. e ≡ read_error.NoMemory };

    fn from(_e: E) -> ReadError {
        ReadError::NoMemory
    }
}

impl From<NoMemory> for FlushError {
    ghost from_gives = { λ _ e. e ≡ flush_error.NoMemory };

    fn from(_e: NoMemory) -> FlushError {
        FlushError::NoMemory
    }
}
