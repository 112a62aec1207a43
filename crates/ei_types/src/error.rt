//! Why a session stops.

ghost use Rattle.std.specs.Prelude.{◌≡◌};
ghost use Rattle.ei_types.specs.Errors.{error_of_flush, error_of_parse, error_of_read, error_of_send};
ghost use Rattle.ei_types.specs.declared.error.Error.TheVariants as error;

use ei_wire::{FlushError, NoMemory, ParseError, ReadError, SendError};
use std::alloc::{AllocError, AllocFailed};
use std::fmt;

/// What is wrong with an event, by the state that the client keeps of the connection.
#[derive(Debug, Drop, PartialEq, Eq)]
pub enum EventError {
    /// An event of a device came before the device's `done`.
    DeviceEventBeforeDone,
    /// An event that describes a device came after the device's `done`.
    DeviceSetupEventAfterDone,
    /// An event that describes a seat came after the seat's `done`.
    SeatSetupEventAfterDone,
    /// An event of a seat came before the seat's `done`.
    SeatEventBeforeDone,
    /// A device is done without a type.
    NoDeviceType,
    /// A handshake event came after the handshake.
    UnexpectedHandshakeEvent,
    /// A seat names an interface that stands for no capability.
    UnknownCapabilityInterface,
}

/// What is wrong with a request, by the state that the server keeps of the connection.
#[derive(Debug, Drop, PartialEq, Eq)]
pub enum RequestError {
    /// The mask has a bit that the seat wasn't given.
    InvalidCapabilities,
    /// A touch that is down goes down.
    DuplicatedTouchDown,
    /// Sixteen touches are down, and one more goes down.
    TooManyTouches,
    /// The text has no bytes, or more than 254.
    InvalidTextLength,
}

/// What is wrong with a handshake.
#[derive(Debug, Drop, PartialEq, Eq)]
pub enum HandshakeError {
    /// A message to an object of this id, which isn't the handshake.
    InvalidObject(u64),
    /// A message that isn't one of the handshake.
    NonHandshakeEvent,
    /// The peer lacks an interface that each session needs.
    MissingInterface,
    /// The name or the context type came twice.
    DuplicateEvent,
}

/// Why a session stops.
#[derive(Debug, Drop, PartialEq, Eq)]
pub enum Error {
    /// A handshake message came after the handshake.
    UnexpectedHandshakeEvent,
    /// An object of the interface of this name has a version that doesn't serve.
    InvalidInterfaceVersion(&'static str, u32),
    /// An event doesn't fit the state.
    Event(EventError),
    /// A request doesn't fit the state.
    Request(RequestError),
    /// A message can't be read.
    Parse(ParseError),
    /// The handshake failed.
    Handshake(HandshakeError),
    /// The source ended.
    UnexpectedEof,
    /// The source failed.
    ReadFault,
    /// The sink failed.
    WriteFault,
    /// More handles would be unread than are kept.
    HandleLimit,
    /// No own id is left for a new object.
    IdsExhausted,
    /// A message would be longer than a message may be.
    MessageTooLong,
    /// More pieces came than are taken.
    PieceLimit,
    /// Memory ran out.
    NoMemory,
}

impl From<EventError> for Error {
    ghost from_gives = { λ e whole. whole ≡ error.Event e };

    fn from(e: EventError) -> Error {
        Error::Event(e)
    }
}

impl From<RequestError> for Error {
    ghost from_gives = { λ e whole. whole ≡ error.Request e };

    fn from(e: RequestError) -> Error {
        Error::Request(e)
    }
}

impl From<HandshakeError> for Error {
    ghost from_gives = { λ e whole. whole ≡ error.Handshake e };

    fn from(e: HandshakeError) -> Error {
        Error::Handshake(e)
    }
}

impl From<ParseError> for Error {
    ghost from_gives = { λ e whole. whole ≡ error_of_parse e };

    fn from(e: ParseError) -> Error {
        match e {
            ParseError::NoMemory => Error::NoMemory,
            e => Error::Parse(e),
        }
    }
}

/// The error of the same name, by the variants of the other enum.
macro_rules! of_same_name {
    ($e:expr, $from:ident: $($name:ident),+) => {
        match $e {
            $($from::$name => Error::$name,)+
        }
    };
}

impl From<SendError> for Error {
    ghost from_gives = { λ e whole. whole ≡ error_of_send e };

    fn from(e: SendError) -> Error {
        of_same_name!(e, SendError: MessageTooLong, IdsExhausted, NoMemory)
    }
}

impl From<ReadError> for Error {
    ghost from_gives = { λ e whole. whole ≡ error_of_read e };

    fn from(e: ReadError) -> Error {
        of_same_name!(e, ReadError: UnexpectedEof, ReadFault, HandleLimit, NoMemory)
    }
}

impl From<FlushError> for Error {
    ghost from_gives = { λ e whole. whole ≡ error_of_flush e };

    fn from(e: FlushError) -> Error {
        of_same_name!(e, FlushError: WriteFault, NoMemory)
    }
}

impl From<NoMemory> for Error {
    ghost from_gives = { λ _ whole. whole ≡ error.NoMemory };

    fn from(_e: NoMemory) -> Error {
        Error::NoMemory
    }
}

impl From<AllocError> for Error {
    ghost from_gives = { λ _ whole. whole ≡ error.NoMemory };

    fn from(_e: AllocError) -> Error {
        Error::NoMemory
    }
}

impl<T: Drop> From<AllocFailed<T>> for Error {
    ghost from_gives = { λ _ whole. whole ≡ error.NoMemory };

    fn from(_e: AllocFailed<T>) -> Error {
        Error::NoMemory
    }
}

impl fmt::Display for EventError {
    ghost use Rattle.std.specs.Prelude.{Some};
    ghost use Rattle.ei_types.specs.Texts.{event_error_text};

    ghost output = { λ e. Some (event_error_text e) };

    fn fmt<W: fmt::Write>(&self, f: &mut fmt::Formatter<W>) -> fmt::Result {
        f.write_str(match self {
            EventError::DeviceEventBeforeDone => "device event before done",
            EventError::DeviceSetupEventAfterDone => "device setup event after done",
            EventError::SeatSetupEventAfterDone => "seat setup event after done",
            EventError::SeatEventBeforeDone => "seat event before done",
            EventError::NoDeviceType => "no device",
            EventError::UnexpectedHandshakeEvent => "unexpected handshake event",
            EventError::UnknownCapabilityInterface => "unknown interface in ei_seat.capability",
        })
    }
}

impl fmt::Display for RequestError {
    ghost use Rattle.std.specs.Prelude.{Some};
    ghost use Rattle.ei_types.specs.Texts.{request_error_text};

    ghost output = { λ e. Some (request_error_text e) };

    fn fmt<W: fmt::Write>(&self, f: &mut fmt::Formatter<W>) -> fmt::Result {
        f.write_str(match self {
            RequestError::InvalidCapabilities => "Invalid capabilities",
            RequestError::DuplicatedTouchDown => "Touch down event for duplicated touch ID",
            RequestError::TooManyTouches => "Too many simultaneous touch events",
            RequestError::InvalidTextLength => "Empty or too long text string",
        })
    }
}

impl fmt::Display for HandshakeError {
    ghost use Rattle.std.specs.Prelude.{Some};
    ghost use Rattle.ei_types.specs.Texts.{handshake_error_text};

    ghost output = { λ e. Some (handshake_error_text e) };

    fn fmt<W: fmt::Write>(&self, f: &mut fmt::Formatter<W>) -> fmt::Result {
        match self {
            HandshakeError::InvalidObject(id) => write!(f, "invalid object {id} during handshake"),
            HandshakeError::NonHandshakeEvent => f.write_str(
                "non-handshake event during handshake",
            ),
            HandshakeError::MissingInterface => f.write_str("missing required interface"),
            HandshakeError::DuplicateEvent => f.write_str("duplicate event during handshake"),
        }
    }
}

impl fmt::Display for Error {
    ghost use Rattle.std.specs.Prelude.{Some};
    ghost use Rattle.ei_types.specs.Texts.{error_text};

    ghost output = { λ e. Some (error_text e) };

    fn fmt<W: fmt::Write>(&self, f: &mut fmt::Formatter<W>) -> fmt::Result {
        match self {
            Error::UnexpectedHandshakeEvent => f.write_str("unexpected handshake event"),
            Error::InvalidInterfaceVersion(interface, version) => {
                write!(f, "invalid version {version} for interface '{interface}'")
            }
            Error::Event(e) => write!(f, "event error: {e}"),
            Error::Request(e) => write!(f, "request error: {e}"),
            Error::Parse(e) => write!(f, "parse error: {e}"),
            Error::Handshake(e) => write!(f, "handshake error: {e}"),
            Error::UnexpectedEof => f.write_str("IO error: unexpected EOF reading ei socket"),
            Error::ReadFault => f.write_str("IO error: read fault"),
            Error::WriteFault => f.write_str("IO error: write fault"),
            Error::HandleLimit => f.write_str("too many unread handles"),
            Error::IdsExhausted => f.write_str("no object id is left"),
            Error::MessageTooLong => f.write_str("message too long"),
            Error::PieceLimit => f.write_str("piece limit reached"),
            Error::NoMemory => f.write_str("out of memory"),
        }
    }
}

impl std::error::Error for EventError {}

impl std::error::Error for HandshakeError {}

impl std::error::Error for Error {}
