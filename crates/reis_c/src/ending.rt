//! How a session or a connection ended, as C reads it.

ghost use Rattle.std.specs.Prelude.{◌≡◌};
ghost use Rattle.std.specs.Option.{option_copied};
ghost use Rattle.reis_c.specs.Ending.{end_number, ending_number, error_number, event_number, handshake_number, parse_number, request_number};

use crate::numbers as number;
use ei_serve::Ended;
use ei_types::{Error, EventError, HandshakeError, RequestError};
use ei_wire::ParseError;
use reis_eis::Ending;

fn parse_number(error: &ParseError) -> u32
    ensures { result ≡ parse_number error.now }
{
    match error {
        ParseError::EndOfMessage => number::PARSE_END_OF_MESSAGE,
        ParseError::Utf8(_) => number::PARSE_UTF8,
        ParseError::InvalidId(_) => number::PARSE_INVALID_ID,
        ParseError::NoFd => number::PARSE_NO_FD,
        ParseError::InvalidOpcode(_, _) => number::PARSE_INVALID_OPCODE,
        ParseError::InvalidVariant(_, _) => number::PARSE_INVALID_VARIANT,
        ParseError::InvalidInterface(_) => number::PARSE_INVALID_INTERFACE,
        ParseError::HeaderLength(_) => number::PARSE_HEADER_LENGTH,
        ParseError::MessageLength(_, _) => number::PARSE_MESSAGE_LENGTH,
        ParseError::InvalidNull => number::PARSE_INVALID_NULL,
        ParseError::NoMemory => number::PARSE_NO_MEMORY,
    }
}

fn event_number(error: &EventError) -> u32
    ensures { result ≡ event_number error.now }
{
    match error {
        EventError::DeviceEventBeforeDone => number::EVENT_DEVICE_EVENT_BEFORE_DONE,
        EventError::DeviceSetupEventAfterDone => number::EVENT_DEVICE_SETUP_EVENT_AFTER_DONE,
        EventError::SeatSetupEventAfterDone => number::EVENT_SEAT_SETUP_EVENT_AFTER_DONE,
        EventError::SeatEventBeforeDone => number::EVENT_SEAT_EVENT_BEFORE_DONE,
        EventError::NoDeviceType => number::EVENT_NO_DEVICE_TYPE,
        EventError::UnexpectedHandshakeEvent => number::EVENT_UNEXPECTED_HANDSHAKE_EVENT,
        EventError::UnknownCapabilityInterface => number::EVENT_UNKNOWN_CAPABILITY_INTERFACE,
    }
}

fn request_number(error: &RequestError) -> u32
    ensures { result ≡ request_number error.now }
{
    match error {
        RequestError::InvalidCapabilities => number::REQUEST_INVALID_CAPABILITIES,
        RequestError::DuplicatedTouchDown => number::REQUEST_DUPLICATED_TOUCH_DOWN,
        RequestError::TooManyTouches => number::REQUEST_TOO_MANY_TOUCHES,
        RequestError::InvalidTextLength => number::REQUEST_INVALID_TEXT_LENGTH,
    }
}

fn handshake_number(error: &HandshakeError) -> u32
    ensures { result ≡ handshake_number error.now }
{
    match error {
        HandshakeError::InvalidObject(_) => number::HANDSHAKE_INVALID_OBJECT,
        HandshakeError::NonHandshakeEvent => number::HANDSHAKE_NON_HANDSHAKE_EVENT,
        HandshakeError::MissingInterface => number::HANDSHAKE_MISSING_INTERFACE,
        HandshakeError::DuplicateEvent => number::HANDSHAKE_DUPLICATE_EVENT,
    }
}

fn error_number(error: &Error) -> u32
    ensures { result ≡ error_number error.now }
{
    match error {
        Error::UnexpectedHandshakeEvent => number::ERROR_UNEXPECTED_HANDSHAKE_EVENT,
        Error::InvalidInterfaceVersion(_, _) => number::ERROR_INVALID_INTERFACE_VERSION,
        Error::Event(e) => event_number(e),
        Error::Request(e) => request_number(e),
        Error::Parse(e) => parse_number(e),
        Error::Handshake(e) => handshake_number(e),
        Error::UnexpectedEof => number::ERROR_UNEXPECTED_EOF,
        Error::ReadFault => number::ERROR_READ_FAULT,
        Error::WriteFault => number::ERROR_WRITE_FAULT,
        Error::HandleLimit => number::ERROR_HANDLE_LIMIT,
        Error::IdsExhausted => number::ERROR_IDS_EXHAUSTED,
        Error::MessageTooLong => number::ERROR_MESSAGE_TOO_LONG,
        Error::PieceLimit => number::ERROR_PIECE_LIMIT,
        Error::NoMemory => number::ERROR_NO_MEMORY,
    }
}

/// The number of how a session ended, or of going on.
pub(crate) fn end_number(answer: Option<&Result<Ended, Error>>) -> u32
    ensures { result ≡ end_number (option_copied answer.entry) }
{
    match answer {
        None => number::GOES_ON,
        Some(Ok(Ended::Disconnect)) => number::DISCONNECTED,
        Some(Ok(Ended::End)) => number::END_OF_INPUT,
        Some(Err(error)) => error_number(error),
    }
}

/// The number of how a connection ended, or of going on.
pub(crate) fn ending_number(ending: Option<&Ending>) -> u32
    ensures { result ≡ ending_number (option_copied ending.entry) }
{
    match ending {
        None => number::GOES_ON,
        Some(Ending::Disconnected) => number::DISCONNECTED,
        Some(Ending::End) => number::END_OF_INPUT,
        Some(Ending::Told) => number::TOLD,
        Some(Ending::Refused(error)) => error_number(error),
    }
}
