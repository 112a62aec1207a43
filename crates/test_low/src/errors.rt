//! The texts of all errors, and what the errors of the wire become.

use ei_types::{Error, EventError, HandshakeError, RequestError};
use ei_wire::{EiText, FlushError, NoMemory, ParseError, ReadError, SendError};
use std::alloc::Global;
use std::fmt::Display;
use test_table::{Answer, Reader};

/// What isn't sent, and why.
const SENDS: [SendError; 3] = [
    SendError::MessageTooLong,
    SendError::IdsExhausted,
    SendError::NoMemory,
];

/// What isn't read, and why.
const READS: [ReadError; 4] = [
    ReadError::UnexpectedEof,
    ReadError::ReadFault,
    ReadError::HandleLimit,
    ReadError::NoMemory,
];

/// What isn't flushed, and why.
const FLUSHES: [FlushError; 2] = [FlushError::WriteFault, FlushError::NoMemory];

/// What is wrong with a message, but for the name of an interface.
const PARSES: [ParseError; 10] = [
    ParseError::Utf8(4),
    ParseError::InvalidId(18374686479671623680),
    ParseError::InvalidOpcode("seat", 3),
    ParseError::InvalidVariant("ContextType", 10),
    ParseError::HeaderLength(0),
    ParseError::MessageLength(20, 16),
    ParseError::EndOfMessage,
    ParseError::NoFd,
    ParseError::InvalidNull,
    ParseError::NoMemory,
];

/// What a peer's event breaks.
const EVENTS: [EventError; 7] = [
    EventError::DeviceEventBeforeDone,
    EventError::DeviceSetupEventAfterDone,
    EventError::SeatSetupEventAfterDone,
    EventError::SeatEventBeforeDone,
    EventError::NoDeviceType,
    EventError::UnexpectedHandshakeEvent,
    EventError::UnknownCapabilityInterface,
];

/// What a peer's request breaks.
const REQUESTS: [RequestError; 4] = [
    RequestError::InvalidCapabilities,
    RequestError::DuplicatedTouchDown,
    RequestError::TooManyTouches,
    RequestError::InvalidTextLength,
];

/// What ends a handshake.
const HANDSHAKES: [HandshakeError; 4] = [
    HandshakeError::InvalidObject(9),
    HandshakeError::NonHandshakeEvent,
    HandshakeError::MissingInterface,
    HandshakeError::DuplicateEvent,
];

/// Why a session stops, each with a part.
const PARTS: [Error; 4] = [
    Error::Parse(ParseError::NoFd),
    Error::Event(EventError::NoDeviceType),
    Error::Request(RequestError::InvalidCapabilities),
    Error::Handshake(HandshakeError::MissingInterface),
];

/// Why a session stops, but for these.
const STOPS: [Error; 10] = [
    Error::UnexpectedEof,
    Error::ReadFault,
    Error::WriteFault,
    Error::HandleLimit,
    Error::IdsExhausted,
    Error::MessageTooLong,
    Error::UnexpectedHandshakeEvent,
    Error::InvalidInterfaceVersion("ei_callback", 7),
    Error::PieceLimit,
    Error::NoMemory,
];

/// What a call answers: the texts of the errors of that kind, with a dash between them; or what errors `become` in a
/// session.
pub(crate) fn tell(alloc: Global, answer: &mut Answer, words: &mut Reader<'_>) {
    match words.word() {
        "send" => tell_texts(answer, &SENDS),
        "read" => tell_texts(answer, &READS),
        "flush" => tell_texts(answer, &FLUSHES),
        "parse" => tell_texts(answer, &PARSES),
        "event" => tell_texts(answer, &EVENTS),
        "request" => tell_texts(answer, &REQUESTS),
        "handshake" => tell_texts(answer, &HANDSHAKES),
        "part" => tell_texts(answer, &PARTS),
        "stop" => tell_texts(answer, &STOPS),
        "interface" => tell_interface(alloc, answer),
        "become" => tell_become(answer),
        _ => words.miss(),
    }
}

/// Tells the texts of the errors.
fn tell_texts<E: Display>(answer: &mut Answer, errors: &[E]) {
    let mut mark = "";
    for error in errors {
        answer.put(mark);
        answer.display(error);
        mark = " - ";
    }
}

/// Tells the text of the error for a name that no interface has.
fn tell_interface(alloc: Global, answer: &mut Answer) {
    if let Some(name) = answer.take(EiText::new(alloc, "ei_gesture")) {
        let error = ParseError::InvalidInterface(name);
        answer.display(&error);
        // Let go by a call: at the end of a scope the drop of each field is proved anew.
        drop(error);
    }
}

/// Tells what the errors of the wire become, in their order.
fn tell_become(answer: &mut Answer) {
    let errors: [Error; 12] = [
        SendError::MessageTooLong.into(),
        SendError::IdsExhausted.into(),
        SendError::NoMemory.into(),
        ReadError::UnexpectedEof.into(),
        ReadError::ReadFault.into(),
        ReadError::HandleLimit.into(),
        ReadError::NoMemory.into(),
        FlushError::WriteFault.into(),
        FlushError::NoMemory.into(),
        ParseError::NoMemory.into(),
        ParseError::NoFd.into(),
        NoMemory.into(),
    ];
    tell_names(answer, &errors);
    drop(errors);
}

/// Tells the names of the errors.
fn tell_names(answer: &mut Answer, errors: &[Error]) {
    let mut mark = "";
    for error in errors {
        answer.put(mark);
        answer.show(error);
        mark = " - ";
    }
}
