//! The numbers that cross to C, but for the kinds of requests, which stand in `flat`. `include/reis.h` repeats them.

ghost use Rattle.std.specs.Prelude.{◌≡◌};
ghost use Rattle.reis_c.specs.Answers.{answer_number, outcome_number, refusal_number};

use reis_eis::CallError as Refusal;
use reis_server::CallError;

// ---- what a call answers

pub const OK: u32 = 0;

pub const NO_SESSION: u32 = 1;

pub const HAS_SESSION: u32 = 2;

pub const CAPABILITIES: u32 = 3;

pub const NO_MEMORY: u32 = 4;

pub const OVER: u32 = 5;

pub const EMPTY: u32 = 6;

pub const TOO_LONG: u32 = 7;

pub const TOO_MANY_HANDLES: u32 = 8;

pub const NOTHING: u32 = 9;

pub const NO_ROOM: u32 = 10;

pub const NOT_UNSENT: u32 = 11;

pub const NOT_CONNECTED: u32 = 13;

pub const GONE: u32 = 14;

pub const WRONG_ROLE: u32 = 15;

pub const NO_KEYBOARD: u32 = 16;

pub const MESSAGE_TOO_LONG: u32 = 17;

pub const IDS_EXHAUSTED: u32 = 18;

pub const INVALID: u32 = 19;

// ---- what a session is started with, and a connection

/// The flag of a connection that hands out what libeis would.
pub const STRICT: u32 = 1;

/// So many pieces are no limit.
pub const NO_LIMIT: u32 = 4294967295;

// ---- how a session ended

pub const GOES_ON: u32 = 0;

pub const DISCONNECTED: u32 = 1;

pub const END_OF_INPUT: u32 = 2;

pub const TOLD: u32 = 3;

pub const ERROR_UNEXPECTED_EOF: u32 = 10;

pub const ERROR_PIECE_LIMIT: u32 = 11;

pub const ERROR_HANDLE_LIMIT: u32 = 12;

pub const ERROR_NO_MEMORY: u32 = 13;

pub const ERROR_IDS_EXHAUSTED: u32 = 14;

pub const ERROR_INVALID_INTERFACE_VERSION: u32 = 15;

pub const ERROR_UNEXPECTED_HANDSHAKE_EVENT: u32 = 16;

pub const ERROR_READ_FAULT: u32 = 17;

pub const ERROR_WRITE_FAULT: u32 = 18;

pub const ERROR_MESSAGE_TOO_LONG: u32 = 19;

pub const HANDSHAKE_INVALID_OBJECT: u32 = 20;

pub const HANDSHAKE_NON_HANDSHAKE_EVENT: u32 = 21;

pub const HANDSHAKE_MISSING_INTERFACE: u32 = 22;

pub const HANDSHAKE_DUPLICATE_EVENT: u32 = 23;

pub const REQUEST_INVALID_CAPABILITIES: u32 = 30;

pub const REQUEST_DUPLICATED_TOUCH_DOWN: u32 = 31;

pub const REQUEST_TOO_MANY_TOUCHES: u32 = 32;

pub const REQUEST_INVALID_TEXT_LENGTH: u32 = 33;

pub const PARSE_END_OF_MESSAGE: u32 = 40;

pub const PARSE_UTF8: u32 = 41;

pub const PARSE_INVALID_ID: u32 = 42;

pub const PARSE_NO_FD: u32 = 43;

pub const PARSE_INVALID_OPCODE: u32 = 44;

pub const PARSE_INVALID_VARIANT: u32 = 45;

pub const PARSE_INVALID_INTERFACE: u32 = 46;

pub const PARSE_HEADER_LENGTH: u32 = 47;

pub const PARSE_MESSAGE_LENGTH: u32 = 48;

pub const PARSE_INVALID_NULL: u32 = 49;

pub const PARSE_NO_MEMORY: u32 = 50;

pub const EVENT_DEVICE_EVENT_BEFORE_DONE: u32 = 60;

pub const EVENT_DEVICE_SETUP_EVENT_AFTER_DONE: u32 = 61;

pub const EVENT_SEAT_SETUP_EVENT_AFTER_DONE: u32 = 62;

pub const EVENT_SEAT_EVENT_BEFORE_DONE: u32 = 63;

pub const EVENT_NO_DEVICE_TYPE: u32 = 64;

pub const EVENT_UNEXPECTED_HANDSHAKE_EVENT: u32 = 65;

pub const EVENT_UNKNOWN_CAPABILITY_INTERFACE: u32 = 66;

/// The number of what a call of the server answers.
pub(crate) fn answer_number(answer: Result<(), CallError>) -> u32
    ensures { result ≡ answer_number answer }
{
    match answer {
        Ok(()) => OK,
        Err(CallError::Over) => OVER,
        Err(CallError::Empty) => EMPTY,
        Err(CallError::TooLong) => TOO_LONG,
        Err(CallError::TooManyHandles) => TOO_MANY_HANDLES,
        Err(CallError::NotUnsent) => NOT_UNSENT,
    }
}

/// The number of why a call of a connection is refused.
pub(crate) fn refusal_number(refusal: Refusal) -> u32
    ensures { result ≡ refusal_number refusal }
{
    match refusal {
        Refusal::Over => OVER,
        Refusal::NotConnected => NOT_CONNECTED,
        Refusal::Empty => EMPTY,
        Refusal::TooLong => TOO_LONG,
        Refusal::TooManyHandles => TOO_MANY_HANDLES,
        Refusal::NotUnsent => NOT_UNSENT,
        Refusal::Gone => GONE,
        Refusal::WrongRole => WRONG_ROLE,
        Refusal::Capabilities => CAPABILITIES,
        Refusal::NoKeyboard => NO_KEYBOARD,
        Refusal::MessageTooLong => MESSAGE_TOO_LONG,
        Refusal::IdsExhausted => IDS_EXHAUSTED,
        Refusal::NoMemory => NO_MEMORY,
    }
}

/// The number of what a call of a connection answers.
pub(crate) fn outcome_number(outcome: Result<(), Refusal>) -> u32
    ensures { result ≡ outcome_number outcome }
{
    match outcome {
        Ok(()) => OK,
        Err(refusal) => refusal_number(refusal),
    }
}
