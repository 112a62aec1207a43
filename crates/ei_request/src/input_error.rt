//! Why an input is refused.

ghost use Rattle.std.specs.Prelude.{Option};
ghost use Rattle.ei_request.specs.Refusing.{Reason, Tells, TellsOfInput};

use ei_types::{Error, RequestError};

/// Why an input is refused. It takes one byte; what it tells beside it is made of it once it leaves the connection.
#[derive(Debug, Drop)]
pub(crate) enum InputError {
    /// A touchscreen that knows no cancelling cancels a touch.
    OldTouchscreen,
    /// Sixteen touches are down, and one more goes down.
    TooManyTouches,
    /// A touch that is down goes down.
    DuplicatedTouchDown,
    /// The text has no bytes, or more than 254.
    InvalidTextLength,
    /// Memory ran out.
    NoMemory,
}

impl InputError {
    /// The error that tells it of an interface of that version.
    #[inline(never)]
    pub(crate) fn error(self, version: u32) -> Error
        ensures { (reason : Option Reason) → TellsOfInput version reason self → Tells reason result }
    {
        match self {
            InputError::OldTouchscreen => {
                Error::InvalidInterfaceVersion("ei_touchscreen", version)
            }
            InputError::TooManyTouches => Error::Request(RequestError::TooManyTouches),
            InputError::DuplicatedTouchDown => Error::Request(RequestError::DuplicatedTouchDown),
            InputError::InvalidTextLength => Error::Request(RequestError::InvalidTextLength),
            InputError::NoMemory => Error::NoMemory,
        }
    }
}
