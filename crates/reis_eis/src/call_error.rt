//! Why a call did nothing.

ghost use Rattle.std.specs.Prelude.{◌≡◌};
ghost use Rattle.reis_eis.specs.declared.call_error.CallError.TheVariants as call_error;
ghost use Rattle.reis_eis.specs.Refusals.{of_send};

use ei_wire::SendError;
use std::alloc::AllocError;

/// Why a call did nothing: all is as it was, but that more memory may be ready.
#[derive(Clone, Copy, Debug, PartialEq, Eq)]
pub enum CallError {
    /// The connection has ended.
    Over,
    /// The handshake isn't done.
    NotConnected,
    /// The piece has no byte.
    Empty,
    /// The piece has more than 65536 bytes.
    TooLong,
    /// More handles than may be at once: a piece has more than 64 of them, or more than 64 would wait to be written.
    TooManyHandles,
    /// So many bytes don't wait to be written.
    NotUnsent,
    /// The seat or the device isn't there, or is there no more.
    Gone,
    /// The client isn't a receiver.
    WrongRole,
    /// A capability that the seat wasn't given, or whose interface the device doesn't have, or has no more.
    Capabilities,
    /// A keymap for a device without a keyboard.
    NoKeyboard,
    /// A text is so long that its message would have more than 1048576 bytes.
    MessageTooLong,
    /// Too few ids are left.
    IdsExhausted,
    /// Memory ran out.
    NoMemory,
}

impl From<SendError> for CallError {
    ghost from_gives = { λ e whole. whole ≡ of_send e };

    fn from(e: SendError) -> CallError {
        match e {
            SendError::MessageTooLong => CallError::MessageTooLong,
            SendError::IdsExhausted => CallError::IdsExhausted,
            SendError::NoMemory => CallError::NoMemory,
        }
    }
}

impl From<AllocError> for CallError {
    ghost from_gives = { λ e whole. whole ≡ call_error.NoMemory };

    fn from(_e: AllocError) -> CallError {
        CallError::NoMemory
    }
}
