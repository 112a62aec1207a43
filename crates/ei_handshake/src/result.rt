//! What stands at the front, as a result.

ghost use Rattle.ei_handshake.specs.Pending.{ResultOf};

use ei_backend::PendingRequestResult;
use ei_types::{Error, HandshakeError};

/// The message, or why there is none: `Parse` of the error, or `InvalidObject` during the handshake.
pub fn request_result<T: Drop>(pending: PendingRequestResult<T>) -> Result<T, Error>
    ensures { ResultOf pending result }
{
    match pending {
        PendingRequestResult::Request(message) => Ok(message),
        PendingRequestResult::ParseError(error) => Err(Error::from(error)),
        PendingRequestResult::InvalidObject(id) => {
            Err(Error::Handshake(HandshakeError::InvalidObject(id)))
        }
    }
}
