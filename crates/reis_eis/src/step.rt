//! What becomes of a message.

use crate::ending::Ending;
use crate::notice::Notice;

/// What became of the message at the front.
#[derive(Drop)]
pub(crate) enum Step {
    /// There was no whole message.
    Waiting,
    /// It was handled.
    Handled,
    /// It was handled, and tells this.
    Noted(Notice),
    /// It ended the connection.
    Ended(Ending),
}
