//! What becomes of a request.

use crate::fault::Fault;

/// What becomes of a request.
#[derive(Clone, Copy, Debug, PartialEq, Eq)]
pub enum Verdict {
    /// It is acted on.
    Pass,
    /// Nothing is done with it: the client couldn't know yet, or it would change nothing.
    Drop,
    /// The client is ended.
    End(Fault),
}
