//! What is kept of a handler's call.

/// A handler was called: at the end of this callback, with this value, and it gave this answer.
#[derive(Clone, Copy, Debug, PartialEq, Eq)]
pub struct Receipt {
    pub callback: u64,
    pub value: u64,
    pub answer: u64,
}
