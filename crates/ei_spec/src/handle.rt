//! Handles.

/// A number that stands for a file descriptor which comes beside the bytes.
#[derive(Clone, Copy, Debug, PartialEq, Eq, Hash)]
pub struct Handle(pub u32);
