//! A marker.

/// Marks the types that a trait of the protocol is meant for. It promises nothing.
pub trait Sealed {}
