//! What may be relied on of two ends over links, each with its handshaker and then its converter: definitions and laws.
//!
//! There is no code here but the enums of what a server may be asked to do and what it makes. Begin with `specs/Pair.antt`,
//! what a pair is, and `specs/Promises.antt`, what holds of it.
#![tactic(auto)]

mod calls;
pub mod laws;

pub use calls::{Made, ServerCall};
