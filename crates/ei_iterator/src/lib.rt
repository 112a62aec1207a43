//! A client's calls that block: the handshake, and an iterator over the events that come behind it.
//!
//! Begin with `handshake_blocking`, which gives the iterator, and with `EiConvertEventIterator::next`.
#![tactic(auto)]

mod iterator;
pub mod laws;
mod messages;
mod pieces;
mod shaking;

pub use iterator::EiConvertEventIterator;
pub use shaking::handshake_blocking;
