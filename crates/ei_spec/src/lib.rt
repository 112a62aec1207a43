//! The words that every other crate is checked against: kinds and values of arguments, the table of
//! messages, raw messages, the reading of a stream, and words on the messages before a position.
//!
//! There is no protocol code here. Begin with `specs/Table.antt`, the table of all messages, and
//! `specs/Stream.antt`, the reading of a stream.
#![tactic(auto)]

mod handle;
mod interface;
pub mod laws;
pub mod limits;

pub use handle::Handle;
pub use interface::KnownInterface;
