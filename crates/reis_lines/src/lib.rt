//! The pieces of a session as a text: each line has a piece's bytes as hexadecimal digits.
//!
//! There is no protocol here, and no file: the text comes from an `Input`, in memory or of a type of the caller's own. Begin with
//! `HexSource`.
#![tactic(auto)]

mod digits;
mod given;
mod held;
mod hex_source;
mod input;
mod memory_text;

pub use given::Given;
pub use held::Held;
pub use hex_source::HexSource;
pub use input::Input;
pub use memory_text::MemoryText;
