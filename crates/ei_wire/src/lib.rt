//! Arguments of messages, read and written, and the errors of reading, sending and flushing.
//!
//! There are no messages here and no objects. Begin with `Arg`, what is written, and `ByteStream`,
//! what is read.
#![tactic(auto)]

mod arg;
mod arg_text;
mod error;
mod header;
pub mod laws;
mod names;
mod rows;
mod sealed;
mod stream;
mod text;

pub use arg::{Arg, OwnedArg, RawFloat};
pub use ei_spec::{Handle, KnownInterface};
pub use error::{FlushError, NoMemory, ParseError, ReadError, SendError};
pub use header::Header;
pub use rows::{lawful_none, lawful_one, lawful_three, lawful_two};
pub use sealed::Sealed;
pub use stream::ByteStream;
pub use text::EiText;
