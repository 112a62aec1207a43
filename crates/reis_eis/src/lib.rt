//! One connection of a server, for a program with a loop and a policy of its own: a compositor, which announces seats and
//! devices as it likes.
//!
//! There is no input and no output here, no clock and no policy: pieces of bytes, handles and the time are handed in, what is
//! to be written and what the client asks and tells wait until they are taken, and seats and devices are named by their ids.
//! Begin with `Connection`.
#![tactic(auto)]

mod call_error;
mod connection;
mod ending;
mod inputs;
mod keyed;
mod keys;
mod moment;
mod notice;
mod one_piece;
mod phase;
mod ping;
mod shaking;
mod step;
mod written;

pub use call_error::CallError;
pub use connection::Connection;
pub use ending::Ending;
pub use notice::Notice;
