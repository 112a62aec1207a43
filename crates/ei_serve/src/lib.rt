//! A server's session over pieces of bytes: one handshake, one seat, and a client's requests until it
//! disconnects.
//!
//! There is no input and no output here but through the traits of the outside. Begin with `serve`, the
//! whole session, or with `Session`, which takes one piece a turn.
#![tactic(auto)]

mod connected;
mod ended;
mod handshaking;
mod phase;
mod policy;
mod serve_loop;
mod session;
mod state;

pub use ended::ended_by;
pub use serve_loop::serve;
pub use session::{Ended, Session, Setup, Turn};
