//! The session over a stream that numbers make up, and the six lines that say what it came to.
//!
//! The protocol itself is not here, and nothing is read or written. Begin with `demo`, the session and its lines;
//! `Generated` is the source of the stream.
#![tactic(auto)]

mod demo_session;
mod generated;
pub mod laws;
mod lines;
mod opening;
mod replies;
mod script;
mod tally;
pub mod worked;

pub use demo_session::{Summary, demo};
pub use generated::Generated;
