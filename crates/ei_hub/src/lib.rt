//! Several clients of a server in one loop: each has a session of its own, and they are served by turns.
//!
//! There is no input and no output here but through the traits of the outside. Begin with `Hub`.
#![tactic(auto)]

mod client;
mod hub;
mod join;

pub use hub::{Hub, MOST_CLIENTS};
pub use join::{JoinCause, JoinError};
