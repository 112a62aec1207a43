//! A client's handshake that blocks: it reads pieces, and answers, up to the connection.
//!
//! There is nothing of what comes behind the connection. Begin with `ei_handshake_blocking`.
#![tactic(auto)]

mod blocking;
mod messages;

pub use blocking::ei_handshake_blocking;
