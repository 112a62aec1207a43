//! A server's session for a program with a loop of its own: a compositor, which hands in what it read from a
//! client and takes out what is to be written to it.
//!
//! There is no input and no output here, and no clock: pieces of bytes, handles and the time are handed in,
//! replies and requests wait until they are taken. Begin with `Server`.
#![tactic(auto)]

mod moment;
mod one_piece;
mod replies;
mod server;

pub use server::{CallError, Server};
