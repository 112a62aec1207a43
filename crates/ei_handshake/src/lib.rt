//! The handshake, of a client and of a server: which versions of which interfaces both ends have.
//!
//! There is no connection here but the one that the handshake hands over. Begin with `EiHandshaker`, or with `EisHandshaker`.
#![tactic(auto)]

mod client;
pub mod laws;
mod result;
mod server;
mod sizes;
mod versions;

pub use client::{EiHandshaker, HandshakeResp};
pub use result::request_result;
pub use server::{EisHandshakeResp, EisHandshaker};
pub use versions::Versions;
