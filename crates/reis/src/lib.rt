//! Both ends of the emulated input protocol, under the names and in the modules of the Rust crate `reis`.
//!
//! There is no code here: each module passes on what stands in a crate of its own. Begin with `serve`, a whole session of a
//! server; with `hub`, several clients in one loop; with `request`, a server's connection that a program drives itself; with
//! `ei`, the messages of a client; or with `world`, two endpoints that talk in memory.
#![tactic(auto)]

pub mod ei;
pub mod eis;
pub mod event;
pub mod filter;
pub mod handshake;
pub mod hub;
pub mod outside;
pub mod replay;
pub mod request;
pub mod serve;
pub mod wire;
pub mod world;

pub use ei_backend::{Interface, Object, PendingRequestResult};
pub use ei_types::Error;
pub use ei_wire::ParseError;
