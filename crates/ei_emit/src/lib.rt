//! The receiver role: a server sends a script of inputs to a client that receives them, both in memory, and the client's
//! converter reports it.
//!
//! Begin with `emit`; what the client is told of a script say the definitions of `ei_emitting`.
#![tactic(auto)]

mod beginning;
mod carrying;
mod devices;
mod emitter;
mod emitting;
mod error;
pub mod laws;
mod performing;
mod playing;
mod step;

pub use emitting::emit;
pub use error::EmitError;
pub use step::EmitStep;
