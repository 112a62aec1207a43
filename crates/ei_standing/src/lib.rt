//! What it is that a server's converter stands for a history, and that it stands for one more message with what the
//! definitions say of that message: laws of the definitions, and no code.
//!
//! Begin with `devices`, the messages to devices, and `connections`, all others. Each function does nothing: its
//! clauses are the laws.
#![tactic(auto)]

pub mod connections;
pub mod devices;
