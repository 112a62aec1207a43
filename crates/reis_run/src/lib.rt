//! The program `reis` but for its `main`: it serves a session from a text of hexadecimal lines, and reports.
//!
//! The protocol itself is not here. Begin with `run`, the program over any input, output and clock; `std_io` has those
//! of the system.
#![tactic(auto)]

mod program;
mod session;
pub mod std_io;
mod tell;
mod words;

pub use program::{NO_MEMORY, run};
pub use words::USAGE;
