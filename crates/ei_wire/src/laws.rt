//! The laws of arguments and names. Each function does nothing: its clauses are the laws.

pub use crate::arg::{no_proper_prefix, no_spelling, read_back, spelled};
pub use crate::names::interface_names;
