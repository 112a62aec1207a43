//! The table of messages as code: what a message is, by its interface and opcode. Its one definition is that of `ei_spec`, and `row_of`
//! is that table, row by row.
#![tactic(auto)]

mod table;

pub use table::{Announcing, ArgKind, Row, row_of};
