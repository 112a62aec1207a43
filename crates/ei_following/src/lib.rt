//! What it is that a client's converter follows a list of events, and that it follows the list with one more: definitions, and functions
//! that do nothing and whose clauses are their laws.
//!
//! There is no code here. Begin with `specs/Core.antt`, what a converter keeps and what an event does to it; `specs/Following.antt`
//! says what it is to follow.
#![tactic(auto)]

pub mod laws;
