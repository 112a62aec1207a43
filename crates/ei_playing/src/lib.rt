//! How a record of requests is played, by its items alone: which messages they are sent as, that a server accepts them all, and that it
//! hands out the items. Definitions, and functions that do nothing and whose clauses are their laws.
//!
//! There is no code here. Begin with `specs/Playing.antt`, the messages; `laws` says what becomes of them.
#![tactic(auto)]

pub mod laws;
