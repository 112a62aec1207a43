//! Why a client refuses no event of a steady server: one that names only what it holds. Definitions, and functions that do nothing and
//! whose clauses are their laws.
//!
//! There is no code here. Begin with `specs/Steady.antt`: `Stands` says that what a server holds stands with its client, and
//! `GoesOn` that some events are taken and leave it so.
#![tactic(auto)]

pub mod laws;
