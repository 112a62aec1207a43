//! What a client reports of a script of steps that a server carries out: definitions, and functions that do nothing and
//! whose clauses are their laws.
//!
//! There is no code here. Begin with `specs/Emitted.antt`, the steps and what a client is told of them;
//! `specs/Emits.antt` says what holds of the server's connection and of its messages behind a history of steps, and
//! `laws` has a law for each kind of step.
#![tactic(auto)]

pub mod laws;
