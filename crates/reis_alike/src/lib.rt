//! What a program of the fixed policy comes to over `reis_eis`: it serves its client as `serve` of `ei_serve` does.
//! Definitions, and functions that do nothing and whose clauses are their laws.
//!
//! There is no code here. Begin with `specs/Program.antt`, which says what such a program does with its calls: behind
//! the handshake it adds one nameless seat, behind each request it does what the policy of `serve` says, and it hands
//! in pieces of which each makes at most one message whole. `specs/Alike.antt` says what comes of it, and `laws` has
//! the laws of one turn, of a whole run, and of which calls are refused.
#![tactic(auto)]

pub mod laws;
