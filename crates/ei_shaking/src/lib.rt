//! The handshakes of a client and a server by their messages alone: which each of them sends, that neither refuses what the other sends,
//! that they complete, and that both then have the same versions. Definitions, and functions that do nothing and whose clauses are their
//! laws.
//!
//! There is no code here. Begin with `specs/Messages.antt`, the messages; `specs/Both.antt` has the two ends together.
#![tactic(auto)]

pub mod laws;
