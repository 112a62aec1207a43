//! What two ends sent and took, and what ties them: definitions, and functions that do nothing and whose clauses are
//! the laws of those definitions.
//!
//! There is no code here. Begin with `specs/Agree.antt`, what it means that one end took what the other sent, and
//! `specs/Way.antt`, what holds of two ends at any time. Lists of messages have the newest first.
#![tactic(auto)]

pub mod laws;
pub mod worked;
