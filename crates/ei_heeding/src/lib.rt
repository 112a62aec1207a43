//! What it is that the code of a client's converter follows a list of events, and that it follows the list with one
//! more.
//!
//! There is no code here but `follow_event`, which only calls the converter. Begin with `specs/Heeding.antt`.
#![tactic(auto)]

mod follow;
pub mod laws;

pub use follow::follow_event;
