//! Rules over a record: what passes of a list of requests, so that it can still be played back.
//!
//! Begin with `Filter`, which holds rules and a closure for the times, and with `Rule`. What passes is told by the
//! definitions, whose laws stand in `laws`: what passes of a record that can be played back can be played back.
#![tactic(auto)]

mod begun;
mod filter;
mod kind;
pub mod laws;
mod past;
mod retimed;
mod rule;

pub use filter::Filter;
pub use rule::Rule;
