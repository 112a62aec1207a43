//! Rules over a record: what passes of it, so that it can still be played back.

pub use ei_filter::{Filter, Rule};
