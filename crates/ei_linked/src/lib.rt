//! Two ends over links, whatever holds their endpoints: their messages as they are stored, what lies between them, and the steps of
//! either end. `World` and what stands on it share it.
//!
//! Begin with `Ends`, and with `specs/TwoEnds.antt`: what one end took is, message by message, what the other sent.
#![tactic(auto)]

mod asking;
mod ends;
mod half;
mod link;
mod met;
mod portion;
mod record;
mod side;
mod written;

pub use asking::is_of_row;
pub use ends::Ends;
pub use half::{Half, HalfError};
pub use link::Link;
pub use record::{Announced, Got, Record, Target};
pub use side::Side;
pub use written::{StoreError, Unsent};
