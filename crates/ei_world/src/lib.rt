//! Two endpoints that talk over links, one message, one piece and one read at a time, however these come in turn.
//!
//! Begin with `World`, and with `specs/TwoEnds.antt`: what one end took is, message by message, what the other sent. What a
//! handshake and a converter make of the messages isn't here.
#![tactic(auto)]

mod received;
mod run;
mod world;

pub use ei_linked::{Got, Record, Side};
pub use ei_values::{Value, Values};
pub use received::Received;
pub use run::{Step, WorldEnd};
pub use world::World;
