//! Two endpoints over links, for what a client and a server say to each other in any order and any pieces: by their messages
//! alone, or from the first byte on, with both handshakes and both converters; and a script of inputs that a server sends to
//! a client which receives them.

pub use ei_emit::{EmitError, EmitStep, emit};
pub use ei_pair::{ClientCall, Made, Pair, ServerCall};
pub use ei_world::{Got, Received, Record, Side, Step, Value, Values, World, WorldEnd};
