//! Two endpoints with their handshakes and converters: from the first byte to events and requests.
//!
//! Begin with `Pair`, and with `specs/Pair.antt` of `ei_promises`, what contracts see of one.
#![tactic(auto)]

mod by_lists;
mod calling;
mod client_call;
mod client_steps;
mod following;
mod moving;
mod pair;
mod parts;
mod server_calls;
mod server_end;
mod serving;
mod shaking;
mod steady;
mod stepping;
mod storing;
mod texts;

pub use client_call::ClientCall;
pub use ei_linked::{Got, Record, Side};
pub use ei_promises::{Made, ServerCall};
pub use pair::Pair;
