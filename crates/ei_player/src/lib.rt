//! The client that plays a record: its objects, by the ids that a server gives them, and its handshake.
//!
//! Nothing is read here. Begin with `shake_hands`.
#![tactic(auto)]

mod objects;
mod shaking;

pub use objects::{announce_device, announce_first, interface_id, proxy};
pub use shaking::shake_hands;
