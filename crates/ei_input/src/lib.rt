//! What an input of a device is, the same at both ends: as it waits for its time, as it is handed out, and the queue from
//! which it is.
//!
//! There is nothing of either end here: each names a device by a key of its own, `D`. Begin with `InputEvent` and with
//! `PointerMotion`, the first of the structs that it becomes.
#![tactic(auto)]

pub mod input_event;
mod queue;
mod traits;

pub use queue::Queue;
pub use traits::{DeviceEvent, EventTime};
