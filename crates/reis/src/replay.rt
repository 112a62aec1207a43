//! A record of a session's requests: tested, and played back.

pub use ei_replay::{ReplayError, check, device_id, replay};
