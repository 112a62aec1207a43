//! A record tested, and played back: a list of requests, as a server handed them out, told to another by a client.
//!
//! Begin with `check` and `replay`; what is wrong with an item say the definitions of `ei_record`, and what it is played as those of
//! `ei_playing`.
#![tactic(auto)]

mod asked;
mod bearing;
mod calls;
mod delivery;
mod error;
pub mod laws;
mod made;
mod played;
mod player;
mod record_check;
mod record_replay;
mod step;

pub use asked::device_id;
pub use error::ReplayError;
pub use record_check::check;
pub use record_replay::replay;
