//! What a client reports of a server's events: definitions, with their laws.
//!
//! There is no protocol code here. Each definition takes what was said before a position, the newest first, so that
//! "one more event" is its own clause. Begin with `specs/Said.antt`, which reads an event once, by its name in the
//! table of all messages; then `specs/Standing.antt` has the seats, the devices and their interfaces, and
//! `specs/Reported.antt` why an event is refused, what it gives, the serial, and `reported`, the whole.
#![tactic(auto)]

pub mod laws;
pub mod rows;
pub mod standing;
pub mod worked;
