//! Several clients of a server in one loop: each has a session of its own, and they are served by turns.

pub use ei_hub::{Hub, JoinCause, JoinError, MOST_CLIENTS};
