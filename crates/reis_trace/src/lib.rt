//! Messages as lines of text, and the replies of a server as a client reads them.
//!
//! Begin with `trace_line`, one message as a line; `trace` has the lines of all replies, and `laws` says that these are the
//! trace of the session that answered them.
#![tactic(auto)]

pub mod laws;
mod line;
mod one_piece;
mod reply;

pub use line::trace_line;
pub use reply::trace;
