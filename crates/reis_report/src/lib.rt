//! The text that the program writes of a session: a line for the replies, and one for each request.
//!
//! Nothing is served here. Begin with `request_line`, a request as a line; `push_line` and `push_reply_line` put lines
//! behind a report, `answer_text` says how its session ended, and `write_all` writes it.
#![tactic(auto)]

mod ending;
mod fields;
mod report;
mod requests;

pub use ending::answer_text;
pub use report::{push_line, push_reply_line, write_all};
pub use requests::request_line;
