//! What tests that are tables of calls share.
//!
//! A line of a table is a call with its arguments, a bar, and what it answers. A line `let NAME = WORD WORD ..` names a
//! text, its words without the blanks between them; any other line without a bar is a heading. In a word of a call or of
//! an answer `$NAME` stands for that text, `$NAME*9` for it nine times, and `$NAME+NAME*9` for one behind another.
//!
//! Nothing is tested here, and of these functions only safety is proved: the tables show what they answer. Begin with
//! `count_right`.
#![tactic(auto)]

mod answer;
mod names;
mod reader;
mod stop;
mod table;
mod words;

pub use answer::Answer;
pub use names::Names;
pub use reader::Reader;
pub use stop::Stop;
pub use table::{Answers, count_right};
pub use words::{bytes, count, first, id, joined, number};
