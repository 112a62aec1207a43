//! The values of a message: as a call gives them, as they are sent and as they are stored, by the kinds of the message's row.
//!
//! Begin with `Value` and `Values`. What a message is to, and what is sent or read, isn't here.
#![tactic(auto)]

mod announced;
mod filling;
mod fitting;
mod storing;
mod value;

pub use announced::{interface_in, new_id, version_of};
pub use filling::filled;
pub use fitting::fits;
pub use storing::stored;
pub use value::{Value, Values, args_of};
