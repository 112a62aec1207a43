//! What a client calls at the end of its callbacks: each handler once, and a receipt of each call.
//!
//! There is no protocol here: a callback is a number. Begin with `Call`, what a handler can do, and with `Handlers`,
//! which keeps those that wait; `Handler` is one around a caller's box.
#![tactic(auto)]

mod handler;
mod handlers;
mod receipt;

pub use handler::{Call, Handler, Run};
pub use handlers::Handlers;
pub use receipt::Receipt;
