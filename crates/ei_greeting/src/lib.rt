//! What a client's handshake comes to, over what is unread and the pieces that come: definitions, and functions that do nothing and whose
//! clauses are their laws.
//!
//! There is no code here. Begin with `specs/Shaking.antt`, which says what becomes of one message; `specs/Opening.antt` has the whole.
#![tactic(auto)]

pub mod laws;
pub mod worked;
