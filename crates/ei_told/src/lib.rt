//! What a client took of a server's messages is what the server sent, where none was dropped, so that whatever holds of all events
//! that were sent holds of those that were taken. Definitions, and a function that does nothing and whose clauses are their laws.
//!
//! There is no code here. Begin with `specs/Told.antt`. Lists of messages have the newest first.
#![tactic(auto)]

pub mod laws;
