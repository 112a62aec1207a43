//! What a server's session is: the definitions that the theorem of `serve` cites, with their laws.
//!
//! There is no protocol code here. Each definition takes the messages before a position, the newest
//! first, so that "one more message" is its own clause, and the messages of a stream cut short are a
//! tail of the list. Begin with `specs/Served.antt`, the session over pieces, which stands on `Refusals`,
//! `Requests` and `Events`; these stand on `Inputs`, `Devices`, `Objects`, `Serial` and `Touches`.
//!
//! What a request asks is told in `Meaning`, by its row in the table of messages. `ByMeaning` and
//! `AnsweredByMeaning` have the item, the refusal and the answer by it, a line for each thing asked: what
//! stands above reads no name and no byte. `Kept` says what a message leaves as it was.
#![tactic(auto)]

mod all_requests;
mod completeness;
mod devices_held;
mod kinds_of_messages;
pub mod laws;
mod meanings;
mod next;
mod objects_by_id;
mod told;
mod versions;
mod worked;
mod worked_told;
