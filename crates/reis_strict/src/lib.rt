//! What becomes of a client's requests where libeis would refuse them and the protocol leaves it open: a policy that a
//! program may ask beside its connection.
//!
//! There is no protocol here: a `Strict` takes a connection's requests, and hands out those that pass; each call of the
//! program that resumes, pauses or removes a device is told to it. Begin with `Strict`. What its verdicts come to by all
//! that was told says `laws`.
#![tactic(auto)]

mod act;
mod codes;
mod device;
mod fault;
pub mod laws;
mod sifting;
mod strict;
mod verdict;

pub use fault::Fault;
pub use strict::Strict;
pub use verdict::Verdict;
