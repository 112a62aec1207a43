//! Each act of a server's end as a list of messages: what its converter sends at a call and at a request, what that
//! makes of its endpoint, that it may be sent, and that a client which stands with what the connection holds refuses
//! none of it. Definitions, and functions that do nothing and whose clauses are their laws.
//!
//! There is no code here. Begin with `specs/Acts.antt`, the lists; `specs/Holding.antt` says what holds of each,
//! `specs/Acting.antt` of a server that does one act after another, and `specs/Serving.antt` what stays so throughout.
#![tactic(auto)]

pub mod laws;
