//! A server's session, and a connection for a policy of one's own, for a caller in C. `include/reis.h` says what each call
//! is to such a caller.
//!
//! Nothing is decided here: `reis_server` is the session, `reis_eis` the connection, and `reis_strict` the policy beside one
//! that was started with the flag. A caller owns one word, which is zero or the address of one of them; each export takes it
//! out, works on it, and puts it back. Begin with `exports` and `connection_exports`; `numbers` has each number that crosses.
#![tactic(auto)]

mod connection;
mod connection_exports;
mod connection_slot;
mod device;
mod ending;
mod exports;
mod flat;
mod held;
mod input;
mod meaning;
mod numbers;
mod policy;
mod slot;
mod unboxed;
mod writing;
