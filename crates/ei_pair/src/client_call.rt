//! What a client may be asked to do.

use ei_backend::Object;
use ei_handler::Handler;
use ei_values::Value;

/// A call of a client.
#[derive(Drop)]
pub enum ClientCall<'a, H = Handler> {
    /// The request of these values to an object, by its row.
    Call {
        target: Object,
        opcode: u32,
        values: &'a [Value],
    },
    /// `sync` with version 1, and a handler of its callback.
    SyncWith(H),
}
