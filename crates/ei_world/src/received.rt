//! What a side took.

use ei_backend::PendingRequestResult;

/// What the client took, or the server.
#[derive(Drop)]
pub enum Received {
    Client(PendingRequestResult<ei_client::Event>),
    Server(PendingRequestResult<ei_server::Request>),
}
