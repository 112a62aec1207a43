//! The handshake of a client, event by event, and that of a server.

pub use ei_blocking::ei_handshake_blocking;
pub use ei_handshake::{
    EiHandshaker, EisHandshakeResp, EisHandshaker, HandshakeResp, Versions, request_result,
};
pub use ei_types::HandshakeError;
