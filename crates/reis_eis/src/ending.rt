//! How a connection ended.

use ei_types::Error;

/// How a connection ended. Nothing more is read from the client.
#[derive(Debug, Drop, PartialEq, Eq)]
pub enum Ending {
    /// The client disconnected.
    Disconnected,
    /// No more comes from the client, after the handshake.
    End,
    /// The program told the client that the connection ends.
    Told,
    /// What the client sent is refused, it went away during the handshake, or memory ran out.
    Refused(Error),
}
