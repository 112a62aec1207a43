//! The row `handshake`: a session over a client's handshake.

use crate::row::Outcome;
use crate::saying::say_versions;
use crate::serving::serve_said;
use ei_backend::Tray;
use ei_types::Error;
use std::alloc::Global;

/// Serves a client that tells so many versions, and ends the handshake.
pub(crate) fn row(alloc: Global, messages: u32, said: &mut Tray) -> Result<Outcome, Error> {
    say_versions(alloc, messages, said)?;
    let replies = serve_said(alloc, said.bytes(), false)?;
    Ok(Outcome::Served(u64::from(messages) + 1, replies))
}
