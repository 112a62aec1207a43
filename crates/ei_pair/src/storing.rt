//! What an end wrote by its handshaker or converter is stored.

ghost use Rattle.std.specs.Prelude.{◌≡◌, ◌≢◌, List, length, true, false, OnOk, OnErr};
ghost use Rattle.ei_ends.specs.Sent.{Sent};
ghost use Rattle.ei_linked.specs.Held.{stored_by};
ghost use Rattle.ei_linked.specs.Written.{AreWritten, stored_onto};

use ei_backend::HasBackend;
use ei_linked::{Ends, Unsent};
use ei_wire::NoMemory;

/// Stores what the server put behind what waited to be sent. Where memory is wanted, the ends are spent.
pub(crate) fn store_server<S: HasBackend>(
    ends: &mut Ends<S>,
    before: Unsent,
) -> Result<(), NoMemory>
    ensures stores { (ms : List Sent) → AreWritten true before ms (stored_by S.seen ends.old.server) →
        OnOk result (ends.new ≡ record ends.old {
          server = record ends.old.server {
            sent = stored_onto true ms ends.old.server.sent;
          };
        }) }
    ensures err { OnErr result (ends.new ≡ record ends.old { spent = true }) }
    ensures more { OnErr result (length (S.seen ends.old.server.context).unsent ≢ before.bytes) }
{
    if ends.server.unsent().bytes == before.bytes {
        return Ok(());
    }
    match ends.server.store_sent(ends.alloc, true, before) {
        Ok(()) => Ok(()),
        Err(_) => {
            ends.spent = true;
            Err(NoMemory)
        }
    }
}

/// Stores what the client put behind what waited to be sent. Where memory is wanted, the ends are spent.
pub(crate) fn store_client<S: HasBackend>(
    ends: &mut Ends<S>,
    before: Unsent,
) -> Result<(), NoMemory>
    ensures stores { (ms : List Sent) → AreWritten false before ms (stored_by (λ b. b) ends.old.client) →
        OnOk result (ends.new ≡ record ends.old {
          client = record ends.old.client {
            sent = stored_onto false ms ends.old.client.sent;
          };
        }) }
    ensures err { OnErr result (ends.new ≡ record ends.old { spent = true }) }
    ensures more { OnErr result (length ends.old.client.context.unsent ≢ before.bytes) }
{
    if ends.client.unsent().bytes == before.bytes {
        return Ok(());
    }
    match ends.client.store_sent(ends.alloc, false, before) {
        Ok(()) => Ok(()),
        Err(_) => {
            ends.spent = true;
            Err(NoMemory)
        }
    }
}
