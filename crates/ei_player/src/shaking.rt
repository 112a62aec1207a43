//! The handshake of a client that plays a record.

ghost use Rattle.std.specs.Prelude.{◌≡◌, Some, true, OnOk};
ghost use Rattle.ei_backend.specs.Table.{found, first_object};
ghost use Rattle.ei_backend.specs.Endpoint.{endpoint_of};
ghost use Rattle.ei_handshake.specs.Handshaker.{sends};
ghost use Rattle.ei_greeting.specs.Shaking.{greeting};
ghost use Rattle.ei_playing.specs.Playing.{player};

use ei_client::{Context, Event, handshake};
use ei_handshake::EiHandshaker;
use ei_types::ContextType;
use ei_wire::NoMemory;
use std::alloc::Global;

/// Sends all of a client's handshake, as `replay`, which sends input. The server has begun.
pub fn shake_hands(alloc: Global, client: &mut Context) -> Result<(), NoMemory>
    requires { found client.old.table 0 ≡ Some (first_object true) }
    ensures { OnOk result (endpoint_of client.new ≡ endpoint_of (sends client.old (greeting player 0))) }
{
    let mut handshaker = EiHandshaker::new(alloc, "replay", ContextType::Sender)?;
    let begins = handshake::Event::HandshakeVersion { version: 1 };
    let event = Event::Handshake(client.handshake().unwrap(), begins);
    match handshaker.handle_event(client, event) {
        Ok(_) => Ok(()),
        Err(_) => Err(NoMemory),
    }
}
