//! A server of several clients in one loop.

ghost use Rattle.std.specs.Prelude.{◌≤◌};
ghost use Rattle.ei_types.specs.Capability.{bits_of, all_bits};

use crate::outside::{Inbox, Outbox};
use crate::record::{show_played, show_record};
use crate::sifted::show_sifted;
use crate::stop::Stop;
use ei_backend::Readings;
use ei_hub::Hub;
use ei_serve::Setup;
use ei_types::DeviceCapabilities;
use std::io::Print;

/// Serves a client that sends these bytes and one that sends none, by turns, until each has its end, and shows how much each
/// asked for.
pub(crate) fn serve_clients<R: Print + AllocGlobal>(rt: &R, stream: &[u8]) -> Result<(), Stop> {
    let setup = Setup {
        initial_serial: 5,
        capabilities: DeviceCapabilities::all(),
        pieces: 200,
    };
    let mut hub = Hub::new(rt.alloc(), setup);
    let served = serve_both(rt, &mut hub, stream, &setup);
    // Let go by a call: at the end of a scope the drop of each field is proved anew.
    drop(hub);
    served
}

/// The two join, are served, and are shown.
fn serve_both<'a, R: Print + AllocGlobal>(
    rt: &R,
    hub: &mut Hub<Inbox<'a>, Outbox>,
    stream: &'a [u8],
    setup: &Setup,
) -> Result<(), Stop>
    requires lawful { bits_of setup.now.capabilities ≤ all_bits }
{
    let mut clock = Readings::new(rt.alloc(), &[])?;
    join(rt, hub, stream)?;
    join(rt, hub, &[])?;
    hub.serve_all(&mut clock);
    show_clients(rt, hub, setup)
}

/// A client of this stream joins.
fn join<'a, R: Print + AllocGlobal>(
    rt: &R,
    hub: &mut Hub<Inbox<'a>, Outbox>,
    stream: &'a [u8],
) -> Result<(), Stop> {
    if let Err(refused) = hub.join(Inbox::new(stream), Outbox::new(rt.alloc())) {
        println!(rt; "could not join: {}", refused.cause)?;
    }
    Ok(())
}

/// Shows how much each client asked for, what its source has left, whether what it asked for can be played back, what comes of
/// that, and how much of it is no text.
fn show_clients<R: Print + AllocGlobal>(
    rt: &R,
    hub: &Hub<Inbox<'_>, Outbox>,
    setup: &Setup,
) -> Result<(), Stop>
    requires lawful { bits_of setup.now.capabilities ≤ all_bits }
{
    for client in 0..hub.count() {
        println!(rt;
            "client {client} asked for {} things, and has {} bytes left",
            hub.requests(client).len(),
            hub.source(client).left()
        )?;
        show_record(rt, setup, hub.requests(client))?;
        show_played(rt, setup, hub.requests(client))?;
        show_sifted(rt, hub.requests(client))?;
    }
    Ok(())
}
