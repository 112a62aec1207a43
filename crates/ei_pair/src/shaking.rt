//! The server's end shakes hands.

ghost use Rattle.std.specs.Prelude.{◌≡◌};
ghost use Rattle.ei_backend.specs.Backend.{BackendView};
ghost use Rattle.ei_backend.specs.Lent.{LentClock};
ghost use Rattle.ei_pair.specs.ServerEnd.{endpoint_in};
ghost use Rattle.ei_pair.specs.Stages.{FinishesEnd, ShakesEnd, ObeysEnd};
ghost use Rattle.ei_pair.specs.declared.server_end.ServerEnd.TheVariants as end;

use crate::server_end::ServerEnd;
use ei_backend::Clock;
use ei_handshake::EisHandshaker;
use ei_linked::Half;
use ei_request::EisRequestConverter;
use ei_server::{Context, Handshake, Request};
use ei_types::Error;
use std::alloc::Global;
use std::mem;

/// Hands a request to the handshaker of a server's end. Where that hands the connection over, the converter is made.
fn shake(
    alloc: Global,
    server: &mut ServerEnd,
    tells: &mut EisHandshaker,
    serial: u32,
    request: Request,
) -> Result<(), Error>
    requires shakes { server.old ≡ end.Shaking (endpoint_in server.old) }
    requires serial { serial ≡ tells.old.serial }
    ensures { ShakesEnd tells.old (endpoint_in server.old) request result tells.new server.new }
{
    match tells.keep(request)? {
        None => Ok(()),
        Some(handshake) => finish(alloc, server, tells, serial, &handshake),
    }
}

/// The client is done: the handshaker hands the connection over, and the converter is made.
fn finish(
    alloc: Global,
    server: &mut ServerEnd,
    tells: &mut EisHandshaker,
    serial: u32,
    handshake: &Handshake,
) -> Result<(), Error>
    requires shakes { server.old ≡ end.Shaking (endpoint_in server.old) }
    requires serial { serial ≡ tells.old.serial }
    ensures { FinishesEnd handshake.now.id tells.old (endpoint_in server.old) result tells.new server.new }
{
    let spare = Context::new(alloc)?;
    match server {
        ServerEnd::Shaking(context) => match tells.finish(context, handshake) {
            Ok(resp) => {
                let context = mem::replace(context, spare);
                let converter = EisRequestConverter::new(alloc, context, resp, serial);
                drop(mem::replace(server, ServerEnd::Talking(converter)));
                Ok(())
            }
            Err(error) => {
                // by a call: at the end of a scope the drop of each field is proved anew
                drop(spare);
                Err(error)
            }
        },
        ServerEnd::Talking(_) => unreachable!(),
    }
}

/// Hands a request to what stands over a server's endpoint: its handshaker, or its converter once that one is done.
fn obey<C: Clock>(
    alloc: Global,
    server: &mut ServerEnd,
    tells: &mut EisHandshaker,
    serial: u32,
    clock: &mut C,
    request: Request,
) -> Result<(), Error>
    requires serial { serial ≡ tells.old.serial }
    ensures obeys { ObeysEnd server.old tells.old request (C.view clock.old).left (C.view clock.new).left
        result tells.new server.new }
    ensures clock { LentClock C.later clock.old clock.new }
{
    match server {
        ServerEnd::Talking(converter) => converter.handle_request(clock, request),
        ServerEnd::Shaking(_) => shake(alloc, server, tells, serial, request),
    }
}

/// The same of the server's end with what it sent and took, which stays.
pub(crate) fn obey_at<C: Clock>(
    alloc: Global,
    server: &mut Half<ServerEnd>,
    tells: &mut EisHandshaker,
    serial: u32,
    clock: &mut C,
    request: Request,
) -> Result<(), Error>
    requires serial { serial ≡ tells.old.serial }
    ensures obeys { ObeysEnd server.old.context tells.old request (C.view clock.old).left (C.view clock.new).left
        result tells.new server.new.context }
    ensures rest { server.new ≡ record server.old { context = server.new.context } }
    ensures clock { LentClock C.later clock.old clock.new }
{
    obey(alloc, &mut server.context, tells, serial, clock, request)
}
