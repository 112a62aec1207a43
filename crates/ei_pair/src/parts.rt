//! What two ends with handshakers and converters are made of.

ghost use Rattle.std.specs.Prelude.{◌≡◌, IfOk};
ghost use Rattle.std.specs.Option.{option_copied, option_map};
ghost use Rattle.ei_linked.specs.TwoEnds.{IsWorld};
ghost use Rattle.ei_promises.specs.Pair.{connection_in, maps_in, IsNew};
ghost use Rattle.ei_pair.specs.Begun.{JoinsAt};
ghost use Rattle.ei_pair.specs.Parts.{pair_in};

use crate::server_end::ServerEnd;
use crate::storing::store_server;
use ei_event::EiEventConverter;
use ei_handler::Call;
use ei_handshake::{EiHandshaker, EisHandshaker, Versions};
use ei_linked::{Ends, Unsent};
use ei_request::Connection;
use ei_shaking::laws::server_messages;
use ei_types::ContextType;
use ei_wire::NoMemory;
use std::alloc::Global;
use std::marker::Model;

/// Both ends over links, with both handshakers and the client's converter; the server's stands at its end.
#[derive(Drop)]
pub(crate) struct Parts<H> {
    pub(crate) ends: Ends<ServerEnd>,
    pub(crate) asks: EiHandshaker,
    pub(crate) tells: EisHandshaker,
    pub(crate) converter: Option<EiEventConverter<H>>,
    pub(crate) initial_serial: u32,
    pub(crate) steady: bool,
    pub(crate) client_wanted: bool,
    pub(crate) server_wanted: bool,
}

impl<H> Model for Parts<H> {
    ghost use Rattle.ei_pair.specs.Parts.{PartsView, parts_code};

    ghost Value = { PartsView H };

    ghost coded = { parts_code H.code };

    ghost view = { λ p. record {
      ends = p.ends;
      asks = p.asks;
      tells = p.tells;
      converter = p.converter;
      serial = p.initial_serial;
      steady = p.steady;
      client_wanted = p.client_wanted;
      server_wanted = p.server_wanted;
    } };
}

/// Nothing waits to be sent.
fn nothing_unsent() -> Unsent
    ensures { result ≡ record { bytes = 0; handles = 0 } }
{
    Unsent {
        bytes: 0,
        handles: 0,
    }
}

/// A client and a server that shakes hands, over links, with what the server wrote stored.
fn joined(
    alloc: Global,
    client: ei_client::Context,
    server: ei_server::Context,
) -> Result<Ends<ServerEnd>, NoMemory>
    ensures { IfOk result (JoinsAt client server) }
{
    let mut ends = Ends::new(alloc, client, ServerEnd::Shaking(server));
    match store_server(&mut ends, nothing_unsent()) {
        Ok(()) => Ok(ends),
        Err(error) => {
            // by a call: at the end of a scope the drop of each field is proved anew
            drop(ends);
            Err(error)
        }
    }
}

impl<H: Call> Parts<H> {
    /// A new client of this name, and a server that has begun.
    pub(crate) fn new(
        alloc: Global,
        name: &str,
        context_type: ContextType,
        initial_serial: u32,
    ) -> Result<Parts<H>, NoMemory>
        ensures new { IfOk result (λ p. IsNew name.now context_type initial_serial (pair_in p)) }
        ensures serial { IfOk result (λ p. p.serial ≡ p.tells.serial) }
        ensures world { IfOk result (λ p. IsWorld (pair_in p).ends) }
    {
        server_messages();
        let asks = EiHandshaker::new(alloc, name, context_type)?;
        let Ok(client) = ei_client::Context::new(alloc) else {
            drop(asks);
            return Err(NoMemory);
        };
        let Ok(mut server) = ei_server::Context::new(alloc) else {
            drop(asks);
            drop(client);
            return Err(NoMemory);
        };
        let Ok(tells) = EisHandshaker::new(alloc, &mut server, initial_serial) else {
            drop(asks);
            drop(client);
            drop(server);
            return Err(NoMemory);
        };
        let Ok(ends) = joined(alloc, client, server) else {
            drop(asks);
            drop(tells);
            return Err(NoMemory);
        };
        Ok(Parts {
            ends,
            asks,
            tells,
            converter: None,
            initial_serial,
            steady: true,
            client_wanted: false,
            server_wanted: false,
        })
    }

    /// The server's connection; `None` exactly until its handshake is done.
    pub(crate) fn handle(&self) -> Option<&Connection>
        ensures { option_copied result ≡ connection_in (pair_in self.now).server }
    {
        match &self.ends.server.context {
            ServerEnd::Shaking(_) => None,
            ServerEnd::Talking(converter) => Some(converter.handle()),
        }
    }

    /// The versions that both ends settled; `None` exactly until both handshakes are done.
    pub(crate) fn maps(&self) -> Option<(&Versions, &Versions)>
        ensures { option_map (λ m. (m.0.now, m.1.now)) result ≡ maps_in (pair_in self.now) }
    {
        let client = self.converter.as_ref()?;
        let server = self.handle()?;
        Some((client.connection().negotiated(), server.negotiated()))
    }
}
