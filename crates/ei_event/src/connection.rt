//! The connection of a client.

ghost use Rattle.std.specs.Prelude.{◌≡◌};
ghost use Rattle.ei_backend.specs.Backend.{unsent_of, with_unsent};
ghost use Rattle.ei_backend.specs.Outgoing.{Flushes};
ghost use Rattle.ei_event.specs.Connection.{connected};

use ei_backend::Sink;
use ei_client::{Connection as Proxy, Context};
use ei_handshake::{HandshakeResp, Versions};
use ei_wire::FlushError;
use std::marker::Model;

/// The connection of a client after the handshake.
#[derive(Drop)]
pub struct Connection {
    proxy: Proxy,
    serial: u32,
    negotiated: Versions,
}

impl Model for Connection {
    ghost use Rattle.ei_event.specs.Connection.{ConnectionView, connection_code};

    ghost Value = { ConnectionView };

    ghost coded = { connection_code };

    ghost view = { λ c. record { proxy = c.proxy; serial = c.serial; negotiated = c.negotiated } };
}

impl Connection {
    /// The connection right after a handshake.
    pub(crate) fn new(resp: HandshakeResp) -> Connection
        ensures { result ≡ connected resp }
    {
        let HandshakeResp {
            connection,
            serial,
            negotiated_interfaces,
        } = resp;
        Connection {
            proxy: connection,
            serial,
            negotiated: negotiated_interfaces,
        }
    }

    /// The proxy of the connection.
    pub fn connection(&self) -> &Proxy
        ensures { result.now ≡ self.now.proxy }
    {
        &self.proxy
    }

    /// The last serial that an event bore which the converter keeps, or that of the handshake. A client's requests
    /// bear it.
    pub fn serial(&self) -> u32
        ensures { result ≡ self.now.serial }
    {
        self.serial
    }

    /// The versions of interfaces that the server told in the handshake, by their names: also of names that this
    /// library doesn't know.
    pub fn negotiated(&self) -> &Versions
        ensures { result.now ≡ self.now.negotiated }
    {
        &self.negotiated
    }

    /// Puts all that waits to be sent into the sink: the context's own call. After a refusal the rest waits.
    ///
    /// `WriteFault` where the sink failed, `NoMemory` where it wants memory. Where nothing waits the sink isn't asked.
    pub fn flush<K: Sink>(&self, ctx: &mut Context, sink: &mut K) -> Result<(), FlushError>
        ensures flushes { Flushes K.view K.later result (unsent_of ctx.old) (unsent_of ctx.new) sink.old sink.new }
        ensures kept { ctx.new ≡ with_unsent (unsent_of ctx.new) ctx.old }
    {
        ctx.flush(sink)
    }

    /// Keeps the serial of an event.
    #[inline(always)]
    pub(crate) fn keep(&mut self, serial: u32)
        ensures { self.new ≡ record self.old { serial = serial } }
    {
        self.serial = serial;
    }
}
