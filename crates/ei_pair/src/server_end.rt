//! What holds a server's endpoint.

use ei_backend::{Backend, HasBackend};
use ei_request::EisRequestConverter;
use ei_server::Context;

/// What holds a server's endpoint: nothing but its context while it shakes hands, and then its converter.
#[derive(Drop)]
pub enum ServerEnd {
    Shaking(Context),
    Talking(EisRequestConverter),
}

impl HasBackend for ServerEnd {
    ghost use Rattle.ei_pair.specs.ServerEnd.{endpoint_in, with_endpoint_in, endpoint_is, same_endpoint, last_endpoint};

    ghost seen = { endpoint_in };

    ghost with_backend = { with_endpoint_in };

    ghost seen_with = { endpoint_is };

    ghost with_seen = { same_endpoint };

    ghost with_twice = { last_endpoint };

    fn backend(&self) -> &Backend {
        match self {
            ServerEnd::Shaking(context) => context.backend(),
            ServerEnd::Talking(converter) => converter.handle().context().backend(),
        }
    }

    fn backend_mut(&mut self) -> &mut Backend {
        match self {
            ServerEnd::Shaking(context) => context.backend_mut(),
            ServerEnd::Talking(converter) => converter.handle_mut().context_mut().backend_mut(),
        }
    }
}
