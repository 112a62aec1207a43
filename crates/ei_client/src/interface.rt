//! The proxies of a client.

use crate::proxy::Proxy;
use ei_backend::Kind;

/// Marks the proxies of a client. It promises nothing more than the trait of all proxies.
pub trait Interface: ei_backend::Interface {}

impl<K: Kind> Interface for Proxy<K> {}
