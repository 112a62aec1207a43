//! What the lines before made.

use ei_backend::Object;
use ei_request::{Device, Seat};
use std::alloc::Global;

/// The seats and devices that a server made, in this order, and the objects that a line kept.
#[derive(Drop)]
pub(crate) struct Keys {
    pub(crate) seats: Vec<Seat>,
    pub(crate) devices: Vec<Device>,
    pub(crate) objects: Vec<Object>,
}

impl Keys {
    /// Nothing.
    pub(crate) fn new(alloc: Global) -> Keys {
        Keys {
            seats: Vec::new(alloc),
            devices: Vec::new(alloc),
            objects: Vec::new(alloc),
        }
    }
}
