//! The regions of a device.

use ei_wire::{EiText, RawFloat};

/// A region in which a virtual device moves: its corner and its size in logical pixels, and the scale by which the
/// client is to multiply distances.
#[derive(Debug, Drop)]
pub struct Region {
    pub x: u32,
    pub y: u32,
    pub width: u32,
    pub height: u32,
    pub scale: RawFloat,
    /// By it the client can tell to what the region maps; `None` where the server gave none.
    pub mapping_id: Option<EiText>,
}
