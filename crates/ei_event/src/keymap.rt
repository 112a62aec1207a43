//! The keymap of a device.

use ei_types::KeymapType;
use ei_wire::Handle;

/// What the keys of a device mean: the handle is of a keymap of so many bytes.
#[derive(Debug, Drop)]
pub struct Keymap {
    pub handle: Handle,
    pub size: u32,
    pub type_: KeymapType,
}
