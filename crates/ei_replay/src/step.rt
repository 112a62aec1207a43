//! What an item does, as far as it matters for playing it back.

use ei_types::{DeviceCapabilities, DeviceCapability};

/// What an item does. Devices and seats are named by their ids.
#[derive(Clone, Copy)]
pub(crate) enum Step {
    /// It ends the connection.
    End,
    /// It asks a seat for a device of these capabilities.
    Ask {
        seat: u64,
        mask: DeviceCapabilities,
    },
    /// It names a device, and changes nothing that matters.
    Name {
        device: u64,
    },
    /// It closes a device.
    Close {
        device: u64,
    },
    /// It is an input of a device.
    Input {
        device: u64,
        time: u64,
        capability: DeviceCapability,
        kind: InputKind,
    },
    /// It is the frame of a device.
    Frame {
        device: u64,
        time: u64,
    },
}

/// What an input asks for besides its capability.
#[derive(Clone, Copy)]
pub(crate) enum InputKind {
    /// A touch goes down.
    Down(u32),
    /// A touch moves.
    Move(u32),
    /// A touch ends.
    Lift(u32),
    /// A text of so many bytes.
    Text(usize),
    /// Nothing.
    Plain,
}
