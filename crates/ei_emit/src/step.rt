//! A step of a script.

use ei_spec::KnownInterface;
use ei_types::DeviceCapabilities;
use ei_values::Values;

/// A step of a script. Devices are numbered as they are added, from 0 on.
#[derive(Drop)]
pub enum EmitStep {
    /// A device with these capabilities is added, and takes input at once.
    Add {
        capabilities: DeviceCapabilities,
    },
    /// The device is removed.
    Remove {
        device: u32,
    },
    /// Input of the device begins. The number counts such beginnings.
    Start {
        device: u32,
        sequence: u32,
    },
    /// Input of the device ends.
    Stop {
        device: u32,
    },
    /// The device takes no input from now on.
    Pause {
        device: u32,
    },
    /// The device takes input.
    Resume {
        device: u32,
    },
    /// The inputs of the device since its last frame belong together. The time is in microseconds.
    Frame {
        device: u32,
        time: u64,
    },
    /// An input of the device: an event of that interface, which the device has, with these values.
    Input {
        device: u32,
        interface: KnownInterface,
        opcode: u32,
        values: Values,
    },
}
