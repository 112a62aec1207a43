//! What a server of a pair may be asked to do, once its handshake is done.

use ei_backend::Object;
use ei_request::{Device, DeviceSetup, Seat};
use ei_types::{DeviceCapabilities, DeviceType, DisconnectReason};
use ei_values::Value;

/// A call of a server: one of its connection, of a seat or of a device, or a message of a row.
#[derive(Drop)]
pub enum ServerCall<'a> {
    /// Announces a seat.
    AddSeat {
        name: Option<&'a str>,
        capabilities: DeviceCapabilities,
    },
    /// Announces a device of a seat, and describes it.
    AddDevice {
        seat: Seat,
        name: Option<&'a str>,
        device_type: DeviceType,
        capabilities: DeviceCapabilities,
        setup: &'a [DeviceSetup<'a>],
    },
    /// Takes a seat away, behind its devices.
    RemoveSeat(Seat),
    /// Takes a device away, behind its interfaces.
    RemoveDevice(Device),
    /// The device takes input.
    Resumed(Device),
    /// It takes none from now on.
    Paused(Device),
    /// Input of the device begins. The number counts such beginnings.
    StartEmulating(Device, u32),
    /// Input of the device ends.
    StopEmulating(Device),
    /// The input of the device since its last frame belongs together. The time is in microseconds.
    Frame(Device, u64),
    /// A message to the object, by its row.
    Input {
        target: Object,
        opcode: u32,
        values: &'a [Value],
    },
    /// Ends the connection, behind all its seats.
    Disconnected {
        reason: DisconnectReason,
        explanation: Option<&'a str>,
    },
}

/// What a call of a server made.
#[derive(Drop)]
pub enum Made {
    /// Nothing.
    Nothing,
    /// A seat.
    Seat(Seat),
    /// A device.
    Device(Device),
}
