//! What events have in common: a seat, a device, and a time.

ghost use Rattle.std.specs.Prelude.{◌≡◌};
ghost use Rattle.ei_spec.specs.Interface.{ObjectView};

use crate::device::Device;
use crate::event::{
    DeviceAdded, DevicePaused, DeviceRemoved, DeviceResumed, DeviceStartEmulating,
    DeviceStopEmulating, Frame, KeyboardModifiers, SeatAdded, SeatRemoved,
};
use crate::seat::Seat;
use ei_input::{DeviceEvent, EventTime};

/// An event of a seat, or of a device of it.
pub trait SeatEvent {
    /// The seat.
    ghost seat_of: { Self → ObjectView };

    /// The seat.
    fn seat(&self) -> &Seat
        ensures { result.now ≡ seat_of self.now };
}

impl SeatEvent for SeatAdded {
    ghost seat_of = { λ e. e.seat };

    fn seat(&self) -> &Seat {
        &self.seat
    }
}

impl SeatEvent for SeatRemoved {
    ghost seat_of = { λ e. e.seat };

    fn seat(&self) -> &Seat {
        &self.seat
    }
}

// What is of a device is of its seat.
impl<T: DeviceEvent<Device>> SeatEvent for T {
    ghost seat_of = { λ e. (T.device_of e).seat };

    fn seat(&self) -> &Seat {
        self.device().seat()
    }
}

impl DeviceEvent<Device> for DeviceAdded {
    ghost device_of = { λ e. e.device };

    fn device(&self) -> &Device {
        &self.device
    }
}

impl DeviceEvent<Device> for DeviceRemoved {
    ghost device_of = { λ e. e.device };

    fn device(&self) -> &Device {
        &self.device
    }
}

impl DeviceEvent<Device> for DevicePaused {
    ghost device_of = { λ e. e.device };

    fn device(&self) -> &Device {
        &self.device
    }
}

impl DeviceEvent<Device> for DeviceResumed {
    ghost device_of = { λ e. e.device };

    fn device(&self) -> &Device {
        &self.device
    }
}

impl DeviceEvent<Device> for KeyboardModifiers {
    ghost device_of = { λ e. e.device };

    fn device(&self) -> &Device {
        &self.device
    }
}

impl DeviceEvent<Device> for Frame {
    ghost device_of = { λ e. e.device };

    fn device(&self) -> &Device {
        &self.device
    }
}

impl DeviceEvent<Device> for DeviceStartEmulating {
    ghost device_of = { λ e. e.device };

    fn device(&self) -> &Device {
        &self.device
    }
}

impl DeviceEvent<Device> for DeviceStopEmulating {
    ghost device_of = { λ e. e.device };

    fn device(&self) -> &Device {
        &self.device
    }
}

impl EventTime<Device> for Frame {
    ghost time_of = { λ e. e.time };

    fn time(&self) -> u64 {
        self.time
    }
}
