//! What requests have in common: a seat, a device, and a time.

ghost use Rattle.std.specs.Prelude.{◌≡◌};
ghost use Rattle.ei_spec.specs.Interface.{ObjectView};

use crate::device::Device;
use crate::event::{Bind, DeviceClosed, DeviceStartEmulating, DeviceStopEmulating, Frame};
use crate::seat::Seat;
use ei_input::{DeviceEvent, EventTime};

/// A request about a seat, or about a device of it.
pub trait SeatEvent {
    /// The seat.
    ghost seat_of: { Self → ObjectView };

    /// The seat.
    fn seat(&self) -> &Seat
        ensures { result.now ≡ seat_of self.now };
}

impl SeatEvent for Bind {
    ghost seat_of = { λ r. r.seat };

    fn seat(&self) -> &Seat {
        &self.seat
    }
}

// What is about a device is about its seat.
impl<T: DeviceEvent<Device>> SeatEvent for T {
    ghost seat_of = { λ r. (T.device_of r).seat };

    fn seat(&self) -> &Seat {
        self.device().seat()
    }
}

impl DeviceEvent<Device> for DeviceClosed {
    ghost device_of = { λ r. r.device };

    fn device(&self) -> &Device {
        &self.device
    }
}

impl DeviceEvent<Device> for Frame {
    ghost device_of = { λ r. r.device };

    fn device(&self) -> &Device {
        &self.device
    }
}

impl EventTime<Device> for Frame {
    ghost time_of = { λ r. r.time };

    fn time(&self) -> u64 {
        self.time
    }
}

impl DeviceEvent<Device> for DeviceStartEmulating {
    ghost device_of = { λ r. r.device };

    fn device(&self) -> &Device {
        &self.device
    }
}

impl DeviceEvent<Device> for DeviceStopEmulating {
    ghost device_of = { λ r. r.device };

    fn device(&self) -> &Device {
        &self.device
    }
}
