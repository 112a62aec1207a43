//! What inputs have in common: a device, and a time.

ghost use Rattle.std.specs.Prelude.{◌≡◌, ℕ};

use crate::input_event::*;

/// What is about a device, which it names by its key.
pub trait DeviceEvent<D> {
    /// The device.
    ghost device_of: { Self → D };

    /// The device.
    fn device(&self) -> &D
        ensures { result.now ≡ device_of self.now };
}

/// What is about a device and has a time, in microseconds.
pub trait EventTime<D>: DeviceEvent<D> {
    /// The time.
    ghost time_of: { Self → ℕ };

    /// The time.
    fn time(&self) -> u64
        ensures { result ≡ time_of self.now };
}

impl<D> DeviceEvent<D> for PointerMotion<D> {
    ghost device_of = { λ r. r.device };

    fn device(&self) -> &D {
        &self.device
    }
}

impl<D> EventTime<D> for PointerMotion<D> {
    ghost time_of = { λ r. r.time };

    fn time(&self) -> u64 {
        self.time
    }
}

impl<D> DeviceEvent<D> for PointerMotionAbsolute<D> {
    ghost device_of = { λ r. r.device };

    fn device(&self) -> &D {
        &self.device
    }
}

impl<D> EventTime<D> for PointerMotionAbsolute<D> {
    ghost time_of = { λ r. r.time };

    fn time(&self) -> u64 {
        self.time
    }
}

impl<D> DeviceEvent<D> for Button<D> {
    ghost device_of = { λ r. r.device };

    fn device(&self) -> &D {
        &self.device
    }
}

impl<D> EventTime<D> for Button<D> {
    ghost time_of = { λ r. r.time };

    fn time(&self) -> u64 {
        self.time
    }
}

impl<D> DeviceEvent<D> for ScrollDelta<D> {
    ghost device_of = { λ r. r.device };

    fn device(&self) -> &D {
        &self.device
    }
}

impl<D> EventTime<D> for ScrollDelta<D> {
    ghost time_of = { λ r. r.time };

    fn time(&self) -> u64 {
        self.time
    }
}

impl<D> DeviceEvent<D> for ScrollStop<D> {
    ghost device_of = { λ r. r.device };

    fn device(&self) -> &D {
        &self.device
    }
}

impl<D> EventTime<D> for ScrollStop<D> {
    ghost time_of = { λ r. r.time };

    fn time(&self) -> u64 {
        self.time
    }
}

impl<D> DeviceEvent<D> for ScrollCancel<D> {
    ghost device_of = { λ r. r.device };

    fn device(&self) -> &D {
        &self.device
    }
}

impl<D> EventTime<D> for ScrollCancel<D> {
    ghost time_of = { λ r. r.time };

    fn time(&self) -> u64 {
        self.time
    }
}

impl<D> DeviceEvent<D> for ScrollDiscrete<D> {
    ghost device_of = { λ r. r.device };

    fn device(&self) -> &D {
        &self.device
    }
}

impl<D> EventTime<D> for ScrollDiscrete<D> {
    ghost time_of = { λ r. r.time };

    fn time(&self) -> u64 {
        self.time
    }
}

impl<D> DeviceEvent<D> for KeyboardKey<D> {
    ghost device_of = { λ r. r.device };

    fn device(&self) -> &D {
        &self.device
    }
}

impl<D> EventTime<D> for KeyboardKey<D> {
    ghost time_of = { λ r. r.time };

    fn time(&self) -> u64 {
        self.time
    }
}

impl<D> DeviceEvent<D> for TouchDown<D> {
    ghost device_of = { λ r. r.device };

    fn device(&self) -> &D {
        &self.device
    }
}

impl<D> EventTime<D> for TouchDown<D> {
    ghost time_of = { λ r. r.time };

    fn time(&self) -> u64 {
        self.time
    }
}

impl<D> DeviceEvent<D> for TouchMotion<D> {
    ghost device_of = { λ r. r.device };

    fn device(&self) -> &D {
        &self.device
    }
}

impl<D> EventTime<D> for TouchMotion<D> {
    ghost time_of = { λ r. r.time };

    fn time(&self) -> u64 {
        self.time
    }
}

impl<D> DeviceEvent<D> for TouchUp<D> {
    ghost device_of = { λ r. r.device };

    fn device(&self) -> &D {
        &self.device
    }
}

impl<D> EventTime<D> for TouchUp<D> {
    ghost time_of = { λ r. r.time };

    fn time(&self) -> u64 {
        self.time
    }
}

impl<D> DeviceEvent<D> for TouchCancel<D> {
    ghost device_of = { λ r. r.device };

    fn device(&self) -> &D {
        &self.device
    }
}

impl<D> EventTime<D> for TouchCancel<D> {
    ghost time_of = { λ r. r.time };

    fn time(&self) -> u64 {
        self.time
    }
}

impl<D> DeviceEvent<D> for TextKeysym<D> {
    ghost device_of = { λ r. r.device };

    fn device(&self) -> &D {
        &self.device
    }
}

impl<D> EventTime<D> for TextKeysym<D> {
    ghost time_of = { λ r. r.time };

    fn time(&self) -> u64 {
        self.time
    }
}

impl<D> DeviceEvent<D> for TextUtf8<D> {
    ghost device_of = { λ r. r.device };

    fn device(&self) -> &D {
        &self.device
    }
}

impl<D> EventTime<D> for TextUtf8<D> {
    ghost time_of = { λ r. r.time };

    fn time(&self) -> u64 {
        self.time
    }
}

impl<D> DeviceEvent<D> for GestureSwipe<D> {
    ghost device_of = { λ r. r.device };

    fn device(&self) -> &D {
        &self.device
    }
}

impl<D> EventTime<D> for GestureSwipe<D> {
    ghost time_of = { λ r. r.time };

    fn time(&self) -> u64 {
        self.time
    }
}

impl<D> DeviceEvent<D> for GesturePinch<D> {
    ghost device_of = { λ r. r.device };

    fn device(&self) -> &D {
        &self.device
    }
}

impl<D> EventTime<D> for GesturePinch<D> {
    ghost time_of = { λ r. r.time };

    fn time(&self) -> u64 {
        self.time
    }
}
