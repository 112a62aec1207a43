//! The events of a device that end a group of inputs.

ghost use Rattle.std.specs.Prelude.{◌≡◌};
ghost use Rattle.ei_event.specs.Handling.{ended};

use crate::device::Device;
use crate::event::{
    DevicePaused, DeviceRemoved, DeviceResumed, DeviceStartEmulating, DeviceStopEmulating, EiEvent,
    KeyboardModifiers,
};

/// An event of a device that ends a group of inputs: what waits is handed out before it. Definitions that contracts cite
/// speak of it; no call takes or gives one.
#[derive(Clone, Copy)]
pub enum Ending {
    Resumed,
    Paused,
    StartEmulating {
        sequence: u32,
    },
    StopEmulating,
    Modifiers {
        depressed: u32,
        locked: u32,
        latched: u32,
        group: u32,
    },
    Destroyed,
}

impl Ending {
    /// What a user is given of it.
    pub(crate) fn of(self, serial: u32, device: Device) -> EiEvent
        ensures { result ≡ ended self serial device }
    {
        match self {
            Ending::Resumed => EiEvent::DeviceResumed(DeviceResumed { device, serial }),
            Ending::Paused => EiEvent::DevicePaused(DevicePaused { device, serial }),
            Ending::StartEmulating { sequence } => {
                EiEvent::DeviceStartEmulating(DeviceStartEmulating {
                    device,
                    serial,
                    sequence,
                })
            }
            Ending::StopEmulating => {
                EiEvent::DeviceStopEmulating(DeviceStopEmulating { device, serial })
            }
            Ending::Modifiers {
                depressed,
                locked,
                latched,
                group,
            } => EiEvent::KeyboardModifiers(KeyboardModifiers {
                device,
                serial,
                depressed,
                latched,
                locked,
                group,
            }),
            Ending::Destroyed => EiEvent::DeviceRemoved(DeviceRemoved { device }),
        }
    }
}
