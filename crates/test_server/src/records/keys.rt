//! The keys of seats and devices, which only a connection makes.

use crate::kept::{keep, set};
use ei_request::{Connection, Device, EisRequest, Seat};
use ei_types::{DeviceCapabilities, DeviceType};
use std::alloc::Global;
use test_table::{Answer, Stop};

/// The seat of the requests of a session, its devices in the order in which they became ready, and a second seat with a device.
#[derive(Drop)]
pub(crate) struct Keys {
    pub(crate) seat: Option<Seat>,
    pub(crate) second: Option<Seat>,
    pub(crate) second_device: Option<Device>,
    pub(crate) devices: Vec<Device>,
}

impl Keys {
    /// No keys.
    pub(crate) fn new(alloc: Global) -> Keys {
        Keys {
            seat: None,
            second: None,
            second_device: None,
            devices: Vec::new(alloc),
        }
    }

    /// Keeps the keys of these requests.
    pub(crate) fn learn(&mut self, requests: &[EisRequest], answer: &mut Answer) {
        self.devices.clear();
        for request in requests {
            self.learn_one(request, answer);
        }
    }

    /// Keeps the seat that is bound, or the device that became ready.
    fn learn_one(&mut self, request: &EisRequest, answer: &mut Answer) {
        match request {
            EisRequest::Bind(bind) => set(&mut self.seat, answer.take(bind.seat.clone())),
            EisRequest::Ready(ready) => {
                let device = answer.take(ready.device.clone());
                keep(&mut self.devices, device, answer);
            }
            _ => {}
        }
    }

    /// Announces two seats, and keeps the second, with its second device.
    pub(crate) fn learn_second(&mut self, handle: &mut Connection, answer: &mut Answer) {
        drop(seat_of(handle, answer));
        set(&mut self.second, seat_of(handle, answer));
        if let Some(seat) = &self.second {
            drop(button_of(handle, seat, answer));
            set(&mut self.second_device, button_of(handle, seat, answer));
        }
    }
}

/// Announces a seat with each capability.
fn seat_of(handle: &mut Connection, answer: &mut Answer) -> Option<Seat> {
    answer.take(handle.add_seat(None, DeviceCapabilities::all()))
}

/// Announces a device of the seat, with a button.
fn button_of(handle: &mut Connection, seat: &Seat, answer: &mut Answer) -> Option<Device> {
    if handle.seat_capabilities(seat).is_none() {
        answer.stop(Stop::Call);
        return None;
    }
    let button = DeviceCapabilities::BUTTON;
    answer.take(seat.add_device(handle, None, DeviceType::Virtual, button, &[]))
}
