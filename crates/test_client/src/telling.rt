//! What is told of a connection, of a seat and of a device.

use crate::words::push;
use ei_client::{
    Button, Gesture, Interface, Keyboard, Pointer, PointerAbsolute, Scroll, Text, Touchscreen,
};
use ei_event::{Device, EiEventConverter, Seat};
use ei_types::DeviceCapability;
use std::fmt::Debug;
use test_table::{Answer, Stop};

/// `connection`: adds its proxy, the serial, and how many interfaces both ends have.
pub(crate) fn connection(converter: &EiEventConverter, answer: &mut Answer) {
    let connection = converter.connection();
    push(answer, connection.connection());
    push(answer, &connection.serial());
    push(answer, &connection.negotiated().len());
}

/// `seat PLACE`: adds its key and its name.
pub(crate) fn seat(converter: &EiEventConverter, seat: Option<&Seat>, answer: &mut Answer) {
    match seat {
        Some(seat) => {
            push(answer, seat);
            push(answer, &seat.name(converter));
        }
        None => answer.stop(Stop::Line),
    }
}

/// `device PLACE`: adds its seat, its proxy, what it was described with, the bits of what it can do, and its interfaces
/// with their versions.
pub(crate) fn device(converter: &EiEventConverter, device: Option<&Device>, answer: &mut Answer) {
    match device {
        Some(device) => {
            push(answer, device.seat());
            push(answer, device.device());
            push_described(answer, converter, device);
            push(answer, &bits_of(converter, device));
            push_interfaces(answer, converter, device);
        }
        None => answer.stop(Stop::Line),
    }
}

/// Adds the name of a device, its type, its size, its regions and its keymap.
fn push_described(answer: &mut Answer, converter: &EiEventConverter, device: &Device) {
    push(answer, &device.name(converter));
    push(answer, &device.device_type(converter));
    push(answer, &device.dimensions(converter));
    push(answer, &device.regions(converter));
    push(answer, &device.keymap(converter));
}

/// The bits of the capabilities that a device has.
fn bits_of(converter: &EiEventConverter, device: &Device) -> u64 {
    let mut bits = 0u64;
    for one in &DeviceCapability::ALL {
        if device.has_capability(converter, *one) {
            bits = bits.saturating_add(one.bit());
        }
    }
    bits
}

/// Adds the interfaces of a device.
fn push_interfaces(answer: &mut Answer, converter: &EiEventConverter, device: &Device) {
    push_interface::<Pointer>(answer, converter, device);
    push_interface::<PointerAbsolute>(answer, converter, device);
    push_interface::<Keyboard>(answer, converter, device);
    push_interface::<Touchscreen>(answer, converter, device);
    push_interface::<Scroll>(answer, converter, device);
    push_interface::<Button>(answer, converter, device);
    push_interface::<Text>(answer, converter, device);
    push_interface::<Gesture>(answer, converter, device);
}

/// Adds the interface of a device, if it has it.
fn push_interface<T: Interface + Debug + Drop>(
    answer: &mut Answer,
    converter: &EiEventConverter,
    device: &Device,
) {
    if let Some(interface) = device.interface::<T>(converter) {
        push(answer, &interface);
        push(answer, &interface.version());
        drop(interface);
    }
}
