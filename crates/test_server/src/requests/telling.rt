//! What is told of a connection, of seats and devices by their keys, and of requests.

use super::world::World;
use crate::texts::{display, show};
use ei_backend::{HasBackend, Interface};
use ei_request::{
    Connection, Device, DeviceEvent, DeviceInterface, EisRequest, EventTime, Seat, SeatEvent,
};
use ei_server::{Button, Gesture, Keyboard, Pointer, PointerAbsolute, Scroll, Text, Touchscreen};
use ei_types::DeviceCapability;
use std::fmt::Debug;
use std::hash::{FoldHasher, Hash, Hasher};
use test_table::{Answer, Reader, Stop};

/// `connection`: its proxy, the last serial, whether it has ended, and how many bytes are unread.
pub(crate) fn put_connection(world: &World, answer: &mut Answer) {
    let handle = world.handle();
    show(answer, &handle.connection());
    display(answer, &handle.last_serial());
    display(answer, &handle.has_sent_disconnected());
    answer.display(&handle.context().unread_len());
}

/// `interface NAME`: whether both ends have the interface, and its version, twice.
pub(crate) fn put_interface(world: &World, words: &mut Reader<'_>, answer: &mut Answer) {
    let (handle, name) = (world.handle(), words.word());
    display(answer, &handle.has_interface(name));
    show(answer, &handle.interface_version(name));
    show(answer, &handle.negotiated().get(name));
}

/// `seat PLACE`: its proxy, whether it is held, and what it was given.
pub(crate) fn put_seat(world: &World, words: &mut Reader<'_>, answer: &mut Answer) {
    match world.seats.get(words.count()) {
        Some(seat) => put_seat_at(world.handle(), seat, answer),
        None => words.miss(),
    }
}

fn put_seat_at(handle: &Connection, seat: &Seat, answer: &mut Answer) {
    show(answer, &seat.eis_seat());
    display(answer, &handle.has_seat(seat));
    show(answer, &handle.seat_capabilities(seat));
}

/// `device PLACE`: its seat, its proxy, whether it is held, its name, the bits of what it can do, and its interfaces with
/// their versions.
pub(crate) fn put_device(world: &World, words: &mut Reader<'_>, answer: &mut Answer) {
    match world.devices.get(words.count()) {
        Some(device) => {
            put_device_at(world.handle(), device, answer);
            put_interfaces(world.handle(), device, answer);
        }
        None => words.miss(),
    }
}

fn put_device_at(handle: &Connection, device: &Device, answer: &mut Answer) {
    show(answer, device.seat());
    show(answer, &device.device());
    display(answer, &handle.has_device(device));
    show(answer, &device.name(handle));
    display(answer, &bits_of(handle, device));
}

/// Adds the interfaces of a device.
fn put_interfaces(handle: &Connection, device: &Device, answer: &mut Answer) {
    put_interface_of::<Pointer>(handle, device, answer);
    put_interface_of::<PointerAbsolute>(handle, device, answer);
    put_interface_of::<Keyboard>(handle, device, answer);
    put_interface_of::<Touchscreen>(handle, device, answer);
    put_interface_of::<Scroll>(handle, device, answer);
    put_interface_of::<Button>(handle, device, answer);
    put_interface_of::<Text>(handle, device, answer);
    put_interface_of::<Gesture>(handle, device, answer);
}

/// The bits of the capabilities that a device has.
fn bits_of(handle: &Connection, device: &Device) -> u64 {
    let mut bits = 0u64;
    for one in &DeviceCapability::ALL {
        if device.has_capability(handle, *one) {
            bits = bits.saturating_add(one.bit());
        }
    }
    bits
}

/// Adds the interface of a device, if it has it.
fn put_interface_of<T: DeviceInterface + Debug + Drop>(
    handle: &Connection,
    device: &Device,
    answer: &mut Answer,
) {
    if let Some(interface) = device.interface::<T>(handle) {
        show(answer, &interface);
        display(answer, &interface.version());
        drop(interface);
    }
}

/// `seats PLACE PLACE` and `devices PLACE PLACE`: how the keys stand to each other.
pub(crate) fn put_keys(world: &World, name: &str, words: &mut Reader<'_>, answer: &mut Answer) {
    if name == "seats" {
        put_compared(&world.seats, words, answer);
    } else {
        put_compared(&world.devices, words, answer);
    }
}

/// Adds both keys, whether a clone of the first equals it and is hashed like it, and whether the keys are equal.
fn put_compared<K: Clone + Debug + Drop + Eq + Hash>(
    keys: &[K],
    words: &mut Reader<'_>,
    answer: &mut Answer,
) {
    let (one, other) = (keys.get(words.count()), keys.get(words.count()));
    match (one, other) {
        (Some(one), Some(other)) => {
            show(answer, one);
            show(answer, other);
            put_clone(one, answer);
            answer.display(&(one == other));
        }
        _ => words.miss(),
    }
}

/// Adds whether a clone of the key equals it, and is hashed like it.
fn put_clone<K: Clone + Drop + Eq + Hash>(key: &K, answer: &mut Answer) {
    if let Some(clone) = answer.take(key.clone()) {
        display(answer, &(clone == *key));
        display(answer, &(hash_of(&clone) == hash_of(key)));
        drop(clone);
    }
}

/// What the value is hashed to.
fn hash_of<T: Hash>(value: &T) -> u64 {
    let mut hasher = FoldHasher::default();
    value.hash(&mut hasher);
    hasher.finish()
}

/// `requests`: of each of the last requests its device, whether its copy equals it, and what it tells as an event.
pub(crate) fn put_requests(world: &World, answer: &mut Answer) {
    for request in &world.asked {
        show(answer, &request.device());
        put_copied(request.copy(world.alloc), request, answer);
        put_event(request, answer);
        answer.put("/ ");
    }
}

/// Adds whether the copy equals the value.
fn put_copied<T: Drop + PartialEq, E: Drop>(copy: Result<T, E>, value: &T, answer: &mut Answer)
where
    Stop: From<E>,
{
    if let Some(copy) = answer.take(copy) {
        display(answer, &(copy == *value));
        drop(copy);
    }
}

/// Adds what the request tells as an event.
fn put_event(request: &EisRequest, answer: &mut Answer) {
    match request {
        EisRequest::Disconnect | EisRequest::RequestDevice(_) | EisRequest::Ready(_) => {}
        EisRequest::Bind(event) => put_seat_of(event, answer),
        EisRequest::DeviceClosed(event) => put_device_of(event, answer),
        EisRequest::DeviceStartEmulating(event) => put_device_of(event, answer),
        EisRequest::DeviceStopEmulating(event) => put_device_of(event, answer),
        EisRequest::Frame(event) => put_time_of(event, answer),
        EisRequest::PointerMotion(event) => put_time_of(event, answer),
        EisRequest::PointerMotionAbsolute(event) => put_time_of(event, answer),
        EisRequest::Button(event) => put_time_of(event, answer),
        EisRequest::ScrollDelta(event) => put_time_of(event, answer),
        EisRequest::ScrollStop(event) => put_time_of(event, answer),
        EisRequest::ScrollCancel(event) => put_time_of(event, answer),
        EisRequest::ScrollDiscrete(event) => put_time_of(event, answer),
        EisRequest::KeyboardKey(event) => put_time_of(event, answer),
        EisRequest::TouchDown(event) => put_time_of(event, answer),
        EisRequest::TouchMotion(event) => put_time_of(event, answer),
        EisRequest::TouchUp(event) => put_time_of(event, answer),
        EisRequest::TouchCancel(event) => put_time_of(event, answer),
        EisRequest::TextKeysym(event) => put_time_of(event, answer),
        EisRequest::TextUtf8(event) => put_time_of(event, answer),
        EisRequest::GestureSwipe(event) => put_time_of(event, answer),
        EisRequest::GesturePinch(event) => put_time_of(event, answer),
    }
}

/// Adds the seat of an event.
fn put_seat_of<T: SeatEvent>(event: &T, answer: &mut Answer) {
    show(answer, event.seat());
}

/// Adds the seat and the device of an event.
fn put_device_of<T: DeviceEvent<Device>>(event: &T, answer: &mut Answer) {
    put_seat_of(event, answer);
    show(answer, event.device());
}

/// Adds the seat, the device and the time of an event.
fn put_time_of<T: EventTime<Device>>(event: &T, answer: &mut Answer) {
    put_device_of(event, answer);
    display(answer, &event.time());
}
