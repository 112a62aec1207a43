//! What events tell.

use crate::client::Client;
use crate::words::push;
use ei_event::{Device, DeviceEvent, EiEvent, EventTime, SeatEvent};
use ei_wire::NoMemory;
use test_table::Answer;

/// `events`: adds of each of the last events its device, whether its copy equals it, and what its traits tell.
pub(crate) fn events(client: &Client, answer: &mut Answer) {
    for event in &client.told {
        push(answer, &event.device());
        push_same(answer, event.copy(client.alloc), event);
        push_event(answer, event);
        answer.put("/ ");
    }
}

/// Adds whether the copy equals the value.
fn push_same<T: Drop + PartialEq>(answer: &mut Answer, copy: Result<T, NoMemory>, value: &T) {
    if let Some(copy) = answer.take(copy) {
        push(answer, &(copy == *value));
        drop(copy);
    }
}

/// Adds what the traits of the event tell.
fn push_event(answer: &mut Answer, event: &EiEvent) {
    match event {
        EiEvent::Disconnected(_) => {}
        EiEvent::SeatAdded(event) => push_seat(answer, event),
        EiEvent::SeatRemoved(event) => push_seat(answer, event),
        EiEvent::DeviceAdded(event) => push_device(answer, event),
        EiEvent::DeviceRemoved(event) => push_device(answer, event),
        EiEvent::DevicePaused(event) => push_device(answer, event),
        EiEvent::DeviceResumed(event) => push_device(answer, event),
        EiEvent::KeyboardModifiers(event) => push_device(answer, event),
        EiEvent::Frame(event) => push_time(answer, event),
        EiEvent::DeviceStartEmulating(event) => push_device(answer, event),
        EiEvent::DeviceStopEmulating(event) => push_device(answer, event),
        EiEvent::PointerMotion(event) => push_time(answer, event),
        EiEvent::PointerMotionAbsolute(event) => push_time(answer, event),
        EiEvent::Button(event) => push_time(answer, event),
        EiEvent::ScrollDelta(event) => push_time(answer, event),
        EiEvent::ScrollStop(event) => push_time(answer, event),
        EiEvent::ScrollCancel(event) => push_time(answer, event),
        EiEvent::ScrollDiscrete(event) => push_time(answer, event),
        EiEvent::KeyboardKey(event) => push_time(answer, event),
        EiEvent::TouchDown(event) => push_time(answer, event),
        EiEvent::TouchMotion(event) => push_time(answer, event),
        EiEvent::TouchUp(event) => push_time(answer, event),
        EiEvent::TouchCancel(event) => push_time(answer, event),
        EiEvent::TextKeysym(event) => push_time(answer, event),
        EiEvent::TextUtf8(event) => push_time(answer, event),
        EiEvent::GestureSwipe(event) => push_time(answer, event),
        EiEvent::GesturePinch(event) => push_time(answer, event),
    }
}

/// Adds the seat of an event.
fn push_seat<T: SeatEvent>(answer: &mut Answer, event: &T) {
    push(answer, event.seat());
}

/// Adds the seat and the device of an event.
fn push_device<T: DeviceEvent<Device>>(answer: &mut Answer, event: &T) {
    push_seat(answer, event);
    push(answer, event.device());
}

/// Adds the seat, the device and the time of an event.
fn push_time<T: EventTime<Device>>(answer: &mut Answer, event: &T) {
    push_device(answer, event);
    push(answer, &event.time());
}
