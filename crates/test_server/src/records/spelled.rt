//! The items of a record that rules go over, by the words that spell them, and their words.

use super::inputs::input_of;
use crate::kept::{copied, keep};
use crate::setups::capabilities_of;
use ei_request::{Bind, Device, EisRequest, Ready};
use std::alloc::Global;
use std::fmt::Display;
use test_table::{Answer, Reader, Stop};

/// The items that a line spells, with `;` between them.
pub(crate) fn items_of(
    alloc: Global,
    devices: &[Device],
    line: &str,
    answer: &mut Answer,
) -> Vec<EisRequest> {
    let mut items = Vec::new(alloc);
    for words in line.split(';') {
        let item = item_of(alloc, devices, Reader::new(words.trim()), answer);
        keep(&mut items, item, answer);
    }
    items
}

/// The item of some words, if there are any.
fn item_of(
    alloc: Global,
    devices: &[Device],
    mut words: Reader<'_>,
    answer: &mut Answer,
) -> Option<EisRequest> {
    let item = match words.word() {
        "" => None,
        "bind" => bind(devices, &mut words, answer),
        name => of_device(alloc, devices, name, &mut words, answer),
    };
    answer.take(words.done());
    item
}

/// `bind CAPABILITIES`, of the seat of the first device.
fn bind(devices: &[Device], words: &mut Reader<'_>, answer: &mut Answer) -> Option<EisRequest> {
    let capabilities = capabilities_of(words);
    let seat = answer.take(devices.first()?.seat().clone())?;
    Some(EisRequest::Bind(Bind { seat, capabilities }))
}

/// `ready DEVICE`; `frame`, `button`, `text DEVICE TIME`; `down`, `move`, `up`, `cancel DEVICE TIME TOUCH`.
fn of_device(
    alloc: Global,
    devices: &[Device],
    name: &str,
    words: &mut Reader<'_>,
    answer: &mut Answer,
) -> Option<EisRequest> {
    let device = copied(devices.get(words.count()), words, answer)?;
    if name == "ready" {
        return Some(EisRequest::Ready(Ready { device }));
    }
    let time = words.id();
    let number = match name {
        "frame" | "button" | "text" => 1,
        "down" | "move" | "up" | "cancel" => words.number(),
        _ => {
            words.miss();
            1
        }
    };
    input_of(alloc, name, device, number, time, answer)
}

/// Adds the words of items.
pub(crate) fn put_items(devices: &[Device], items: &[EisRequest], answer: &mut Answer) {
    for (place, item) in items.iter().enumerate() {
        if place > 0 {
            answer.put(" ; ");
        }
        put_item(devices, item, answer);
    }
}

/// Adds the words of an item.
fn put_item(devices: &[Device], item: &EisRequest, answer: &mut Answer) {
    match item {
        EisRequest::Bind(r) => {
            answer.put("bind");
            put_number(answer, &r.capabilities.bits());
        }
        EisRequest::Ready(_) => put_named("ready", devices, item, answer),
        EisRequest::Frame(r) => put_timed("frame", devices, item, r.time, answer),
        EisRequest::Button(r) => put_timed("button", devices, item, r.time, answer),
        EisRequest::TextUtf8(r) => put_timed("text", devices, item, r.time, answer),
        EisRequest::TouchDown(r) => put_touch("down", devices, item, r.time, r.touch_id, answer),
        EisRequest::TouchMotion(r) => put_touch("move", devices, item, r.time, r.touch_id, answer),
        EisRequest::TouchUp(r) => put_touch("up", devices, item, r.time, r.touch_id, answer),
        EisRequest::TouchCancel(r) => {
            put_touch("cancel", devices, item, r.time, r.touch_id, answer);
        }
        _ => answer.stop(Stop::Line),
    }
}

/// Adds the name of an item, and the place of its device.
fn put_named(name: &str, devices: &[Device], item: &EisRequest, answer: &mut Answer) {
    answer.put(name);
    if let Some(device) = item.device() {
        match devices.iter().position(|other| other == device) {
            Some(place) => put_number(answer, &place),
            None => answer.stop(Stop::Line),
        }
    }
}

/// The same with its time.
fn put_timed(name: &str, devices: &[Device], item: &EisRequest, time: u64, answer: &mut Answer) {
    put_named(name, devices, item, answer);
    put_number(answer, &time);
}

/// The same with its time and its touch.
fn put_touch(
    name: &str,
    devices: &[Device],
    item: &EisRequest,
    time: u64,
    touch: u32,
    answer: &mut Answer,
) {
    put_timed(name, devices, item, time, answer);
    put_number(answer, &touch);
}

/// Adds a number behind a blank.
fn put_number<T: Display>(answer: &mut Answer, number: &T) {
    answer.put(" ");
    answer.display(number);
}
