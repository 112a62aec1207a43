//! Items by the words that spell them.

use super::inputs::{input_of, touching};
use super::keys::Keys;
use crate::kept::{copied, keep};
use crate::setups::capabilities_of;
use ei_request::{
    Bind, Device, DeviceClosed, DeviceStartEmulating, DeviceStopEmulating, EisRequest, Ready,
    RequestDevice,
};
use std::alloc::Global;
use test_table::{Answer, Reader, count};

/// The items that a line spells, with `;` between them.
pub(crate) fn items_of(
    alloc: Global,
    keys: &Keys,
    line: &str,
    answer: &mut Answer,
) -> Vec<EisRequest> {
    let mut items = Vec::new(alloc);
    for words in line.split(';') {
        push_items(alloc, keys, Reader::new(words.trim()), &mut items, answer);
    }
    items
}

/// The items of some words: none, one, or `downs DEVICE COUNT TIME`, so many touches from 0 on.
fn push_items(
    alloc: Global,
    keys: &Keys,
    mut words: Reader<'_>,
    items: &mut Vec<EisRequest>,
    answer: &mut Answer,
) {
    match words.word() {
        "" => {}
        "downs" => push_downs(keys, &mut words, items, answer),
        name => {
            let item = item_of(alloc, keys, name, &mut words, answer);
            keep(items, item, answer);
        }
    }
    answer.take(words.done());
}

/// Adds the begins of so many touches.
fn push_downs(
    keys: &Keys,
    words: &mut Reader<'_>,
    items: &mut Vec<EisRequest>,
    answer: &mut Answer,
) {
    let key = device_at(keys, words);
    let (many, time) = (words.number(), words.id());
    for touch_id in 0..many {
        if let Some(device) = copied(key, words, answer) {
            answer.take(items.push(touching("down", device, touch_id, time)));
        }
    }
}

fn item_of(
    alloc: Global,
    keys: &Keys,
    name: &str,
    words: &mut Reader<'_>,
    answer: &mut Answer,
) -> Option<EisRequest> {
    match name {
        "leave" => Some(EisRequest::Disconnect),
        "bind" | "request" | "bind-second" | "request-second" => asking(keys, name, words, answer),
        "ready" | "close" | "start" | "stop" => {
            let device = copied(device_at(keys, words), words, answer)?;
            Some(naming(name, device))
        }
        _ => timed(alloc, keys, name, words, answer),
    }
}

/// `bind CAPABILITIES` and `request CAPABILITIES`, of the seat or of the second one.
fn asking(
    keys: &Keys,
    name: &str,
    words: &mut Reader<'_>,
    answer: &mut Answer,
) -> Option<EisRequest> {
    let capabilities = capabilities_of(words);
    let key = match name {
        "bind" | "request" => keys.seat.as_ref(),
        _ => keys.second.as_ref(),
    };
    let seat = copied(key, words, answer)?;
    Some(match name {
        "bind" | "bind-second" => EisRequest::Bind(Bind { seat, capabilities }),
        _ => EisRequest::RequestDevice(RequestDevice { seat, capabilities }),
    })
}

/// The device of the place of the next word, or that of the second seat.
fn device_at<'k>(keys: &'k Keys, words: &mut Reader<'_>) -> Option<&'k Device> {
    match words.word() {
        "second" => keys.second_device.as_ref(),
        place => keys.devices.get(words.or(count(place), 0)),
    }
}

/// `ready DEVICE`, `close DEVICE`, `start DEVICE`, or else `stop DEVICE`.
fn naming(name: &str, device: Device) -> EisRequest {
    match name {
        "ready" => EisRequest::Ready(Ready { device }),
        "close" => EisRequest::DeviceClosed(DeviceClosed { device }),
        "start" => EisRequest::DeviceStartEmulating(DeviceStartEmulating {
            device,
            last_serial: 6,
            sequence: 1,
        }),
        _ => EisRequest::DeviceStopEmulating(DeviceStopEmulating {
            device,
            last_serial: 6,
        }),
    }
}

/// `frame DEVICE TIME`, `button DEVICE TIME`, `motion DEVICE TIME`, `swipe DEVICE TIME`, `pinch DEVICE TIME`, and with a touch or a
/// length before the time `down`, `move`, `up`, `cancel` and `text`.
fn timed(
    alloc: Global,
    keys: &Keys,
    name: &str,
    words: &mut Reader<'_>,
    answer: &mut Answer,
) -> Option<EisRequest> {
    let key = device_at(keys, words);
    let front = match name {
        "frame" | "button" | "motion" | "swipe" | "pinch" => 0,
        "down" | "move" | "up" | "cancel" | "text" => words.number(),
        _ => {
            words.miss();
            0
        }
    };
    let time = words.id();
    let device = copied(key, words, answer)?;
    input_of(alloc, name, device, front, time, answer)
}
