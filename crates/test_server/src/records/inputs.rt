//! Inputs and frames, with plain values.

use crate::kept::or;
use crate::texts::letters;
use ei_request::{
    Button, Device, EisRequest, Frame, GesturePinch, GestureSwipe, PointerMotion, TextUtf8,
    TouchCancel, TouchDown, TouchMotion, TouchUp,
};
use ei_types::ButtonState;
use ei_wire::{EiText, RawFloat};
use std::alloc::Global;
use test_table::Answer;

/// The input of that name and that time, with so many letters, or of that touch, where it has one.
pub(crate) fn input_of(
    alloc: Global,
    name: &str,
    device: Device,
    number: u32,
    time: u64,
    answer: &mut Answer,
) -> Option<EisRequest> {
    match name {
        "text" => texting(alloc, device, number, time, answer),
        "down" | "move" | "up" | "cancel" => Some(touching(name, device, number, time)),
        _ => Some(plain(name, device, time)),
    }
}

/// A frame, a button, a swipe, a pinch, or else a motion, of that time.
fn plain(name: &str, device: Device, time: u64) -> EisRequest {
    match name {
        "frame" => EisRequest::Frame(Frame {
            device,
            last_serial: 6,
            time,
        }),
        "button" => EisRequest::Button(Button {
            device,
            time,
            button: 272,
            state: ButtonState::Press,
        }),
        "swipe" => EisRequest::GestureSwipe(GestureSwipe {
            device,
            time,
            fingers: 3,
            dx: RawFloat(0),
            dy: RawFloat(0),
        }),
        "pinch" => EisRequest::GesturePinch(GesturePinch {
            device,
            time,
            scale: RawFloat(0),
        }),
        _ => EisRequest::PointerMotion(PointerMotion {
            device,
            time,
            dx: RawFloat(0),
            dy: RawFloat(0),
        }),
    }
}

/// What a touch does, of that time: it begins, moves, ends, or else is cancelled.
pub(crate) fn touching(name: &str, device: Device, touch_id: u32, time: u64) -> EisRequest {
    match name {
        "down" => EisRequest::TouchDown(TouchDown {
            device,
            time,
            touch_id,
            x: RawFloat(0),
            y: RawFloat(0),
        }),
        "move" => EisRequest::TouchMotion(TouchMotion {
            device,
            time,
            touch_id,
            x: RawFloat(0),
            y: RawFloat(0),
        }),
        "up" => EisRequest::TouchUp(TouchUp {
            device,
            time,
            touch_id,
        }),
        _ => EisRequest::TouchCancel(TouchCancel {
            device,
            time,
            touch_id,
        }),
    }
}

/// A text of so many bytes.
fn texting(
    alloc: Global,
    device: Device,
    many: u32,
    time: u64,
    answer: &mut Answer,
) -> Option<EisRequest> {
    match text_of(alloc, many, answer) {
        Some(text) => Some(EisRequest::TextUtf8(TextUtf8 { device, time, text })),
        None => {
            drop(device);
            None
        }
    }
}

/// So many letters.
fn text_of(alloc: Global, many: u32, answer: &mut Answer) -> Option<EiText> {
    let letters = or(answer, letters(alloc, many), String::new(alloc));
    let text = answer.take(EiText::new(alloc, letters.as_str()));
    drop(letters);
    text
}
