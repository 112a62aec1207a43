//! Inputs, as a program sends them.

use crate::words::{letters, text};
use ei_input::input_event::InputEvent;
use ei_types::{ButtonState, KeyState};
use ei_wire::{EiText, RawFloat};
use std::alloc::Global;
use test_table::{Reader, Stop};

/// The input of that name, with the values that follow it: numbers in decimal digits, a float by that of its bits.
pub(crate) fn input(alloc: Global, words: &mut Reader<'_>) -> Result<InputEvent, Stop> {
    let name = words.word();
    match name {
        "utf8" => utf8(alloc, words.rest()),
        "key" | "button" | "keysym" => Ok(pressed(name, words)),
        "scroll-stop" | "scroll-cancel" | "scroll-discrete" => Ok(scrolled(name, words)),
        "touch-down" | "touch-motion" | "touch-up" | "touch-cancel" => Ok(touched(name, words)),
        _ => Ok(moved(name, words)),
    }
}

fn utf8(alloc: Global, word: &str) -> Result<InputEvent, Stop> {
    let text = text(alloc, word)?;
    let input = spelled(alloc, letters(&text));
    drop(text);
    input
}

/// The input of a text, which there has to be.
fn spelled(alloc: Global, letters: Option<&str>) -> Result<InputEvent, Stop> {
    let letters = letters.ok_or(Stop::Line)?;
    match EiText::new(alloc, letters) {
        Ok(text) => Ok(InputEvent::TextUtf8 { text }),
        Err(error) => Err(Stop::from(error)),
    }
}

fn float(words: &mut Reader<'_>) -> RawFloat {
    RawFloat(words.number())
}

fn pressed(name: &str, words: &mut Reader<'_>) -> InputEvent {
    let (code, state) = (words.number(), state(words));
    match name {
        "key" => InputEvent::KeyboardKey { key: code, state },
        "keysym" => InputEvent::TextKeysym {
            keysym: code,
            state,
        },
        _ => InputEvent::Button {
            button: code,
            state: button_state(state),
        },
    }
}

fn state(words: &mut Reader<'_>) -> KeyState {
    match words.word() {
        "press" => KeyState::Press,
        "released" => KeyState::Released,
        _ => {
            words.miss();
            KeyState::Released
        }
    }
}

/// The same of a button.
fn button_state(state: KeyState) -> ButtonState {
    match state {
        KeyState::Press => ButtonState::Press,
        KeyState::Released => ButtonState::Released,
    }
}

fn scrolled(name: &str, words: &mut Reader<'_>) -> InputEvent {
    let (x, y) = (words.word(), words.word());
    match name {
        "scroll-stop" => InputEvent::ScrollStop {
            x: x == "true",
            y: y == "true",
        },
        "scroll-cancel" => InputEvent::ScrollCancel {
            x: x == "true",
            y: y == "true",
        },
        _ => InputEvent::ScrollDiscrete {
            discrete_dx: words.or(x.parse::<i32>(), 0),
            discrete_dy: words.or(y.parse::<i32>(), 0),
        },
    }
}

fn touched(name: &str, words: &mut Reader<'_>) -> InputEvent {
    let touch_id = words.number();
    match name {
        "touch-up" => InputEvent::TouchUp { touch_id },
        "touch-cancel" => InputEvent::TouchCancel { touch_id },
        "touch-down" => {
            let (x, y) = (float(words), float(words));
            InputEvent::TouchDown { touch_id, x, y }
        }
        _ => {
            let (x, y) = (float(words), float(words));
            InputEvent::TouchMotion { touch_id, x, y }
        }
    }
}

fn moved(name: &str, words: &mut Reader<'_>) -> InputEvent {
    match name {
        "pinch" => InputEvent::GesturePinch {
            scale: float(words),
        },
        "swipe" => InputEvent::GestureSwipe {
            fingers: words.number(),
            dx: float(words),
            dy: float(words),
        },
        _ => moved_by(name, float(words), float(words), words),
    }
}

/// What moves by two floats.
fn moved_by(name: &str, dx: RawFloat, dy: RawFloat, words: &mut Reader<'_>) -> InputEvent {
    match name {
        "pointer-motion" => InputEvent::PointerMotion { dx, dy },
        "pointer-motion-absolute" => InputEvent::PointerMotionAbsolute {
            dx_absolute: dx,
            dy_absolute: dy,
        },
        "scroll" => InputEvent::ScrollDelta { dx, dy },
        _ => {
            words.miss();
            InputEvent::ScrollDelta { dx, dy }
        }
    }
}
