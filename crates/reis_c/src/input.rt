//! A flat request as the input that it says.

ghost use Rattle.std.specs.Prelude.{◌≡◌, ◌%◌, IfOk, OnErr, IsSome};
ghost use Rattle.reis_c.specs.Inputs.{button_state, input_in, input_of, is_meant, key_state, text_input};

use crate::flat as kind;
use crate::flat::ReisRequest;
use ei_input::input_event::InputEvent;
use ei_types::{ButtonState, KeyState};
use ei_wire::{EiText, NoMemory, RawFloat};
use std::alloc::Global;

fn button_state(number: u32) -> Option<ButtonState>
    ensures { result ≡ button_state number }
{
    match number {
        0 => Some(ButtonState::Released),
        1 => Some(ButtonState::Press),
        _ => None,
    }
}

fn key_state(number: u32) -> Option<KeyState>
    ensures { result ≡ key_state number }
{
    match number {
        0 => Some(KeyState::Released),
        1 => Some(KeyState::Press),
        _ => None,
    }
}

fn is_meant(number: u32) -> Option<bool>
    ensures { result ≡ is_meant number }
{
    match number {
        0 => Some(false),
        1 => Some(true),
        _ => None,
    }
}

/// The text of some bytes as an input; `None` where it is no text.
#[tactic(auto, using(crate::proofs::Given::is_text, crate::proofs::Given::is_no_text))]
fn text_input(alloc: Global, bytes: &[u8]) -> Result<Option<InputEvent>, NoMemory>
    ensures input { IfOk result (λ input. input ≡ text_input bytes.now) }
    ensures memory { OnErr result (IsSome (text_input bytes.now)) }
{
    match str::from_utf8(bytes) {
        Ok(text) => {
            let text = EiText::new(alloc, text)?;
            Ok(Some(InputEvent::TextUtf8 { text }))
        }
        Err(_) => Ok(None),
    }
}

/// The input of that kind, of its first three fields, where it is one and has no text.
fn input_of(kind: u32, a: u32, b: u32, c: u32) -> Option<InputEvent>
    ensures { result ≡ input_of kind a b c }
{
    let (x, y) = (RawFloat(a), RawFloat(b));
    let (right, down) = (RawFloat(b), RawFloat(c));
    Some(match kind {
        kind::POINTER_MOTION => InputEvent::PointerMotion { dx: x, dy: y },
        kind::POINTER_MOTION_ABSOLUTE => InputEvent::PointerMotionAbsolute {
            dx_absolute: x,
            dy_absolute: y,
        },
        kind::BUTTON => InputEvent::Button {
            button: a,
            state: button_state(b)?,
        },
        kind::SCROLL_DELTA => InputEvent::ScrollDelta { dx: x, dy: y },
        kind::SCROLL_STOP => InputEvent::ScrollStop {
            x: is_meant(a)?,
            y: is_meant(b)?,
        },
        kind::SCROLL_CANCEL => InputEvent::ScrollCancel {
            x: is_meant(a)?,
            y: is_meant(b)?,
        },
        kind::SCROLL_DISCRETE => InputEvent::ScrollDiscrete {
            discrete_dx: a.cast_signed(),
            discrete_dy: b.cast_signed(),
        },
        kind::KEY => InputEvent::KeyboardKey {
            key: a,
            state: key_state(b)?,
        },
        kind::TOUCH_DOWN => InputEvent::TouchDown {
            touch_id: a,
            x: right,
            y: down,
        },
        kind::TOUCH_MOTION => InputEvent::TouchMotion {
            touch_id: a,
            x: right,
            y: down,
        },
        kind::TOUCH_UP => InputEvent::TouchUp { touch_id: a },
        kind::TOUCH_CANCEL => InputEvent::TouchCancel { touch_id: a },
        kind::TEXT_KEYSYM => InputEvent::TextKeysym {
            keysym: a,
            state: key_state(b)?,
        },
        kind::GESTURE_SWIPE => InputEvent::GestureSwipe {
            fingers: a,
            dx: right,
            dy: down,
        },
        kind::GESTURE_PINCH => InputEvent::GesturePinch { scale: x },
        _ => return None,
    })
}

/// The low four bytes of a field.
fn low(field: u64) -> u32
    ensures { result ≡ field % 4294967296 }
{
    (field % 4294967296) as u32
}

/// The input that a flat request and its text say.
pub(crate) fn input_in(
    alloc: Global,
    request: &ReisRequest,
    text: &[u8],
) -> Result<Option<InputEvent>, NoMemory>
    ensures input { IfOk result (λ input. input ≡ input_in request.now text.now) }
    ensures memory { OnErr result (IsSome (input_in request.now text.now)) }
{
    if request.kind == kind::TEXT_UTF8 {
        return text_input(alloc, text);
    }
    let fields = &request.fields;
    Ok(input_of(request.kind, low(fields[0]), low(fields[1]), low(fields[2])))
}
