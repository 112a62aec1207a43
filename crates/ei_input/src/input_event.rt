//! The inputs of a device, the same at both ends: as they wait for their time, and as they are handed out.
//!
//! What is handed out is a struct for each input, over the key by which that end names a device. It has the time of its frame,
//! in microseconds, and comes right before it.

use ei_types::{ButtonState, KeyState};
use ei_wire::{EiText, RawFloat};

/// An input that waits on its device for the frame that gives it a time.
#[derive(Debug, Drop)]
pub enum InputEvent {
    /// The pointer moved by a distance, in logical pixels.
    PointerMotion {
        dx: RawFloat,
        dy: RawFloat,
    },
    /// The pointer moved to a point of a region.
    PointerMotionAbsolute {
        dx_absolute: RawFloat,
        dy_absolute: RawFloat,
    },
    /// A button went down or up. The number is a code of `linux/input-event-codes.h`.
    Button {
        button: u32,
        state: ButtonState,
    },
    /// It scrolled by a distance, in logical pixels.
    ScrollDelta {
        dx: RawFloat,
        dy: RawFloat,
    },
    /// Scrolling stopped on these axes.
    ScrollStop {
        x: bool,
        y: bool,
    },
    /// Scrolling stopped on these axes, and nothing may scroll on by itself.
    ScrollCancel {
        x: bool,
        y: bool,
    },
    /// A wheel turned. A click of the wheel is 120.
    ScrollDiscrete {
        discrete_dx: i32,
        discrete_dy: i32,
    },
    /// A key went down or up.
    KeyboardKey {
        key: u32,
        state: KeyState,
    },
    /// A touch began at a point. The id is its name until it ends.
    TouchDown {
        touch_id: u32,
        x: RawFloat,
        y: RawFloat,
    },
    /// A touch moved to a point.
    TouchMotion {
        touch_id: u32,
        x: RawFloat,
        y: RawFloat,
    },
    /// A touch ended.
    TouchUp {
        touch_id: u32,
    },
    /// A touch ended and is not to count.
    TouchCancel {
        touch_id: u32,
    },
    /// A keysym, by its number in XKB, went down or up.
    TextKeysym {
        keysym: u32,
        state: KeyState,
    },
    /// A text was put in. It has 1 to 254 bytes.
    TextUtf8 {
        text: EiText,
    },
    /// Fingers moved together over a touchpad by a distance, in logical pixels.
    GestureSwipe {
        fingers: u32,
        dx: RawFloat,
        dy: RawFloat,
    },
    /// Fingers moved apart or towards each other. The scale is 1 where they are as far apart as when they came down.
    GesturePinch {
        scale: RawFloat,
    },
}

/// The pointer moved by a distance, in logical pixels.
#[derive(Clone, Debug, Drop, PartialEq)]
pub struct PointerMotion<D> {
    pub device: D,
    pub time: u64,
    pub dx: RawFloat,
    pub dy: RawFloat,
}

/// The pointer moved to a point of a region.
#[derive(Clone, Debug, Drop, PartialEq)]
pub struct PointerMotionAbsolute<D> {
    pub device: D,
    pub time: u64,
    pub dx_absolute: RawFloat,
    pub dy_absolute: RawFloat,
}

/// A button went down or up. The number is a code of `linux/input-event-codes.h`.
#[derive(Clone, Debug, Drop, PartialEq)]
pub struct Button<D> {
    pub device: D,
    pub time: u64,
    pub button: u32,
    pub state: ButtonState,
}

/// It scrolled by a distance, in logical pixels.
#[derive(Clone, Debug, Drop, PartialEq)]
pub struct ScrollDelta<D> {
    pub device: D,
    pub time: u64,
    pub dx: RawFloat,
    pub dy: RawFloat,
}

/// Scrolling stopped on these axes.
#[derive(Clone, Debug, Drop, PartialEq)]
pub struct ScrollStop<D> {
    pub device: D,
    pub time: u64,
    pub x: bool,
    pub y: bool,
}

/// Scrolling stopped on these axes, and nothing may scroll on by itself.
#[derive(Clone, Debug, Drop, PartialEq)]
pub struct ScrollCancel<D> {
    pub device: D,
    pub time: u64,
    pub x: bool,
    pub y: bool,
}

/// A wheel turned. A click of the wheel is 120.
#[derive(Clone, Debug, Drop, PartialEq)]
pub struct ScrollDiscrete<D> {
    pub device: D,
    pub time: u64,
    pub discrete_dx: i32,
    pub discrete_dy: i32,
}

/// A key went down or up.
#[derive(Clone, Debug, Drop, PartialEq)]
pub struct KeyboardKey<D> {
    pub device: D,
    pub time: u64,
    pub key: u32,
    pub state: KeyState,
}

/// A touch began at a point. The id is its name until it ends.
#[derive(Clone, Debug, Drop, PartialEq)]
pub struct TouchDown<D> {
    pub device: D,
    pub time: u64,
    pub touch_id: u32,
    pub x: RawFloat,
    pub y: RawFloat,
}

/// A touch moved to a point.
#[derive(Clone, Debug, Drop, PartialEq)]
pub struct TouchMotion<D> {
    pub device: D,
    pub time: u64,
    pub touch_id: u32,
    pub x: RawFloat,
    pub y: RawFloat,
}

/// A touch ended.
#[derive(Clone, Debug, Drop, PartialEq)]
pub struct TouchUp<D> {
    pub device: D,
    pub time: u64,
    pub touch_id: u32,
}

/// A touch ended and is not to count.
#[derive(Clone, Debug, Drop, PartialEq)]
pub struct TouchCancel<D> {
    pub device: D,
    pub time: u64,
    pub touch_id: u32,
}

/// A keysym, by its number in XKB, went down or up.
#[derive(Clone, Debug, Drop, PartialEq)]
pub struct TextKeysym<D> {
    pub device: D,
    pub time: u64,
    pub keysym: u32,
    pub state: KeyState,
}

/// A text was put in. It has 1 to 254 bytes.
#[derive(Debug, Drop, PartialEq)]
pub struct TextUtf8<D> {
    pub device: D,
    pub time: u64,
    pub text: EiText,
}

/// Fingers moved together over a touchpad by a distance, in logical pixels.
#[derive(Clone, Debug, Drop, PartialEq)]
pub struct GestureSwipe<D> {
    pub device: D,
    pub time: u64,
    pub fingers: u32,
    pub dx: RawFloat,
    pub dy: RawFloat,
}

/// Fingers moved apart or towards each other. The scale is 1 where they are as far apart as when they came down.
#[derive(Clone, Debug, Drop, PartialEq)]
pub struct GesturePinch<D> {
    pub device: D,
    pub time: u64,
    pub scale: RawFloat,
}

/// Queues what an input becomes at its device and time: the variant of its name, of that end's enum, with the struct of
/// its name. There is room for it. The device's key is made in each arm, and what is queued is made in the queue, not moved
/// there.
#[macro_export]
macro_rules! push_timed {
    (@each $queue:ident, $made:ident, $input:expr, $device:expr, $time:expr; $($name:ident { $($field:ident),* })*) => {
        match $input {
            $($crate::input_event::InputEvent::$name { $($field),* } => $queue.push_reserved($made::$name($crate::input_event::$name {
                device: $device,
                time: $time,
                $($field),*
            })),)*
        }
    };
    ($queue:ident, $made:ident, $input:expr, $device:expr, $time:expr) => {
        $crate::push_timed! {
            @each $queue, $made, $input, $device, $time;
            PointerMotion { dx, dy }
            PointerMotionAbsolute { dx_absolute, dy_absolute }
            Button { button, state }
            ScrollDelta { dx, dy }
            ScrollStop { x, y }
            ScrollCancel { x, y }
            ScrollDiscrete { discrete_dx, discrete_dy }
            KeyboardKey { key, state }
            TouchDown { touch_id, x, y }
            TouchMotion { touch_id, x, y }
            TouchUp { touch_id }
            TouchCancel { touch_id }
            TextKeysym { keysym, state }
            TextUtf8 { text }
            GestureSwipe { fingers, dx, dy }
            GesturePinch { scale }
        }
    };
}
