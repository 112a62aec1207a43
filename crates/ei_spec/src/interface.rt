//! The interfaces of the protocol.

ghost use Rattle.std.specs.Prelude.{◌≡◌, ◌<◌, filter};
ghost use Rattle.std.specs.Option.{option_copied};
ghost use Rattle.std.specs.List.{find};
ghost use Rattle.ei_spec.specs.Interface.{name_of, known_of, is_called, is_long, place_of, the_interfaces};

use crate::limits::INTERFACES;

/// An interface of the protocol.
#[derive(Clone, Copy, Debug, PartialEq, Eq, Hash)]
pub enum KnownInterface {
    Handshake,
    Connection,
    Callback,
    Pingpong,
    Seat,
    Device,
    Pointer,
    PointerAbsolute,
    Scroll,
    Button,
    Keyboard,
    Touchscreen,
    Text,
    /// Gestures of several fingers: an interface of this library's own.
    Gesture,
}

impl KnownInterface {
    /// All of them: that of the handshake, and those that it settles, in the order in which they are announced.
    pub const ALL: [KnownInterface; INTERFACES] = [
        KnownInterface::Handshake,
        KnownInterface::Connection,
        KnownInterface::Callback,
        KnownInterface::Pingpong,
        KnownInterface::Seat,
        KnownInterface::Device,
        KnownInterface::Pointer,
        KnownInterface::PointerAbsolute,
        KnownInterface::Scroll,
        KnownInterface::Button,
        KnownInterface::Keyboard,
        KnownInterface::Touchscreen,
        KnownInterface::Text,
        KnownInterface::Gesture,
    ];

    /// The name on the wire, as `ei_seat`.
    pub fn name(self) -> &'static str
        ensures { result.now ≡ name_of self }
    {
        match self {
            KnownInterface::Handshake => "ei_handshake",
            KnownInterface::Connection => "ei_connection",
            KnownInterface::Callback => "ei_callback",
            KnownInterface::Pingpong => "ei_pingpong",
            KnownInterface::Seat => "ei_seat",
            KnownInterface::Device => "ei_device",
            KnownInterface::Pointer => "ei_pointer",
            KnownInterface::PointerAbsolute => "ei_pointer_absolute",
            KnownInterface::Scroll => "ei_scroll",
            KnownInterface::Button => "ei_button",
            KnownInterface::Keyboard => "ei_keyboard",
            KnownInterface::Touchscreen => "ei_touchscreen",
            KnownInterface::Text => "ei_text",
            KnownInterface::Gesture => "ei_x_gesture",
        }
    }

    /// The interface of that name; `None` for every other text.
    pub fn from_name(name: &str) -> Option<KnownInterface>
        ensures { result ≡ known_of name.now }
    {
        KnownInterface::from_bytes(name.as_bytes())
    }

    /// The interface whose name these bytes are; `None` for all others.
    pub fn from_bytes(name: &[u8]) -> Option<KnownInterface>
        ensures { result ≡ known_of name.now }
    {
        first_named(of_length(name.len()), name).copied()
    }

    /// The place in `ALL`.
    pub fn place(self) -> usize
        ensures value { result ≡ place_of self }
        ensures within { result < INTERFACES }
        ensures listed { Self.ALL ≡ the_interfaces }
    {
        self as usize
    }
}

/// The interfaces whose names have so many bytes.
fn of_length(len: usize) -> &'static [KnownInterface]
    ensures { result.now ≡ filter (is_long len) the_interfaces }
{
    match len {
        7 => &[KnownInterface::Seat, KnownInterface::Text],
        9 => &[
            KnownInterface::Device,
            KnownInterface::Scroll,
            KnownInterface::Button,
        ],
        10 => &[KnownInterface::Pointer],
        11 => &[
            KnownInterface::Callback,
            KnownInterface::Pingpong,
            KnownInterface::Keyboard,
        ],
        12 => &[KnownInterface::Handshake, KnownInterface::Gesture],
        13 => &[KnownInterface::Connection],
        14 => &[KnownInterface::Touchscreen],
        19 => &[KnownInterface::PointerAbsolute],
        _ => &[],
    }
}

/// The first interface of that name.
fn first_named<'a>(interfaces: &'a [KnownInterface], name: &[u8]) -> Option<&'a KnownInterface>
    ensures { option_copied result ≡ find (is_called name.now) interfaces.now }
{
    interfaces
        .iter()
        .find(|interface| name == interface.name().as_bytes())
}
