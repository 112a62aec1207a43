//! The kinds of proxies, which both ends have.

ghost use Rattle.std.specs.Prelude.{◌≡◌, ℕ};
ghost use Rattle.ei_spec.specs.Interface.{name_of, server_version};
ghost use Rattle.ei_spec.specs.declared.interface.KnownInterface.{KnownInterface};
ghost use Rattle.ei_backend.specs.Object.{shown_of};

use ei_spec::KnownInterface;

/// A kind of proxies: an interface, with its name and version.
pub trait Kind {
    /// The interface.
    ghost KNOWN: { KnownInterface };

    ghost VERSION: { ℕ };

    /// The interface.
    const KNOWN: KnownInterface;

    /// The name on the wire, as `ei_seat`.
    const NAME: &'static str;

    /// The version of the interface that both ends have.
    const VERSION: u32;

    /// `NAME`, of which a contract can't speak.
    fn wire_name() -> &'static str
        ensures { result.now ≡ name_of KNOWN };

    ghost listed: { VERSION ≡ server_version KNOWN };
}

/// The name of the type of proxies, as `Seat`.
pub fn shown_name(interface: KnownInterface) -> &'static str
    ensures { result.now ≡ shown_of interface }
{
    match interface {
        KnownInterface::Handshake => "Handshake",
        KnownInterface::Connection => "Connection",
        KnownInterface::Callback => "Callback",
        KnownInterface::Pingpong => "Pingpong",
        KnownInterface::Seat => "Seat",
        KnownInterface::Device => "Device",
        KnownInterface::Pointer => "Pointer",
        KnownInterface::PointerAbsolute => "PointerAbsolute",
        KnownInterface::Scroll => "Scroll",
        KnownInterface::Button => "Button",
        KnownInterface::Keyboard => "Keyboard",
        KnownInterface::Touchscreen => "Touchscreen",
        KnownInterface::Text => "Text",
        KnownInterface::Gesture => "Gesture",
    }
}

/// The kind of `ei_handshake`.
#[derive(Drop)]
pub struct Handshake;

impl Kind for Handshake {
    ghost use Rattle.std.specs.Prelude.{refl};
    ghost use Rattle.ei_spec.specs.declared.interface.KnownInterface.TheVariants as known;

    ghost KNOWN = { known.Handshake };

    ghost VERSION = { 1 };

    ghost listed = { refl };

    const KNOWN: KnownInterface = KnownInterface::Handshake;

    const NAME: &'static str = "ei_handshake";

    const VERSION: u32 = 1;

    fn wire_name() -> &'static str {
        Handshake::NAME
    }
}

/// The kind of `ei_connection`.
#[derive(Drop)]
pub struct Connection;

impl Kind for Connection {
    ghost use Rattle.std.specs.Prelude.{refl};
    ghost use Rattle.ei_spec.specs.declared.interface.KnownInterface.TheVariants as known;

    ghost KNOWN = { known.Connection };

    ghost VERSION = { 1 };

    ghost listed = { refl };

    const KNOWN: KnownInterface = KnownInterface::Connection;

    const NAME: &'static str = "ei_connection";

    const VERSION: u32 = 1;

    fn wire_name() -> &'static str {
        Connection::NAME
    }
}

/// The kind of `ei_callback`.
#[derive(Drop)]
pub struct Callback;

impl Kind for Callback {
    ghost use Rattle.std.specs.Prelude.{refl};
    ghost use Rattle.ei_spec.specs.declared.interface.KnownInterface.TheVariants as known;

    ghost KNOWN = { known.Callback };

    ghost VERSION = { 1 };

    ghost listed = { refl };

    const KNOWN: KnownInterface = KnownInterface::Callback;

    const NAME: &'static str = "ei_callback";

    const VERSION: u32 = 1;

    fn wire_name() -> &'static str {
        Callback::NAME
    }
}

/// The kind of `ei_pingpong`.
#[derive(Drop)]
pub struct Pingpong;

impl Kind for Pingpong {
    ghost use Rattle.std.specs.Prelude.{refl};
    ghost use Rattle.ei_spec.specs.declared.interface.KnownInterface.TheVariants as known;

    ghost KNOWN = { known.Pingpong };

    ghost VERSION = { 1 };

    ghost listed = { refl };

    const KNOWN: KnownInterface = KnownInterface::Pingpong;

    const NAME: &'static str = "ei_pingpong";

    const VERSION: u32 = 1;

    fn wire_name() -> &'static str {
        Pingpong::NAME
    }
}

/// The kind of `ei_seat`.
#[derive(Drop)]
pub struct Seat;

impl Kind for Seat {
    ghost use Rattle.std.specs.Prelude.{refl};
    ghost use Rattle.ei_spec.specs.declared.interface.KnownInterface.TheVariants as known;

    ghost KNOWN = { known.Seat };

    ghost VERSION = { 2 };

    ghost listed = { refl };

    const KNOWN: KnownInterface = KnownInterface::Seat;

    const NAME: &'static str = "ei_seat";

    const VERSION: u32 = 2;

    fn wire_name() -> &'static str {
        Seat::NAME
    }
}

/// The kind of `ei_device`.
#[derive(Drop)]
pub struct Device;

impl Kind for Device {
    ghost use Rattle.std.specs.Prelude.{refl};
    ghost use Rattle.ei_spec.specs.declared.interface.KnownInterface.TheVariants as known;

    ghost KNOWN = { known.Device };

    ghost VERSION = { 3 };

    ghost listed = { refl };

    const KNOWN: KnownInterface = KnownInterface::Device;

    const NAME: &'static str = "ei_device";

    const VERSION: u32 = 3;

    fn wire_name() -> &'static str {
        Device::NAME
    }
}

/// The kind of `ei_pointer`.
#[derive(Drop)]
pub struct Pointer;

impl Kind for Pointer {
    ghost use Rattle.std.specs.Prelude.{refl};
    ghost use Rattle.ei_spec.specs.declared.interface.KnownInterface.TheVariants as known;

    ghost KNOWN = { known.Pointer };

    ghost VERSION = { 1 };

    ghost listed = { refl };

    const KNOWN: KnownInterface = KnownInterface::Pointer;

    const NAME: &'static str = "ei_pointer";

    const VERSION: u32 = 1;

    fn wire_name() -> &'static str {
        Pointer::NAME
    }
}

/// The kind of `ei_pointer_absolute`.
#[derive(Drop)]
pub struct PointerAbsolute;

impl Kind for PointerAbsolute {
    ghost use Rattle.std.specs.Prelude.{refl};
    ghost use Rattle.ei_spec.specs.declared.interface.KnownInterface.TheVariants as known;

    ghost KNOWN = { known.PointerAbsolute };

    ghost VERSION = { 1 };

    ghost listed = { refl };

    const KNOWN: KnownInterface = KnownInterface::PointerAbsolute;

    const NAME: &'static str = "ei_pointer_absolute";

    const VERSION: u32 = 1;

    fn wire_name() -> &'static str {
        PointerAbsolute::NAME
    }
}

/// The kind of `ei_scroll`.
#[derive(Drop)]
pub struct Scroll;

impl Kind for Scroll {
    ghost use Rattle.std.specs.Prelude.{refl};
    ghost use Rattle.ei_spec.specs.declared.interface.KnownInterface.TheVariants as known;

    ghost KNOWN = { known.Scroll };

    ghost VERSION = { 1 };

    ghost listed = { refl };

    const KNOWN: KnownInterface = KnownInterface::Scroll;

    const NAME: &'static str = "ei_scroll";

    const VERSION: u32 = 1;

    fn wire_name() -> &'static str {
        Scroll::NAME
    }
}

/// The kind of `ei_button`.
#[derive(Drop)]
pub struct Button;

impl Kind for Button {
    ghost use Rattle.std.specs.Prelude.{refl};
    ghost use Rattle.ei_spec.specs.declared.interface.KnownInterface.TheVariants as known;

    ghost KNOWN = { known.Button };

    ghost VERSION = { 1 };

    ghost listed = { refl };

    const KNOWN: KnownInterface = KnownInterface::Button;

    const NAME: &'static str = "ei_button";

    const VERSION: u32 = 1;

    fn wire_name() -> &'static str {
        Button::NAME
    }
}

/// The kind of `ei_keyboard`.
#[derive(Drop)]
pub struct Keyboard;

impl Kind for Keyboard {
    ghost use Rattle.std.specs.Prelude.{refl};
    ghost use Rattle.ei_spec.specs.declared.interface.KnownInterface.TheVariants as known;

    ghost KNOWN = { known.Keyboard };

    ghost VERSION = { 1 };

    ghost listed = { refl };

    const KNOWN: KnownInterface = KnownInterface::Keyboard;

    const NAME: &'static str = "ei_keyboard";

    const VERSION: u32 = 1;

    fn wire_name() -> &'static str {
        Keyboard::NAME
    }
}

/// The kind of `ei_touchscreen`.
#[derive(Drop)]
pub struct Touchscreen;

impl Kind for Touchscreen {
    ghost use Rattle.std.specs.Prelude.{refl};
    ghost use Rattle.ei_spec.specs.declared.interface.KnownInterface.TheVariants as known;

    ghost KNOWN = { known.Touchscreen };

    ghost VERSION = { 2 };

    ghost listed = { refl };

    const KNOWN: KnownInterface = KnownInterface::Touchscreen;

    const NAME: &'static str = "ei_touchscreen";

    const VERSION: u32 = 2;

    fn wire_name() -> &'static str {
        Touchscreen::NAME
    }
}

/// The kind of `ei_text`.
#[derive(Drop)]
pub struct Text;

impl Kind for Text {
    ghost use Rattle.std.specs.Prelude.{refl};
    ghost use Rattle.ei_spec.specs.declared.interface.KnownInterface.TheVariants as known;

    ghost KNOWN = { known.Text };

    ghost VERSION = { 1 };

    ghost listed = { refl };

    const KNOWN: KnownInterface = KnownInterface::Text;

    const NAME: &'static str = "ei_text";

    const VERSION: u32 = 1;

    fn wire_name() -> &'static str {
        Text::NAME
    }
}

/// The kind of `ei_x_gesture`.
#[derive(Drop)]
pub struct Gesture;

impl Kind for Gesture {
    ghost use Rattle.std.specs.Prelude.{refl};
    ghost use Rattle.ei_spec.specs.declared.interface.KnownInterface.TheVariants as known;

    ghost KNOWN = { known.Gesture };

    ghost VERSION = { 1 };

    ghost listed = { refl };

    const KNOWN: KnownInterface = KnownInterface::Gesture;

    const NAME: &'static str = "ei_x_gesture";

    const VERSION: u32 = 1;

    fn wire_name() -> &'static str {
        Gesture::NAME
    }
}
