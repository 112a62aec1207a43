//! The interfaces that a handshake settles.

ghost use Rattle.std.specs.Prelude.{◌≡◌, ℕ, List, map};
ghost use Rattle.ei_types.specs.Settled.{named_versions, versions};

use ei_spec::KnownInterface;
use ei_spec::limits::SETTLED_INTERFACES;

/// The interfaces that a handshake settles, with the versions that both ends speak, in the
/// order in which they are announced.
pub fn known_interfaces() -> [(KnownInterface, u32); SETTLED_INTERFACES]
    ensures { result ≡ versions }
{
    [
        (KnownInterface::Connection, 1),
        (KnownInterface::Callback, 1),
        (KnownInterface::Pingpong, 1),
        (KnownInterface::Seat, 2),
        (KnownInterface::Device, 3),
        (KnownInterface::Pointer, 1),
        (KnownInterface::PointerAbsolute, 1),
        (KnownInterface::Scroll, 1),
        (KnownInterface::Button, 1),
        (KnownInterface::Keyboard, 1),
        (KnownInterface::Touchscreen, 2),
        (KnownInterface::Text, 1),
        (KnownInterface::Gesture, 1),
    ]
}

/// Their names and their versions, in that order.
pub fn interfaces() -> [(&'static str, u32); SETTLED_INTERFACES]
    ensures { map {B = List ℕ × ℕ} (λ p. (p.0.now, p.1)) result ≡ named_versions }
{
    [
        ("ei_connection", 1),
        ("ei_callback", 1),
        ("ei_pingpong", 1),
        ("ei_seat", 2),
        ("ei_device", 3),
        ("ei_pointer", 1),
        ("ei_pointer_absolute", 1),
        ("ei_scroll", 1),
        ("ei_button", 1),
        ("ei_keyboard", 1),
        ("ei_touchscreen", 2),
        ("ei_text", 1),
        ("ei_x_gesture", 1),
    ]
}
