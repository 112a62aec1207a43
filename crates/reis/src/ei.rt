//! The client's end: its context, its proxies with their requests, a server's events, and the handshake that gives the iterator
//! over them.

pub use ei_client::{
    Button, Callback, Connection, Context, Device, Event, Gesture, Handshake, Interface, Keyboard,
    Pingpong, Pointer, PointerAbsolute, Proxy, Release, Scroll, Seat, Sent, Text, Touchscreen,
    button, callback, connection, device, gesture, handshake, keyboard, pingpong, pointer,
    pointer_absolute, scroll, seat, text, touchscreen,
};
pub use ei_iterator::handshake_blocking;
pub use ei_types::{
    ButtonState, ContextType, DeviceType, DisconnectReason, KeyState, KeymapType, OtherReason,
};
