//! The server's end: its context, its proxies with their events, and a client's requests.

pub use ei_server::{
    Button, Callback, Connection, Context, Destroyed, Device, Gesture, Handshake, Interface,
    Keyboard, Pingpong, Pointer, PointerAbsolute, Proxy, Request, Scroll, Seat, Sent, Text,
    Touchscreen, button, callback, connection, destroyed_by_id, device, gesture, handshake,
    keyboard, pingpong, pointer, pointer_absolute, scroll, seat, text, touchscreen,
};
pub use ei_types::{
    ButtonState, ContextType, DeviceType, DisconnectReason, KeyState, KeymapType, OtherReason,
};
