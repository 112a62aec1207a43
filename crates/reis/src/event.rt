//! What a client makes of events: its converter, the iterator over them, what its user is told, the keys of seats and devices, and
//! what is called at the end of callbacks.

pub use ei_event::{
    Button, Call, Connection, Device, DeviceAdded, DeviceEvent, DevicePaused, DeviceRemoved,
    DeviceResumed, DeviceStartEmulating, DeviceStopEmulating, Disconnected, EiEvent,
    EiEventConverter, EventTime, Frame, GesturePinch, GestureSwipe, Handler, KeyboardKey,
    KeyboardModifiers, Keymap, PointerMotion, PointerMotionAbsolute, Receipt, Region, Run,
    ScrollCancel, ScrollDelta, ScrollDiscrete, ScrollStop, Seat, SeatAdded, SeatEvent, SeatRemoved,
    TextKeysym, TextUtf8, TouchCancel, TouchDown, TouchMotion, TouchUp,
};
pub use ei_iterator::EiConvertEventIterator;
pub use ei_types::{DeviceCapabilities, DeviceCapability, EventError};
