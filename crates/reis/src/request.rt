//! A server's connection after its handshake: what a client asks, and the seats and devices that it is told of.

pub use ei_request::{
    Bind, Button, Connection, Device, DeviceClosed, DeviceEvent, DeviceInterface, DeviceSetup,
    DeviceStartEmulating, DeviceStopEmulating, EisRequest, EisRequestConverter, EventTime, Frame,
    GesturePinch, GestureSwipe, KeyboardKey, PointerMotion, PointerMotionAbsolute, Ready,
    RequestDevice, ScrollCancel, ScrollDelta, ScrollDiscrete, ScrollStop, Seat, SeatEvent,
    TextKeysym, TextUtf8, TouchCancel, TouchDown, TouchMotion, TouchUp,
};
pub use ei_types::{DeviceCapabilities, DeviceCapability, RequestError};
