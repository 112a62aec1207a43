//! The server's converter: what a client's requests mean, and the seats and devices that a server announces.
//!
//! There is no policy here and no loop. Begin with `EisRequestConverter`, which takes requests, and with `Connection`,
//! its handle, on which seats are announced.
#![tactic(auto)]

mod connection;
mod converter;
mod costs;
mod device;
mod device_table;
mod event;
mod held;
mod holding;
mod input_error;
mod making;
mod seat;
mod seats;
mod sending;
mod traits;

pub use connection::Connection;
pub use converter::EisRequestConverter;
pub use device::{Device, DeviceInterface};
pub use ei_input::{DeviceEvent, EventTime};
pub use event::{
    Bind, Button, DeviceClosed, DeviceStartEmulating, DeviceStopEmulating, EisRequest, Frame,
    GesturePinch, GestureSwipe, KeyboardKey, PointerMotion, PointerMotionAbsolute, Ready,
    RequestDevice, ScrollCancel, ScrollDelta, ScrollDiscrete, ScrollStop, TextKeysym, TextUtf8,
    TouchCancel, TouchDown, TouchMotion, TouchUp,
};
pub use making::DeviceSetup;
pub use seat::Seat;
pub use traits::SeatEvent;
