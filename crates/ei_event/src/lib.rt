//! The client's converter: what a server's events mean to a client's user.
//!
//! There is no handshake here and no loop. Begin with `EiEvent`, what a user is given.
#![tactic(auto)]

mod connection;
mod converter;
mod device;
mod ending;
mod event;
pub mod heard;
mod items;
mod kept;
mod kept_device;
mod kept_interface;
mod kept_interfaces;
mod kept_seat;
mod keymap;
mod region;
mod seat;
mod taking;
mod traits;

pub use connection::Connection;
pub use converter::EiEventConverter;
pub use device::Device;
pub use ei_handler::{Call, Handler, Receipt, Run};
pub use ei_input::{DeviceEvent, EventTime};
pub use ending::Ending;
pub use event::{
    Button, DeviceAdded, DevicePaused, DeviceRemoved, DeviceResumed, DeviceStartEmulating,
    DeviceStopEmulating, Disconnected, EiEvent, Frame, GesturePinch, GestureSwipe, KeyboardKey,
    KeyboardModifiers, PointerMotion, PointerMotionAbsolute, ScrollCancel, ScrollDelta,
    ScrollDiscrete, ScrollStop, SeatAdded, SeatRemoved, TextKeysym, TextUtf8, TouchCancel,
    TouchDown, TouchMotion, TouchUp,
};
pub use keymap::Keymap;
pub use region::Region;
pub use seat::Seat;
pub use traits::SeatEvent;
