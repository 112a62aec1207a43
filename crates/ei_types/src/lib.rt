//! The small types that both ends share: enums of the protocol, capabilities and sets of them, the
//! interfaces that a handshake settles, and the errors of a session.
//!
//! There are no messages here and no state. Begin with `DeviceCapability` and `Error`.
#![tactic(auto)]

mod capability;
mod enums;
mod error;
mod interface_list;
pub mod laws;
mod operation_names;

pub use capability::{DeviceCapabilities, DeviceCapability};
pub use enums::{
    ButtonState, ContextType, DeviceType, DisconnectReason, KeyState, KeymapType, OtherReason,
};
pub use error::{Error, EventError, HandshakeError, RequestError};
pub use interface_list::{interfaces, known_interfaces};
pub use operation_names::op_name;
