//! The enums that messages bear. An enum is its number on the wire.

ghost use Rattle.std.specs.Prelude.{◌≡◌, ◌≤◌, ◌↔◌, Some, IsNone, IfSome};
ghost use Rattle.ei_spec.specs.Value.{Word};
ghost use Rattle.ei_spec.specs.Table.{button_state, context_type, device_type, disconnect_reason, key_state, keymap_type};
ghost use Rattle.ei_types.specs.Enums.{button_state_number, context_type_number, device_type_number, disconnect_reason_number, key_state_number};
ghost use Rattle.ei_types.specs.Enums.{keymap_type_number, reason_of};
ghost use Rattle.ei_types.specs.Enums.{button_state_names, context_type_names, device_type_names, disconnect_reason_names, key_state_names, keymap_type_names};

use ei_wire::{Arg, ByteStream, OwnedArg, ParseError};
use std::marker::Model;

/// What a client is for.
#[derive(Clone, Copy, Debug, PartialEq, Eq, Hash)]
pub enum ContextType {
    /// It receives the input that the server captures.
    Receiver = 1,
    /// It sends input to the server.
    Sender = 2,
}

impl From<ContextType> for u32 {
    ghost from_gives = { λ kind number. number ≡ context_type_number kind };

    fn from(kind: ContextType) -> u32 {
        kind as u32
    }
}

impl OwnedArg for ContextType {
    ghost kind = { context_type };

    ghost value = { λ kind. Word (context_type_number kind) };

    ghost names = { λ kind. Some (context_type_names kind) };

    #[inline(always)]
    fn parse(stream: &mut ByteStream<'_>) -> Result<ContextType, ParseError> {
        let number = stream.choice("ContextType", &[1, 2])?;
        Ok(if number == 1 {
            ContextType::Receiver
        } else {
            ContextType::Sender
        })
    }

    fn as_arg(&self) -> Arg<'_> {
        Arg::Uint32(u32::from(*self))
    }

    fn enum_name(&self) -> Option<(&'static str, &'static str)> {
        let value = match self {
            ContextType::Receiver => "receiver",
            ContextType::Sender => "sender",
        };
        Some(("context_type", value))
    }
}

/// The number of a reason that this library has no name for.
#[derive(Clone, Copy, Debug, PartialEq, Eq, Hash)]
pub struct OtherReason {
    number: u32,
}

impl Model for OtherReason {
    ghost use Rattle.std.specs.Prelude.{ℕ, ◌≤◌};

    ghost Value = { ℕ };

    ghost view = { λ other. other.number };

    ghost invariant = { λ other. 6 ≤ other.number };

    ghost inverse = { λ number. record { number = number } };
}

impl OtherReason {
    /// The reason of that number; `None` for 0 to 5, which have names.
    pub fn new(number: u32) -> Option<OtherReason>
        ensures named { IsNone result ↔ (number ≤ 5) }
        ensures number { IfSome result (λ other. other ≡ number) }
    {
        if number <= 5 {
            None
        } else {
            Some(OtherReason { number })
        }
    }

    /// The number, from 6 on.
    pub fn get(&self) -> u32
        ensures number { result ≡ self.now }
        ensures unnamed { 6 ≤ result }
    {
        self.number
    }
}

/// Why the server ends a connection.
///
/// Every number is a reason: a later version of the protocol may name more than this library knows.
#[derive(Clone, Copy, Debug, PartialEq, Eq, Hash)]
pub enum DisconnectReason {
    /// The client asked for it, or the server is done.
    Disconnected,
    /// Something went wrong that the other reasons don't say.
    Error,
    /// The client did what its context type doesn't allow.
    Mode,
    /// The client broke the protocol.
    Protocol,
    /// The client sent a value that isn't allowed.
    Value,
    /// The bytes between the two ends failed.
    Transport,
    /// A reason that this library has no name for.
    Other(OtherReason),
}

impl DisconnectReason {
    /// The reason of that number.
    fn of_number(number: u32) -> DisconnectReason
        ensures reason { result ≡ reason_of number }
        ensures number { disconnect_reason_number result ≡ number }
    {
        match number {
            0 => DisconnectReason::Disconnected,
            1 => DisconnectReason::Error,
            2 => DisconnectReason::Mode,
            3 => DisconnectReason::Protocol,
            4 => DisconnectReason::Value,
            5 => DisconnectReason::Transport,
            _ => DisconnectReason::Other(OtherReason { number }),
        }
    }
}

impl From<DisconnectReason> for u32 {
    ghost from_gives = { λ reason number. number ≡ disconnect_reason_number reason };

    fn from(reason: DisconnectReason) -> u32 {
        match reason {
            DisconnectReason::Disconnected => 0,
            DisconnectReason::Error => 1,
            DisconnectReason::Mode => 2,
            DisconnectReason::Protocol => 3,
            DisconnectReason::Value => 4,
            DisconnectReason::Transport => 5,
            DisconnectReason::Other(other) => other.get(),
        }
    }
}

impl OwnedArg for DisconnectReason {
    ghost kind = { disconnect_reason };

    ghost value = { λ reason. Word (disconnect_reason_number reason) };

    ghost names = { λ reason. Some (disconnect_reason_names reason) };

    #[inline(always)]
    fn parse(stream: &mut ByteStream<'_>) -> Result<DisconnectReason, ParseError> {
        Ok(DisconnectReason::of_number(u32::parse(stream)?))
    }

    fn as_arg(&self) -> Arg<'_> {
        Arg::Uint32(u32::from(*self))
    }

    fn enum_name(&self) -> Option<(&'static str, &'static str)> {
        let value = match self {
            DisconnectReason::Disconnected => "disconnected",
            DisconnectReason::Error => "error",
            DisconnectReason::Mode => "mode",
            DisconnectReason::Protocol => "protocol",
            DisconnectReason::Value => "value",
            DisconnectReason::Transport => "transport",
            DisconnectReason::Other(_) => "other",
        };
        Some(("disconnect_reason", value))
    }
}

/// What a device is.
#[derive(Clone, Copy, Debug, PartialEq, Eq, Hash)]
pub enum DeviceType {
    /// It has no body of its own, as a device that the server makes.
    Virtual = 1,
    /// It stands for a device that one can touch.
    Physical = 2,
}

impl From<DeviceType> for u32 {
    ghost from_gives = { λ kind number. number ≡ device_type_number kind };

    fn from(kind: DeviceType) -> u32 {
        kind as u32
    }
}

impl OwnedArg for DeviceType {
    ghost kind = { device_type };

    ghost value = { λ kind. Word (device_type_number kind) };

    ghost names = { λ kind. Some (device_type_names kind) };

    #[inline(always)]
    fn parse(stream: &mut ByteStream<'_>) -> Result<DeviceType, ParseError> {
        let number = stream.choice("DeviceType", &[1, 2])?;
        Ok(if number == 1 {
            DeviceType::Virtual
        } else {
            DeviceType::Physical
        })
    }

    fn as_arg(&self) -> Arg<'_> {
        Arg::Uint32(u32::from(*self))
    }

    fn enum_name(&self) -> Option<(&'static str, &'static str)> {
        let value = match self {
            DeviceType::Virtual => "virtual",
            DeviceType::Physical => "physical",
        };
        Some(("device_type", value))
    }
}

/// Whether a button goes down or up.
#[derive(Clone, Copy, Debug, PartialEq, Eq, Hash)]
pub enum ButtonState {
    /// It goes up.
    Released = 0,
    /// It goes down.
    Press = 1,
}

impl From<ButtonState> for u32 {
    ghost from_gives = { λ state number. number ≡ button_state_number state };

    fn from(state: ButtonState) -> u32 {
        state as u32
    }
}

impl OwnedArg for ButtonState {
    ghost kind = { button_state };

    ghost value = { λ state. Word (button_state_number state) };

    ghost names = { λ state. Some (button_state_names state) };

    #[inline(always)]
    fn parse(stream: &mut ByteStream<'_>) -> Result<ButtonState, ParseError> {
        let number = stream.choice("ButtonState", &[0, 1])?;
        Ok(if number == 0 {
            ButtonState::Released
        } else {
            ButtonState::Press
        })
    }

    #[inline]
    fn parse_lawful(stream: &mut ByteStream<'_>) -> Option<ButtonState> {
        let number = stream.lawful_choice("ButtonState", &[0, 1])?;
        Some(if number == 0 {
            ButtonState::Released
        } else {
            ButtonState::Press
        })
    }

    fn as_arg(&self) -> Arg<'_> {
        Arg::Uint32(u32::from(*self))
    }

    fn enum_name(&self) -> Option<(&'static str, &'static str)> {
        let value = match self {
            ButtonState::Released => "released",
            ButtonState::Press => "press",
        };
        Some(("button_state", value))
    }
}

/// Whether a key goes down or up.
#[derive(Clone, Copy, Debug, PartialEq, Eq, Hash)]
pub enum KeyState {
    /// It goes up.
    Released = 0,
    /// It goes down.
    Press = 1,
}

impl From<KeyState> for u32 {
    ghost from_gives = { λ state number. number ≡ key_state_number state };

    fn from(state: KeyState) -> u32 {
        state as u32
    }
}

impl OwnedArg for KeyState {
    ghost kind = { key_state };

    ghost value = { λ state. Word (key_state_number state) };

    ghost names = { λ state. Some (key_state_names state) };

    #[inline(always)]
    fn parse(stream: &mut ByteStream<'_>) -> Result<KeyState, ParseError> {
        let number = stream.choice("KeyState", &[0, 1])?;
        Ok(if number == 0 {
            KeyState::Released
        } else {
            KeyState::Press
        })
    }

    #[inline]
    fn parse_lawful(stream: &mut ByteStream<'_>) -> Option<KeyState> {
        let number = stream.lawful_choice("KeyState", &[0, 1])?;
        Some(if number == 0 {
            KeyState::Released
        } else {
            KeyState::Press
        })
    }

    fn as_arg(&self) -> Arg<'_> {
        Arg::Uint32(u32::from(*self))
    }

    fn enum_name(&self) -> Option<(&'static str, &'static str)> {
        let value = match self {
            KeyState::Released => "released",
            KeyState::Press => "press",
        };
        Some(("key_state", value))
    }
}

/// How a keymap is written.
#[derive(Clone, Copy, Debug, PartialEq, Eq, Hash)]
pub enum KeymapType {
    /// As text of xkb.
    Xkb = 1,
}

impl From<KeymapType> for u32 {
    ghost from_gives = { λ kind number. number ≡ keymap_type_number kind };

    fn from(kind: KeymapType) -> u32 {
        kind as u32
    }
}

impl OwnedArg for KeymapType {
    ghost kind = { keymap_type };

    ghost value = { λ kind. Word (keymap_type_number kind) };

    ghost names = { λ kind. Some (keymap_type_names kind) };

    #[inline(always)]
    fn parse(stream: &mut ByteStream<'_>) -> Result<KeymapType, ParseError> {
        let _number = stream.choice("KeymapType", &[1])?;
        Ok(KeymapType::Xkb)
    }

    fn as_arg(&self) -> Arg<'_> {
        Arg::Uint32(u32::from(*self))
    }

    fn enum_name(&self) -> Option<(&'static str, &'static str)> {
        let value = match self {
            KeymapType::Xkb => "xkb",
        };
        Some(("keymap_type", value))
    }
}
