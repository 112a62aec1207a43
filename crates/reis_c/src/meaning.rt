//! What the bytes and the numbers that a call is given mean: a text, a capability, a reason.

ghost use Rattle.std.specs.Prelude.{◌≡◌, ◌≢◌, true, false, MatchOption};
ghost use Rattle.std.specs.Option.{option_copied};
ghost use Rattle.std.specs.Str.{is_utf8};
ghost use Rattle.ei_types.specs.Capability.{bit_of};
ghost use Rattle.ei_types.specs.declared.capability.DeviceCapability.{DeviceCapability};
ghost use Rattle.ei_types.specs.Enums.{disconnect_reason_number};
ghost use Rattle.reis_c.specs.Given.{named};

use ei_types::{DeviceCapability, DisconnectReason, OtherReason};

/// The text of some bytes: there is none where there is no byte. `None` where they are no text.
#[tactic(auto, using(crate::proofs::Given::is_text, crate::proofs::Given::is_no_text))]
pub(crate) fn text_of(bytes: &[u8]) -> Option<Option<&str>>
    ensures { MatchOption result (is_utf8 bytes.now ≡ false) (λ text. (is_utf8 bytes.now ≡ true) ×
        (option_copied text ≡ named bytes.now)) }
{
    match str::from_utf8(bytes) {
        Ok(text) => {
            if text.is_empty() {
                return Some(None);
            }
            Some(Some(text))
        }
        Err(_) => None,
    }
}

/// The capability of that bit.
pub(crate) fn capability_of(bit: u64) -> Option<DeviceCapability>
    ensures { MatchOption result ((one : DeviceCapability) → bit_of one ≢ bit) (λ one. bit_of one ≡ bit) }
{
    match bit {
        1 => Some(DeviceCapability::Pointer),
        2 => Some(DeviceCapability::PointerAbsolute),
        4 => Some(DeviceCapability::Keyboard),
        8 => Some(DeviceCapability::Touch),
        16 => Some(DeviceCapability::Scroll),
        32 => Some(DeviceCapability::Button),
        64 => Some(DeviceCapability::Text),
        128 => Some(DeviceCapability::Gesture),
        _ => None,
    }
}

/// The reason of that number.
pub(crate) fn reason_of(number: u32) -> DisconnectReason
    ensures { disconnect_reason_number result ≡ number }
{
    match number {
        0 => DisconnectReason::Disconnected,
        1 => DisconnectReason::Error,
        2 => DisconnectReason::Mode,
        3 => DisconnectReason::Protocol,
        4 => DisconnectReason::Value,
        _ => match OtherReason::new(number) {
            Some(other) => DisconnectReason::Other(other),
            None => DisconnectReason::Transport,
        },
    }
}
