//! The laws of the enums' numbers.

ghost use Rattle.std.specs.Prelude.{◌≡◌, ℕ, ◌<◌, ◌^◌, Ok};
ghost use Rattle.ei_spec.specs.Value.{Word};
ghost use Rattle.ei_spec.specs.Reading.{Unread, read};
ghost use Rattle.ei_spec.specs.Spelling.{Follows};
ghost use Rattle.ei_spec.specs.Table.{button_state, context_type, device_type, disconnect_reason, key_state, keymap_type};
ghost use Rattle.ei_types.specs.Enums.{button_state_number, context_type_number, device_type_number, disconnect_reason_number, key_state_number};
ghost use Rattle.ei_types.specs.Enums.{keymap_type_number};
ghost use Rattle.ei_types.specs.Enums.{IsReason, reason_of};
ghost use Rattle.ei_types.specs.declared.enums.ContextType.{ContextType};
ghost use Rattle.ei_types.specs.declared.enums.DisconnectReason.{DisconnectReason};
ghost use Rattle.ei_types.specs.declared.enums.DeviceType.{DeviceType};
ghost use Rattle.ei_types.specs.declared.enums.ButtonState.{ButtonState};
ghost use Rattle.ei_types.specs.declared.enums.KeyState.{KeyState};
ghost use Rattle.ei_types.specs.declared.enums.KeymapType.{KeymapType};

use crate::enums::DisconnectReason;

/// The number of a value of an enum is read back where it stands, whatever follows it.
pub fn enums_read_back()
    ensures context_types { (x : ContextType) (s t : Unread) → Follows (Word (context_type_number x)) s t →
        read context_type s ≡ Ok (Word (context_type_number x), t) }
    ensures reasons { (x : DisconnectReason) (s t : Unread) → IsReason x →
        Follows (Word (disconnect_reason_number x)) s t →
        read disconnect_reason s ≡ Ok (Word (disconnect_reason_number x), t) }
    ensures device_types { (x : DeviceType) (s t : Unread) → Follows (Word (device_type_number x)) s t →
        read device_type s ≡ Ok (Word (device_type_number x), t) }
    ensures button_states { (x : ButtonState) (s t : Unread) → Follows (Word (button_state_number x)) s t →
        read button_state s ≡ Ok (Word (button_state_number x), t) }
    ensures key_states { (x : KeyState) (s t : Unread) → Follows (Word (key_state_number x)) s t →
        read key_state s ≡ Ok (Word (key_state_number x), t) }
    ensures keymap_types { (x : KeymapType) (s t : Unread) → Follows (Word (keymap_type_number x)) s t →
        read keymap_type s ≡ Ok (Word (keymap_type_number x), t) }
{}

/// Values of one enum with equal numbers are equal.
pub fn enum_numbers()
    ensures context_types { (x y : ContextType) → context_type_number x ≡ context_type_number y → x ≡ y }
    ensures reasons { (x y : DisconnectReason) → IsReason x → IsReason y →
        disconnect_reason_number x ≡ disconnect_reason_number y → x ≡ y }
    ensures reason_of { (x : DisconnectReason) → IsReason x → reason_of (disconnect_reason_number x) ≡ x }
    ensures any_reason { (number : ℕ) → number < 2 ^ 32 → IsReason (reason_of number) }
    ensures device_types { (x y : DeviceType) → device_type_number x ≡ device_type_number y → x ≡ y }
    ensures button_states { (x y : ButtonState) → button_state_number x ≡ button_state_number y → x ≡ y }
    ensures key_states { (x y : KeyState) → key_state_number x ≡ key_state_number y → x ≡ y }
    ensures keymap_types { (x y : KeymapType) → keymap_type_number x ≡ keymap_type_number y → x ≡ y }
{}

/// Every reason of a program is one: without a name it has a number that no named one has.
pub fn reasons(reason: &DisconnectReason)
    ensures { IsReason reason.now }
{
    if let DisconnectReason::Other(other) = reason {
        let _number = other.get();
    }
}
