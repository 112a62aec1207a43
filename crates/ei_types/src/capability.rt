//! Capabilities of devices.

ghost use Rattle.std.specs.Prelude.{⊤, ◌≡◌, true, false, ◌||◌, IsTrue, ◌==◌, ◌≤◌, ◌↔◌, [], ◌∷◌, codes, Some, IfSome, IsSome, length, slice_get};
ghost use Rattle.std.specs.Int.RustNames.{bit_and, bit_or};
ghost use Rattle.ei_types.specs.Capability.{all_bits, bit_of, bits_of, capabilities, capability_list, capability_named, has_bit, holds, HoldsEach, index_of};
ghost use Rattle.ei_types.specs.Capability.{interface_name_of, interface_of};

use bitflags::{Flag, Flags, bitflag_items};
use ei_spec::KnownInterface;
use ei_spec::limits::CAPABILITIES;

/// What a device can do.
#[derive(Clone, Copy, Debug, PartialEq, Eq, Hash)]
pub enum DeviceCapability {
    /// Relative motion.
    Pointer,
    /// Motion to a point of a region.
    PointerAbsolute,
    /// Keys.
    Keyboard,
    /// Touches.
    Touch,
    /// Scrolling.
    Scroll,
    /// Buttons.
    Button,
    /// Keysyms and text.
    Text,
    /// Gestures of several fingers.
    Gesture,
}

impl DeviceCapability {
    /// The capabilities by rising bit.
    pub const ALL: [DeviceCapability; CAPABILITIES] = [
        DeviceCapability::Pointer,
        DeviceCapability::PointerAbsolute,
        DeviceCapability::Keyboard,
        DeviceCapability::Touch,
        DeviceCapability::Scroll,
        DeviceCapability::Button,
        DeviceCapability::Text,
        DeviceCapability::Gesture,
    ];

    /// The interface that bears this capability on the wire.
    pub fn interface(self) -> KnownInterface
        ensures value { result ≡ interface_of self }
        ensures listed { slice_get capabilities (index_of self) ≡ Some (bit_of self, result) }
    {
        match self {
            DeviceCapability::Pointer => KnownInterface::Pointer,
            DeviceCapability::PointerAbsolute => KnownInterface::PointerAbsolute,
            DeviceCapability::Keyboard => KnownInterface::Keyboard,
            DeviceCapability::Touch => KnownInterface::Touchscreen,
            DeviceCapability::Scroll => KnownInterface::Scroll,
            DeviceCapability::Button => KnownInterface::Button,
            DeviceCapability::Text => KnownInterface::Text,
            DeviceCapability::Gesture => KnownInterface::Gesture,
        }
    }

    /// The name of that interface, as `ei_pointer`.
    pub fn interface_name(self) -> &'static str
        ensures { result.now ≡ interface_name_of self }
    {
        self.interface().name()
    }

    /// The capability whose interface has this name; `None` for every other text.
    #[tactic(auto, unfolding(ei_spec::specs::Interface::known_of))]
    pub fn from_interface_name(name: &str) -> Option<DeviceCapability>
        ensures value { result ≡ capability_named name.now }

        // It is the inverse of `interface_name`.
        ensures named { IfSome result (λ one. name.now ≡ interface_name_of one) }
        ensures found { (one : DeviceCapability) → name.now ≡ interface_name_of one → result ≡ Some one }
    {
        match KnownInterface::from_name(name)? {
            KnownInterface::Pointer => Some(DeviceCapability::Pointer),
            KnownInterface::PointerAbsolute => Some(DeviceCapability::PointerAbsolute),
            KnownInterface::Keyboard => Some(DeviceCapability::Keyboard),
            KnownInterface::Touchscreen => Some(DeviceCapability::Touch),
            KnownInterface::Scroll => Some(DeviceCapability::Scroll),
            KnownInterface::Button => Some(DeviceCapability::Button),
            KnownInterface::Text => Some(DeviceCapability::Text),
            KnownInterface::Gesture => Some(DeviceCapability::Gesture),
            _ => None,
        }
    }

    /// The place in the order of rising bits, from 0 on.
    pub fn index(self) -> usize
        ensures value { result ≡ index_of self }
        ensures place { slice_get capability_list result ≡ Some self }
        ensures order { Self.ALL ≡ capability_list }
        ensures count { length capability_list ≡ CAPABILITIES }
    {
        match self {
            DeviceCapability::Pointer => 0,
            DeviceCapability::PointerAbsolute => 1,
            DeviceCapability::Keyboard => 2,
            DeviceCapability::Touch => 3,
            DeviceCapability::Scroll => 4,
            DeviceCapability::Button => 5,
            DeviceCapability::Text => 6,
            DeviceCapability::Gesture => 7,
        }
    }

    /// The bit that stands for this capability in a mask.
    pub fn bit(self) -> u64
        ensures { result ≡ bit_of self }
    {
        1 << self.index()
    }
}

/// A set of capabilities. Contracts see its bits, as `bits_of`.
#[derive(Clone, Copy, Debug, PartialEq, Eq, Hash)]
pub struct DeviceCapabilities(u64);

bitflag_items! {
    impl DeviceCapabilities: u64 {
        const POINTER = 1;
        const POINTER_ABSOLUTE = 2;
        const KEYBOARD = 4;
        const TOUCH = 8;
        const SCROLL = 16;
        const BUTTON = 32;
        const TEXT = 64;
        const GESTURE = 128;
    }
}

impl Flags for DeviceCapabilities {
    type Bits = u64;

    ghost exact = { ⊤ };

    ghost table = { (codes "POINTER", 1) ∷ (codes "POINTER_ABSOLUTE", 2) ∷ (codes "KEYBOARD", 4) ∷ (codes "TOUCH", 8) ∷
        (codes "SCROLL", 16) ∷
        (codes "BUTTON", 32) ∷ (codes "TEXT", 64) ∷ (codes "GESTURE", 128) ∷ [] };

    ghost set_of = { bits_of };

    fn flags<'a>() -> &'a [Flag<DeviceCapabilities>] {
        DeviceCapabilities::FLAGS
    }

    fn bits(&self) -> u64 {
        self.0
    }

    fn from_bits_retain(bits: u64) -> DeviceCapabilities {
        DeviceCapabilities(bits)
    }
}

impl DeviceCapabilities {
    /// The set without a capability.
    pub fn empty() -> DeviceCapabilities
        ensures value { bits_of result ≡ 0 }
        ensures none { (one : DeviceCapability) → holds result one ≡ false }
    {
        <DeviceCapabilities as Flags>::empty()
    }

    /// The set of all capabilities.
    #[tactic(auto, unfolding(bitflags::specs::Sets::known_from))]
    pub fn all() -> DeviceCapabilities
        ensures value { bits_of result ≡ all_bits }
        ensures each { (one : DeviceCapability) → holds result one ≡ true }
    {
        <DeviceCapabilities as Flags>::all()
    }

    /// The bits of the capabilities in the set.
    pub fn bits(&self) -> u64
        ensures { result ≡ bits_of self.now }
    {
        self.0
    }

    /// The set of these bits; `None` where one of them is no capability's.
    #[tactic(auto, using(crate::proofs::Masks::known_bits), unfolding(bitflags::specs::Sets::known_from))]
    pub fn from_bits(bits: u64) -> Option<DeviceCapabilities>
        ensures known { IsSome result ↔ (bits ≤ all_bits) }
        ensures value { IfSome result (λ set. bits_of set ≡ bits) }
    {
        <DeviceCapabilities as Flags>::from_bits(bits)
    }

    /// Whether the set has each capability of the other.
    #[tactic(auto, using(crate::proofs::Masks::contained, crate::proofs::Masks::contains_known))]
    pub fn contains(&self, other: DeviceCapabilities) -> bool
        ensures value { result ≡ (bit_and (bits_of self.now) (bits_of other) == bits_of other) }
        ensures each { IsTrue result → HoldsEach self.now other }
        ensures known { bits_of other ≤ all_bits → HoldsEach self.now other → IsTrue result }
    {
        Flags::contains(self, other)
    }

    /// The capabilities of both sets together.
    #[tactic(auto, using(crate::proofs::Masks::union_has, crate::proofs::Masks::union_known))]
    pub fn union(self, other: DeviceCapabilities) -> DeviceCapabilities
        ensures value { bits_of result ≡ bit_or (bits_of self) (bits_of other) }
        ensures each { (one : DeviceCapability) → holds result one ≡ (holds self one || holds other one) }
        ensures known { bits_of self ≤ all_bits → bits_of other ≤ all_bits → bits_of result ≤ all_bits }
    {
        Flags::union(self, other)
    }

    /// Whether the set has this capability.
    pub fn has(&self, one: DeviceCapability) -> bool
        ensures { result ≡ has_bit (bits_of self.now) (bit_of one) }
    {
        self.0 / one.bit() % 2 == 1
    }
}
