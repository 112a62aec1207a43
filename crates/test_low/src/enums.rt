//! Reasons without a name, capabilities and sets of them. The enums are read where arguments are.

use crate::words::tell_next;
use ei_types::{DeviceCapabilities, DeviceCapability, DisconnectReason, OtherReason};
use test_table::{Answer, Reader};

/// What a call answers:
/// - `other-reason NUMBER`: the reason without a name, if it is one, and its number;
/// - `reason`: the number of the reason Transport;
/// - `capability PLACE`: the capability, its place, its bit, the name of its interface, what has that name, and whether
///   a set has it just where it is added;
/// - `named NAME`: the capability of the interface of that name;
/// - `set BITS`: the bits of the set of these, if it is one;
/// - `all`: the bits of the set of all, put together one by one; whether it is the set of all; and whether it has the
///   text, and the pointer alone the text and all.
pub(crate) fn tell(answer: &mut Answer, words: &mut Reader<'_>) {
    match words.word() {
        "other-reason" => tell_other_reason(answer, words.number()),
        "reason" => answer.display(&u32::from(DisconnectReason::Transport)),
        "capability" => tell_capability(answer, words),
        "named" => answer.show(&DeviceCapability::from_interface_name(words.word())),
        "set" => tell_set(answer, words.id()),
        "all" => tell_all(answer, one_by_one()),
        _ => words.miss(),
    }
}

/// Tells the reason of that number, where it has no name, and its number.
fn tell_other_reason(answer: &mut Answer, number: u32) {
    match OtherReason::new(number) {
        Some(other) => {
            answer.put("other ");
            answer.display(&u32::from(DisconnectReason::Other(other)));
        }
        None => answer.put("none"),
    }
}

/// Tells the capability at that place.
fn tell_capability(answer: &mut Answer, words: &mut Reader<'_>) {
    match DeviceCapability::ALL.get(words.count()) {
        Some(one) => tell_capability_of(answer, *one),
        None => words.miss(),
    }
}

/// Tells a capability.
fn tell_capability_of(answer: &mut Answer, one: DeviceCapability) {
    let name = one.interface_name();
    answer.show(&one);
    tell_next(answer, &one.index());
    tell_next(answer, &one.bit());
    tell_next(answer, &name);
    answer.put(" ");
    answer.show(&DeviceCapability::from_interface_name(name));
    tell_next(answer, &is_added(one, one.bit()));
}

/// Whether the set has the bit's capability only once its bit is added, and no other bit then.
fn is_added(one: DeviceCapability, bit: u64) -> bool {
    let empty = DeviceCapabilities::empty();
    match DeviceCapabilities::from_bits(bit) {
        Some(single) => {
            let union = empty.union(single);
            !empty.has(one) && union.has(one) && union.bits() == bit
        }
        None => false,
    }
}

/// Tells the set of these bits.
fn tell_set(answer: &mut Answer, bits: u64) {
    match DeviceCapabilities::from_bits(bits) {
        Some(set) => answer.display(&set.bits()),
        None => answer.put("none"),
    }
}

/// The set of all, put together one by one.
fn one_by_one() -> DeviceCapabilities {
    let mut union = DeviceCapabilities::empty();
    for one in &DeviceCapability::ALL {
        if let Some(single) = DeviceCapabilities::from_bits(one.bit()) {
            union = union.union(single);
        }
    }
    union
}

/// Tells what the set of all has, and the pointer alone.
fn tell_all(answer: &mut Answer, all: DeviceCapabilities) {
    let (pointer, text) = (DeviceCapabilities::POINTER, DeviceCapabilities::TEXT);
    answer.display(&all.bits());
    tell_next(answer, &(all == DeviceCapabilities::all()));
    tell_next(answer, &all.contains(text));
    tell_next(answer, &pointer.contains(text));
    tell_next(answer, &pointer.contains(all));
}
