//! The names of interfaces and of messages.

use crate::words::tell_next;
use ei_backend::InterfaceName;
use ei_spec::KnownInterface;
use ei_types::{interfaces, known_interfaces, op_name};
use std::alloc::Global;
use test_table::{Answer, Reader};

/// What a call answers:
/// - `interface NAME`: the interface of that name, with its name;
/// - `settled PLACE`: the interface at that place of those that a handshake settles, and its version, twice;
/// - `requests NAME` and `events NAME`: the names of the messages to that interface, by opcode from 0 on;
/// - `kept NAME NAME`: what the first is kept as, and whether the second is kept so too.
pub(crate) fn tell(alloc: Global, answer: &mut Answer, words: &mut Reader<'_>) {
    match words.word() {
        "interface" => tell_interface(answer, words.word()),
        "settled" => tell_settled(answer, words),
        "requests" => tell_messages(answer, false, words.word()),
        "events" => tell_messages(answer, true, words.word()),
        "kept" => tell_kept(alloc, answer, words),
        _ => words.miss(),
    }
}

/// Tells the interface of that name, with its name.
fn tell_interface(answer: &mut Answer, name: &str) {
    match KnownInterface::from_name(name) {
        Some(interface) => {
            answer.show(&interface);
            tell_next(answer, &interface.name());
        }
        None => answer.put("none"),
    }
}

/// Tells the interface at that place of the settled ones, and its version, by its name and by itself.
fn tell_settled(answer: &mut Answer, words: &mut Reader<'_>) {
    let place = words.count();
    match (interfaces().get(place), known_interfaces().get(place)) {
        (Some((name, version)), Some((known, of_known))) => {
            answer.display(name);
            tell_next(answer, version);
            tell_next(answer, &known.name());
            tell_next(answer, of_known);
        }
        _ => words.miss(),
    }
}

/// Tells the names of the messages, by opcode from 0 on up to the first that is none's; and the one of the highest
/// opcode.
fn tell_messages(answer: &mut Answer, events: bool, interface: &str) {
    answer.put("are");
    for opcode in 0..32 {
        match op_name(events, interface, opcode) {
            Some(name) => tell_next(answer, &name),
            None => break,
        }
    }
    if let Some(name) = op_name(events, interface, u32::MAX) {
        tell_next(answer, &name);
    }
}

/// Tells what a name is kept as, and whether another one is kept so too.
fn tell_kept(alloc: Global, answer: &mut Answer, words: &mut Reader<'_>) {
    let name = answer.take(InterfaceName::of(alloc, words.word()));
    let other = answer.take(InterfaceName::of(alloc, words.word()));
    if let (Some(name), Some(other)) = (&name, &other) {
        tell_kept_as(answer, name, other);
    }
    // Let go by a call: at the end of a scope the drop of each field is proved anew.
    drop(name);
    drop(other);
}

/// Tells what a name is kept as, and whether the other one is the same.
fn tell_kept_as(answer: &mut Answer, name: &InterfaceName, other: &InterfaceName) {
    answer.put("known");
    tell_next(answer, &matches!(name, InterfaceName::Known(_)));
    tell_next(answer, &name.as_str());
    answer.put(" same");
    tell_next(answer, &(name == other));
}
