//! What the words of a line spell.

use ei_linked::Side;
use ei_spec::limits::FIRST_SERVER_ID;
use ei_spec::{Handle, KnownInterface};
use ei_types::DeviceCapabilities;
use ei_values::{Value, Values};
use ei_wire::{EiText, NoMemory};
use std::alloc::{AllocError, Global};
use test_table::{Answer, Reader, Stop};

/// Whether each word that was read was what it was to be; else the program stops.
pub(crate) fn is_read(answer: &mut Answer, words: &Reader<'_>) -> bool {
    answer.take(words.done()).is_some()
}

/// The side that the next word names.
pub(crate) fn side_of(words: &mut Reader<'_>) -> Side {
    match words.word() {
        "client" => Side::Client,
        "server" => Side::Server,
        _ => {
            words.miss();
            Side::Client
        }
    }
}

pub(crate) fn other(side: Side) -> Side {
    match side {
        Side::Client => Side::Server,
        Side::Server => Side::Client,
    }
}

/// The id of the server's in that place among these.
pub(crate) fn server_id(place: u64) -> u64 {
    FIRST_SERVER_ID.wrapping_add(place)
}

/// The id that the next word spells.
pub(crate) fn id_of(words: &mut Reader<'_>) -> u64 {
    let word = words.word();
    id_in(words, word)
}

/// The id that this word spells.
fn id_in(words: &mut Reader<'_>, word: &str) -> u64 {
    match word.strip_prefix('s') {
        Some(digits) => server_id(words.or(digits.parse::<u64>(), 0)),
        None => words.or(word.parse::<u64>(), 0),
    }
}

/// The interface of this name.
pub(crate) fn interface_of(words: &mut Reader<'_>, name: &str) -> KnownInterface {
    let known = KnownInterface::from_name(name).ok_or(Stop::Line);
    words.or(known, KnownInterface::Seat)
}

/// The capabilities of the bits that the next word spells.
pub(crate) fn capabilities(words: &mut Reader<'_>) -> DeviceCapabilities {
    let bits = DeviceCapabilities::from_bits(words.id()).ok_or(Stop::Line);
    words.or(bits, DeviceCapabilities::all())
}

/// The values that the words not yet read spell.
pub(crate) fn values_of(alloc: Global, answer: &mut Answer, words: &mut Reader<'_>) -> Values {
    let mut values = Values::new(alloc);
    for word in words.rest().split(' ') {
        if !word.is_empty() {
            let value = value_of(alloc, answer, words, word);
            drop(answer.take(values.push(value)));
        }
    }
    values
}

/// The value that this word spells.
fn value_of(alloc: Global, answer: &mut Answer, words: &mut Reader<'_>, word: &str) -> Value {
    match (word, word.strip_prefix("new:")) {
        ("n", _) => Value::NullText,
        ("new", _) => Value::New,
        (_, Some(name)) => Value::NewInterface(interface_of(words, name)),
        _ => plain_value(alloc, answer, words, word),
    }
}

/// The value of a word that begins with the letter of its kind.
fn plain_value(alloc: Global, answer: &mut Answer, words: &mut Reader<'_>, word: &str) -> Value {
    match word.split_at_checked(1) {
        Some(("t", letters)) => text_value(alloc, answer, letters),
        Some((kind, digits)) => number_value(words, kind, digits),
        None => number_value(words, "", word),
    }
}

/// The number of that kind.
fn number_value(words: &mut Reader<'_>, kind: &str, digits: &str) -> Value {
    match kind {
        "u" => Value::Uint32(words.or(digits.parse::<u32>(), 0)),
        "i" => Value::Int32(words.or(digits.parse::<i32>(), 0)),
        "#" => Value::Uint64(id_in(words, digits)),
        "f" => Value::Float(words.or(digits.parse::<u32>(), 0)),
        "h" => Value::Handle(Handle(words.or(digits.parse::<u32>(), 0))),
        _ => {
            words.miss();
            Value::New
        }
    }
}

/// The text of these letters: `*9` is one of nine.
fn text_value(alloc: Global, answer: &mut Answer, letters: &str) -> Value {
    let text = match letters.strip_prefix('*') {
        Some(many) => repeated(alloc, answer, many),
        None => or_empty(alloc, answer, String::from_str(alloc, letters)),
    };
    let made = EiText::new(alloc, text.as_str());
    drop(text);
    value_with(answer, made)
}

/// The value with that text.
fn value_with(answer: &mut Answer, text: Result<EiText, NoMemory>) -> Value {
    match answer.take(text) {
        Some(text) => Value::Text(text),
        None => Value::NullText,
    }
}

/// The text that a word spells: `t*9` is one of nine letters.
pub(crate) fn text_of(alloc: Global, answer: &mut Answer, word: &str) -> String {
    match word.strip_prefix("t*") {
        Some(many) => repeated(alloc, answer, many),
        None => or_empty(alloc, answer, String::from_str(alloc, word)),
    }
}

/// The text, but for a word `-`, which is none.
pub(crate) fn name_of<'a>(word: &str, text: &'a str) -> Option<&'a str> {
    if word == "-" { None } else { Some(text) }
}

/// A text of so many letters.
fn repeated(alloc: Global, answer: &mut Answer, many: &str) -> String {
    let many = answer.take(many.parse::<usize>()).unwrap_or(0);
    or_empty(alloc, answer, "a".repeat(alloc, many))
}

/// The text; an empty one where memory ran out.
fn or_empty(alloc: Global, answer: &mut Answer, made: Result<String, AllocError>) -> String {
    match answer.take(made) {
        Some(text) => text,
        None => String::new(alloc),
    }
}
