//! The words of a call, and of an answer.

use ei_types::{ContextType, DeviceCapabilities};
use std::alloc::{AllocError, Global};
use std::fmt::{Debug, Display};
use test_table::{Answer, Reader, Stop, joined};

/// Adds a value, as a programmer reads it.
pub(crate) fn push<T: Debug>(answer: &mut Answer, value: &T) {
    answer.show(value);
    answer.put(" ");
}

/// Adds a value, as a user reads it.
pub(crate) fn push_shown<T: Display>(answer: &mut Answer, value: &T) {
    answer.display(value);
    answer.put(" ");
}

/// The bytes of hexadecimal digits, two for each byte, with blanks between them.
pub(crate) fn bytes(alloc: Global, digits: &str) -> Result<Vec<u8>, Stop> {
    match joined(alloc, digits) {
        Ok(digits) => {
            let bytes = test_table::bytes(alloc, digits.as_str());
            drop(digits);
            bytes
        }
        Err(error) => Err(Stop::from(error)),
    }
}

/// So many letters.
pub(crate) fn letters(alloc: Global, length: usize) -> Result<String, AllocError> {
    "a".repeat(alloc, length)
}

/// What a client of that name is for.
pub(crate) fn kind(words: &mut Reader<'_>) -> ContextType {
    match words.word() {
        "sender" => ContextType::Sender,
        "receiver" => ContextType::Receiver,
        _ => {
            words.miss();
            ContextType::Sender
        }
    }
}

/// The set of these bits, in decimal digits.
pub(crate) fn capabilities(words: &mut Reader<'_>) -> DeviceCapabilities {
    let set = DeviceCapabilities::from_bits(words.id());
    words.or(set.ok_or(Stop::Line), DeviceCapabilities::empty())
}
