//! The words of a line.

use crate::stop::Stop;
use std::alloc::{AllocError, Global};

/// The first word, and the others.
pub fn first(line: &str) -> (&str, &str) {
    line.split_once(' ').unwrap_or((line, ""))
}

/// The words, one behind another.
pub fn joined(alloc: Global, words: &str) -> Result<String, AllocError> {
    let mut text = String::new(alloc);
    for word in words.split(' ') {
        text.push_str(word)?;
    }
    Ok(text)
}

/// The bytes of hexadecimal digits, two for each byte.
pub fn bytes(alloc: Global, digits: &str) -> Result<Vec<u8>, Stop> {
    Ok(hex::decode(alloc, digits)?)
}

/// The number in decimal digits.
pub fn number(word: &str) -> Result<u32, Stop> {
    Ok(word.parse::<u32>()?)
}

/// The number of 64 bits in decimal digits.
pub fn id(word: &str) -> Result<u64, Stop> {
    Ok(word.parse::<u64>()?)
}

/// The count in decimal digits.
pub fn count(word: &str) -> Result<usize, Stop> {
    Ok(word.parse::<usize>()?)
}
