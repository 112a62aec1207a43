//! The words that a call has besides what every table has, and what it tells of them.

use std::alloc::Global;
use std::fmt;
use std::fmt::Display;
use test_table::{Answer, Reader};

/// The next word, as the bytes of hexadecimal digits, two for each byte; none of a dash.
pub(crate) fn bytes(alloc: Global, words: &mut Reader<'_>) -> Vec<u8> {
    match words.word() {
        "-" => Vec::new(alloc),
        digits => words.or(hex::decode(alloc, digits), Vec::new(alloc)),
    }
}

/// The next word, as an id in hexadecimal digits.
pub(crate) fn id(words: &mut Reader<'_>) -> u64 {
    let digits = words.word();
    words.or(u64::from_str_radix(digits, 16), 0)
}

/// The next word, as a count in decimal digits; `most` is the highest one.
pub(crate) fn count(words: &mut Reader<'_>) -> usize {
    match words.word() {
        "most" => usize::MAX,
        digits => words.or(digits.parse::<usize>(), 0),
    }
}

/// Tells yes or no.
pub(crate) fn tell_whether(answer: &mut Answer, yes: bool) {
    answer.put(if yes { "yes" } else { "no" });
}

/// Tells bytes in hexadecimal digits.
pub(crate) fn tell_bytes(alloc: Global, answer: &mut Answer, bytes: &[u8]) {
    if let Some(digits) = answer.take(hex::encode(alloc, bytes)) {
        answer.put(digits.as_str());
        // Let go by a call: at the end of a scope the drop of each field is proved anew.
        drop(digits);
    }
}

/// Tells a value, and a blank before it.
pub(crate) fn tell_next<T: Display>(answer: &mut Answer, value: &T) {
    answer.put(" ");
    answer.display(value);
}

/// A number, displayed in hexadecimal digits.
#[derive(Clone, Copy)]
pub(crate) struct Hex(pub(crate) u64);

impl Display for Hex {
    fn fmt<W: fmt::Write>(&self, f: &mut fmt::Formatter<W>) -> fmt::Result {
        write!(f, "{:x}", self.0)
    }
}
