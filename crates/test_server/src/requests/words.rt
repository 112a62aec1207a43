//! The texts that words spell.

use crate::texts;
use std::alloc::Global;
use test_table::{Answer, Reader, number};

/// What the next word spells: no text of a dash, the rest behind `=`, and so many letters behind `a*`.
pub(crate) fn text(alloc: Global, words: &mut Reader<'_>, answer: &mut Answer) -> Option<String> {
    let word = words.word();
    if let Some(rest) = word.strip_prefix('=') {
        answer.take(String::from_str(alloc, rest))
    } else if let Some(count) = word.strip_prefix("a*") {
        answer.take(texts::letters(alloc, words.or(number(count), 0)))
    } else {
        if word != "-" {
            words.miss();
        }
        None
    }
}

/// The text as a slice.
pub(crate) fn letters(text: &Option<String>) -> Option<&str> {
    match text {
        Some(text) => Some(text.as_str()),
        None => None,
    }
}
