//! Texts of rows.

use std::alloc::Global;
use std::mem::replace;
use test_table::{Answer, joined};

/// The number that a word spells.
pub(crate) fn number(answer: &mut Answer, word: &str) -> u32 {
    answer.take(test_table::number(word)).unwrap_or(0)
}

/// The number of 64 bits that a word spells.
pub(crate) fn id(answer: &mut Answer, word: &str) -> u64 {
    answer.take(test_table::id(word)).unwrap_or(0)
}

/// Adds the text of these words, in lines of so many bytes each, or as it is.
pub(crate) fn push_text(
    alloc: Global,
    answer: &mut Answer,
    text: &mut Vec<u8>,
    lines: &str,
    words: &str,
) {
    if lines.is_empty() {
        push_spelled(answer, text, words);
    } else if let Some(digits) = answer.take(joined(alloc, words)) {
        push_all_lines(answer, text, lines, digits.as_bytes());
        // Let go by a call: at the end of a scope the drop of each field is proved anew.
        drop(digits);
    }
}

/// Adds the words one behind another, with newlines and carriage returns.
fn push_spelled(answer: &mut Answer, text: &mut Vec<u8>, words: &str) {
    for letter in words.bytes() {
        match letter {
            b' ' => {}
            b'/' => push(answer, text, b'\n'),
            b'^' => push(answer, text, b'\r'),
            _ => push(answer, text, letter),
        }
    }
}

/// Adds a letter.
fn push(answer: &mut Answer, text: &mut Vec<u8>, letter: u8) {
    answer.take(text.push(letter));
}

/// Adds the digits in lines that spell so many bytes each, by commas, again and again.
fn push_all_lines(answer: &mut Answer, text: &mut Vec<u8>, sizes: &str, digits: &[u8]) {
    let mut rest = digits;
    for _ in 0..digits.len() {
        if rest.is_empty() {
            break;
        }
        rest = push_lines(answer, text, sizes, rest);
    }
}

/// Adds a line of each size, and answers the digits that are left.
fn push_lines<'a>(
    answer: &mut Answer,
    text: &mut Vec<u8>,
    sizes: &str,
    digits: &'a [u8],
) -> &'a [u8] {
    let mut rest = digits;
    for size in sizes.split(',') {
        let size = number(answer, size);
        rest = push_line(answer, text, size as usize, rest);
    }
    rest
}

/// Adds a line, unless no digit is left, and answers the digits that are left.
fn push_line<'a>(
    answer: &mut Answer,
    text: &mut Vec<u8>,
    size: usize,
    digits: &'a [u8],
) -> &'a [u8] {
    let (line, rest) = digits.split_at(size.saturating_mul(2).min(digits.len()));
    if !line.is_empty() {
        answer.take(text.extend_from_slice(line));
        push(answer, text, b'\n');
    }
    rest
}

/// Tells the text with ` / ` for each newline behind its first letter.
pub(crate) fn tell_text(alloc: Global, answer: &mut Answer, text: &[u8]) {
    if let Some(text) = answer.take(String::from_utf8_lossy(alloc, text)) {
        tell_lines(answer, text.as_str());
        drop(text);
    }
}

/// Tells the lines, and a mark between them.
fn tell_lines(answer: &mut Answer, text: &str) {
    let mut begun = false;
    for line in text.split('\n') {
        if begun {
            answer.put(" / ");
        }
        answer.put(line);
        begun = begun || !line.is_empty();
    }
}

/// Tells what was found in a cut, unless the same was told of the one before.
pub(crate) fn tell_found(answer: &mut Answer, told: &mut String, cut: &str, found: Answer) {
    if let Some(text) = answer.take(found.text()) {
        if *told != text {
            if !told.is_empty() {
                answer.put(" / in cuts of ");
                answer.put(cut);
                answer.put(": ");
            }
            answer.put(text.as_str());
        }
        drop(replace(told, text));
    }
}
