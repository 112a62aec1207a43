//! Texts, read at each cut of their bytes, and their order.

use crate::words::{bytes, tell_next, tell_whether};
use ei_wire::{Arg, ByteStream, EiText, OwnedArg, ParseError};
use std::alloc::Global;
use test_table::{Answer, Reader};

/// What a call answers:
/// - `cut TEXT N PADDING BEHIND PLACE`: whether it is read by the rule at each cut of its bytes, with each ending;
/// - `order TEXT TEXT`: how the first stands to the second, twice, and whether they are equal;
/// - `copy TEXT`: whether the copy of a text equals it, and how long the copy is.
pub(crate) fn tell(alloc: Global, answer: &mut Answer, words: &mut Reader<'_>) {
    match words.word() {
        "cut" => tell_cut(alloc, answer, words),
        "order" => tell_order(alloc, answer, words),
        "copy" => tell_copy(alloc, answer, words),
        _ => words.miss(),
    }
}

/// A text: its bytes; n; how many bytes of padding; the bytes behind n in all; the place of its first fault.
#[derive(Drop)]
struct Case {
    text: Vec<u8>,
    n: u8,
    padding: usize,
    behind: usize,
    place: Option<u32>,
}

/// The next word, as a number of 8 bits.
fn byte(words: &mut Reader<'_>) -> u8 {
    let digits = words.word();
    words.or(digits.parse::<u8>(), 0)
}

/// The place that the next word spells; none of a dash.
fn place(words: &mut Reader<'_>) -> Option<u32> {
    match words.word() {
        "-" => None,
        digits => Some(words.or(digits.parse::<u32>(), 0)),
    }
}

/// Tells whether a text is read by the rule.
fn tell_cut(alloc: Global, answer: &mut Answer, words: &mut Reader<'_>) {
    let case = Case {
        text: bytes(alloc, words),
        n: byte(words),
        padding: words.count(),
        behind: words.count(),
        place: place(words),
    };
    let right = is_read_with_each_ending(alloc, answer, &case);
    tell_whether(answer, right);
    // Let go by a call: at the end of a scope the drop of each field is proved anew.
    drop(case);
}

/// The closing byte of a text, and what may stand behind it.
const ENDINGS: [[u8; 4]; 6] = [
    [0, 0, 0, 0],
    [0, 0xc3, 0x28, 255],
    [7, 0, 0, 0],
    [7, 0xc3, 0x28, 255],
    [255, 0, 0, 0],
    [255, 0xc3, 0x28, 255],
];

/// Whether the text is read by the rule at each cut, with each of the endings.
fn is_read_with_each_ending(alloc: Global, answer: &mut Answer, case: &Case) -> bool {
    let mut right = true;
    for ending in &ENDINGS {
        let (ending, _) = ending.split_at(case.padding.min(3) + 1);
        right = is_read_with(alloc, answer, case, ending) && right;
    }
    right
}

/// Whether the text is read by the rule at each cut, with its n before it, this ending behind it, and then five bytes
/// more.
fn is_read_with(alloc: Global, answer: &mut Answer, case: &Case, ending: &[u8]) -> bool {
    let mut bytes = Vec::new(alloc);
    answer.take(bytes.extend_from_slice(&[case.n, 0, 0, 0]));
    answer.take(bytes.extend_from_slice(&case.text));
    answer.take(bytes.extend_from_slice(ending));
    answer.take(bytes.extend_from_slice(b"after"));
    let right = is_read_at_each_cut(alloc, &bytes, case);
    drop(bytes);
    right
}

/// Whether the text is read by the rule at each cut of the bytes.
fn is_read_at_each_cut(alloc: Global, bytes: &[u8], case: &Case) -> bool {
    for cut in 0..bytes.len() + 1 {
        if !is_read(alloc, &bytes[..cut], case) {
            return false;
        }
    }
    true
}

/// What the rule refuses, where so many bytes are there with n.
fn refusal(len: usize, case: &Case) -> Option<ParseError> {
    let Some(behind) = len.checked_sub(4) else {
        return Some(ParseError::EndOfMessage);
    };
    match case.place {
        _ if behind < case.text.len() => Some(ParseError::EndOfMessage),
        Some(place) => Some(ParseError::Utf8(place)),
        None if behind < case.behind => Some(ParseError::EndOfMessage),
        None => None,
    }
}

/// Whether the bytes are read by the rule, whether the text may be null or not. What is refused stays.
fn is_read(alloc: Global, bytes: &[u8], case: &Case) -> bool {
    let want = refusal(bytes.len(), case);
    let taken = if want.is_none() {
        case.behind.saturating_add(4)
    } else {
        0
    };
    let left = bytes.len().saturating_sub(taken);
    is_so::<EiText>(alloc, bytes, &case.text, want.as_ref(), left)
        && is_so::<Option<EiText>>(alloc, bytes, &case.text, want.as_ref(), left)
}

/// Whether the answer is the text, or the refusal that is wanted, and so many bytes are left then.
fn is_so<T: OwnedArg + Drop>(
    alloc: Global,
    bytes: &[u8],
    text: &[u8],
    want: Option<&ParseError>,
    left: usize,
) -> bool {
    let mut stream = ByteStream::new(alloc, bytes, &[]);
    let is_answer = match stream.read_arg::<T>() {
        Ok(value) => want.is_none() && is_text(&value.as_arg(), text),
        Err(error) => want == Some(&error),
    };
    is_answer && stream.rest() == left
}

/// Whether the argument is the text of these bytes.
fn is_text(arg: &Arg<'_>, text: &[u8]) -> bool {
    match arg {
        Arg::String(Some(found)) => found.as_bytes() == text,
        _ => false,
    }
}

/// The text that the next word spells in hexadecimal digits.
fn text(alloc: Global, answer: &mut Answer, words: &mut Reader<'_>) -> Option<EiText> {
    let bytes = bytes(alloc, words);
    let text = match str::from_utf8(&bytes) {
        Ok(text) => answer.take(EiText::new(alloc, text)),
        Err(_) => {
            words.miss();
            None
        }
    };
    drop(bytes);
    text
}

/// Tells how a text stands to another, and whether they are equal.
fn tell_order(alloc: Global, answer: &mut Answer, words: &mut Reader<'_>) {
    let one = text(alloc, answer, words);
    let other = text(alloc, answer, words);
    if let (Some(one), Some(other)) = (&one, &other) {
        answer.show(&one.cmp(other));
        answer.put(" ");
        answer.show(&one.partial_cmp(other));
        tell_next(answer, &(one == other));
    }
    drop(one);
    drop(other);
}

/// Tells whether the copy of a text equals it, and how long the copy is.
fn tell_copy(alloc: Global, answer: &mut Answer, words: &mut Reader<'_>) {
    if let Some(text) = text(alloc, answer, words) {
        tell_copy_of(alloc, answer, &text);
        drop(text);
    }
}

/// Tells whether the copy of this text equals it, and how long the copy is.
fn tell_copy_of(alloc: Global, answer: &mut Answer, text: &EiText) {
    if let Some(copy) = answer.take(text.copy(alloc)) {
        answer.display(&(*text == copy));
        tell_next(answer, &copy.len());
        drop(copy);
    }
}
