//! The words of a line.

use ei_request::DeviceSetup;
use ei_spec::Handle;
use ei_types::{DeviceCapabilities, DeviceCapability, DeviceType, DisconnectReason, KeymapType};
use ei_wire::RawFloat;
use std::alloc::{AllocError, Global};
use test_table::{Answer, Reader, Stop, count};

/// The set of these bits, in decimal digits.
pub(crate) fn capabilities(words: &mut Reader<'_>) -> DeviceCapabilities {
    let set = DeviceCapabilities::from_bits(words.id());
    words.or(set.ok_or(Stop::Line), DeviceCapabilities::empty())
}

/// What a word spells: no text of a dash, the rest behind `=`, and so many letters behind `a*`.
pub(crate) fn text(alloc: Global, word: &str) -> Result<Option<String>, Stop> {
    if let Some(rest) = word.strip_prefix('=') {
        some(String::from_str(alloc, rest))
    } else if let Some(length) = word.strip_prefix("a*") {
        some("a".repeat(alloc, count(length)?))
    } else if word == "-" {
        Ok(None)
    } else {
        Err(Stop::Line)
    }
}

/// The text that was made.
fn some(made: Result<String, AllocError>) -> Result<Option<String>, Stop> {
    match made {
        Ok(text) => Ok(Some(text)),
        Err(error) => Err(Stop::from(error)),
    }
}

/// The text as a slice.
pub(crate) fn letters(text: &Option<String>) -> Option<&str> {
    match text {
        Some(text) => Some(text.as_str()),
        None => None,
    }
}

/// The capability whose interface has that name.
pub(crate) fn capability(words: &mut Reader<'_>) -> DeviceCapability {
    let named = DeviceCapability::from_interface_name(words.word());
    words.or(named.ok_or(Stop::Line), DeviceCapability::Pointer)
}

/// The reason of that name.
pub(crate) fn reason(words: &mut Reader<'_>) -> DisconnectReason {
    match words.word() {
        "disconnected" => DisconnectReason::Disconnected,
        "error" => DisconnectReason::Error,
        "mode" => DisconnectReason::Mode,
        "protocol" => DisconnectReason::Protocol,
        "value" => DisconnectReason::Value,
        _ => {
            words.miss();
            DisconnectReason::Error
        }
    }
}

/// The type of that name.
pub(crate) fn device_type(words: &mut Reader<'_>) -> DeviceType {
    match words.word() {
        "virtual" => DeviceType::Virtual,
        "physical" => DeviceType::Physical,
        _ => {
            words.miss();
            DeviceType::Virtual
        }
    }
}

/// The items of a description that the other words say.
pub(crate) fn items<'a>(
    alloc: Global,
    words: &mut Reader<'a>,
    answer: &mut Answer,
) -> Vec<DeviceSetup<'a>> {
    let mut items = Vec::new(alloc);
    for word in words.rest().split(' ') {
        if !word.is_empty() {
            push_item(&mut items, word, words, answer);
        }
    }
    items
}

/// Adds the item that a word says, as often as stands behind its star.
fn push_item<'a>(
    items: &mut Vec<DeviceSetup<'a>>,
    word: &'a str,
    words: &mut Reader<'_>,
    answer: &mut Answer,
) {
    let (word, times) = word.split_once('*').unwrap_or((word, "1"));
    for _ in 0..words.or(times.parse::<u32>(), 0) {
        answer.take(items.push(item(word, words)));
    }
}

/// The item that a word says.
fn item<'a>(word: &'a str, words: &mut Reader<'_>) -> DeviceSetup<'a> {
    let (kind, rest) = word.split_once(':').unwrap_or((word, ""));
    match kind {
        "dimensions" => dimensions(rest, words),
        "region" => region(rest, words),
        "keymap" => keymap(rest, words),
        "mapping-id" => DeviceSetup::RegionMappingId(rest),
        _ => {
            words.miss();
            DeviceSetup::RegionMappingId(rest)
        }
    }
}

/// The number before the next colon, and the rest.
fn number<'a>(rest: &'a str, words: &mut Reader<'_>) -> (u32, &'a str) {
    let (word, rest) = rest.split_once(':').unwrap_or((rest, ""));
    (words.or(word.parse::<u32>(), 0), rest)
}

fn dimensions<'a>(rest: &str, words: &mut Reader<'_>) -> DeviceSetup<'a> {
    let (width, rest) = number(rest, words);
    let (height, _) = number(rest, words);
    DeviceSetup::Dimensions { width, height }
}

fn region<'a>(rest: &str, words: &mut Reader<'_>) -> DeviceSetup<'a> {
    let (offset_x, rest) = number(rest, words);
    let (offset_y, rest) = number(rest, words);
    let (width, rest) = number(rest, words);
    let (hight, rest) = number(rest, words);
    let (scale, _) = number(rest, words);
    DeviceSetup::Region {
        offset_x,
        offset_y,
        width,
        hight,
        scale: RawFloat(scale),
    }
}

fn keymap<'a>(rest: &str, words: &mut Reader<'_>) -> DeviceSetup<'a> {
    let (size, rest) = number(rest, words);
    let (handle, _) = number(rest, words);
    DeviceSetup::Keymap {
        keymap_type: KeymapType::Xkb,
        size,
        handle: Handle(handle),
    }
}
