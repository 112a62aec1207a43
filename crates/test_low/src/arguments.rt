//! Arguments, written, read and shown, and the header of a message.

use crate::words::{Hex, bytes, tell_bytes, tell_next};
use ei_spec::Handle;
use ei_types::{ButtonState, ContextType, DeviceType, DisconnectReason, KeyState, KeymapType};
use ei_wire::{Arg, ByteStream, EiText, Header, NoMemory, OwnedArg, RawFloat};
use std::alloc::Global;
use std::fmt::Debug;
use test_table::{Answer, Reader, Stop};

/// What a call answers:
/// - `write ARGUMENT`: how `tell_written` says that it is written;
/// - `odd-text`: what a text is shown as that no line can hold;
/// - `read BYTES KIND ..`: what the bytes are read as, kind by kind;
/// - `header BYTES`: its id, its length and its opcode, and whether it is written as the bytes.
pub(crate) fn tell(alloc: Global, answer: &mut Answer, words: &mut Reader<'_>) {
    match words.word() {
        "write" => tell_written(alloc, answer, &argument(words)),
        "odd-text" => tell_odd_text(answer),
        "read" => tell_read(alloc, answer, words),
        "header" => tell_header(alloc, answer, words),
        _ => words.miss(),
    }
}

/// The argument that the next word spells: its kind, a colon and its value.
pub(crate) fn argument<'a>(words: &mut Reader<'a>) -> Arg<'a> {
    let word = words.word();
    let (kind, value) = word.split_once(':').unwrap_or((word, ""));
    match kind {
        "text" => Arg::String(Some(value)),
        "null" => Arg::String(None),
        "new" => Arg::NewId(words.or(u64::from_str_radix(value, 16), 0)),
        "id" => Arg::Id(words.or(u64::from_str_radix(value, 16), 0)),
        "fd" => Arg::Fd(Handle(words.or(value.parse::<u32>(), 0))),
        _ => number(words, kind, value),
    }
}

/// The number of that kind that a word spells.
fn number<'a>(words: &mut Reader<'a>, kind: &str, value: &str) -> Arg<'a> {
    match kind {
        "i32" => Arg::Int32(words.or(value.parse::<i32>(), 0)),
        "u64" => Arg::Uint64(words.or(value.parse::<u64>(), 0)),
        "i64" => Arg::Int64(words.or(value.parse::<i64>(), 0)),
        "float" => Arg::Float(words.or(u32::from_str_radix(value, 16), 0)),
        "u32" => Arg::Uint32(words.or(value.parse::<u32>(), 0)),
        _ => {
            words.miss();
            Arg::String(None)
        }
    }
}

/// Writes an argument, unless it is a text that is too long for any message.
fn write(arg: &Arg<'_>, bytes: &mut Vec<u8>, handles: &mut Vec<Handle>) -> Result<(), NoMemory> {
    match arg {
        Arg::String(Some(text)) if text.len() > 1000 => Err(NoMemory),
        _ => arg.write(bytes, handles),
    }
}

/// Tells how many bytes an argument has; the bytes; the handles beside them; and what it is shown as.
fn tell_written(alloc: Global, answer: &mut Answer, arg: &Arg<'_>) {
    let mut bytes = Vec::new(alloc);
    let mut handles = Vec::new(alloc);
    answer.take(write(arg, &mut bytes, &mut handles));
    answer.display(&arg.size());
    answer.put(" [");
    tell_bytes(alloc, answer, &bytes);
    answer.put("] ");
    answer.show(&handles);
    tell_next(answer, arg);
    // Let go by a call: at the end of a scope the drop of each field is proved anew.
    drop(bytes);
    drop(handles);
}

/// Tells what a text is shown as that begins with a blank, and one with marks, a newline, a zero and an accent.
fn tell_odd_text(answer: &mut Answer) {
    answer.display(&Arg::String(Some(" az~")));
    tell_next(answer, &Arg::String(Some("\"\\\n\0\u{7f}\u{e9}")));
}

/// Tells what the bytes, with the handle 7 beside them, are read as.
fn tell_read(alloc: Global, answer: &mut Answer, words: &mut Reader<'_>) {
    let bytes = bytes(alloc, words);
    let mut stream = ByteStream::new(alloc, &bytes, &[Handle(7)]);
    tell_each(alloc, answer, &mut stream, words.rest());
    drop(stream);
    drop(bytes);
}

/// Tells what is read, kind by kind; and after each, how many bytes are left and how many handles are taken.
fn tell_each(alloc: Global, answer: &mut Answer, stream: &mut ByteStream<'_>, kinds: &str) {
    let mut begun = false;
    for kind in kinds.split(' ') {
        if begun {
            answer.put(" / ");
        }
        tell_value(alloc, answer, stream, kind);
        tell_next(answer, &stream.rest());
        tell_next(answer, &stream.handles_taken());
        begun = true;
    }
}

/// Tells the next value of that kind, or why it is refused.
fn tell_value(alloc: Global, answer: &mut Answer, stream: &mut ByteStream<'_>, kind: &str) {
    match kind {
        "u32" => tell_taken::<u32>(alloc, answer, stream),
        "i32" => tell_taken::<i32>(alloc, answer, stream),
        "u64" => tell_taken::<u64>(alloc, answer, stream),
        "i64" => tell_taken::<i64>(alloc, answer, stream),
        "float" => tell_taken::<RawFloat>(alloc, answer, stream),
        "fd" => tell_taken::<Handle>(alloc, answer, stream),
        "text" => tell_taken::<EiText>(alloc, answer, stream),
        "text?" => tell_taken::<Option<EiText>>(alloc, answer, stream),
        _ => tell_choice(alloc, answer, stream, kind),
    }
}

/// Tells the next value of that enum, or why it is refused.
fn tell_choice(alloc: Global, answer: &mut Answer, stream: &mut ByteStream<'_>, kind: &str) {
    match kind {
        "context_type" => tell_taken::<ContextType>(alloc, answer, stream),
        "disconnect_reason" => tell_taken::<DisconnectReason>(alloc, answer, stream),
        "device_type" => tell_taken::<DeviceType>(alloc, answer, stream),
        "keymap_type" => tell_taken::<KeymapType>(alloc, answer, stream),
        "button_state" => tell_taken::<ButtonState>(alloc, answer, stream),
        "key_state" => tell_taken::<KeyState>(alloc, answer, stream),
        _ => answer.stop(Stop::Line),
    }
}

/// Tells the next value of any kind, or why it is refused.
fn tell_taken<T>(alloc: Global, answer: &mut Answer, stream: &mut ByteStream<'_>)
where
    T: OwnedArg + Debug + Drop,
{
    match stream.read_arg::<T>() {
        Ok(value) => {
            tell_whole(alloc, answer, &value);
            drop(value);
        }
        Err(error) => {
            answer.show(&error);
            drop(error);
        }
    }
}

/// Tells a value; of an enum its names; and how it is written.
fn tell_whole<T: OwnedArg + Debug>(alloc: Global, answer: &mut Answer, value: &T) {
    answer.show(value);
    match value.enum_name() {
        Some((of, name)) => {
            tell_next(answer, &of);
            tell_next(answer, &name);
            answer.put(" ");
        }
        None => answer.put(" no enum "),
    }
    tell_written(alloc, answer, &value.as_arg());
}

/// Tells what the header of sixteen bytes is read as, and whether it is written as they are.
fn tell_header(alloc: Global, answer: &mut Answer, words: &mut Reader<'_>) {
    let bytes = bytes(alloc, words);
    match bytes.split_first_chunk::<16>() {
        Some((bytes, _)) => tell_header_of(answer, bytes),
        None => words.miss(),
    }
    drop(bytes);
}

/// Tells what the header is read as, and whether it is written as its bytes are.
fn tell_header_of(answer: &mut Answer, bytes: &[u8; 16]) {
    let header = Header::parse(*bytes);
    answer.display(&Hex(header.object_id));
    tell_next(answer, &header.length);
    tell_next(answer, &Hex(u64::from(header.opcode)));
    tell_next(answer, &(header.as_bytes().as_slice() == bytes.as_slice()));
}
