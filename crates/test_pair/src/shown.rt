//! What is told of messages and answers.

use ei_backend::Object;
use ei_linked::{Got, Record};
use ei_spec::limits::FIRST_SERVER_ID;
use ei_wire::{Arg, ReadError, SendError};
use std::alloc::Global;
use std::fmt::Display;
use test_table::{Answer, Stop};

/// Tells letters and a value behind them.
pub(crate) fn tell<T: Display>(answer: &mut Answer, letters: &str, value: &T) {
    answer.put(letters);
    answer.display(value);
}

/// Tells letters and an id behind them; one of the server's by its place among these.
pub(crate) fn tell_id(answer: &mut Answer, letters: &str, id: u64) {
    answer.put(letters);
    match id.checked_sub(FIRST_SERVER_ID) {
        Some(place) => tell(answer, "s", &place),
        None => answer.display(&id),
    }
}

/// Tells a value with the letter of its kind in front, and a blank before it.
pub(crate) fn tell_arg(answer: &mut Answer, arg: &Arg<'_>) {
    match arg {
        Arg::Uint32(number) => tell(answer, " u", number),
        Arg::Int32(number) => tell(answer, " i", number),
        Arg::Uint64(id) | Arg::NewId(id) | Arg::Id(id) => tell_id(answer, " #", *id),
        Arg::Float(word) => tell(answer, " f", word),
        Arg::String(letters) => tell_letters(answer, *letters),
        Arg::Fd(handle) => tell(answer, " h", &handle.0),
        Arg::Int64(_) => answer.stop(Stop::Call),
    }
}

/// Tells a text; one of many letters by their number.
fn tell_letters(answer: &mut Answer, letters: Option<&str>) {
    match letters {
        Some(letters) if letters.len() > 64 => tell(answer, " t*", &letters.len()),
        Some(letters) => tell(answer, " t", &letters),
        None => answer.put(" n"),
    }
}

/// Tells a message that was sent, or taken, as it is stored.
pub(crate) fn tell_record(answer: &mut Answer, record: &Record) {
    tell_id(answer, "", record.target);
    tell(answer, " ", &record.interface.name());
    tell(answer, " ", &record.version);
    tell(answer, " ", &record.opcode);
    for value in record.values.as_slice() {
        tell_arg(answer, &value.as_arg());
    }
}

/// Tells what was taken, with the number of messages that the side had sent by then.
fn tell_got(answer: &mut Answer, got: &Got) {
    match got {
        Got::Message { message, after } => {
            tell_record(answer, message);
            tell(answer, " @", after);
        }
        Got::InvalidObject { id, after } => {
            tell_id(answer, "gone ", *id);
            tell(answer, " @", after);
        }
    }
}

/// Tells the messages behind the first so many.
pub(crate) fn tell_records(answer: &mut Answer, records: &[Record], past: usize) {
    for record in records.iter().skip(past) {
        tell_record(answer, record);
        answer.put(" / ");
    }
}

/// Tells what was taken behind the first so many.
pub(crate) fn tell_taken(answer: &mut Answer, taken: &[Got], past: usize) {
    for got in taken.iter().skip(past) {
        tell_got(answer, got);
        answer.put(" / ");
    }
}

/// Whether what was taken is this message.
pub(crate) fn is_message(alloc: Global, answer: &mut Answer, got: &Got, wanted: &str) -> bool {
    let mut found = Answer::new(alloc);
    match got {
        Got::Message { message, .. } => tell_record(&mut found, message),
        Got::InvalidObject { id, .. } => tell_id(&mut found, "gone ", *id),
    }
    is_text(answer, found, wanted)
}

/// Whether this is the text that was put together.
pub(crate) fn is_text(answer: &mut Answer, found: Answer, wanted: &str) -> bool {
    match answer.take(found.text()) {
        Some(found) => {
            let is_wanted = found.as_str() == wanted;
            drop(found);
            is_wanted
        }
        None => false,
    }
}

/// Puts the text that was put together behind the others.
pub(crate) fn keep_text(answer: &mut Answer, others: &mut Vec<String>, text: Answer) {
    if let Some(text) = answer.take(text.text()) {
        drop(answer.take(others.push(text)));
    }
}

/// Tells an object, by its id, its interface and version.
pub(crate) fn tell_object(answer: &mut Answer, object: &Object) {
    tell_id(answer, "", object.id());
    tell(answer, " ", &object.interface());
    tell(answer, " ", &object.version());
}

/// Tells what a call answers.
pub(crate) fn tell_sent(answer: &mut Answer, sent: Result<Option<Object>, SendError>) {
    match sent {
        Ok(Some(object)) => {
            tell_object(answer, &object);
            // Let go by a call: at the end of a scope the drop of each field is proved anew.
            drop(object);
        }
        Ok(None) => answer.put("sent"),
        Err(error) => tell_send_error(answer, error),
    }
}

/// Whether nothing was read, or handed out.
pub(crate) fn is_nothing<T: Drop>(it: Option<T>) -> bool {
    it.is_none()
}

/// Tells why nothing was sent; the program stops where memory ran out.
pub(crate) fn tell_send_error(answer: &mut Answer, error: SendError) {
    match error {
        SendError::MessageTooLong => answer.put("too long"),
        SendError::IdsExhausted => answer.put("no id"),
        SendError::NoMemory => answer.stop(Stop::NoMemory),
    }
}

/// Tells why nothing was read; the program stops where memory ran out, or the source failed.
pub(crate) fn tell_read_error(answer: &mut Answer, error: ReadError) {
    match error {
        ReadError::UnexpectedEof => answer.put("closed"),
        ReadError::HandleLimit => answer.put("too many handles"),
        ReadError::NoMemory => answer.stop(Stop::NoMemory),
        ReadError::ReadFault => answer.stop(Stop::Call),
    }
}
