//! The calls of the client.

use crate::changing::{Changes, ClientCall, Pair};
use crate::may::ask;
use crate::shown::tell_sent;
use crate::spelled::{id_of, is_read, values_of};
use ei_backend::{HasBackend, Object};
use ei_values::Value;
use ei_wire::SendError;
use std::alloc::Global;
use test_table::{Answer, Reader};

/// The object of that id at the client.
pub(crate) fn client_object(pair: &Pair, at: u64) -> Option<Object> {
    pair.client().backend().object_for_id(at)?.clone().ok()
}

/// `call ID OPCODE VALUE ..`: a request to an object that the client has.
pub(crate) fn call(alloc: Global, answer: &mut Answer, pair: &mut Pair, mut words: Reader<'_>) {
    let at = id_of(&mut words);
    let opcode = words.number();
    let values = values_of(alloc, answer, &mut words);
    if is_read(answer, &words) {
        call_to(answer, pair, at, opcode, values.as_slice());
    }
    // Let go by a call: at the end of a scope the drop of each field is proved anew.
    drop(values);
}

/// A request of these values to the object of that id.
fn call_to(answer: &mut Answer, pair: &mut Pair, at: u64, opcode: u32, values: &[Value]) {
    match client_object(pair, at) {
        Some(target) => {
            let call = ClientCall::Call {
                target,
                opcode,
                values,
            };
            tell_asked(answer, ask(pair, call));
        }
        None => answer.put("no object"),
    }
}

/// Tells what the client answered, if it might be asked.
fn tell_asked(answer: &mut Answer, asked: Option<Result<Option<Object>, SendError>>) {
    match asked {
        Some(sent) => tell_sent(answer, sent),
        None => answer.put("may not"),
    }
}

/// What the client answers where it is to ask for a callback, whose handler changes the number that comes by this one; `None`
/// where it may not ask now.
pub(crate) fn ask_sync(pair: &mut Pair, by: u64) -> Option<Result<Option<Object>, SendError>> {
    ask(pair, ClientCall::SyncWith(Changes { by }))
}

/// `sync NUMBER`: the client asks for a callback, whose handler changes the number that comes by this one.
pub(crate) fn sync_with(answer: &mut Answer, pair: &mut Pair, mut words: Reader<'_>) {
    let by = words.id();
    if is_read(answer, &words) {
        tell_asked(answer, ask_sync(pair, by));
    }
}
