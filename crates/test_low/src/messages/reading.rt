//! What an end reads, as texts.

use crate::messages::end::End;
use crate::messages::proxies::proxy_text;
use crate::words::{Hex, tell_next};
use ei_backend::{HasBackend, MessageEnum, Object, PendingRequestResult};
use std::alloc::Global;
use std::fmt::Debug;
use test_table::{Answer, Stop};

/// What is told where no message is whole.
const NOTHING: &str = "nothing";

/// Whether that is told.
pub(crate) fn is_nothing(text: &str) -> bool {
    text == NOTHING
}

/// Takes the next message, and tells it as `tell_message` says, or why there is none.
pub(crate) fn tell_taken<E: End>(alloc: Global, answer: &mut Answer, end: &mut E) {
    let handles = end.backend().unread_handles();
    if let Some(next) = answer.take(end.next()) {
        tell_answer(alloc, answer, end, &next);
        // Let go by a call: at the end of a scope the drop of each field is proved anew.
        drop(next);
    }
    if end.backend().unread_handles() < handles {
        answer.put(" | takes a handle");
    }
}

/// Tells what the next message is read as.
fn tell_answer<E: End>(
    alloc: Global,
    answer: &mut Answer,
    end: &E,
    next: &Option<PendingRequestResult<E::Message>>,
) {
    match next {
        None => answer.put(NOTHING),
        Some(PendingRequestResult::InvalidObject(id)) => {
            answer.put("no object");
            tell_next(answer, &Hex(*id));
        }
        Some(PendingRequestResult::ParseError(error)) => answer.show(error),
        Some(PendingRequestResult::Request(message)) => tell_message(alloc, answer, end, message),
    }
}

/// Tells a message that was read: its target by id, interface and version; its opcode and arguments; its name with the
/// names of its fields; and the interface and version of the object that it announced.
fn tell_message<E: End>(alloc: Global, answer: &mut Answer, end: &E, message: &E::Message) {
    tell_object(answer, message.object());
    answer.put(" |");
    tell_next(answer, &message.opcode());
    tell_args(alloc, answer, message);
    tell_name(alloc, answer, message);
    if let Some(object) = E::announced(message) {
        tell_new(alloc, answer, end, object);
    }
}

/// Tells an object by its id, its interface and its version.
pub(crate) fn tell_object(answer: &mut Answer, object: &Object) {
    answer.display(&Hex(object.id()));
    tell_next(answer, &object.interface());
    tell_next(answer, &object.version());
}

/// Tells the arguments of a message.
fn tell_args<M: MessageEnum>(alloc: Global, answer: &mut Answer, message: &M) {
    if let Some(args) = answer.take(message.args(alloc)) {
        for arg in &args {
            tell_next(answer, arg);
        }
        drop(args);
    }
}

/// Tells the name of a message and of its fields, without its target.
fn tell_name<M: Debug>(alloc: Global, answer: &mut Answer, message: &M) {
    let mut whole = Answer::new(alloc);
    whole.show(message);
    if let Some(whole) = answer.take(whole.text()) {
        tell_behind_target(answer, whole.as_str());
        drop(whole);
    }
}

/// Tells what stands behind the target in what a message is shown as, without the bracket that closes it.
fn tell_behind_target(answer: &mut Answer, whole: &str) {
    let open = whole.strip_suffix(')').unwrap_or("");
    match open.split_once(")), ") {
        Some((_target, name)) => {
            answer.put(" | ");
            answer.put(name);
        }
        None => answer.stop(Stop::Call),
    }
}

/// Tells the interface and version of an object that a message announced, as the table has it.
fn tell_new<E: End>(alloc: Global, answer: &mut Answer, end: &E, object: &Object) {
    match end.backend().object_for_id(object.id()) {
        Some(kept) => {
            answer.put(" | new ");
            answer.put(kept.interface());
            tell_next(answer, &kept.version());
            tell_other(alloc, answer, end, object, kept);
        }
        None => answer.stop(Stop::Call),
    }
}

/// Where the object that the message bears is another than that, or its proxy is, says so.
fn tell_other<E: End>(alloc: Global, answer: &mut Answer, end: &E, object: &Object, kept: &Object) {
    let one = answer.take(proxy_text(alloc, end, object));
    let other = answer.take(proxy_text(alloc, end, kept));
    if !is_same(object, kept) || one != other {
        answer.put(", and another in the message");
    }
    drop(one);
    drop(other);
}

/// Whether the objects have the same id, interface and version.
fn is_same(object: &Object, other: &Object) -> bool {
    object.id() == other.id()
        && object.interface() == other.interface()
        && object.version() == other.version()
}
