//! The bytes and handles of an endpoint: from the source, and into the sink.

use crate::arguments::argument;
use crate::version::{give, tell_pending};
use crate::words::{bytes, count, tell_bytes, tell_next, tell_whether};
use crate::world::{World, new_sink, new_source};
use ei_backend::{Backend, FIRST_SERVER_ID, InterfaceName};
use ei_spec::{Handle, KnownInterface};
use ei_wire::{Arg, NoMemory, SendError};
use std::alloc::Global;
use std::mem::replace;
use test_table::{Answer, Reader};

/// What a call answers:
/// - `end KIND`: nothing, and begins with a fresh endpoint;
/// - `source` and `sink`: nothing, and begins with an empty one;
/// - `carry`: nothing, and puts what the sink took into the source, as one piece;
/// - `piece BYTES HANDLES`: nothing, and puts a piece with so many handles into the source, numbered from 7 on;
/// - `take-fails CALL` and `put-fails CALL`: nothing, and lets that call of the source or of the sink fail;
/// - `narrow COUNT`: nothing, and lets the sink take at most so many bytes a call;
/// - `close`: nothing, and closes the endpoint.
pub(crate) fn tell(answer: &mut Answer, world: &mut World, name: &str, words: &mut Reader<'_>) {
    match name {
        "end" => begin(answer, world, words),
        "source" => drop(replace(&mut world.source, new_source(world.alloc))),
        "sink" => drop(replace(&mut world.sink, new_sink(world.alloc))),
        "carry" => carry(answer, world),
        "piece" => give_piece(answer, world, words),
        "take-fails" => drop(answer.take(world.source.pieces.fail_at(words.number()))),
        "put-fails" => drop(answer.take(world.sink.tray.fail_at(words.number()))),
        "narrow" => world.sink.most = count(words),
        "close" => world.backend.close(),
        _ => return tell_done(answer, world, name, words),
    }
    answer.put("done");
}

/// What a call answers:
/// - `read`: how many bytes come from the source, or why none do;
/// - `next`: what the next message is read as;
/// - `send OPCODE ARGUMENT ARGUMENT`: whether the message to object 0 is written;
/// - `burst COUNT`: whether so many callbacks are announced, each with a number and a handle;
/// - `reserve BYTES HANDLES OBJECTS`: whether there is room for them;
/// - `flush`: whether what waits goes;
/// - `handles`: whether 64 pieces with 64 handles each come.
fn tell_done(answer: &mut Answer, world: &mut World, name: &str, words: &mut Reader<'_>) {
    match name {
        "read" => answer.show(&world.backend.read(&mut world.source)),
        "next" => tell_pending(answer, &mut world.backend),
        "send" => tell_send(answer, world, words),
        "burst" => answer.show(&burst(&mut world.backend, words.number())),
        "reserve" => tell_reserve(answer, &mut world.backend, words),
        "flush" => answer.show(&world.backend.flush(&mut world.sink)),
        "handles" => tell_handles(answer, world),
        _ => tell_state(answer, world, name, words),
    }
}

/// What a call answers:
/// - `unread`: how many bytes and handles are unread, and whether the endpoint is closed;
/// - `unsent` and `waiting`: the bytes and handles that wait, and how many;
/// - `sent`: the bytes and handles that the sink took;
/// - `calls`: how often the source was asked, the sink called, and the sink called with no byte.
fn tell_state(answer: &mut Answer, world: &World, name: &str, words: &mut Reader<'_>) {
    let (alloc, backend, tray) = (world.alloc, &world.backend, &world.sink.tray);
    match name {
        "unread" => tell_unread(answer, backend),
        "unsent" => tell_both(alloc, answer, backend.unsent(), backend.unsent_handles()),
        "waiting" => tell_waiting(answer, backend),
        "sent" => tell_both(alloc, answer, tray.bytes(), tray.handles()),
        "calls" => tell_calls(answer, world),
        _ => words.miss(),
    }
}

/// Begins with a fresh endpoint of a kind: a server or a client, or one whose own ids begin at its last one, or behind it.
fn begin(answer: &mut Answer, world: &mut World, words: &mut Reader<'_>) {
    let alloc = world.alloc;
    match words.word() {
        "server" => begin_with(answer, world, Backend::new(alloc, false)),
        "client" => begin_with(answer, world, Backend::new(alloc, true)),
        "last-of-server" => {
            begin_with(
                answer,
                world,
                Backend::with_next_id(alloc, false, u64::MAX - 1),
            );
        }
        "last-of-client" => {
            begin_with(
                answer,
                world,
                Backend::with_next_id(alloc, true, FIRST_SERVER_ID - 1),
            );
        }
        "none-of-client" => {
            begin_with(
                answer,
                world,
                Backend::with_next_id(alloc, true, FIRST_SERVER_ID),
            );
        }
        _ => words.miss(),
    }
}

/// Begins with this endpoint.
fn begin_with(answer: &mut Answer, world: &mut World, fresh: Result<Backend, NoMemory>) {
    if let Some(fresh) = answer.take(fresh) {
        // Let go by a call: in an assignment the drop of each field is proved anew.
        drop(replace(&mut world.backend, fresh));
    }
}

/// Tells bytes and handles.
fn tell_both(alloc: Global, answer: &mut Answer, bytes: &[u8], handles: &[Handle]) {
    answer.put("[");
    tell_bytes(alloc, answer, bytes);
    answer.put("] ");
    answer.show(&handles);
}

/// Tells how many bytes and handles are unread, and whether the endpoint is closed.
fn tell_unread(answer: &mut Answer, backend: &Backend) {
    answer.display(&backend.unread_len());
    tell_next(answer, &backend.unread_handles());
    tell_next(answer, &backend.is_closed());
}

/// Tells how many bytes and handles wait.
fn tell_waiting(answer: &mut Answer, backend: &Backend) {
    answer.display(&backend.unsent().len());
    tell_next(answer, &backend.unsent_handles().len());
}

/// Tells how often the source was asked and the sink called, and how often with no byte.
fn tell_calls(answer: &mut Answer, world: &World) {
    answer.display(&world.source.calls);
    tell_next(answer, &world.sink.calls);
    tell_next(answer, &world.sink.empty);
}

/// Puts a piece into the source.
fn give_piece(answer: &mut Answer, world: &mut World, words: &mut Reader<'_>) {
    let bytes = bytes(world.alloc, words);
    let all = [Handle(7), Handle(8), Handle(9)];
    let (handles, _) = all.split_at(words.count().min(3));
    give(answer, &mut world.source.pieces, &bytes, handles);
    drop(bytes);
}

/// Puts what the sink took into the source.
fn carry(answer: &mut Answer, world: &mut World) {
    let tray = &world.sink.tray;
    give(
        answer,
        &mut world.source.pieces,
        tray.bytes(),
        tray.handles(),
    );
}

/// Sends a message to object 0, with two arguments or none, and tells whether it is written.
fn tell_send(answer: &mut Answer, world: &mut World, words: &mut Reader<'_>) {
    let opcode = words.number();
    if words.rest().is_empty() {
        answer.show(&world.backend.request(0, opcode, &[]));
    } else {
        let args = [argument(words), argument(words)];
        answer.show(&world.backend.request(0, opcode, &args));
    }
}

/// Announces so many callbacks.
fn burst(backend: &mut Backend, count: u32) -> Result<(), SendError> {
    for number in 0..count {
        announce(backend, number)?;
    }
    Ok(())
}

/// Announces a callback, with a number and a handle.
fn announce(backend: &mut Backend, number: u32) -> Result<(), SendError> {
    let args = [
        Arg::NewId(backend.next_id()),
        Arg::Uint32(number),
        Arg::Fd(Handle(3)),
    ];
    let name = InterfaceName::Known(KnownInterface::Callback);
    match backend.request_new(0, 2, &args, name, 1) {
        Ok(object) => {
            drop(object);
            Ok(())
        }
        Err(error) => Err(error),
    }
}

/// Makes room, and tells whether it is there.
fn tell_reserve(answer: &mut Answer, backend: &mut Backend, words: &mut Reader<'_>) {
    let (bytes, handles, objects) = (count(words), count(words), count(words));
    answer.show(&backend.reserve(bytes, handles, objects));
}

/// Tells whether 64 handles come with each of 64 bytes.
fn tell_handles(answer: &mut Answer, world: &mut World) {
    let mut right = true;
    for _ in 0..64 {
        give(answer, &mut world.source.pieces, b"a", &[Handle(7); 64]);
        right = world.backend.read(&mut world.source) == Ok(1) && right;
    }
    tell_whether(answer, right);
}
