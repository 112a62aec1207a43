//! The objects of an endpoint: ids, names and versions, and the messages to them.

use crate::arguments::argument;
use crate::words::{Hex, id, tell_next, tell_whether};
use crate::world::World;
use ei_backend::{Backend, HasBackend, InterfaceName, Object};
use ei_spec::KnownInterface;
use ei_wire::{Arg, SendError};
use std::fmt::Debug;
use std::mem::replace;
use test_table::{Answer, Reader};

/// What a call answers:
/// - `own NAME VERSION`: the endpoint's next object;
/// - `peer ID NAME VERSION`: the object of the peer;
/// - `of ID`: the object of that id in the table, and whether the table has one;
/// - `remove ID`: nothing, and takes it out;
/// - `next`: the next own id, and how many are left, up to a hundred;
/// - `keep ID`: whether a clone of the object equals it, and keeps the clone;
/// - `equal ID`: whether the object equals the one that is kept;
/// - `alive`: whether the endpoint has the object that is kept;
/// - `ask OPCODE ARGUMENT`: whether the message to the object that is kept is written;
/// - `seat TARGET VERSION ARGUMENT ARGUMENT`: the seat that a message of opcode 2 to the target announces.
pub(crate) fn tell(answer: &mut Answer, world: &mut World, words: &mut Reader<'_>) {
    match words.word() {
        "own" => tell_own(answer, world, words),
        "peer" => tell_peer(answer, world, words),
        "of" => tell_of(answer, &world.backend, id(words)),
        "remove" => remove(answer, world, id(words)),
        "next" => tell_ids(answer, &world.backend),
        "keep" => keep(answer, world, words),
        "equal" => tell_equal(answer, world, words),
        "alive" => tell_alive(answer, world, words),
        "ask" => tell_ask(answer, world, words),
        "seat" => tell_seat(answer, world, words),
        _ => words.miss(),
    }
}

/// Tells the object that was made, or why there is none.
fn tell_made<E: Debug + Drop>(answer: &mut Answer, made: Result<Object, E>) {
    match made {
        Ok(object) => {
            tell_object(answer, &object);
            // Let go by a call: at the end of a scope the drop of each field is proved anew.
            drop(object);
        }
        Err(error) => {
            answer.show(&error);
            drop(error);
        }
    }
}

/// Tells an object by what it is shown as, its id, its interface, its version and its side.
fn tell_object(answer: &mut Answer, object: &Object) {
    answer.show(object);
    tell_next(answer, &Hex(object.id()));
    tell_next(answer, &object.interface());
    tell_next(answer, &object.version());
    tell_next(answer, &object.client_side());
}

/// Makes the endpoint's next object, and tells it.
fn tell_own(answer: &mut Answer, world: &mut World, words: &mut Reader<'_>) {
    if let Some(name) = answer.take(InterfaceName::of(world.alloc, words.word())) {
        tell_made(answer, world.backend.new_object(name, words.number()));
    }
}

/// Puts the peer's object into the table, and tells it.
fn tell_peer(answer: &mut Answer, world: &mut World, words: &mut Reader<'_>) {
    let id = id(words);
    if let Some(name) = answer.take(InterfaceName::of(world.alloc, words.word())) {
        tell_made(
            answer,
            world.backend.new_peer_object(id, name, words.number()),
        );
    }
}

/// Tells the object of that id in the table, and whether the table has one.
fn tell_of(answer: &mut Answer, backend: &Backend, id: u64) {
    match backend.object_for_id(id) {
        Some(object) if backend.has_object_for_id(id) => tell_object(answer, object),
        None if !backend.has_object_for_id(id) => answer.put("none"),
        _ => answer.put("both"),
    }
}

/// Takes the object of that id out.
fn remove(answer: &mut Answer, world: &mut World, id: u64) {
    world.backend.remove_id(id);
    answer.put("done");
}

/// Tells the next own id, and how many are left, up to a hundred.
fn tell_ids(answer: &mut Answer, backend: &Backend) {
    answer.display(&Hex(backend.next_id()));
    tell_next(answer, &backend.ids_left().min(100));
}

/// Keeps a clone of the object, and tells whether it equals it.
fn keep(answer: &mut Answer, world: &mut World, words: &mut Reader<'_>) {
    match world.backend.object_for_id(id(words)) {
        Some(object) => {
            let clone = answer.take(object.clone());
            tell_whether(answer, clone.as_ref() == Some(object));
            drop(replace(&mut world.kept, clone));
        }
        None => words.miss(),
    }
}

/// Tells whether the object equals the one that is kept.
fn tell_equal(answer: &mut Answer, world: &World, words: &mut Reader<'_>) {
    match (world.backend.object_for_id(id(words)), &world.kept) {
        (Some(object), Some(kept)) => tell_whether(answer, object == kept),
        _ => words.miss(),
    }
}

/// Tells whether the endpoint has the object that is kept.
fn tell_alive(answer: &mut Answer, world: &World, words: &mut Reader<'_>) {
    match &world.kept {
        Some(kept) => tell_whether(answer, kept.is_alive(&world.backend)),
        None => words.miss(),
    }
}

/// Writes a message to the object at any end.
fn request<C: HasBackend>(
    context: &mut C,
    object: &Object,
    opcode: u32,
    args: &[Arg<'_>],
) -> Result<(), SendError> {
    object.request(context, opcode, args)
}

/// Writes a message to the object that is kept, and tells whether it is written.
fn tell_ask(answer: &mut Answer, world: &mut World, words: &mut Reader<'_>) {
    let opcode = words.number();
    let args = [argument(words)];
    match &world.kept {
        Some(kept) => {
            let asked = request(&mut world.backend, kept, opcode, &args);
            tell_whether(answer, asked.is_ok());
        }
        None => words.miss(),
    }
}

/// Announces a seat, and tells it.
fn tell_seat(answer: &mut Answer, world: &mut World, words: &mut Reader<'_>) {
    let (target, version) = (id(words), words.number());
    let args = [argument(words), argument(words)];
    let name = InterfaceName::Known(KnownInterface::Seat);
    let seat = world.backend.request_new(target, 2, &args, name, version);
    tell_made(answer, seat);
}
