//! The calls of the server's converter. They go on with the connection of the lines before; bytes are hexadecimal digits,
//! and blanks count nowhere in an answer.

mod client_requests;
mod connecting;
mod ends;
mod making;
mod telling;
mod words;
mod world;

use self::client_requests::{ask, ask_elsewhere};
pub(crate) use self::connecting::Greeting;
use self::ends::{disconnect, put_no_object, remove_device, remove_seat, rest_of};
use self::making::{add_device, add_object, add_seat, bear, leave_ids};
use self::telling::{put_connection, put_device, put_interface, put_keys, put_requests, put_seat};
use self::world::World;
use crate::tables::Calls;
use std::alloc::Global;
use test_table::{Answer, Reader};

/// What a call answers:
/// - `greet BYTES`: how many bytes the client sends until the connection;
/// - `forget`: nothing, and the client sends none;
/// - `connect SERIAL`: what the client told of itself, and how many interfaces both ends have; begins with a fresh
///   connection.
impl Calls for Greeting {
    fn call(&mut self, _alloc: Global, _table: &str, words: &mut Reader<'_>, answer: &mut Answer) {
        match words.word() {
            "greet" => self.send(words, answer),
            "forget" => self.forget(answer),
            "connect" => self.connect(words, answer),
            name => match &mut self.world {
                Some(world) => called(world, name, words, answer),
                None => words.miss(),
            },
        }
    }
}

/// What a call answers: what it tells of a connection, a seat, a device, or the last requests.
fn called(world: &mut World, name: &str, words: &mut Reader<'_>, answer: &mut Answer) {
    match name {
        "connection" => put_connection(world, answer),
        "interface" => put_interface(world, words, answer),
        "seat" => put_seat(world, words, answer),
        "device" => put_device(world, words, answer),
        "seats" | "devices" => put_keys(world, name, words, answer),
        "requests" => put_requests(world, answer),
        "read" | "readings" | "next-serial" | "with-serial" => rest_of(world, name, words, answer),
        _ => {
            made(world, name, words, answer);
            world.put_sent(answer);
        }
    }
}

/// What a call answers, each with what was sent behind it:
/// - `ask BYTES`: the requests that the converter makes of the client's messages, or why it refuses one;
/// - `ask-elsewhere BYTES`: the same of the messages as they are read by an endpoint before its handshake;
/// - `add-seat`, `add-device`, `add-object`: the key that was made, or why none was;
/// - `ids-left COUNT`: nothing, and lets so many own ids be left;
/// - `remove-seat PLACE`, `remove-device PLACE`, `disconnect REASON TEXT`: whether it is done;
/// - `no-object ID`: whether the client is told that no object has the id;
/// - the other events of a device.
fn made(world: &mut World, name: &str, words: &mut Reader<'_>, answer: &mut Answer) {
    match name {
        "ask" => ask(world, words, answer),
        "ask-elsewhere" => ask_elsewhere(world, words, answer),
        "add-seat" => add_seat(world, words, answer),
        "add-device" => add_device(world, words, answer),
        "add-object" => add_object(world, words, answer),
        "ids-left" => leave_ids(world, words, answer),
        "remove-seat" => remove_seat(world, words, answer),
        "remove-device" => remove_device(world, words, answer),
        "disconnect" => disconnect(world, words, answer),
        "no-object" => put_no_object(world, words, answer),
        _ => bear(world, name, words, answer),
    }
}
