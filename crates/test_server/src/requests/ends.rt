//! Seats and devices that are taken away, the end of a connection, and serials.

use super::words::{letters, text};
use super::world::World;
use crate::kept::set_if;
use crate::pieces::{clock_of, in_pieces};
use crate::texts::display;
use ei_request::Connection;
use ei_types::DisconnectReason;
use test_table::{Answer, Reader};

/// `remove-seat PLACE`: whether the seat is taken away.
pub(crate) fn remove_seat(world: &mut World, words: &mut Reader<'_>, answer: &mut Answer) {
    match world.seats.get(words.count()) {
        Some(seat) => answer.show(&seat.remove(world.converter.handle_mut())),
        None => words.miss(),
    }
}

/// `remove-device PLACE`: whether the device is taken away.
pub(crate) fn remove_device(world: &mut World, words: &mut Reader<'_>, answer: &mut Answer) {
    match world.devices.get(words.count()) {
        Some(device) => answer.show(&device.remove(world.converter.handle_mut())),
        None => words.miss(),
    }
}

/// `disconnect REASON TEXT`: whether the connection is ended.
pub(crate) fn disconnect(world: &mut World, words: &mut Reader<'_>, answer: &mut Answer) {
    let reason = reason_of(words);
    let explanation = text(world.alloc, words, answer);
    let handle = world.converter.handle_mut();
    answer.show(&handle.disconnected(reason, letters(&explanation)));
    drop(explanation);
}

/// The reason of the next word.
fn reason_of(words: &mut Reader<'_>) -> DisconnectReason {
    match words.word() {
        "disconnected" => DisconnectReason::Disconnected,
        "error" => DisconnectReason::Error,
        "mode" => DisconnectReason::Mode,
        "protocol" => DisconnectReason::Protocol,
        "value" => DisconnectReason::Value,
        "transport" => DisconnectReason::Transport,
        _ => {
            words.miss();
            DisconnectReason::Error
        }
    }
}

/// `no-object ID`: whether the client is told that no object has the id.
pub(crate) fn put_no_object(world: &mut World, words: &mut Reader<'_>, answer: &mut Answer) {
    let id = words.id();
    answer.show(&world.converter.handle_mut().invalid_object(id));
}

/// What a call answers:
/// - `read`: what a read of one byte answers;
/// - `readings TIME ..`: nothing, and the clock has these readings;
/// - `next-serial`: the serial that is counted;
/// - `with-serial`: the serial that a call is given, and the last one before and then.
pub(crate) fn rest_of(world: &mut World, name: &str, words: &mut Reader<'_>, answer: &mut Answer) {
    match name {
        "read" => read_byte(world, answer),
        "readings" => {
            let clock = clock_of(world.alloc, words.rest(), ' ', answer);
            set_if(&mut world.clock, clock);
            answer.put("done");
        }
        "next-serial" => answer.show(&world.converter.handle_mut().next_serial()),
        _ => put_with_serial(world.converter.handle_mut(), answer),
    }
}

/// Lets a byte come.
fn read_byte(world: &mut World, answer: &mut Answer) {
    let mut pieces = in_pieces(world.alloc, b"a", answer);
    let context = world.converter.handle_mut().context_mut();
    answer.show(&context.read(&mut pieces));
    drop(pieces);
}

/// The serial that a call is given, and the last one before and behind it.
fn put_with_serial(handle: &mut Connection, answer: &mut Answer) {
    display(answer, &handle.last_serial());
    display(answer, &handle.with_next_serial(|serial| serial));
    answer.display(&handle.last_serial());
}
