//! The row `connection`: a connection for a policy of one's own, whose client sends input of its device or is told of it.

use crate::row::Outcome;
use crate::saying::{push_opening, say};
use ei_backend::Tray;
use ei_client::Context;
use ei_input::input_event::InputEvent;
use ei_types::{ContextType, DeviceCapabilities, DeviceType, Error, KeyState};
use ei_wire::{Arg, RawFloat};
use reis_eis::Connection;
use std::alloc::Global;

/// The device, and behind it its pointer and its keyboard.
const DEVICE: u64 = 0xff00000000000002;

const POINTER: u64 = 0xff00000000000003;

const KEYBOARD: u64 = 0xff00000000000004;

/// The capabilities of a pointer and a keyboard.
const CAPABILITIES: u64 = 5;

/// The bytes of a piece.
const PIECE: usize = 4096;

/// So many groups are told between two times that what waits is taken.
const TAKEN: u32 = 100;

/// The numbers of a motion: 1 and -1.
const X: u32 = 0x3f800000;

const Y: u32 = 0xbf800000;

/// The key of a, and the time of a frame.
const KEY: u32 = 30;

const TIME: u64 = 1000;

/// A connection whose client sends so many groups, each of a motion, a key and a frame.
pub(crate) fn sends(alloc: Global, groups: u32, said: &mut Tray) -> Result<Outcome, Error> {
    say_groups(alloc, groups, said)?;
    let mut connection = begin(alloc, ContextType::Sender)?;
    let messages = take_groups(&mut connection, said.bytes());
    // Let go by a call: at the end of a scope the drop of each field is proved anew.
    drop(connection);
    Ok(Outcome::Served(messages, 0))
}

/// A connection whose client is told of as many.
pub(crate) fn tells(alloc: Global, groups: u32) -> Result<Outcome, Error> {
    let mut connection = begin(alloc, ContextType::Receiver)?;
    let messages = tell_groups(&mut connection, groups);
    drop(connection);
    Ok(Outcome::Served(messages, 0))
}

/// A connection with a device, of which such a client has heard.
fn begin(alloc: Global, client: ContextType) -> Result<Connection, Error> {
    let mut said = Tray::new(alloc);
    let connection = begin_by(alloc, client, &mut said);
    drop(said);
    connection
}

/// The same, over this tray.
fn begin_by(alloc: Global, client: ContextType, said: &mut Tray) -> Result<Connection, Error> {
    say_opening(alloc, client, said)?;
    let mut connection = Connection::start(alloc, 1)?;
    introduce(&mut connection, said.bytes());
    Ok(connection)
}

/// Hands in the handshake of a client, and announces a device.
fn introduce(connection: &mut Connection, said: &[u8]) {
    let _ = connection.feed(said, &[], 0);
    announce(connection);
    take(connection);
}

/// Says the handshake of such a client.
fn say_opening(alloc: Global, client: ContextType, said: &mut Tray) -> Result<(), Error> {
    let mut context = Context::new(alloc)?;
    let pushed = push_opening(&mut context, client, said);
    drop(context);
    pushed
}

/// Announces a seat and a device. Where that is refused no message of a group counts.
fn announce(connection: &mut Connection) {
    let Some(capabilities) = DeviceCapabilities::from_bits(CAPABILITIES) else {
        return;
    };
    let Ok(seat) = connection.add_seat(None, capabilities) else {
        return;
    };
    let _ = connection.add_device(seat, None, DeviceType::Virtual, capabilities, &[]);
}

/// Says what a client says that sends so many groups.
fn say_groups(alloc: Global, groups: u32, said: &mut Tray) -> Result<(), Error> {
    let mut context = Context::new(alloc)?;
    let pushed = push_groups(&mut context, groups, said);
    drop(context);
    pushed
}

/// Sends so many groups.
fn push_groups(context: &mut Context, groups: u32, said: &mut Tray) -> Result<(), Error> {
    for _group in 0..groups {
        push_group(context, said)?;
    }
    Ok(())
}

/// Sends a group.
fn push_group(context: &mut Context, said: &mut Tray) -> Result<(), Error> {
    let motion = [Arg::Float(X), Arg::Float(Y)];
    let key = [Arg::Uint32(KEY), Arg::Uint32(1)];
    let frame = [Arg::Uint32(1), Arg::Uint64(TIME)];
    say(context, said, POINTER, 1, &motion)?;
    say(context, said, KEYBOARD, 1, &key)?;
    say(context, said, DEVICE, 3, &frame)
}

/// Takes all that waits to be written.
fn take(connection: &mut Connection) {
    let count = connection.unsent().len();
    if count > 0 {
        let _ = connection.sent(count);
    }
}

/// Hands in all groups, piece by piece, and takes the requests behind each. It answers how many these are. This is what is counted.
#[inline(never)]
fn take_groups(connection: &mut Connection, bytes: &[u8]) -> u64 {
    let mut requests: u64 = 0;
    let mut left = bytes;
    for _piece in 0..bytes.len() {
        if left.is_empty() {
            break;
        }
        let (piece, rest) = left.split_at(left.len().min(PIECE));
        left = rest;
        let _ = connection.feed(piece, &[], 0);
        take(connection);
        for _request in 0..piece.len() {
            let Some(request) = connection.next_request() else {
                break;
            };
            drop(request);
            requests = requests.saturating_add(1);
        }
    }
    requests
}

/// Tells the client of all groups. It answers how many messages these are. This is what is counted.
#[inline(never)]
fn tell_groups(connection: &mut Connection, groups: u32) -> u64 {
    let motion = InputEvent::PointerMotion {
        dx: RawFloat(X),
        dy: RawFloat(Y),
    };
    let key = InputEvent::KeyboardKey {
        key: KEY,
        state: KeyState::Press,
    };
    let mut told: u64 = 0;
    for place in 0..groups {
        told = told.saturating_add(u64::from(connection.send(DEVICE, &motion).is_ok()));
        told = told.saturating_add(u64::from(connection.send(DEVICE, &key).is_ok()));
        told = told.saturating_add(u64::from(connection.frame(DEVICE, TIME).is_ok()));
        if place % TAKEN == TAKEN - 1 {
            take(connection);
        }
    }
    told
}
