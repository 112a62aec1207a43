//! The bytes of the rows, made beforehand: the generated stream, and what a server says. `saying` has what a client says.

ghost use Rattle.std.specs.Prelude.{◌≡◌, ◌≤◌, length, vec_len, IfOk};
ghost use Rattle.ei_spec.specs.declared.limits.TheConstants.{MOST_PIECE_BYTES, MOST_PIECE_HANDLES};

use crate::announcing::announce;
use crate::send::{push_groups, push_motions};
use ei_backend::{Sink, Source, Tray};
use ei_server::Context;
use ei_spec::Handle;
use ei_spec::limits::{MOST_PIECE_BYTES, MOST_PIECE_HANDLES};
use ei_types::Error;
use ei_wire::NoMemory;
use reis_demo::Generated;
use std::alloc::Global;

/// Says the generated stream of so many groups, which the numbers after 1 make up.
pub(crate) fn say_generated(alloc: Global, groups: u32, said: &mut Tray) -> Result<(), Error> {
    let mut source = Generated::new(alloc, groups, 1)?;
    let pushed = push_source(alloc, &mut source, said);
    // Let go by a call: at the end of a scope the drop of each field is proved anew.
    drop(source);
    pushed
}

/// Puts all that this source hands out.
fn push_source(alloc: Global, source: &mut Generated, said: &mut Tray) -> Result<(), Error> {
    let mut room = room(alloc)?;
    let pushed = push_through(alloc, source, &mut room, said);
    drop(room);
    pushed
}

/// The same, by this room.
fn push_through(
    alloc: Global,
    source: &mut Generated,
    room: &mut [u8],
    said: &mut Tray,
) -> Result<(), Error>
    requires room { MOST_PIECE_BYTES ≤ length room.old }
{
    let mut handles = handle_room(alloc)?;
    let pushed = push_pieces(source, room, &mut handles, said);
    drop(handles);
    pushed
}

/// Room for the bytes of a piece.
fn room(alloc: Global) -> Result<Vec<u8>, NoMemory>
    ensures { IfOk result (λ v. vec_len v ≡ MOST_PIECE_BYTES) }
{
    Ok(vec![in alloc; 0u8; MOST_PIECE_BYTES]?)
}

/// Room for the handles of a piece.
fn handle_room(alloc: Global) -> Result<Vec<Handle>, NoMemory>
    ensures { IfOk result (λ v. vec_len v ≡ MOST_PIECE_HANDLES) }
{
    Ok(vec![in alloc; Handle(0); MOST_PIECE_HANDLES]?)
}

/// Puts all pieces of a source.
fn push_pieces(
    source: &mut Generated,
    room: &mut [u8],
    handles: &mut [Handle],
    said: &mut Tray,
) -> Result<(), Error>
    requires room { MOST_PIECE_BYTES ≤ length room.old }
    requires handle_room { MOST_PIECE_HANDLES ≤ length handles.old }
{
    for _piece in 0..source.bytes_left() {
        if !push_piece(source, room, handles, said)? {
            break;
        }
    }
    Ok(())
}

/// Puts the source's next piece, and answers whether there was one.
fn push_piece(
    source: &mut Generated,
    room: &mut [u8],
    handles: &mut [Handle],
    said: &mut Tray,
) -> Result<bool, Error>
    requires room { MOST_PIECE_BYTES ≤ length room.old }
    requires handle_room { MOST_PIECE_HANDLES ≤ length handles.old }
    ensures room { length room.new ≡ length room.old }
    ensures handle_room { length handles.new ≡ length handles.old }
{
    let Ok(taken) = source.take(room, handles) else {
        return Ok(false);
    };
    match said.put(&room[..taken.bytes], &[]) {
        Ok(count) => Ok(count > 0),
        Err(_) => Err(Error::NoMemory),
    }
}

/// Says what a server says that announces a device and sends so many motions, each with a frame if it is to.
pub(crate) fn say_motions(
    alloc: Global,
    count: u32,
    is_framed: bool,
    said: &mut Tray,
) -> Result<(), Error> {
    let mut context = Context::new(alloc)?;
    let pushed = push_announced(&mut context, count, is_framed, said);
    drop(context);
    pushed
}

/// Announces a device, and sends so many motions of its pointer, each with a frame if it is to.
fn push_announced(
    context: &mut Context,
    count: u32,
    is_framed: bool,
    said: &mut Tray,
) -> Result<(), Error> {
    let announced = announce(context)?;
    let pushed = if is_framed {
        push_groups(context, &announced, count, said)
    } else {
        push_motions(context, &announced.pointer, count, said)
    };
    drop(announced);
    pushed
}
