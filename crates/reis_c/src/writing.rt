//! What is written into a caller's memory.

ghost use Rattle.std.specs.Prelude.{◌≡◌, ◌≤◌, ◌<◌, ℕ, [], ◌++◌, length, take, drop, map, min, unwrap_or};
ghost use Rattle.std.specs.Option.{option_copied};
ghost use Rattle.std.specs.Ptr.{as_ptr};
ghost use Rattle.reis_c.specs.Handles.{handle_of};
ghost use Rattle.reis_c.specs.Answers.{Writes, WritesText};
ghost use Rattle.reis_c.specs.Calls.{TellsClient, text_of_last};

use crate::flat::text_in;
use crate::numbers::{NO_ROOM, NOTHING, OK};
use ei_request::{Connection, EisRequest};
use ei_spec::Handle;
use ei_spec::limits::MOST_PIECE_HANDLES;
use std::ptr;

/// Room for one handle more than a piece may have.
pub(crate) const HANDLE_ROOM: usize = MOST_PIECE_HANDLES + 1;

/// Copies the first bytes, as many as there is room for, and tells how many these are.
pub(crate) fn copy_bytes(from: &[u8], room: &mut [u8]) -> usize
    ensures count { result ≡ min (length from.now) (length room.old) }
    ensures copied { room.new ≡ take result from.now ++ drop result room.old }
{
    let count = from.len().min(room.len());
    room[..count].copy_from_slice(&from[..count]);
    count
}

/// Writes where the items lie, if there are any, and tells how many there are.
pub(crate) fn lend<T>(items: &[T], first: &mut *const T) -> usize
    ensures count { result ≡ length items.now }
    ensures place { 0 < length items.now → first.new ≡ as_ptr items.entry }
    ensures none { length items.now ≡ 0 → first.new ≡ first.old }
{
    if !items.is_empty() {
        *first = ptr::from_ref(&items[0]);
    }
    items.len()
}

/// Copies the handles of the first numbers, as many as there is room for, and tells how many these are.
pub(crate) fn copy_handles(from: &[u32], room: &mut [Handle]) -> usize
    ensures count { result ≡ min (length from.now) (length room.old) }
    ensures copied { room.new ≡ map handle_of (take result from.now) ++ drop result room.old }
{
    let count = from.len().min(room.len());
    for i in 0..count {
        room[i] = Handle(from[i]);
    }
    count
}

/// Writes a text whole, or nothing where there is no room for it, and its length.
pub(crate) fn write_text(text: &str, room: &mut [u8], length: &mut usize) -> u32
    ensures { WritesText text.now room.old result length.new room.new }
{
    let bytes = text.as_bytes();
    *length = bytes.len();
    if bytes.len() > room.len() {
        return NO_ROOM;
    }
    copy_bytes(bytes, room);
    OK
}

/// Writes a name whole, which has no byte where there is none, or nothing where there is no room for it, and its length.
pub(crate) fn write_name(name: Option<&str>, room: &mut [u8], length: &mut usize) -> u32
    ensures { WritesText (unwrap_or (option_copied name.entry) []) room.old result length.new room.new }
{
    match name {
        Some(name) => write_text(name, room, length),
        None => write_text("", room, length),
    }
}

/// Writes the text of the request that was handed out last.
pub(crate) fn write_text_of(last: &Option<EisRequest>, room: &mut [u8], length: &mut usize) -> u32
    ensures { Writes (text_of_last last.now) room.old result length.new room.new }
{
    let text = match last {
        Some(request) => text_in(request),
        None => None,
    };
    match text {
        Some(text) => write_text(text, room, length),
        None => {
            *length = 0;
            NOTHING
        }
    }
}

/// Tells who the client of a connection is.
pub(crate) fn tell_client(
    connection: Option<&Connection>,
    context_type: &mut u32,
    room: &mut [u8],
    length: &mut usize,
) -> u32
    ensures { TellsClient (option_copied connection.entry) room.old result context_type.new length.new room.new }
{
    match connection {
        Some(connection) => {
            *context_type = u32::from(connection.context_type());
            write_name(connection.name(), room, length)
        }
        None => {
            *context_type = 0;
            *length = 0;
            NOTHING
        }
    }
}
