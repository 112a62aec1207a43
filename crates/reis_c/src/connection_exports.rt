//! What C calls on a connection. No call requires anything: what is wrong is answered.

ghost use Rattle.std.specs.Prelude.{◌≡◌, ◌≢◌, ◌<◌, ◌⊎◌, ◌↔◌, length, IsSome, is_some, if◌then◌else◌, None, Some};
ghost use Rattle.ei_spec.specs.declared.interface.KnownInterface.TheVariants as known;
ghost use Rattle.reis_eis.specs.Refusals.{pinging, on_seat, on_device, on_interface, on_receiver};
ghost use Rattle.reis_eis.specs.Acting.{PingsAs, RemovesSeatAt, RemovesDeviceAt, Pauses, TellsModifiers, StartsEmulating, StopsEmulating, Frames};
ghost use Rattle.reis_eis.specs.Words.{unsent_in, handle_in};
ghost use Rattle.reis_c.specs.Answers.{Writes};
ghost use Rattle.reis_c.specs.Calls.{OnWord, ReadsWord, TellsClient, text_of_last};
ghost use Rattle.reis_c.specs.Connecting.{begun, FeedsConnection, EndsConnection, SendsBytes, HandsNext, Disconnects, AddsSeatTo, AddsDeviceTo, Does, DoesAndTells, ResumesAndTells, TellsDevice, SendsTo};
ghost use Rattle.reis_c.specs.Ending.{ending_number};
ghost use Rattle.reis_c.specs.Inputs.{input_in};
ghost use Rattle.reis_c.specs.Numbers as number;
ghost use Rattle.reis_c.specs.Policy.{forgetting, pausing, removing};

use crate::connection::HeldConnection;
use crate::connection_slot::ReisConnection;
use crate::device::{ReisDevice, ReisRegion};
use crate::ending::ending_number;
use crate::exports::on_word;
use crate::flat::ReisRequest;
use crate::numbers::{HAS_SESSION, INVALID, NO_MEMORY, NO_SESSION, OK, STRICT};
use crate::writing::{lend, tell_client, write_text_of};
use ei_spec::Handle;
use std::alloc::Global;

/// Starts a connection where there is none. With the flag `STRICT` it hands out what libeis would: a policy stands beside it.
///
/// `HAS_SESSION` where there is one; `INVALID` where a bit is no flag; `NO_MEMORY`.
#[unsafe(no_mangle)]
pub extern "C" fn reis_c_connection_start(
    alloc: Global,
    connection: &mut ReisConnection,
    serial: u32,
    flags: u32,
) -> u32
    ensures started { result ≡ number.OK → connection.new.held ≡ Some (begun serial flags) }
    ensures kept { result ≢ number.OK → connection.new.held ≡ connection.old.held }
    // which answer it is
    ensures there { (result ≡ number.HAS_SESSION) ↔ IsSome connection.old.held }
    ensures lawless { (result ≡ number.INVALID) ↔ ((connection.old.held ≡ None) × (number.STRICT < flags)) }
    ensures which { (result ≡ number.OK) ⊎ (result ≡ number.NO_MEMORY) ⊎ (result ≡ number.HAS_SESSION) ⊎
        (result ≡ number.INVALID) }
{
    if let Some(held) = connection.take(alloc) {
        connection.put(held);
        return HAS_SESSION;
    }
    if flags > STRICT {
        return INVALID;
    }
    match HeldConnection::start(alloc, serial, flags) {
        Some(held) => {
            connection.put(held);
            OK
        }
        None => NO_MEMORY,
    }
}

/// Hands in a piece that came from the client, and the time in microseconds.
///
/// `NO_SESSION`; what `Connection::feed` answers.
#[unsafe(no_mangle)]
pub extern "C" fn reis_c_connection_feed(
    alloc: Global,
    connection: &mut ReisConnection,
    bytes: &[u8],
    handles: &[u32],
    time: u64,
) -> u32
    ensures { OnWord connection.old.held result connection.new.held
        (FeedsConnection bytes.now handles.now time result) }
{
    on_word!(connection, alloc, |held| held.feed(bytes, handles, time))
}

/// Says that no more comes from the client.
///
/// `NO_SESSION`; what `Connection::end_of_input` answers.
#[unsafe(no_mangle)]
pub extern "C" fn reis_c_connection_end_of_input(
    alloc: Global,
    connection: &mut ReisConnection,
) -> u32
    ensures { OnWord connection.old.held result connection.new.held (EndsConnection result) }
{
    on_word!(connection, alloc, |held| held.end_of_input())
}

/// Lends what waits to be written: where its bytes and handles begin, and how many these are. They lie in the connection, and
/// stay there until its next call. Where there is none of them, no place is written.
///
/// `NO_SESSION`.
#[unsafe(no_mangle)]
pub extern "C" fn reis_c_connection_unsent(
    alloc: Global,
    connection: &mut ReisConnection,
    bytes: &mut *const u8,
    count: &mut usize,
    handles: &mut *const Handle,
    handle_count: &mut usize,
) -> u32
    ensures counted { ReadsWord connection.old.held result connection.new.held (λ held. (result ≡ number.OK)
        × (count.new ≡ length (unsent_in held.connection.phase).bytes)
        × (handle_count.new ≡ length (unsent_in held.connection.phase).handles)) }
    ensures none { result ≢ number.OK → (count.new ≡ 0) × (handle_count.new ≡ 0) }
    ensures no_place { result ≢ number.OK → (bytes.new ≡ bytes.old) × (handles.new ≡ handles.old) }
{
    *count = 0;
    *handle_count = 0;
    on_word!(connection, alloc, |held| {
        *count = lend(held.connection.unsent(), bytes);
        *handle_count = lend(held.connection.unsent_handles(), handles);
        OK
    })
}

/// Says that so many of the bytes that wait were written, the first ones, and with the first of them all handles.
///
/// `NO_SESSION`; `NOT_UNSENT` where so many don't wait.
#[unsafe(no_mangle)]
pub extern "C" fn reis_c_connection_sent(
    alloc: Global,
    connection: &mut ReisConnection,
    bytes: usize,
) -> u32
    ensures { OnWord connection.old.held result connection.new.held (SendsBytes bytes result) }
{
    on_word!(connection, alloc, |held| held.sent(bytes))
}

/// Hands out what comes next: once, that the handshake is done; and then the next request, or, where none is, the next notice.
/// With the flag of a start the next request is the first that passes: those before it are dropped, and one that ends the
/// client is gone, the client told so, as `reis_strict` says.
///
/// `NO_SESSION`; `NOTHING` where there is none; with the flag `NO_MEMORY`: what isn't dropped waits still.
#[unsafe(no_mangle)]
pub extern "C" fn reis_c_connection_next_request(
    alloc: Global,
    connection: &mut ReisConnection,
    request: &mut ReisRequest,
) -> u32
    ensures handed { OnWord connection.old.held result connection.new.held
        (HandsNext request.old result request.new) }
    ensures none { result ≢ number.OK → request.new ≡ request.old }
{
    on_word!(connection, alloc, |held| held.next_request(request))
}

/// Writes the text of the request that was handed out last, and its length.
///
/// `NO_SESSION`; `NOTHING` where it has none, or none was handed out; `NO_ROOM` where it is longer than the room.
#[unsafe(no_mangle)]
pub extern "C" fn reis_c_connection_request_text(
    alloc: Global,
    connection: &mut ReisConnection,
    text: &mut [u8],
    length: &mut usize,
) -> u32
    ensures written { ReadsWord connection.old.held result connection.new.held
        (λ held. Writes (text_of_last held.handed.last) text.old result length.new text.new) }
    ensures none { result ≡ number.NO_SESSION → (length.new ≡ 0) × (text.new ≡ text.old) }
{
    *length = 0;
    on_word!(
        connection,
        alloc,
        |held| write_text_of(&held.handed.last, text, length)
    )
}

/// Tells who the client is: its context type, and its name, which has no byte where the client told none.
///
/// `NO_SESSION`; `NOTHING` before the handshake is done; `NO_ROOM` where the name is longer than the room.
#[unsafe(no_mangle)]
pub extern "C" fn reis_c_connection_client(
    alloc: Global,
    connection: &mut ReisConnection,
    context_type: &mut u32,
    name: &mut [u8],
    length: &mut usize,
) -> u32
    ensures told { ReadsWord connection.old.held result connection.new.held (λ held.
        TellsClient (handle_in held.connection.phase) name.old result context_type.new length.new name.new) }
    ensures none { result ≡ number.NO_SESSION → (context_type.new ≡ 0) × (length.new ≡ 0) × (name.new ≡ name.old) }
{
    *context_type = 0;
    *length = 0;
    on_word!(
        connection,
        alloc,
        |held| tell_client(held.connection.client(), context_type, name, length)
    )
}

/// Tells how the connection ended.
///
/// `NO_SESSION`.
#[unsafe(no_mangle)]
pub extern "C" fn reis_c_connection_end(
    alloc: Global,
    connection: &mut ReisConnection,
    end: &mut u32,
) -> u32
    ensures told { ReadsWord connection.old.held result connection.new.held (λ held. (result ≡ number.OK)
        × (end.new ≡ ending_number held.connection.ending)) }
    ensures none { result ≢ number.OK → end.new ≡ ending_number None }
{
    *end = ending_number(None);
    on_word!(connection, alloc, |held| {
        *end = ending_number(held.connection.ending());
        OK
    })
}

/// Tells the client that the connection ends, why, and in a text for people, which may have no byte.
///
/// `NO_SESSION`; `INVALID` where that is no text; what `Connection::disconnect` answers.
#[unsafe(no_mangle)]
pub extern "C" fn reis_c_connection_disconnect(
    alloc: Global,
    connection: &mut ReisConnection,
    reason: u32,
    text: &[u8],
) -> u32
    ensures { OnWord connection.old.held result connection.new.held (Disconnects reason text.now result) }
{
    on_word!(connection, alloc, |held| held.disconnect(reason, text))
}

/// Frees a connection: there is none behind it.
///
/// `NO_SESSION`.
#[unsafe(no_mangle)]
pub extern "C" fn reis_c_connection_free(alloc: Global, connection: &mut ReisConnection) -> u32
    ensures answer { result ≡ (if is_some connection.old.held then number.OK else number.NO_SESSION) }
    ensures none { connection.new.held ≡ None }
{
    match connection.take(alloc) {
        Some(_) => OK,
        None => NO_SESSION,
    }
}

/// Announces a ping, which the client is to answer, and tells its id.
///
/// `NO_SESSION`; what `Connection::ping` answers.
#[unsafe(no_mangle)]
pub extern "C" fn reis_c_connection_ping(
    alloc: Global,
    connection: &mut ReisConnection,
    ping: &mut u64,
) -> u32
    ensures pings { OnWord connection.old.held result connection.new.held (Does pinging (PingsAs ping.new) result) }
    ensures none { result ≢ number.OK → ping.new ≡ 0 }
{
    *ping = 0;
    on_word!(connection, alloc, |held| held.ping(ping))
}

/// Announces a seat of these capabilities, and tells its id. A name without a byte is none.
///
/// `NO_SESSION`; `CAPABILITIES` where a bit stands for none; `INVALID` where the name is no text; what `Connection::add_seat`
/// answers.
#[unsafe(no_mangle)]
pub extern "C" fn reis_c_connection_add_seat(
    alloc: Global,
    connection: &mut ReisConnection,
    name: &[u8],
    capabilities: u64,
    seat: &mut u64,
) -> u32
    ensures adds { OnWord connection.old.held result connection.new.held
        (AddsSeatTo name.now capabilities result seat.new) }
    ensures none { result ≢ number.OK → seat.new ≡ 0 }
{
    *seat = 0;
    on_word!(
        connection,
        alloc,
        |held| held.add_seat(name, capabilities, seat)
    )
}

/// Takes a seat away, with its devices. Nothing is kept of these.
///
/// `NO_SESSION`; what `Connection::remove_seat` answers.
#[unsafe(no_mangle)]
pub extern "C" fn reis_c_connection_remove_seat(
    alloc: Global,
    connection: &mut ReisConnection,
    seat: u64,
) -> u32
    ensures { OnWord connection.old.held result connection.new.held
        (DoesAndTells (on_seat seat) (RemovesSeatAt seat) forgetting result) }
{
    on_word!(connection, alloc, |held| held.remove_seat(seat))
}

/// Announces a device of a seat, and tells its id. A name and a mapping id without a byte are none.
///
/// `NO_SESSION`; `CAPABILITIES` where a bit stands for none; `INVALID` where a type is none, or a text is no text or isn't
/// there; what `Connection::add_device` answers.
#[unsafe(no_mangle)]
pub extern "C" fn reis_c_connection_add_device(
    alloc: Global,
    connection: &mut ReisConnection,
    seat: u64,
    described: &ReisDevice,
    regions: &[ReisRegion],
    mapping_ids: &[u8],
    name: &[u8],
    device: &mut u64,
) -> u32
    ensures adds { OnWord connection.old.held result connection.new.held
        (AddsDeviceTo seat described.now regions.now mapping_ids.now name.now result device.new) }
    ensures none { result ≢ number.OK → device.new ≡ 0 }
{
    *device = 0;
    on_word!(
        connection,
        alloc,
        |held| held.add_device(alloc, seat, described, regions, mapping_ids, name, device)
    )
}

/// Takes a device away.
///
/// `NO_SESSION`; what `Connection::remove_device` answers.
#[unsafe(no_mangle)]
pub extern "C" fn reis_c_connection_remove_device(
    alloc: Global,
    connection: &mut ReisConnection,
    device: u64,
) -> u32
    ensures { OnWord connection.old.held result connection.new.held
        (DoesAndTells (on_device device) (RemovesDeviceAt device) (removing device) result) }
{
    on_word!(connection, alloc, |held| held.remove_device(device))
}

/// Tells the client that the device takes input.
///
/// `NO_SESSION`; what `Connection::resume` answers. With the flag of a start memory is wanted for the device too.
#[unsafe(no_mangle)]
pub extern "C" fn reis_c_connection_resume(
    alloc: Global,
    connection: &mut ReisConnection,
    device: u64,
) -> u32
    ensures { OnWord connection.old.held result connection.new.held (ResumesAndTells device result) }
{
    on_word!(connection, alloc, |held| held.resume(device))
}

/// Tells the client that the device takes no input.
///
/// `NO_SESSION`; what `Connection::pause` answers.
#[unsafe(no_mangle)]
pub extern "C" fn reis_c_connection_pause(
    alloc: Global,
    connection: &mut ReisConnection,
    device: u64,
) -> u32
    ensures { OnWord connection.old.held result connection.new.held
        (DoesAndTells (on_device device) (Pauses device) (pausing device) result) }
{
    on_word!(connection, alloc, |held| held.pause(device))
}

/// Tells whether the device has the interface of a capability left: 1 where it has.
///
/// `NO_SESSION`; `CAPABILITIES` where the bit is no capability's; `GONE` where there is no such device.
#[unsafe(no_mangle)]
pub extern "C" fn reis_c_connection_device_has(
    alloc: Global,
    connection: &mut ReisConnection,
    device: u64,
    capability: u64,
    has: &mut u32,
) -> u32
    ensures told { ReadsWord connection.old.held result connection.new.held
        (TellsDevice device capability result has.new) }
    ensures none { result ≡ number.NO_SESSION → has.new ≡ 0 }
{
    *has = 0;
    on_word!(
        connection,
        alloc,
        |held| held.device_has(device, capability, has)
    )
}

/// Tells the client which modifiers hold on the device's keyboard.
///
/// `NO_SESSION`; what `Connection::modifiers` answers.
#[unsafe(no_mangle)]
pub extern "C" fn reis_c_connection_modifiers(
    alloc: Global,
    connection: &mut ReisConnection,
    device: u64,
    depressed: u32,
    locked: u32,
    latched: u32,
    group: u32,
) -> u32
    ensures { OnWord connection.old.held result connection.new.held
        (Does (on_interface known.Keyboard device) (TellsModifiers device depressed locked latched group) result) }
{
    on_word!(
        connection,
        alloc,
        |held| held.modifiers(device, depressed, locked, latched, group)
    )
}

/// Tells a receiver that the device begins to send input.
///
/// `NO_SESSION`; what `Connection::start_emulating` answers.
#[unsafe(no_mangle)]
pub extern "C" fn reis_c_connection_start_emulating(
    alloc: Global,
    connection: &mut ReisConnection,
    device: u64,
    sequence: u32,
) -> u32
    ensures { OnWord connection.old.held result connection.new.held
        (Does (on_receiver device) (StartsEmulating device sequence) result) }
{
    on_word!(
        connection,
        alloc,
        |held| held.start_emulating(device, sequence)
    )
}

/// Tells a receiver that the device sends no more input.
///
/// `NO_SESSION`; what `Connection::stop_emulating` answers.
#[unsafe(no_mangle)]
pub extern "C" fn reis_c_connection_stop_emulating(
    alloc: Global,
    connection: &mut ReisConnection,
    device: u64,
) -> u32
    ensures { OnWord connection.old.held result connection.new.held
        (Does (on_receiver device) (StopsEmulating device) result) }
{
    on_word!(connection, alloc, |held| held.stop_emulating(device))
}

/// Tells a receiver that the input of the device since its last frame belongs together, at this time, in microseconds.
///
/// `NO_SESSION`; what `Connection::frame` answers.
#[unsafe(no_mangle)]
pub extern "C" fn reis_c_connection_frame(
    alloc: Global,
    connection: &mut ReisConnection,
    device: u64,
    time: u64,
) -> u32
    ensures { OnWord connection.old.held result connection.new.held
        (Does (on_receiver device) (Frames device time) result) }
{
    on_word!(connection, alloc, |held| held.frame(device, time))
}

/// Tells a receiver of an input, which is as a request says it: its kind, its device and its fields. Its seat and its time
/// aren't read, and of a field its low four bytes. The text is that of a text.
///
/// `NO_SESSION`; `INVALID` where that is no input; what `Connection::send` answers, but that `NO_MEMORY` may come in place of
/// another refusal.
#[unsafe(no_mangle)]
pub extern "C" fn reis_c_connection_send(
    alloc: Global,
    connection: &mut ReisConnection,
    input: &ReisRequest,
    text: &[u8],
) -> u32
    ensures { OnWord connection.old.held result connection.new.held
        (SendsTo (input_in input.now text.now) input.now.device result) }
{
    on_word!(connection, alloc, |held| held.send(alloc, input, text))
}
