//! What C calls. No call requires anything: what is wrong is answered.

ghost use Rattle.std.specs.Prelude.{◌≡◌, ◌≢◌, ◌<◌, ◌≤◌, ◌⊎◌, ◌↔◌, length, IsSome, is_some, if◌then◌else◌, None, Some};
ghost use Rattle.ei_types.specs.Capability.{all_bits};
ghost use Rattle.reis_c.specs.Answers.{Writes, WritesMade};
ghost use Rattle.reis_c.specs.Calls.{OnWord, ReadsWord, IsStarted, Feeds, TakesEnd, Sends, HandsRequest, TellsClient};
ghost use Rattle.reis_c.specs.Calls.{text_of_last, ending_text};
ghost use Rattle.reis_c.specs.Starting.{setup_for};
ghost use Rattle.reis_server.specs.Serving.{connection_of_server};
ghost use Rattle.reis_c.specs.Ending.{end_number};
ghost use Rattle.reis_c.specs.Numbers as number;
ghost use Rattle.reis_c.specs.declared.held.Held.{Held};

use crate::ending::end_number;
use crate::flat::ReisRequest;
use crate::held::Held;
use crate::numbers::{CAPABILITIES, HAS_SESSION, NO_MEMORY, NO_SESSION, NOTHING, OK};
use crate::slot::ReisSession;
use crate::writing::{lend, tell_client, write_text_of};
use ei_spec::Handle;
use ei_types::{DeviceCapabilities, Error};
use std::alloc::Global;

/// What a call answers on what is behind a word, which stays in its place; `NO_SESSION` where there is none.
macro_rules! on_word {
    ($word:ident, $alloc:ident, |$held:ident| $answer:expr) => {{
        let Some(mut $held) = $word.take($alloc) else {
            return NO_SESSION;
        };
        let answer = $answer;
        $word.put($held);
        answer
    }};
}

pub(crate) use on_word;

/// Starts a session where there is none. `NO_LIMIT` pieces are no limit.
///
/// `HAS_SESSION` where there is one; `CAPABILITIES` where a bit stands for none; `NO_MEMORY`.
#[unsafe(no_mangle)]
pub extern "C" fn reis_c_start(
    alloc: Global,
    session: &mut ReisSession,
    serial: u32,
    capabilities: u64,
    pieces: u32,
) -> u32
    ensures started { result ≡ number.OK → (held : Held) × (session.new.held ≡ Some held)
        × IsStarted (setup_for serial capabilities pieces) held }
    ensures kept { result ≢ number.OK → session.new.held ≡ session.old.held }
    // which answer it is
    ensures there { (result ≡ number.HAS_SESSION) ↔ IsSome session.old.held }
    ensures lawless { (result ≡ number.CAPABILITIES) ↔ ((session.old.held ≡ None) × (all_bits < capabilities)) }
    ensures which { (result ≡ number.OK) ⊎ (result ≡ number.NO_MEMORY) ⊎ (result ≡ number.HAS_SESSION) ⊎
        (result ≡ number.CAPABILITIES) }
{
    if let Some(held) = session.take(alloc) {
        session.put(held);
        return HAS_SESSION;
    }
    let Some(capabilities) = DeviceCapabilities::from_bits(capabilities) else {
        return CAPABILITIES;
    };
    match Held::start(alloc, serial, capabilities, pieces) {
        Some(held) => {
            session.put(held);
            OK
        }
        None => NO_MEMORY,
    }
}

/// Hands in a piece that came from the client, and the time in microseconds.
///
/// `NO_SESSION`; what `Server::feed` answers.
#[unsafe(no_mangle)]
pub extern "C" fn reis_c_feed(
    alloc: Global,
    session: &mut ReisSession,
    bytes: &[u8],
    handles: &[u32],
    time: u64,
) -> u32
    ensures { OnWord session.old.held result session.new.held (Feeds bytes.now handles.now time result) }
{
    on_word!(session, alloc, |held| held.feed(bytes, handles, time))
}

/// Says that no more comes from the client.
///
/// `NO_SESSION`; what `Server::end_of_input` answers.
#[unsafe(no_mangle)]
pub extern "C" fn reis_c_end_of_input(alloc: Global, session: &mut ReisSession) -> u32
    ensures { OnWord session.old.held result session.new.held (TakesEnd result) }
{
    on_word!(session, alloc, |held| held.end_of_input())
}

/// Lends the replies that wait: where their bytes and handles begin, and how many these are. They lie in the session, and stay
/// there until its next call. Where there is none of them, no place is written.
///
/// `NO_SESSION`.
#[unsafe(no_mangle)]
pub extern "C" fn reis_c_unsent(
    alloc: Global,
    session: &mut ReisSession,
    bytes: &mut *const u8,
    count: &mut usize,
    handles: &mut *const Handle,
    handle_count: &mut usize,
) -> u32
    ensures counted { ReadsWord session.old.held result session.new.held (λ held. (result ≡ number.OK)
        × (count.new ≡ length held.server.unsent.bytes) × (handle_count.new ≡ length held.server.unsent.handles)) }
    ensures none { result ≢ number.OK → (count.new ≡ 0) × (handle_count.new ≡ 0) }
    ensures no_place { result ≢ number.OK → (bytes.new ≡ bytes.old) × (handles.new ≡ handles.old) }
{
    *count = 0;
    *handle_count = 0;
    on_word!(session, alloc, |held| {
        *count = lend(held.server.unsent(), bytes);
        *handle_count = lend(held.server.unsent_handles(), handles);
        OK
    })
}

/// Says that so many of the bytes and handles that wait were written: the first ones, which wait no more.
///
/// `NO_SESSION`; `NOT_UNSENT` where so many don't wait.
#[unsafe(no_mangle)]
pub extern "C" fn reis_c_sent(
    alloc: Global,
    session: &mut ReisSession,
    bytes: usize,
    handles: usize,
) -> u32
    ensures { OnWord session.old.held result session.new.held (Sends bytes handles result) }
{
    on_word!(session, alloc, |held| held.sent(bytes, handles))
}

/// Hands out the next request.
///
/// `NO_SESSION`; `NOTHING` where there is none.
#[unsafe(no_mangle)]
pub extern "C" fn reis_c_next_request(
    alloc: Global,
    session: &mut ReisSession,
    request: &mut ReisRequest,
) -> u32
    ensures handed { OnWord session.old.held result session.new.held (HandsRequest request.old result request.new) }
    ensures none { result ≢ number.OK → request.new ≡ request.old }
{
    on_word!(session, alloc, |held| held.next_request(request))
}

/// Writes the text of the request that was handed out last, and its length.
///
/// `NO_SESSION`; `NOTHING` where it has none, or none was handed out; `NO_ROOM` where it is longer than the room.
#[unsafe(no_mangle)]
pub extern "C" fn reis_c_request_text(
    alloc: Global,
    session: &mut ReisSession,
    text: &mut [u8],
    length: &mut usize,
) -> u32
    ensures written { ReadsWord session.old.held result session.new.held
        (λ held. Writes (text_of_last held.last) text.old result length.new text.new) }
    ensures none { result ≡ number.NO_SESSION → (length.new ≡ 0) × (text.new ≡ text.old) }
{
    *length = 0;
    on_word!(
        session,
        alloc,
        |held| write_text_of(&held.last, text, length)
    )
}

/// Tells who the client is: its context type, and its name, which has no byte where the client told none.
///
/// `NO_SESSION`; `NOTHING` where no connection stands; `NO_ROOM` where the name is longer than the room.
#[unsafe(no_mangle)]
pub extern "C" fn reis_c_client(
    alloc: Global,
    session: &mut ReisSession,
    context_type: &mut u32,
    name: &mut [u8],
    length: &mut usize,
) -> u32
    ensures told { ReadsWord session.old.held result session.new.held (λ held.
        TellsClient (connection_of_server held.server) name.old result context_type.new length.new name.new) }
    ensures none { result ≡ number.NO_SESSION → (context_type.new ≡ 0) × (length.new ≡ 0) × (name.new ≡ name.old) }
{
    *context_type = 0;
    *length = 0;
    on_word!(
        session,
        alloc,
        |held| tell_client(held.server.connection(), context_type, name, length)
    )
}

/// Tells how the session ended.
///
/// `NO_SESSION`.
#[unsafe(no_mangle)]
pub extern "C" fn reis_c_end(alloc: Global, session: &mut ReisSession, end: &mut u32) -> u32
    ensures told { ReadsWord session.old.held result session.new.held (λ held. (result ≡ number.OK)
        × (end.new ≡ end_number held.server.answer)) }
    ensures none { result ≢ number.OK → end.new ≡ end_number None }
{
    *end = end_number(None);
    on_word!(session, alloc, |held| {
        *end = end_number(held.server.answer());
        OK
    })
}

/// Writes the text of the error that ended the session, and its length.
///
/// `NO_SESSION`; `NOTHING` where no error ended it; `NO_ROOM` where it is longer than the room; `NO_MEMORY`.
#[unsafe(no_mangle)]
pub extern "C" fn reis_c_end_text(
    alloc: Global,
    session: &mut ReisSession,
    text: &mut [u8],
    length: &mut usize,
) -> u32
    ensures written { ReadsWord session.old.held result session.new.held
        (λ held. WritesMade (ending_text held) text.old result length.new text.new) }
    ensures none { (result ≡ number.NO_SESSION) ⊎ (result ≡ number.NO_MEMORY) → (length.new ≡ 0) ×
        (text.new ≡ text.old) }
{
    *length = 0;
    on_word!(session, alloc, |held| held.end_text(alloc, text, length))
}

/// Frees a session: there is none behind it.
///
/// `NO_SESSION`.
#[unsafe(no_mangle)]
pub extern "C" fn reis_c_free(alloc: Global, session: &mut ReisSession) -> u32
    ensures answer { result ≡ (if is_some session.old.held then number.OK else number.NO_SESSION) }
    ensures none { session.new.held ≡ None }
{
    match session.take(alloc) {
        Some(_) => OK,
        None => NO_SESSION,
    }
}
