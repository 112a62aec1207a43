//! What stands behind the word.

ghost use Rattle.std.specs.Prelude.{◌≡◌, ◌≢◌, ◌≤◌, [], IfOk, IfSome, IsSome, None};
ghost use Rattle.ei_types.specs.Capability.{bits_of, all_bits};
ghost use Rattle.reis_server.specs.Serving.{IsServing, nothing};
ghost use Rattle.reis_c.specs.Answers.{Writes};
ghost use Rattle.reis_c.specs.Ending.{end_text};
ghost use Rattle.reis_c.specs.Starting.{setup_for};

use crate::flat::{ReisRequest, flat};
use crate::numbers::{NO_LIMIT, NO_MEMORY, NOTHING, OK, answer_number};
use crate::writing::{HANDLE_ROOM, copy_handles, write_text};
use ei_request::EisRequest;
use ei_serve::Setup;
use ei_spec::Handle;
use ei_types::{DeviceCapabilities, Error};
use reis_server::Server;
use std::alloc::Global;
use std::mem;

/// The session, and the request that it handed out last.
#[derive(Drop)]
pub(crate) struct Held {
    pub(crate) server: Server,
    pub(crate) last: Option<EisRequest>,
}

/// Keeps a request as the one that was handed out last.
pub(crate) fn keep(last: &mut Option<EisRequest>, next: EisRequest)
    ensures { last.new ≡ Some next }
{
    drop(mem::replace(last, Some(next)));
}

/// Keeps none.
pub(crate) fn forget(last: &mut Option<EisRequest>)
    ensures { last.new ≡ None }
{
    drop(mem::replace(last, None));
}

/// Starts a server, with this limit or with none.
fn start_server(
    alloc: Global,
    initial_serial: u32,
    capabilities: DeviceCapabilities,
    pieces: u32,
) -> Result<Server, Error>
    requires lawful { bits_of capabilities ≤ all_bits }
    ensures { IfOk result (λ server. IsServing
        (setup_for initial_serial (bits_of capabilities) pieces) [] nothing [] server × (server.answer ≡ None)) }
{
    if pieces == NO_LIMIT {
        return Server::start_unlimited(alloc, initial_serial, capabilities);
    }
    let setup = Setup {
        initial_serial,
        capabilities,
        pieces,
    };
    Server::start(alloc, setup)
}

impl Held {
    ghost use Rattle.reis_c.specs.Calls.{IsStarted, Feeds, TakesEnd, Sends, HandsRequest};

    /// A session that was just started; `None` where memory ran out.
    pub(crate) fn start(
        alloc: Global,
        initial_serial: u32,
        capabilities: DeviceCapabilities,
        pieces: u32,
    ) -> Option<Box<Held>>
        requires lawful { bits_of capabilities ≤ all_bits }
        ensures { IfSome result (λ held. IsStarted
            (setup_for initial_serial (bits_of capabilities) pieces) held.value) }
    {
        let server = start_server(alloc, initial_serial, capabilities, pieces).ok()?;
        Box::new(alloc, Held { server, last: None }).ok()
    }

    /// Feeds a piece.
    pub(crate) fn feed(&mut self, bytes: &[u8], handles: &[u32], time: u64) -> u32
        ensures { Feeds bytes.now handles.now time result self.old self.new }
    {
        let mut room = [Handle(0); HANDLE_ROOM];
        let count = copy_handles(handles, &mut room);
        answer_number(self.server.feed(bytes, &room[..count], time))
    }

    /// Says that no more comes.
    pub(crate) fn end_of_input(&mut self) -> u32
        ensures { TakesEnd result self.old self.new }
    {
        answer_number(self.server.end_of_input())
    }

    /// Counts so many of the replies that wait as sent.
    pub(crate) fn sent(&mut self, bytes: usize, handles: usize) -> u32
        ensures { Sends bytes handles result self.old self.new }
    {
        answer_number(self.server.sent(bytes, handles))
    }

    /// Hands out the next request.
    pub(crate) fn next_request(&mut self, request: &mut ReisRequest) -> u32
        ensures { HandsRequest request.old result request.new self.old self.new }
    {
        match self.server.next_request() {
            Some(next) => {
                *request = flat(&next);
                keep(&mut self.last, next);
                OK
            }
            None => NOTHING,
        }
    }

    /// Writes the text of the error that ended the session.
    pub(crate) fn end_text(&self, alloc: Global, room: &mut [u8], length: &mut usize) -> u32
        ensures written { result ≢ NO_MEMORY → Writes
            (end_text self.now.server.answer) room.old result length.new room.new }
        ensures memory { result ≡ NO_MEMORY → IsSome (end_text self.now.server.answer) × (length.new ≡ 0) ×
            (room.new ≡ room.old) }
    {
        *length = 0;
        let Some(Err(error)) = self.server.answer() else {
            return NOTHING;
        };
        match error.to_string(alloc) {
            Ok(text) => write_text(text.as_str(), room, length),
            Err(_) => NO_MEMORY,
        }
    }
}
