//! The two phases of a connection.

ghost use Rattle.std.specs.Prelude.{◌≡◌, ◌<◌, length};
ghost use Rattle.std.specs.Option.{option_map};
ghost use Rattle.ei_input.specs.Queue.{first_of, rest_of};
ghost use Rattle.reis_eis.specs.declared.phase.Phase.TheVariants as phase;
ghost use Rattle.reis_eis.specs.Words.{IsWhole, context_in, unread_of, queue_in, with_queue};
ghost use Rattle.reis_eis.specs.Handling.{Steps, IsHandled, HasRoomFor, connected_in};
ghost use Rattle.reis_eis.specs.Feeding.{HandlesAll};
ghost use Rattle.reis_eis.specs.Passing.{ReadsPhase, FlushesPhase};

use crate::ending::Ending;
use crate::keyed::KeyedConverter;
use crate::notice::Notice;
use crate::shaking::{Shaken, Shaking};
use crate::step::Step;
use ei_backend::{Sink, Source};
use ei_handshake::EisHandshakeResp;
use ei_input::Queue;
use ei_request::EisRequest;
use ei_server::Context;
use ei_wire::{FlushError, ReadError};
use std::alloc::Global;
use std::mem;

/// What a connection is doing.
#[derive(Drop)]
pub(crate) enum Phase {
    /// It shakes hands.
    Shaking(Shaking),
    /// The handshake is done.
    Standing(KeyedConverter),
    /// It goes over from the one to the other; no connection is left so.
    Between,
}

impl Phase {
    /// The endpoint.
    pub(crate) fn context(&self) -> Option<&Context>
        ensures { option_map (λ c. c.now) result ≡ context_in self.now }
    {
        match self {
            Phase::Shaking(shaking) => Some(&shaking.context),
            Phase::Standing(keyed) => Some(keyed.handle().context()),
            Phase::Between => None,
        }
    }

    /// Takes a piece.
    pub(crate) fn read<S: Source>(&mut self, source: &mut S) -> Result<usize, ReadError>
        ensures reads { ReadsPhase S.view S.later result self.old self.new source.old source.new }
        ensures whole { IsWhole self.old → IsWhole self.new }
    {
        match self {
            Phase::Shaking(shaking) => shaking.context.read(source),
            Phase::Standing(keyed) => keyed.read(source),
            Phase::Between => Err(ReadError::UnexpectedEof),
        }
    }

    /// Puts all that waits to be sent into the sink.
    pub(crate) fn flush<K: Sink>(&mut self, sink: &mut K) -> Result<(), FlushError>
        ensures flushes { FlushesPhase K.view K.later result self.old self.new sink.old sink.new }
        ensures whole { IsWhole self.old → IsWhole self.new }
    {
        match self {
            Phase::Shaking(shaking) => shaking.context.flush(sink),
            Phase::Standing(keyed) => keyed.flush(sink),
            Phase::Between => Ok(()),
        }
    }

    /// The next request of the client.
    pub(crate) fn next_request(&mut self) -> Option<EisRequest>
        ensures first { result ≡ first_of (queue_in self.old) }
        ensures rest { self.new ≡ with_queue self.old (rest_of (queue_in self.old)) }
        ensures whole { IsWhole self.old → IsWhole self.new }
    {
        match self {
            Phase::Standing(keyed) => keyed.next_request(),
            _ => None,
        }
    }

    /// Handles the message at the front, if one is whole. There is room for the notice that it tells.
    fn step(&mut self, alloc: Global, time: u64, notices: &mut Queue<Notice>) -> Step
        ensures steps { Steps time self.old result self.new }
        ensures waiting { notices.new.items ≡ notices.old.items }
        ensures room { HasRoomFor result notices.new.room }
        ensures shorter { IsHandled result →
            length (unread_of (context_in self.new)) < length (unread_of (context_in self.old)) }
        ensures whole { IsWhole self.old → IsWhole self.new }
    {
        match self {
            Phase::Standing(keyed) => keyed.step(time, notices),
            Phase::Shaking(shaking) => match shaking.step() {
                Shaken::Still(step) => step,
                Shaken::Done(resp) => {
                    self.connect(alloc, resp);
                    Step::Handled
                }
            },
            Phase::Between => Step::Waiting,
        }
    }

    /// Goes over to the connection, whose handshake is done.
    fn connect(&mut self, alloc: Global, resp: EisHandshakeResp)
        ensures { self.new ≡ connected_in resp self.old }
    {
        match mem::replace(self, Phase::Between) {
            Phase::Shaking(shaking) => {
                let (context, serial) = shaking.into_parts();
                let standing = KeyedConverter::new(alloc, context, resp, serial);
                // by a call: at the end of a scope the drop of each field is proved anew
                drop(mem::replace(self, Phase::Standing(standing)));
            }
            other => {
                drop(other);
                drop(resp);
            }
        }
    }

    /// Handles every whole message, up to one that ends the connection. What they tell waits behind what waited.
    pub(crate) fn handle_messages(
        &mut self,
        alloc: Global,
        time: u64,
        notices: &mut Queue<Notice>,
    ) -> Option<Ending>
        ensures handles { HandlesAll time self.old notices.old.items self.new notices.new.items result }
        ensures whole { IsWhole self.old → IsWhole self.new }
    {
        'messages: loop {
            match self.step(alloc, time, notices) {
                Step::Waiting => return None,
                Step::Handled => {}
                Step::Noted(notice) => notices.push_reserved(notice),
                Step::Ended(ending) => return Some(ending),
            }
        }
    }
}
