//! Bytes go and come, and what is queued is handed out: all else of a pair is as before.

ghost use Rattle.std.specs.Prelude.{◌≡◌, ◌<◌, ◌≤◌, false, OnOk, OnErr, IsErrOf};
ghost use Rattle.ei_wire.specs.declared.error.ReadError.TheVariants as read_error;
ghost use Rattle.ei_linked.specs.TwoEnds.{other_side, flushed_world, DeliversAt, HasSentFewHandles};
ghost use Rattle.ei_promises.specs.Pair.{with_ends};
ghost use Rattle.ei_pair.specs.Lent.{first_event, without_event, first_request, without_request, first_at};
ghost use Rattle.ei_pair.specs.Lent.{without_first};
ghost use Rattle.ei_pair.specs.Parts.{pair_in};
ghost use Rattle.ei_pair.specs.Stepped.{IsSound};

use crate::parts::Parts;
use crate::server_end::ServerEnd;
use ei_event::EiEvent;
use ei_handler::Call;
use ei_linked::{Ends, Side};
use ei_promises::laws;
use ei_request::EisRequest;
use ei_wire::{NoMemory, ReadError};

impl<H: Call> Parts<H> {
    /// Puts all that waits at the side behind what lies before the other side, or does nothing.
    pub(crate) fn flush(&mut self, side: Side) -> Result<(), NoMemory>
        requires sound { IsSound self.old }
        requires whole { self.old.ends.spent ≡ false }
        ensures ok { OnOk result (pair_in self.new ≡
            with_ends (flushed_world side (pair_in self.old).ends) (pair_in self.old)) }
        ensures err { OnErr result (pair_in self.new ≡ pair_in self.old) }
        ensures sound { IsSound self.new }
    {
        laws::resting::<H>();
        self.ends.flush(side)
    }

    /// Hands what waits for the side to it, at most so many bytes.
    pub(crate) fn deliver(&mut self, side: Side, n: usize) -> Result<usize, ReadError>
        requires some { 0 < n }
        requires most { n ≤ 1536 }
        requires sound { IsSound self.old }
        requires whole { self.old.ends.spent ≡ false }
        ensures delivers { DeliversAt side n result (pair_in self.old).ends (pair_in self.new).ends }
        ensures kept { pair_in self.new ≡ with_ends (pair_in self.new).ends (pair_in self.old) }
        ensures few { HasSentFewHandles (other_side side) (pair_in self.old).ends →
            IsErrOf result read_error.HandleLimit → ⊥ }
        ensures sound { IsSound self.new }
    {
        laws::resting::<H>();
        self.ends.deliver(side, n)
    }

    /// The oldest event that is queued at the client, if there is one.
    pub(crate) fn next_event(&mut self) -> Option<EiEvent>
        requires sound { IsSound self.old }
        ensures first { result ≡ first_event (pair_in self.old).client }
        ensures rest { pair_in self.new ≡ record (pair_in self.old) {
          client = without_event (pair_in self.old).client;
        } }
        ensures sound { IsSound self.new }
    {
        laws::resting::<H>();
        let Some(converter) = &mut self.converter else {
            return None;
        };
        converter.next_event()
    }

    /// The oldest request that is queued at the server, if there is one.
    pub(crate) fn next_request(&mut self) -> Option<EisRequest>
        requires sound { IsSound self.old }
        ensures first { result ≡ first_request (pair_in self.old).server }
        ensures rest { pair_in self.new ≡ record (pair_in self.old) {
          server = without_request (pair_in self.old).server;
        } }
        ensures sound { IsSound self.new }
    {
        laws::resting::<H>();
        next_at(&mut self.ends)
    }
}

/// The same at the server's end of two.
fn next_at(ends: &mut Ends<ServerEnd>) -> Option<EisRequest>
    ensures first { result ≡ first_at ends.old.server.context }
    ensures rest { ends.new ≡ record ends.old {
      server = record ends.old.server {
        context = without_first ends.old.server.context;
      };
    } }
{
    match &mut ends.server.context {
        ServerEnd::Shaking(_) => None,
        ServerEnd::Talking(converter) => converter.next_request(),
    }
}
