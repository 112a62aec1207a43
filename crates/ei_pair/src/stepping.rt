//! The server hands its next message on to its handshaker or converter.

ghost use Rattle.std.specs.Prelude.{◌≡◌, true, false, Bool, Result, IsErrOf};
ghost use Rattle.ei_types.specs.declared.error.Error.TheVariants as error;
ghost use Rattle.ei_backend.specs.Lent.{LentClock};
ghost use Rattle.ei_linked.specs.declared.side.Side.TheVariants as of_side;
ghost use Rattle.ei_promises.specs.Stepping.{or_wanted, StepsServer};
ghost use Rattle.ei_promises.specs.Promises.{ShakesFreely, TakesAll};
ghost use Rattle.ei_pair.specs.Parts.{pair_in};
ghost use Rattle.ei_pair.specs.Stepped.{IsSound, TookRequest};
ghost use Rattle.ei_pair.specs.Spent.{SpendsAtStep};
ghost use Rattle.ei_pair.specs.Handed.{HandsEnds, HandsParts, TakesParts};

use crate::parts::Parts;
use crate::server_end::ServerEnd;
use crate::shaking::obey_at;
use crate::storing::store_server;
use ei_backend::{Clock, PendingRequestResult};
use ei_handler::Call;
use ei_handshake::EisHandshaker;
use ei_linked::Ends;
use ei_promises::laws;
use ei_server::Request;
use ei_types::{Error, HandshakeError};

impl<H: Call> Parts<H> {
    /// The server hands its next message on.
    pub(crate) fn step_server<C: Clock>(&mut self, clock: &mut C) -> Result<bool, Error>
        requires sound { IsSound self.old }
        requires whole { self.old.ends.spent ≡ false }
        ensures steps { self.new.ends.spent ≡ false → StepsServer (pair_in self.old)
            (C.view clock.old).left (C.view clock.new).left result (pair_in self.new) }
        ensures memory { self.new.ends.spent ≡ true → IsErrOf result error.NoMemory }
        ensures spent { self.new.ends.spent ≡ true → SpendsAtStep of_side.Server (pair_in self.old) (pair_in self.new) }
        ensures sound { IsSound self.new }
        // what may be relied on
        ensures freely { ShakesFreely of_side.Server (pair_in self.old) result }
        ensures all { TakesAll of_side.Server (pair_in self.old) result }
        ensures clock { LentClock C.later clock.old clock.new }
    {
        laws::stepping::<H>();
        laws::waiting::<H>();
        laws::resting::<H>();
        let stepped = self.take_request(clock);
        self.server_wanted = is_wanted(self.server_wanted, &stepped);
        stepped
    }

    /// The same, but that want of memory isn't kept.
    fn take_request<C: Clock>(&mut self, clock: &mut C) -> Result<bool, Error>
        requires sound { IsSound self.old }
        requires whole { self.old.ends.spent ≡ false }
        ensures takes { TakesParts self.old (C.view clock.old).left (C.view clock.new).left result self.new }
        ensures clock { LentClock C.later clock.old clock.new }
    {
        let Some(pending) = self.ends.read_server()? else {
            return Ok(false);
        };
        match pending {
            PendingRequestResult::Request(request) => {
                self.hand_request(clock, request)?;
                Ok(true)
            }
            PendingRequestResult::InvalidObject(id) => {
                if self.handle().is_none() {
                    return Err(Error::Handshake(HandshakeError::InvalidObject(id)));
                }
                Ok(true)
            }
            PendingRequestResult::ParseError(error) => Err(Error::from(error)),
        }
    }

    /// The server's handshaker or its converter handles a request, and what it sends is stored, be it refused or not.
    fn hand_request<C: Clock>(&mut self, clock: &mut C, request: Request) -> Result<(), Error>
        requires took { TookRequest request (pair_in self.old) }
        requires serial { self.old.serial ≡ self.old.tells.serial }
        ensures hands { HandsParts self.old request (C.view clock.old).left (C.view clock.new).left result self.new }
        ensures clock { LentClock C.later clock.old clock.new }
    {
        laws::server_sends::<H>();
        hand(
            &mut self.ends,
            &mut self.tells,
            self.initial_serial,
            clock,
            request,
        )
    }
}

/// The same of both ends.
fn hand<C: Clock>(
    ends: &mut Ends<ServerEnd>,
    tells: &mut EisHandshaker,
    serial: u32,
    clock: &mut C,
    request: Request,
) -> Result<(), Error>
    requires serial { serial ≡ tells.old.serial }
    ensures hands { HandsEnds ends.old tells.old request (C.view clock.old).left (C.view clock.new).left
        result tells.new ends.new }
    ensures clock { LentClock C.later clock.old clock.new }
{
    let before = ends.server.unsent();
    let obeyed = obey_at(ends.alloc, &mut ends.server, tells, serial, clock, request);
    if store_server(ends, before).is_err() {
        ends.server.untake();
        return Err(Error::NoMemory);
    }
    obeyed
}

/// Whether memory was wanted, by a step before or by this one.
pub(crate) fn is_wanted(before: bool, stepped: &Result<bool, Error>) -> bool
    ensures { result ≡ or_wanted before stepped.now }
{
    before || matches!(stepped, Err(Error::NoMemory))
}
