//! The client hands its next message on to its handshaker or converter.

ghost use Rattle.std.specs.Prelude.{◌≡◌, ◌≢◌, List, ◌∷◌, length, true, false, Bool, Result, IsErrOf, OnOk, OnErr};
ghost use Rattle.ei_types.specs.declared.error.Error.TheVariants as error;
ghost use Rattle.ei_backend.specs.Lent.{LentClock};
ghost use Rattle.ei_event.specs.Typed.{IsLawfulReason};
ghost use Rattle.ei_ends.specs.Sent.{Sent};
ghost use Rattle.ei_linked.specs.declared.record.Got.{Got};
ghost use Rattle.ei_linked.specs.declared.side.Side.TheVariants as of_side;
ghost use Rattle.ei_linked.specs.Held.{stored_by};
ghost use Rattle.ei_linked.specs.TwoEnds.{IsWorld};
ghost use Rattle.ei_linked.specs.Written.{AreWritten, stored_onto, unsent_in};
ghost use Rattle.ei_promises.specs.Stepping.{as_step, HandsEvent, StepsClient};
ghost use Rattle.ei_promises.specs.Promises.{ShakesFreely, RefusesNone, TakesAll};
ghost use Rattle.ei_pair.specs.Parts.{pair_in};
ghost use Rattle.ei_pair.specs.Stepped.{IsSound, TookEvent, client_answered};
ghost use Rattle.ei_pair.specs.Spent.{SpendsAtCall, SpendsAtStep};

use crate::following::hear_at;
use crate::parts::Parts;
use crate::server_end::ServerEnd;
use crate::stepping::is_wanted;
use crate::storing::store_client;
use ei_backend::{Clock, PendingRequestResult};
use ei_client::{Event, connection};
use ei_handler::Call;
use ei_linked::{Ends, Unsent};
use ei_promises::laws;
use ei_types::laws::reasons;
use ei_types::{Error, HandshakeError};
use ei_wire::NoMemory;

impl<H: Call> Parts<H> {
    /// The client hands its next message on.
    pub(crate) fn step_client<C: Clock>(&mut self, clock: &mut C) -> Result<bool, Error>
        requires sound { IsSound self.old }
        requires whole { self.old.ends.spent ≡ false }
        ensures steps { self.new.ends.spent ≡ false → StepsClient H.may_answer (pair_in self.old)
            (C.view clock.old).left (C.view clock.new).left result (pair_in self.new) }
        ensures memory { self.new.ends.spent ≡ true → IsErrOf result error.NoMemory }
        ensures spent { self.new.ends.spent ≡ true → SpendsAtStep of_side.Client (pair_in self.old) (pair_in self.new) }
        ensures sound { IsSound self.new }
        // what may be relied on
        ensures freely { ShakesFreely of_side.Client (pair_in self.old) result }
        ensures refuses_none { RefusesNone (pair_in self.old) result }
        ensures all { TakesAll of_side.Client (pair_in self.old) result }
        ensures clock { LentClock C.later clock.old clock.new }
    {
        laws::stepping::<H>();
        laws::waiting::<H>();
        laws::resting::<H>();
        let stepped = self.take_event(clock);
        self.client_wanted = is_wanted(self.client_wanted, &stepped);
        stepped
    }

    /// The same, but that want of memory isn't kept.
    fn take_event<C: Clock>(&mut self, clock: &mut C) -> Result<bool, Error>
        requires sound { IsSound self.old }
        requires whole { self.old.ends.spent ≡ false }
        ensures steps { self.new.ends.spent ≡ false → StepsClient H.may_answer (pair_in self.old)
            (C.view clock.old).left (C.view clock.new).left result (client_answered result (pair_in self.new)) }
        ensures memory { self.new.ends.spent ≡ true → IsErrOf result error.NoMemory }
        ensures spent { self.new.ends.spent ≡ true → SpendsAtCall (pair_in self.old) (pair_in self.new) }
        ensures world { IsWorld (pair_in self.new).ends }
        ensures serial { self.new.serial ≡ self.new.tells.serial }
        ensures clock { LentClock C.later clock.old clock.new }
    {
        let Some(pending) = self.ends.read_client()? else {
            return Ok(false);
        };
        match pending {
            PendingRequestResult::Request(event) => {
                has_reason(&event);
                self.hand_event(clock, event)?;
                Ok(true)
            }
            PendingRequestResult::InvalidObject(id) => {
                if self.converter.is_none() {
                    return Err(Error::Handshake(HandshakeError::InvalidObject(id)));
                }
                Ok(true)
            }
            PendingRequestResult::ParseError(_) => unreachable!(),
        }
    }

    /// The client's handshaker or its converter handles an event, and what it sends is stored, be it refused or not.
    fn hand_event<C: Clock>(&mut self, clock: &mut C, event: Event) -> Result<(), Error>
        requires took { TookEvent event (pair_in self.old) }
        requires serial { self.old.serial ≡ self.old.tells.serial }
        ensures hands { self.new.ends.spent ≡ false → HandsEvent H.may_answer (pair_in self.old).client event
            (C.view clock.old).left (C.view clock.new).left (pair_in self.old) (as_step result)
            (client_answered (as_step result) (pair_in self.new)) }
        ensures memory { self.new.ends.spent ≡ true → IsErrOf result error.NoMemory }
        ensures spent { (t : TookEvent event (pair_in self.old)) → self.new.ends.spent ≡ true →
            SpendsAtCall t.old (pair_in self.new) }
        ensures world { IsWorld (pair_in self.new).ends }
        ensures serial { self.new.serial ≡ self.new.tells.serial }
        ensures clock { LentClock C.later clock.old clock.new }
    {
        laws::client_sends::<H>();
        let before = client_unsent(&self.ends);
        let heard = hear_at(
            &mut self.ends,
            &mut self.asks,
            &mut self.converter,
            clock,
            event,
        );
        store_heard(&mut self.ends, before)?;
        heard
    }
}

/// How much waits to be sent at the client.
fn client_unsent(ends: &Ends<ServerEnd>) -> Unsent
    ensures { result ≡ unsent_in ends.now.client.context }
{
    ends.client.unsent()
}

/// Stores what the client put behind what waited to be sent. Where memory is wanted, the ends are spent, and what the
/// client took last isn't stored.
fn store_heard(ends: &mut Ends<ServerEnd>, before: Unsent) -> Result<(), NoMemory>
    ensures stores { (ms : List Sent) → AreWritten false before ms (stored_by (λ b. b) ends.old.client) →
        OnOk result (ends.new ≡ record ends.old {
          client = record ends.old.client {
            sent = stored_onto false ms ends.old.client.sent;
          };
        }) }
    ensures untakes { (last : Got) (past : List Got) → ends.old.client.taken ≡ last ∷ past →
        OnErr result (ends.new ≡ record ends.old { client = record ends.old.client { taken = past }; spent = true }) }
    ensures more { OnErr result (length ends.old.client.context.unsent ≢ before.bytes) }
{
    match store_client(ends, before) {
        Ok(()) => Ok(()),
        Err(error) => {
            ends.client.untake();
            Err(error)
        }
    }
}

/// The reason of an event is one of the table, or another number, as that of each event that a program has.
fn has_reason(event: &Event)
    ensures { IsLawfulReason event.now }
{
    if let Event::Connection(_, connection::Event::Disconnected { reason, .. }) = event {
        reasons(reason);
    }
}
