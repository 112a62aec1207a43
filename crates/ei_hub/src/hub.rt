//! Several clients in one loop.

ghost use Rattle.std.specs.Prelude.{◌≡◌, ◌≤◌, ◌<◌, ◌+◌, ◌↔◌, ℕ, List, [], Some, IfOk, IfErr, OnOk, OnErr, IsSome, IsTrue, false, length};
ghost use Rattle.std.specs.declared.option.Option.TheVariants.{None};
ghost use Rattle.std.specs.Option.{option_copied};
ghost use Rattle.ei_types.specs.Capability.{bits_of, all_bits};
ghost use Rattle.ei_types.specs.declared.error.Error.TheVariants as error;
ghost use Rattle.ei_hub.specs.Limit.{AreWithin};
ghost use Rattle.ei_hub.specs.declared.hub.TheConstants.{MOST_CLIENTS};

use crate::client::Client;
use crate::join::{JoinCause, JoinError, cause_of};
use ei_backend::{Clock, Sink, Source};
use ei_request::EisRequest;
use ei_serve::{Ended, Session, Setup};
use ei_types::Error;
use std::alloc::Global;

/// The most clients that may join.
pub const MOST_CLIENTS: usize = 1024;

/// The clients of a server, each with a session of its own, over sources and sinks of one type.
///
/// What one client sends is seen by no other: they share the clock and memory alone.
#[derive(Drop)]
pub struct Hub<S, K> {
    alloc: Global,
    setup: Setup,
    clients: Vec<Client<S, K>>,
    ghost lawful: { bits_of setup.capabilities ≤ all_bits },
    ghost few: { length clients.items ≤ MOST_CLIENTS },
    ghost within: { AreWithin setup.pieces clients.items },
}

impl<S: Source, K: Sink> Hub<S, K> {
    ghost use Rattle.ei_session.specs.Setup.{Setup as Started};
    ghost use Rattle.ei_backend.specs.Outside.{Piece};
    ghost use Rattle.ei_backend.specs.Lent.{LentSource, LentSink, LentClock};
    ghost use Rattle.ei_serve.specs.Standing.{setup_of};
    ghost use Rattle.ei_hub.specs.Alone.{Start, IsAlone, TurnsAlone, AnswersAlone};
    ghost use Rattle.ei_hub.specs.Clients.{seen, clients_of, count_of, started_by, ForClient, ForBoth, SameOthers, SameHub};
    ghost use Rattle.ei_hub.specs.Clients.{OneMore, ComesBack, IsEndOf, IsInputEnd};
    ghost use Rattle.ei_hub.specs.Clocks.{AreTaken, GaveReadings, AreSomeGiven};
    ghost use Rattle.ei_hub.specs.Since.{Since};

    /// A hub that no client joined. Each client's session is started with the setup; its capabilities have no bit that stands
    /// for none.
    pub fn new(alloc: Global, setup: Setup) -> Hub<S, K>
        requires lawful { bits_of setup.capabilities ≤ all_bits }
        ensures none { clients_of result ≡ [] }
        ensures setup { started_by result ≡ setup_of setup }
    {
        Hub {
            alloc,
            setup,
            clients: Vec::new(alloc),
        }
    }

    /// One more client, which is greeted. Its number is the count of those before it.
    ///
    /// `Full` where `MOST_CLIENTS` joined, which is tested first; `WriteFault` where the sink failed, and `NoMemory` where
    /// memory ran out or the sink wants it. Then the hub is as it was, and source and sink come back.
    pub fn join(&mut self, source: S, mut sink: K) -> Result<u32, JoinError<S, K>>
        ensures one_more { IfOk result (λ n. OneMore n self.old self.new) }
        // it stands for no pieces, over what its source had given and its sink taken
        ensures alone { IfOk result (λ n. ForClient n self.new (λ c.
            IsAlone (started_by self.old) (record { given = (S.view source).given; sink = K.view sink }) [] []
            (seen S.view K.view c))) }
        ensures came { IfOk result (λ n. ForClient n self.new (λ c.
            (c.source ≡ source) × LentSink K.view K.later ⊥ sink c.sink)) }
        ensures setup { started_by self.new ≡ started_by self.old }
        // a refusal
        ensures kept { OnErr result (clients_of self.new ≡ clients_of self.old) }
        ensures full { IfErr result (λ e. e.cause ≡ JoinCause.Full ↔ MOST_CLIENTS ≤ count_of self.old) }
        ensures back { IfErr result (λ e. ComesBack K.view K.later source sink e) }
    {
        let number = self.clients.len();
        if number >= MOST_CLIENTS {
            return Err(JoinError {
                cause: JoinCause::Full,
                source,
                sink,
            });
        }
        if self.clients.reserve(1).is_err() {
            return Err(JoinError {
                cause: JoinCause::NoMemory,
                source,
                sink,
            });
        }
        match Session::start(self.alloc, self.setup, &mut sink) {
            Ok(session) => {
                self.clients.push_reserved(Client {
                    session,
                    source,
                    sink,
                    requests: Vec::new(self.alloc),
                    end: None,
                });
                Ok(number as u32)
            }
            Err(error) => Err(JoinError {
                cause: cause_of(&error),
                source,
                sink,
            }),
        }
    }

    /// How many clients joined.
    pub fn count(&self) -> u32
        ensures { result ≡ count_of self.now }
    {
        self.clients.len() as u32
    }

    /// How the client's session ended; `None` while it goes on. The client joined.
    pub fn end(&self, client: u32) -> Option<&Result<Ended, Error>>
        requires joined { client < count_of self.now }
        ensures { ForClient client self.now (λ c. option_copied result ≡ c.end) }
    {
        self.clients[client as usize].end.as_ref()
    }

    /// What the client asked for so far. It joined.
    pub fn requests(&self, client: u32) -> &[EisRequest]
        requires joined { client < count_of self.now }
        ensures { ForClient client self.now (λ c. result.now ≡ c.requests.items) }
    {
        &self.clients[client as usize].requests
    }

    /// The client's source. It joined.
    pub fn source(&self, client: u32) -> &S
        requires joined { client < count_of self.now }
        ensures { ForClient client self.now (λ c. result.now ≡ c.source) }
    {
        &self.clients[client as usize].source
    }

    /// The client's sink. It joined.
    pub fn sink(&self, client: u32) -> &K
        requires joined { client < count_of self.now }
        ensures { ForClient client self.now (λ c. result.now ≡ c.sink) }
    {
        &self.clients[client as usize].sink
    }

    /// One turn of the client's session: it takes one piece and handles every whole message. It joined, and goes on: `end`
    /// tells.
    ///
    /// Any answer but `GoOn` is the client's end from now on. Where that is `ReadFault` its own source failed, and where it is
    /// `WriteFault` its own sink.
    pub fn turn<C: Clock>(&mut self, client: u32, clock: &mut C)
        requires joined { client < count_of self.old }
        requires going { ForClient client self.old (λ c. c.end ≡ None) }
        ensures same { SameHub self.old self.new }
        ensures others { SameOthers client self.old self.new }
        ensures alone { (setup : Started) (start : Start) (pieces : List Piece) (times : List ℕ) →
            ForBoth client self.old self.new (λ c d.
            IsAlone setup start pieces times (seen S.view K.view c) →
            TurnsAlone setup start pieces times (AreTaken (C.view clock.old).left (C.view clock.new).left)
            (seen S.view K.view c) (seen S.view K.view d)) }
        // what source, sink and clock say
        ensures source { ForBoth client self.old self.new (λ c d.
            LentSource S.view S.later (IsEndOf d.end error.ReadFault) (IsInputEnd d.end) c.source d.source) }
        ensures sink { ForBoth client self.old self.new (λ c d.
            LentSink K.view K.later (IsEndOf d.end error.WriteFault) c.sink d.sink) }
        ensures clock { LentClock C.later clock.old clock.new }
        ensures gave { GaveReadings (C.view clock.old).left (C.view clock.new).left }
    {
        self.turn_at(client as usize, clock);
    }

    /// Serves each client that goes on, by turns, until every client has its end.
    ///
    /// It returns: a session ends after at most as many turns as the setup has pieces, and one more.
    pub fn serve_all<C: Clock>(&mut self, clock: &mut C)
        ensures same { SameHub self.old self.new }
        ensures ended { (k : ℕ) → ForClient k self.new (λ d. IsSome d.end) }
        // a client that had its end
        ensures kept { (k : ℕ) → ForBoth k self.old self.new (λ c d. IsSome c.end → d ≡ c) }
        // one that was alone, over some of the readings that the clock gave meanwhile
        ensures alone { (k : ℕ) (setup : Started) (start : Start) (pieces : List Piece) (times : List ℕ) →
            ForBoth k self.old self.new (λ c d.
            IsAlone setup start pieces times (seen S.view K.view c) →
            AnswersAlone setup start pieces times (AreSomeGiven (C.view clock.old).left (C.view clock.new).left) d.end
            (seen S.view K.view c) (seen S.view K.view d)) }
        // what source, sink and clock say
        ensures source { (k : ℕ) → ForBoth k self.old self.new (λ c d. c.end ≡ None →
            LentSource S.view S.later (IsEndOf d.end error.ReadFault) (IsInputEnd d.end) c.source d.source) }
        ensures sink { (k : ℕ) → ForBoth k self.old self.new (λ c d. c.end ≡ None →
            LentSink K.view K.later (IsEndOf d.end error.WriteFault) c.sink d.sink) }
        ensures clock { LentClock C.later clock.old clock.new }
        ensures gave { GaveReadings (C.view clock.old).left (C.view clock.new).left }
    {
        self.serve_rounds(clock);
    }

    /// Rounds of turns, until nobody goes on.
    fn serve_rounds<C: Clock>(&mut self, clock: &mut C)
        ensures same { SameHub self.old self.new }
        ensures since { (k : ℕ) → ForBoth k self.old self.new (λ c d.
            Since S.view S.later K.view K.later 0 (C.view clock.old).left (C.view clock.new).left c d) }
        ensures ended { (k : ℕ) → ForClient k self.new (λ d. IsSome d.end) }
        ensures clock { LentClock C.later clock.old clock.new }
        ensures gave { GaveReadings (C.view clock.old).left (C.view clock.new).left }
    {
        for _round in 0..u64::from(self.setup.pieces) + 1 {
            if !self.serve_round(clock) {
                return;
            }
        }
    }

    /// One turn of each client that goes on, by rising number. It answers whether one goes on still.
    fn serve_round<C: Clock>(&mut self, clock: &mut C) -> bool
        ensures same { SameHub self.old self.new }
        ensures since { (k : ℕ) → ForBoth k self.old self.new (λ c d.
            Since S.view S.later K.view K.later 1 (C.view clock.old).left (C.view clock.new).left c d) }
        ensures clock { LentClock C.later clock.old clock.new }
        ensures gave { GaveReadings (C.view clock.old).left (C.view clock.new).left }
        ensures ended { result ≡ false → (k : ℕ) → ForClient k self.new (λ d. IsSome d.end) }
    {
        let mut goes_on = false;
        for at in 0..self.clients.len() {
            if self.serve_at(at, clock) {
                goes_on = true;
            }
        }
        goes_on
    }

    /// One turn of the client at the place, where it goes on. It answers whether it goes on still.
    fn serve_at<C: Clock>(&mut self, at: usize, clock: &mut C) -> bool
        requires joined { at < count_of self.old }
        ensures same { SameHub self.old self.new }
        ensures others { SameOthers at self.old self.new }
        ensures since { ForBoth at self.old self.new (λ c d.
            Since S.view S.later K.view K.later 1 (C.view clock.old).left (C.view clock.new).left c d) }
        ensures clock { LentClock C.later clock.old clock.new }
        ensures gave { GaveReadings (C.view clock.old).left (C.view clock.new).left }
        ensures ended { result ≡ false → ForClient at self.new (λ d. IsSome d.end) }
    {
        if !self.goes_on(at) {
            return false;
        }
        self.turn_at(at, clock);
        self.goes_on(at)
    }

    /// Whether the client at the place goes on.
    fn goes_on(&self, at: usize) -> bool
        requires joined { at < count_of self.now }
        ensures { ForClient at self.now (λ c. IsTrue result ↔ c.end ≡ None) }
    {
        self.clients[at].end.is_none()
    }

    /// One turn of the client at the place, which goes on.
    fn turn_at<C: Clock>(&mut self, at: usize, clock: &mut C)
        requires joined { at < count_of self.old }
        requires going { ForClient at self.old (λ c. c.end ≡ None) }
        ensures same { SameHub self.old self.new }
        ensures others { SameOthers at self.old self.new }
        ensures alone { (setup : Started) (start : Start) (pieces : List Piece) (times : List ℕ) →
            ForBoth at self.old self.new (λ c d.
            IsAlone setup start pieces times (seen S.view K.view c) →
            TurnsAlone setup start pieces times (AreTaken (C.view clock.old).left (C.view clock.new).left)
            (seen S.view K.view c) (seen S.view K.view d)) }
        ensures more { ForBoth at self.old self.new (λ c d. d.end ≡ None → d.session.taken ≡ c.session.taken + 1) }
        // what source, sink and clock say
        ensures source { ForBoth at self.old self.new (λ c d.
            LentSource S.view S.later (IsEndOf d.end error.ReadFault) (IsInputEnd d.end) c.source d.source) }
        ensures sink { ForBoth at self.old self.new (λ c d.
            LentSink K.view K.later (IsEndOf d.end error.WriteFault) c.sink d.sink) }
        ensures clock { LentClock C.later clock.old clock.new }
        ensures gave { GaveReadings (C.view clock.old).left (C.view clock.new).left }
    {
        let one = &mut self.clients[at];
        one.turn(clock);
    }
}
