//! A session, piece by piece.

ghost use Rattle.std.specs.Prelude.{◌≡◌, ◌≤◌, ◌↔◌, List, [], ℕ, Some, false, IsTrue, IsErrOf, OnOk, OnErr, IfOk, IfErr};
ghost use Rattle.std.specs.Option.{option_map};
ghost use Rattle.ei_spec.specs.Piece.{stream};
ghost use Rattle.ei_session.specs.Setup.{Setup as Started};
ghost use Rattle.ei_session.specs.Served.{accepted};
ghost use Rattle.ei_types.specs.Capability.{bits_of, all_bits};
ghost use Rattle.ei_types.specs.declared.error.Error.TheVariants as error;
ghost use Rattle.ei_backend.specs.Outside.{Piece};
ghost use Rattle.ei_backend.specs.Lent.{LentSource, LentSink, LentClock};
ghost use Rattle.ei_serve.specs.Around.{around};
ghost use Rattle.ei_serve.specs.Causes.{Greeted, GreetedInPart, RefusesToStart};
ghost use Rattle.ei_serve.specs.Standing.{Stands, StandsForSome, IsOver, HoldsLittle, setup_of, terms_of, unlimited};
ghost use Rattle.ei_serve.specs.Standing.{connection_of, IsClientAfter, unsent_of, capacity_of, most_capacity};
ghost use Rattle.ei_serve.specs.Turning.{Turns, IsAtEnd, goes_on};

use crate::phase::Phase;
use crate::state::{SessionState, Start, Terms, goes_on};
use ei_backend::{Clock, Sink, Source};
use ei_request::{Connection, EisRequest};
use ei_types::{DeviceCapabilities, Error};
use std::alloc::Global;
use std::marker::Model;

/// What a server is started with.
#[derive(Clone, Copy, Debug)]
pub struct Setup {
    /// The serial that the connection bears.
    pub initial_serial: u32,
    /// The capabilities of the one seat.
    pub capabilities: DeviceCapabilities,
    /// The most pieces that are taken.
    pub pieces: u32,
}

/// How a turn ended.
#[derive(Clone, Copy, Debug, PartialEq, Eq)]
pub enum Turn {
    /// The piece was handled. The session goes on.
    GoOn,
    /// The client disconnected. What follows isn't looked at.
    Disconnect,
    /// The source is at its end, after the connection.
    End,
}

/// How a session ended.
#[derive(Clone, Copy, Debug, PartialEq, Eq)]
pub enum Ended {
    /// The client disconnected.
    Disconnect,
    /// The source came to its end, after the connection.
    End,
}

/// A server's session: the handshake, and then the connection.
///
/// Where it isn't over it stands for the pieces that it took: its endpoint is open, and has nothing to send.
#[derive(Drop)]
pub struct Session {
    state: SessionState,
}

impl Model for Session {
    ghost use Rattle.ei_serve.specs.declared.state.SessionState.{SessionState};
    ghost use Rattle.ei_serve.specs.SessionCode.{session_code};

    ghost Value = { SessionState };

    ghost coded = { session_code };

    ghost use Rattle.ei_serve.specs.Standing.{IsSession};

    ghost view = { λ s. s.state };

    ghost invariant = { λ s. IsSession s.state };
}

impl Session {
    /// Starts a session and greets the client. The capabilities have no bit that stands for none.
    ///
    /// `WriteFault` where the sink failed, `NoMemory` where memory ran out.
    pub fn start<K: Sink>(alloc: Global, setup: Setup, sink: &mut K) -> Result<Session, Error>
        requires lawful { bits_of setup.capabilities ≤ all_bits }
        // it stands for no pieces, and isn't over
        ensures stands { IfOk result (λ session. Stands (setup_of setup) [] [] session) }
        ensures going { IfOk result (λ session. ¬ IsOver session) }
        ensures little { IfOk result HoldsLittle }
        ensures only { IfErr result RefusesToStart }
        // the greeting goes out first
        ensures greeted { OnOk result (Greeted (K.view sink.old) (K.view sink.new)) }
        ensures greeted_in_part { OnErr result (GreetedInPart (K.view sink.old) (K.view sink.new)) }
        // what the sink says
        ensures sink { LentSink K.view K.later (IsErrOf result error.WriteFault) sink.old sink.new }
    {
        Session::start_on(alloc, Terms::of(setup), sink)
    }

    /// Starts a session that isn't ended by the number of its pieces, and greets the client. It takes 18446744073709551615 of
    /// them: at a thousand a second, those of 584 million years.
    ///
    /// It is refused as `start` is.
    pub fn start_unlimited<K: Sink>(
        alloc: Global,
        initial_serial: u32,
        capabilities: DeviceCapabilities,
        sink: &mut K,
    ) -> Result<Session, Error>
        requires lawful { bits_of capabilities ≤ all_bits }
        // it stands for no pieces, and isn't over
        ensures stands { IfOk result (λ session. Stands (unlimited initial_serial capabilities) [] [] session) }
        ensures going { IfOk result (λ session. ¬ IsOver session) }
        ensures little { IfOk result HoldsLittle }
        ensures only { IfErr result RefusesToStart }
        // the greeting goes out first
        ensures greeted { OnOk result (Greeted (K.view sink.old) (K.view sink.new)) }
        ensures greeted_in_part { OnErr result (GreetedInPart (K.view sink.old) (K.view sink.new)) }
        // what the sink says
        ensures sink { LentSink K.view K.later (IsErrOf result error.WriteFault) sink.old sink.new }
    {
        Session::start_on(alloc, Terms::unlimited(initial_serial, capabilities), sink)
    }

    /// Starts a session on these terms.
    fn start_on<K: Sink>(alloc: Global, terms: Terms, sink: &mut K) -> Result<Session, Error>
        requires lawful { bits_of terms.capabilities ≤ all_bits }
        ensures stands { IfOk result (λ session. Stands (terms_of terms) [] [] session) }
        ensures going { IfOk result (λ session. ¬ IsOver session) }
        ensures little { IfOk result HoldsLittle }
        ensures only { IfErr result RefusesToStart }
        ensures greeted { OnOk result (Greeted (K.view sink.old) (K.view sink.new)) }
        ensures greeted_in_part { OnErr result (GreetedInPart (K.view sink.old) (K.view sink.new)) }
        ensures sink { LentSink K.view K.later (IsErrOf result error.WriteFault) sink.old sink.new }
    {
        let phase = Phase::start(alloc, terms.initial_serial, sink)?;
        Ok(Session {
            state: SessionState {
                start: Start { alloc, terms },
                phase,
                taken: 0,
            },
        })
    }

    /// Whether an answer other than `GoOn` came. Then no further turn can be taken.
    pub fn is_over(&self) -> bool
        ensures { IsTrue result ↔ IsOver self.now }
    {
        self.state.phase.is_over()
    }

    /// The connection, which knows the client's name and context type. `None` exactly where none stands: before the
    /// handshake's end, and where the session is over.
    pub fn connection(&self) -> Option<&Connection>
        ensures value { option_map (λ c. c.now) result ≡ connection_of self.now }
        // over the messages that were handled
        ensures client { (setup : Started) (pieces : List Piece) (times : List ℕ) → Stands setup pieces times self.now →
            IsClientAfter (accepted setup (stream pieces)) (option_map (λ c. c.now) result) }
    {
        self.state.phase.connection()
    }

    /// How many bytes wait for the sink: none, at any time. A turn hands over what answers a message before
    /// it looks at the next, and a session that is over has let go of what its sink didn't take.
    pub fn unsent_len(&self) -> usize
        ensures value { result ≡ unsent_of self.now }
        ensures none { result ≡ 0 }
    {
        self.state.phase.unsent_len()
    }

    /// How many bytes the session can hold that aren't read yet, before it makes more room: 131072 at
    /// first, and never more than 2097152. 0 where it is over, since it then holds none.
    pub fn buffer_capacity(&self) -> usize
        ensures value { result ≡ capacity_of self.now }
        ensures most { result ≤ most_capacity }
    {
        self.state.phase.ring_capacity()
    }

    /// Takes one piece and handles every whole message: `out` grows by the requests, and the sink takes
    /// the replies to each message before the next is looked at.
    ///
    /// At the source's end it answers `End` after the connection, and `UnexpectedEof` before it.
    /// `PieceLimit` where the setup's number of pieces was taken and one more came, which isn't handled;
    /// `HandleLimit` where more than 4096 handles would be unread; `ReadFault` where the source failed,
    /// `WriteFault` where the sink failed, and `NoMemory` where memory ran out or the sink wants it: in place of a refusal
    /// only where the message that is refused has a text or announces an object.
    ///
    /// At any time `Parse` of a header of unlawful length, and of what can't be read in a message: an
    /// opcode that the interface doesn't have, an argument that isn't spelled, an id that the client may
    /// not give, bytes that are left over.
    /// Before the connection, of `Handshake`: `InvalidObject` for a message to another object than 0,
    /// `DuplicateEvent` for a second name or context type, and `MissingInterface` for a finish without
    /// ei_connection, ei_callback and ei_pingpong announced. After it `InvalidInterfaceVersion` for a
    /// callback of another version than 1, and for a touch that a touchscreen of version 1 cancels; and of
    /// `Request`: `InvalidCapabilities` for a capability that the seat wasn't given, `TooManyTouches` where
    /// sixteen touches are down and one more goes down, `DuplicatedTouchDown` for a touch that is down
    /// already, and `InvalidTextLength` for a text of no bytes, or of more than 254. `IdsExhausted` where
    /// the ids for a new device and its interfaces run out: its request was handed out. After each of them
    /// the session is over.
    ///
    /// The session isn't over: `is_over` tells.
    pub fn turn<S: Source, K: Sink, C: Clock>(
        &mut self,
        source: &mut S,
        sink: &mut K,
        clock: &mut C,
        out: &mut Vec<EisRequest>,
    ) -> Result<Turn, Error>
        requires going { ¬ IsOver self.old }
        // it stood for the pieces taken, and the readings used, so far
        ensures stood { StandsForSome self.old }
        ensures turns { (setup : Started) (pieces : List Piece) (times : List ℕ) → Stands setup pieces times self.old →
            Turns setup pieces times result self.new
            (around (S.view source.old) out.old.items (K.view sink.old) (C.view clock.old).left)
            (around (S.view source.new) out.new.items (K.view sink.new) (C.view clock.new).left) }
        // it is over exactly behind another answer than `GoOn`
        ensures over { goes_on result ≡ false ↔ IsOver self.new }
        ensures little { HoldsLittle self.new }
        // what source, sink and clock say
        ensures source { LentSource S.view S.later (IsErrOf result error.ReadFault) (IsAtEnd result)
            source.old source.new }
        ensures sink { LentSink K.view K.later (IsErrOf result error.WriteFault) sink.old sink.new }
        ensures clock { LentClock C.later clock.old clock.new }
    {
        let came = self.state.take_piece(source);
        let answer = self.state.answer(came, sink, clock, out);
        if goes_on(&answer) {
            return answer;
        }
        self.state.phase.end();
        answer
    }
}
