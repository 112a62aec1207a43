//! A session with what it wrote and asks for.

ghost use Rattle.std.specs.Prelude.{◌≡◌, ◌≤◌, ℕ, List, [], ◌∷◌, ◌++◌, length, take, IfOk, IfErr, OnOk, OnErr, is_some};
ghost use Rattle.std.specs.Option.{option_copied, option_map, option_to_list};
ghost use Rattle.std.specs.declared.option.Option.TheVariants.{None};
ghost use Rattle.ei_spec.specs.Piece.{Piece};
ghost use Rattle.ei_types.specs.Capability.{bits_of, all_bits};
ghost use Rattle.ei_types.specs.declared.error.Error.TheVariants as error;
ghost use Rattle.ei_session.specs.Setup.{Setup as Started};
ghost use Rattle.ei_backend.specs.Outside.{with_more};
ghost use Rattle.ei_serve.specs.Standing.{setup_of, unlimited, IsClientAfter};
ghost use Rattle.ei_request.specs.declared.event.EisRequest.{EisRequest as Handed};
ghost use Rattle.reis_server.specs.Fed.{Fed, fed_of, handled};
ghost use Rattle.reis_server.specs.Queue.{IsNext};

use crate::moment::Moment;
use crate::one_piece::OnePiece;
use crate::replies::Replies;
use ei_input::Queue;
use ei_request::{Connection, EisRequest};
use ei_serve::{Ended, Session, Setup, ended_by};
use ei_spec::Handle;
use ei_spec::limits::{MOST_PIECE_BYTES, MOST_PIECE_HANDLES};
use ei_types::{DeviceCapabilities, Error};
use std::alloc::Global;
use std::marker::Model;

/// Why a call did nothing: all is as it was.
#[derive(Clone, Copy, Debug, PartialEq, Eq)]
pub enum CallError {
    /// The session has ended.
    Over,
    /// The piece has no byte.
    Empty,
    /// The piece has more than 65536 bytes.
    TooLong,
    /// The piece has more than 64 handles.
    TooManyHandles,
    /// So many bytes or handles don't wait to be sent.
    NotUnsent,
}

/// A server's session with one client, and what waits to be taken from it: replies and requests.
///
/// It does nothing by itself: hand in what came with `feed`, write out what `unsent` and `unsent_handles` show and say so
/// with `sent`, act on each `next_request`, and let go of the client when `is_over` tells and all is sent.
#[derive(Drop)]
pub struct Server {
    session: Session,
    replies: Replies,
    requests: Queue<EisRequest>,
    answer: Option<Result<Ended, Error>>,
}

impl Model for Server {
    ghost use Rattle.reis_server.specs.View.{ServerView, server_code};

    ghost Value = { ServerView };

    ghost coded = { server_code };

    ghost use Rattle.reis_server.specs.Serving.{HasServed};

    ghost view = { λ s. record {
      session = s.session;
      unsent = s.replies;
      requests = s.requests.items;
      answer = s.answer;
    } };

    ghost invariant = { λ s. HasServed (record {
      session = s.session;
      unsent = s.replies;
      requests = s.requests.items;
      answer = s.answer;
    }) };
}

impl Server {
    ghost use Rattle.reis_server.specs.Serving.{IsServing, TakesLent, EndsLent, nothing, IsInputEnd, IsNoInputEnd};
    ghost use Rattle.reis_server.specs.Serving.{feed_answer, end_answer, sent_answer, unsent_after, connection_of_server};
    ghost use Rattle.reis_server.specs.Lent.{lent};

    /// Starts a session, whose greeting waits to be sent. The capabilities have no bit that stands for none.
    ///
    /// `NoMemory` where memory ran out.
    pub fn start(alloc: Global, setup: Setup) -> Result<Server, Error>
        requires lawful { bits_of setup.capabilities ≤ all_bits }
        // nothing was fed to it, and nothing taken from it
        ensures serves { IfOk result (λ server. IsServing (setup_of setup) [] nothing [] server) }
        ensures goes_on { IfOk result (λ server. server.answer ≡ None) }
        ensures only { IfErr result (λ e. e ≡ error.NoMemory) }
    {
        let mut replies = Replies::new(alloc);
        let session = Session::start(alloc, setup, &mut replies)?;
        Ok(Server {
            session,
            replies,
            requests: Queue::new(alloc),
            answer: None,
        })
    }

    /// Starts a session that isn't ended by the number of its pieces: it takes 18446744073709551615 of them. Its greeting waits
    /// to be sent. The capabilities have no bit that stands for none.
    ///
    /// `NoMemory` where memory ran out.
    pub fn start_unlimited(
        alloc: Global,
        initial_serial: u32,
        capabilities: DeviceCapabilities,
    ) -> Result<Server, Error>
        requires lawful { bits_of capabilities ≤ all_bits }
        // nothing was fed to it, and nothing taken from it
        ensures serves { IfOk result (λ server.
            IsServing (unlimited initial_serial capabilities) [] nothing [] server) }
        ensures goes_on { IfOk result (λ server. server.answer ≡ None) }
        ensures only { IfErr result (λ e. e ≡ error.NoMemory) }
    {
        let mut replies = Replies::new(alloc);
        let session = Session::start_unlimited(alloc, initial_serial, capabilities, &mut replies)?;
        Ok(Server {
            session,
            replies,
            requests: Queue::new(alloc),
            answer: None,
        })
    }

    /// Hands in what came from the client: 1 to 65536 bytes, and at most 64 handles that came with them. The time, in
    /// microseconds, is what the clock reads meanwhile: each frame that the server makes itself bears it.
    ///
    /// `Over` where the session has ended; `Empty`, `TooLong` and `TooManyHandles` where the piece has no byte, more than
    /// 65536 bytes or more than 64 handles.
    pub fn feed(&mut self, bytes: &[u8], handles: &[Handle], time: u64) -> Result<(), CallError>
        ensures answer { result ≡ feed_answer (is_some self.old.answer) (length bytes.now) (length handles.now) }
        ensures kept { OnErr result (self.new ≡ self.old) }
        // it stands for one piece more
        ensures serves { (setup : Started) (fed : List Fed) (sent : Piece) (given : List Handed) →
            IsServing setup fed sent given self.old →
            OnOk result (IsServing setup (fed_of bytes.now handles.now time ∷ fed) sent given self.new) }
        // it doesn't end as if no more came
        ensures no_end { OnOk result (IsNoInputEnd self.new.answer) }
    {
        if self.is_over() {
            return Err(CallError::Over);
        }
        if bytes.is_empty() {
            return Err(CallError::Empty);
        }
        if bytes.len() > MOST_PIECE_BYTES {
            return Err(CallError::TooLong);
        }
        if handles.len() > MOST_PIECE_HANDLES {
            return Err(CallError::TooManyHandles);
        }
        self.take(bytes, handles, time);
        Ok(())
    }

    /// Says that no more comes from the client: the session ends, with `End` after the connection, and before it with
    /// `UnexpectedEof`.
    ///
    /// `Over` where it has ended already.
    pub fn end_of_input(&mut self) -> Result<(), CallError>
        ensures answer { result ≡ end_answer (is_some self.old.answer) }
        ensures kept { OnErr result (self.new ≡ self.old) }
        // it ended as the session over the pieces that were fed
        ensures serves { (setup : Started) (fed : List Fed) (sent : Piece) (given : List Handed) →
            IsServing setup fed sent given self.old →
            OnOk result (IsServing setup fed sent given self.new) }
        ensures ends { OnOk result (IsInputEnd self.new.answer) }
    {
        if self.answer.is_some() {
            return Err(CallError::Over);
        }
        self.take(&[], &[], 0);
        Ok(())
    }

    /// The connection, which knows the client's name and context type. `None` exactly where none stands: before the
    /// handshake's end, and where the session has ended.
    pub fn connection(&self) -> Option<&Connection>
        ensures value { option_map (λ c. c.now) result ≡ connection_of_server self.now }
        // over the messages that were handled
        ensures client { (setup : Started) (fed : List Fed) (sent : Piece) (given : List Handed) →
            IsServing setup fed sent given self.now →
            self.now.answer ≡ None → IsClientAfter (handled setup fed) (option_map (λ c. c.now) result) }
    {
        match &self.answer {
            Some(_) => None,
            None => self.session.connection(),
        }
    }

    /// The bytes that wait to be written to the client.
    pub fn unsent(&self) -> &[u8]
        ensures { result.now ≡ self.now.unsent.bytes }
    {
        self.replies.bytes()
    }

    /// The handles that wait to be passed with these bytes.
    pub fn unsent_handles(&self) -> &[Handle]
        ensures { result.now ≡ self.now.unsent.handles }
    {
        self.replies.handles()
    }

    /// Says that so many of the bytes and handles that wait were written: the first ones, which wait no more. Of the bytes that
    /// were written no more are kept than wait.
    ///
    /// `NotUnsent` where so many don't wait.
    pub fn sent(&mut self, bytes: usize, handles: usize) -> Result<(), CallError>
        ensures answer { result ≡ sent_answer bytes handles self.old.unsent }
        ensures kept { OnErr result (self.new ≡ self.old) }
        ensures dropped { OnOk result (self.new ≡
            record self.old { unsent = unsent_after bytes handles self.old.unsent }) }
        // they were taken
        ensures serves { (setup : Started) (fed : List Fed) (sent : Piece) (given : List Handed) →
            IsServing setup fed sent given self.old →
            OnOk result (IsServing setup fed (with_more (take bytes self.old.unsent.bytes)
            (take handles self.old.unsent.handles) sent) given self.new) }
    {
        if bytes > self.replies.bytes().len() || handles > self.replies.handles().len() {
            return Err(CallError::NotUnsent);
        }
        self.replies.drop_front(bytes, handles);
        Ok(())
    }

    /// The next request of the client, which waits no more.
    pub fn next_request(&mut self) -> Option<EisRequest>
        ensures next { IsNext result self.old.requests self.new.requests }
        ensures kept { self.new ≡ record self.old { requests = self.new.requests } }
        // it was taken
        ensures serves { (setup : Started) (fed : List Fed) (sent : Piece) (given : List Handed) →
            IsServing setup fed sent given self.old →
            IsServing setup fed sent (given ++ option_to_list result) self.new }
    {
        self.requests.take_first()
    }

    /// How the session ended; `None` while it goes on.
    pub fn answer(&self) -> Option<&Result<Ended, Error>>
        ensures { option_copied result ≡ self.now.answer }
    {
        self.answer.as_ref()
    }

    /// Whether the session has ended.
    pub fn is_over(&self) -> bool
        ensures { result ≡ is_some self.now.answer }
    {
        self.answer.is_some()
    }

    /// Takes a piece while the session goes on, or the source's end where there is no byte.
    fn take(&mut self, bytes: &[u8], handles: &[Handle], time: u64)
        requires going { self.old.answer ≡ None }
        requires bytes { length bytes.now ≤ 65536 }
        requires handles { length handles.now ≤ 64 }
        ensures serves { (setup : Started) (fed : List Fed) (sent : Piece) (given : List Handed) →
            IsServing setup fed sent given self.old →
            TakesLent setup fed sent given (lent bytes.now handles.now) time self.new }
        ensures ends { EndsLent (lent bytes.now handles.now) self.new.answer }
    {
        let mut source = OnePiece::of(bytes, handles);
        let mut clock = Moment::at(time);
        let mut newest = self.requests.take_newest();
        let turned = self
            .session
            .turn(&mut source, &mut self.replies, &mut clock, &mut newest);
        self.requests.put_newest(newest);
        self.answer = ended_by(turned);
    }
}
