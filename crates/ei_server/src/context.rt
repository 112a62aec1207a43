//! The server's endpoint.

ghost use Rattle.std.specs.Prelude.{◌≡◌, ◌<◌, ◌≤◌, ◌+◌, ℕ, List, [], Some, None, Ok, IsOk, IfOk, OnOk, OnErr, IsErrOf, true, false, length};
ghost use Rattle.ei_spec.specs.Message.{front};
ghost use Rattle.ei_backend.specs.Table.{found, new_table, first_server_id};
ghost use Rattle.ei_backend.specs.Outgoing.{Flushes};
ghost use Rattle.ei_backend.specs.Message.{front_wants};
ghost use Rattle.ei_backend.specs.Backend.{new_backend, Reads, Answers, Brings, Shortens, next, unsent_of, with_unsent};
ghost use Rattle.ei_spec.specs.declared.limits.TheConstants.{MOST_MESSAGE_BYTES};
ghost use Rattle.ei_server.specs.Request.{target_of, opcode_of, values_of, announced_of};

use crate::handshake::Handshake;
use crate::request::Request;
use ei_backend::{Backend, HasBackend, Interface, PendingRequestResult, Sink, Source};
use ei_wire::{FlushError, NoMemory, ReadError};
use std::alloc::Global;
use std::marker::Model;

/// The server's endpoint: its objects, the bytes that are unread and those that are unsent.
#[derive(Drop)]
pub struct Context {
    backend: Backend,
}

impl Model for Context {
    ghost use Rattle.ei_backend.specs.Backend.{BackendView};
    ghost use Rattle.ei_backend.specs.Codes.{backend_code};

    ghost Value = { BackendView };

    ghost coded = { backend_code };

    ghost view = { λ c. c.backend };
}

impl HasBackend for Context {
    ghost use Rattle.std.specs.Prelude.{refl};

    ghost seen = { λ c. c };

    ghost with_backend = { λ _ b. b };

    ghost seen_with = { λ c b. refl };

    ghost with_seen = { λ c. refl };

    ghost with_twice = { λ x b c. refl };

    fn backend(&self) -> &Backend {
        &self.backend
    }

    fn backend_mut(&mut self) -> &mut Backend {
        &mut self.backend
    }
}

impl Context {
    /// A fresh endpoint: object 0, and nothing unread or unsent.
    pub fn new(alloc: Global) -> Result<Context, NoMemory>
        ensures { IfOk result (λ c. c ≡ new_backend (new_table false first_server_id)) }
    {
        Ok(Context {
            backend: Backend::new(alloc, false)?,
        })
    }

    /// Takes one piece from the source, and puts it behind what is unread. It answers how many bytes came.
    ///
    /// `UnexpectedEof` on a closed endpoint, which doesn't ask the source, and at the source's end;
    /// `NoMemory` before the source is asked, and only where the ring has to grow; `ReadFault` where the
    /// source failed; `HandleLimit` exactly where more than 4096 handles would be unread: the piece is
    /// dropped and the endpoint closed.
    pub fn read<S: Source>(&mut self, source: &mut S) -> Result<usize, ReadError>
        ensures reads { Reads S.view S.later result self.old self.new source.old source.new }
    {
        self.backend.read(source)
    }

    /// Puts all that waits to be sent into the sink, all handles with the first bytes. After a refusal the
    /// rest waits, at least one byte: where all went out the answer is no fault.
    ///
    /// `WriteFault` where the sink failed, `NoMemory` where it wants memory. Where nothing waits the sink
    /// isn't asked.
    pub fn flush<K: Sink>(&mut self, sink: &mut K) -> Result<(), FlushError>
        ensures flushes { Flushes K.view K.later result (unsent_of self.old) (unsent_of self.new) sink.old sink.new }
        ensures kept { self.new ≡ with_unsent (unsent_of self.new) self.old }
    {
        self.backend.flush(sink)
    }

    /// How many bytes came and are not read yet.
    pub fn unread_len(&self) -> usize
        ensures { result ≡ length self.now.unread }
    {
        self.backend.unread_len()
    }

    /// How many bytes wait to be sent.
    pub fn unsent_len(&self) -> usize
        ensures { result ≡ length self.now.unsent }
    {
        self.backend.unsent_len()
    }

    /// How many bytes may be unread before the ring that holds them grows.
    pub fn ring_capacity(&self) -> usize
        ensures { result ≡ self.now.capacity }
    {
        self.backend.ring_capacity()
    }

    /// The handshake; `None` exactly where object 0 isn't there, after the connection was sent.
    pub fn handshake(&self) -> Option<Handshake>
        ensures { result ≡ found self.now.table 0 }
    {
        let object = self.backend.object_for_id(0)?;
        Some(Handshake::new_unchecked(object.copy()))
    }

    /// The next request that is whole, taken out, if there is one.
    ///
    /// A message to no object and one that is refused are taken out too. An unlawful length takes nothing
    /// out. Where memory runs out, nothing changes; that is only where the message has a text or announces an
    /// object, or its target's interface isn't a known one.
    #[inline(always)]
    pub fn pending_request(&mut self) -> Result<Option<PendingRequestResult<Request>>, NoMemory>
        ensures ok { IfOk result (λ answer. Answers target_of opcode_of values_of answer self.new
            (next false self.old)) }
        ensures announced { IfOk result (λ answer. Brings announced_of answer self.old.table self.new.table) }
        ensures shorter { IfOk result (λ answer. Shortens self.old.unread self.new.unread answer) }
        ensures few_left { result ≡ Ok None → length self.new.unread < MOST_MESSAGE_BYTES }
        ensures err { OnErr result (self.new ≡ self.old) }
        ensures memory { OnErr result (front_wants false self.old.table (front self.old.unread) ≡ true) }
    {
        self.backend.pending()
    }
}
