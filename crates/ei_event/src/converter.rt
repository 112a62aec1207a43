//! The client's converter.

ghost use Rattle.std.specs.Prelude.{◌≡◌, ◌++◌, [], OnOk, OnErr, length};
ghost use Rattle.std.specs.FinMap as finite;
ghost use Rattle.ei_backend.specs.Lent.{LentClock};
ghost use Rattle.ei_input.specs.Queue.{first_of, rest_of};
ghost use Rattle.ei_event.specs.Connection.{connected};
ghost use Rattle.ei_event.specs.Items.{connection_of};
ghost use Rattle.ei_event.specs.Handles.{Handles};
ghost use Rattle.ei_event.specs.Converter.{new_converter, with_queue, answered, ping_in, callback_in, Receives};
ghost use Rattle.ei_event.specs.Converter.{value_of};
ghost use Rattle.ei_event.specs.Converter.{without_called};

use crate::connection::Connection;
use crate::event::EiEvent;
use crate::kept::Kept;
use ei_backend::{Clock, Interface};
use ei_client::{Context, Event, callback, connection};
use ei_handler::{Call, Handler, Handlers, Receipt};
use ei_handshake::HandshakeResp;
use ei_types::Error;
use ei_wire::NoMemory;
use std::alloc::Global;
use std::marker::Model;

/// Makes what a client's user is told out of a server's events. Its handlers are boxes of closures, unless its user
/// names a type of its own.
#[derive(Drop)]
pub struct EiEventConverter<H = Handler> {
    kept: Kept,
    handlers: Handlers<H>,
}

impl<H> Model for EiEventConverter<H> {
    ghost use Rattle.ei_event.specs.Converter.{ConverterView, converter_code};

    ghost Value = { ConverterView H };

    ghost coded = { converter_code H.code };

    ghost view = { λ c. record { kept = c.kept; waiting = c.handlers.waiting; receipts = c.handlers.receipts } };
}

impl<H: Call> EiEventConverter<H> {
    /// Takes an event: what it describes is kept, an input waits for a frame of its device, and what it tells is
    /// queued. An event of a device that ends a group without a frame makes one, with the time of the clock and the
    /// serial of that event. A ping is answered at once. (The protocol; that an event is refused by the state is
    /// libei's.)
    ///
    /// `Event(_)` for an event that doesn't fit the state: then most serials are kept, and a device that is done
    /// without a type is dropped. `NoMemory`: all stays as before. A refused call queues nothing and asks no clock.
    #[inline(always)]
    pub fn handle_event<C: Clock>(
        &mut self,
        ctx: &mut Context,
        clock: &mut C,
        event: Event,
    ) -> Result<(), Error>
        ensures handles { Handles self.old.kept event (C.view clock.old).left (C.view clock.new).left result
            self.new.kept }
        ensures kept { OnErr result (clock.new ≡ clock.old) }
        ensures clock { LentClock C.later clock.old clock.new }
        // what is sent
        ensures sends { OnOk result (ctx.new ≡ answered (ping_in event) ctx.old) }
        ensures unsent { OnErr result (ctx.new ≡ ctx.old) }
        // which handler is called
        ensures receipts { Receives H.may_answer (callback_in event) result self.old.waiting self.old.receipts
            self.new.receipts }
        ensures handlers { self.new.waiting ≡ without_called (callback_in event) result self.old.waiting }
    {
        if self.kept.take_likely(&event) {
            // Let go by a call: at the end of a scope the drop of each field is proved anew.
            drop(event);
            return Ok(());
        }
        self.handle_unlikely(ctx, clock, event)
    }

    /// The same, of any event. Its answer is said to a place of its own first, so that the caller's needn't be in memory.
    #[inline(always)]
    fn handle_unlikely<C: Clock>(
        &mut self,
        ctx: &mut Context,
        clock: &mut C,
        event: Event,
    ) -> Result<(), Error>
        ensures handles { Handles self.old.kept event (C.view clock.old).left (C.view clock.new).left result
            self.new.kept }
        ensures kept { OnErr result (clock.new ≡ clock.old) }
        ensures clock { LentClock C.later clock.old clock.new }
        // what is sent
        ensures sends { OnOk result (ctx.new ≡ answered (ping_in event) ctx.old) }
        ensures unsent { OnErr result (ctx.new ≡ ctx.old) }
        // which handler is called
        ensures receipts { Receives H.may_answer (callback_in event) result self.old.waiting self.old.receipts
            self.new.receipts }
        ensures handlers { self.new.waiting ≡ without_called (callback_in event) result self.old.waiting }
    {
        let answer = self.handle_rare(ctx, clock, event);
        answer
    }

    /// The same, by a call of its own.
    #[inline(never)]
    fn handle_rare<C: Clock>(
        &mut self,
        ctx: &mut Context,
        clock: &mut C,
        event: Event,
    ) -> Result<(), Error>
        ensures handles { Handles self.old.kept event (C.view clock.old).left (C.view clock.new).left result
            self.new.kept }
        ensures kept { OnErr result (clock.new ≡ clock.old) }
        ensures clock { LentClock C.later clock.old clock.new }
        // what is sent
        ensures sends { OnOk result (ctx.new ≡ answered (ping_in event) ctx.old) }
        ensures unsent { OnErr result (ctx.new ≡ ctx.old) }
        // which handler is called
        ensures receipts { Receives H.may_answer (callback_in event) result self.old.waiting self.old.receipts
            self.new.receipts }
        ensures handlers { self.new.waiting ≡ without_called (callback_in event) result self.old.waiting }
    {
        match event {
            Event::Callback(target, event) => {
                self.handlers
                    .done(target.as_object().id(), value_of(event))?;
                Ok(())
            }
            Event::Connection(_target, event) => match event {
                connection::Event::Ping { ping } => {
                    ping.done(ctx, 0)?;
                    Ok(())
                }
                event => self.kept.take_connection(event),
            },
            event => self.kept.take(clock, event),
        }
    }

    /// Keeps a handler for the callback, which is called at its `done`. One that stood there is dropped unused.
    ///
    /// `NoMemory`: all stays as before, and the handler is dropped.
    pub fn add_callback_handler(
        &mut self,
        callback: ei_client::Callback,
        handler: H,
    ) -> Result<(), NoMemory>
        ensures ok { OnOk result (self.new ≡
            record self.old { waiting = finite.insert self.old.waiting callback.id handler }) }
        ensures err { OnErr result (self.new ≡ self.old) }
    {
        self.handlers.add(callback.as_object().id(), handler)?;
        Ok(())
    }
}

/// The value that a callback ends with.
fn value_of(event: callback::Event) -> u64
    ensures { result ≡ value_of event }
{
    match event {
        callback::Event::Done { callback_data } => callback_data,
    }
}

// What it holds, and what is taken from it.
impl<H> EiEventConverter<H> {
    /// The converter of the connection that a handshake handed over.
    pub fn new(alloc: Global, resp: HandshakeResp) -> EiEventConverter<H>
        ensures { result ≡ new_converter (connected resp) }
    {
        EiEventConverter {
            kept: Kept::new(alloc, Connection::new(resp)),
            handlers: Handlers::new(alloc),
        }
    }

    /// The connection.
    pub fn connection(&self) -> &Connection
        ensures { result.now ≡ connection_of self.now.kept }
    {
        self.kept.connection()
    }

    /// How many events are queued.
    pub fn queued_len(&self) -> usize
        ensures { result ≡ length self.now.kept.queue }
    {
        self.kept.queued_len()
    }

    /// Takes the oldest event that is queued. `None` exactly where none is.
    pub fn next_event(&mut self) -> Option<EiEvent>
        ensures first { result ≡ first_of self.old.kept.queue }
        ensures rest { self.new ≡ with_queue (rest_of self.old.kept.queue) self.old }
    {
        self.kept.next_event()
    }

    /// Moves all events that are queued behind `out`, in their order, or none.
    ///
    /// `NoMemory`: nothing moves.
    #[inline]
    pub fn drain_into(&mut self, out: &mut Vec<EiEvent>) -> Result<(), NoMemory>
        ensures out { OnOk result (out.new.items ≡ out.old.items ++ self.old.kept.queue) }
        ensures emptied { OnOk result (self.new ≡ with_queue [] self.old) }
        ensures kept { OnErr result (out.new.items ≡ out.old.items) }
        ensures err { OnErr result (self.new ≡ self.old) }
    {
        self.kept.drain_into(out)?;
        Ok(())
    }

    /// What it keeps.
    pub(crate) fn kept(&self) -> &Kept
        ensures { result.now ≡ self.now.kept }
    {
        &self.kept
    }

    /// A receipt for each handler that was called, in the order of the calls.
    pub fn receipts(&self) -> &[Receipt]
        ensures { result.now ≡ self.now.receipts }
    {
        self.handlers.receipts()
    }
}
