//! The iterator over a client's events.

ghost use Rattle.std.specs.Prelude.{◌≡◌, ◌∷◌, [], codes, Some, Err};
ghost use Rattle.ei_types.specs.declared.error.Error.TheVariants as error;
ghost use Rattle.ei_client.specs.Words.{Long, Sends};
ghost use Rattle.ei_client.specs.Seat.{request};
ghost use Rattle.ei_backend.specs.Lent.{LentSource, LentSink, LentClock};
ghost use Rattle.ei_backend.specs.Pieces.{ForPieces, GavePieces};
ghost use Rattle.ei_event.specs.Connection.{connected};
ghost use Rattle.ei_event.specs.Items.{seat_in, bound};
ghost use Rattle.std.specs.Borrow.{sem};
ghost use Rattle.ei_iterator.specs.Iterator.{new_iterator, lent};
ghost use Rattle.ei_iterator.specs.Lending.{LendsContext};
ghost use Rattle.ei_iterator.specs.Nexts.{CameToEnd, Nexts, answered};

use crate::pieces::take_pieces;
use ei_backend::{Clock, Sink, Source};
use ei_client::Context;
use ei_event::{EiEvent, EiEventConverter, Seat};
use ei_handler::{Call, Handler};
use ei_handshake::HandshakeResp;
use ei_types::{DeviceCapabilities, Error};
use ei_wire::SendError;
use std::alloc::Global;
use std::marker::Model;

/// A client's endpoint with the converter of its events, which gives them one after another.
#[derive(Drop)]
pub struct EiConvertEventIterator<H = Handler> {
    context: Context,
    converter: EiEventConverter<H>,
    pieces: u32,
}

impl<H> Model for EiConvertEventIterator<H> {
    ghost use Rattle.ei_iterator.specs.Iterator.{IteratorView, iterator_code};

    ghost Value = { IteratorView H };

    ghost coded = { iterator_code H.code };

    ghost view = { λ i. record { context = i.context; converter = i.converter; pieces = i.pieces } };
}

impl<H> EiConvertEventIterator<H> {
    /// An iterator over the events of an endpoint whose handshake answered this. One call takes at most so many pieces.
    pub fn new(
        alloc: Global,
        ctx: Context,
        resp: HandshakeResp,
        pieces: u32,
    ) -> EiConvertEventIterator<H>
        ensures { result ≡ new_iterator ctx (connected resp) pieces }
    {
        EiConvertEventIterator {
            context: ctx,
            converter: EiEventConverter::new(alloc, resp),
            pieces,
        }
    }

    /// The converter, of which seats and devices are asked.
    pub fn converter(&self) -> &EiEventConverter<H>
        ensures { result.now ≡ self.now.converter }
    {
        &self.converter
    }

    /// The endpoint, to read and to send on it.
    pub fn context_mut(&mut self) -> &mut Context
        ensures* lends { sem 𝓛 (LendsContext H.row self.entry result) }
        ensures value { result.now ≡ self.old.context }
    {
        &mut self.context
    }
}

impl<H: Call> EiConvertEventIterator<H> {
    /// Asks the server for devices of these capabilities: the seat's own call.
    ///
    /// `NoMemory`: nothing is sent.
    pub fn bind_capabilities(
        &mut self,
        seat: &Seat,
        capabilities: DeviceCapabilities,
    ) -> Result<(), SendError>
        ensures sends { Sends (request (codes "bind")) seat.now
            (Long (bound capabilities (seat_in self.old.converter.kept seat.now.id)) ∷ [])
            self.old.context self.new.context result }
        ensures kept { self.new ≡ record self.old { context = self.new.context } }
    {
        seat.bind_capabilities(&self.converter, &mut self.context, capabilities)
    }

    /// The next event: the oldest that is queued; else every whole message is taken, with a flush behind each event,
    /// and then a piece, at most so many of them. A message to no object is skipped.
    ///
    /// `None` exactly where the source came to its end, or the endpoint is closed: it may be asked again, and a piece
    /// that comes later is read. `PieceLimit` where as many pieces were taken as may be and no event came of them,
    /// `HandleLimit` where more than 4096 handles would be unread. `Parse` of what can't be read in a message, and
    /// `Event` of what the converter refuses, at once: events that were queued before come at the later calls.
    /// `ReadFault` and `WriteFault` where source and sink answer so, and `NoMemory` where memory runs out. After an
    /// error it may be called again.
    pub fn next<S: Source, K: Sink, C: Clock>(
        &mut self,
        source: &mut S,
        sink: &mut K,
        clock: &mut C,
    ) -> Option<Result<EiEvent, Error>>
        // over the pieces that the source tells, or that it gives: what the definitions say
        ensures nexts { ForPieces (CameToEnd self.old.context.closed result) (S.view source.old) (S.view source.new)
            (λ told left. Nexts H.may_answer self.old.pieces told left result
            (lent self.old (K.view sink.old) (C.view clock.old).left)
            (lent self.new (K.view sink.new) (C.view clock.new).left)) }
        ensures pieces { self.new.pieces ≡ self.old.pieces }
        // over any source
        ensures gave { GavePieces (S.view source.old) (S.view source.new) }
        // what source, sink and clock say
        ensures source { LentSource S.view S.later (result ≡ Some (Err error.ReadFault))
            (CameToEnd self.old.context.closed result) source.old source.new }
        ensures sink { LentSink K.view K.later (result ≡ Some (Err error.WriteFault)) sink.old sink.new }
        ensures clock { LentClock C.later clock.old clock.new }
    {
        if let Some(event) = self.converter.next_event() {
            return Some(Ok(event));
        }
        let taken = take_pieces(
            &mut self.context,
            &mut self.converter,
            source,
            sink,
            clock,
            self.pieces,
        );
        answered(taken)
    }
}

/// What is answered: no event where the source came to its end.
fn answered(taken: Result<EiEvent, Error>) -> Option<Result<EiEvent, Error>>
    ensures { result ≡ answered taken }
{
    match taken {
        Err(Error::UnexpectedEof) => None,
        taken => Some(taken),
    }
}
