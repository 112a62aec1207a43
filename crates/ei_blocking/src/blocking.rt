//! The handshake, over the pieces of a source.

ghost use Rattle.std.specs.Prelude.{◌≡◌, IfErr, IsErrOf};
ghost use Rattle.ei_types.specs.declared.error.Error.TheVariants as error;
ghost use Rattle.ei_backend.specs.Lent.{LentSource, LentSink};
ghost use Rattle.ei_backend.specs.Pieces.{ForPieces, GavePieces};
ghost use Rattle.ei_handshake.specs.Client.{greeter, unshaken};
ghost use Rattle.ei_greeting.specs.Opening.{opening};
ghost use Rattle.ei_blocking.specs.SourceEnd.{CameToEnd};
ghost use Rattle.ei_blocking.specs.Blocking.{EndsAs, Opens, IsOfOpening, around};

use crate::messages::handle_all;
use ei_backend::{Sink, Source};
use ei_client::Context;
use ei_handshake::{EiHandshaker, HandshakeResp};
use ei_types::{ContextType, Error};
use std::alloc::Global;

/// Shakes hands as a client of that name, up to the connection: every whole message is handled, and what answers it is sent, and
/// only then a piece is taken, at most so many of them. What was unread at entry comes before the first.
///
/// `UnexpectedEof` at the source's end and on a closed endpoint, `HandleLimit` where more than 4096 handles would be unread,
/// `ReadFault` and `NoMemory` as of `Context::read`, each exactly where every whole message was handled, the connection hasn't come
/// and fewer pieces than may be were taken; `PieceLimit` where as many were. `Parse` of what can't be read in a message, `Handshake` of
/// `InvalidObject` for a message to no object and of `NonHandshakeEvent` for an event of another interface, and `MessageTooLong`
/// where the server begins and the name is too long: at the first message that is refused. `WriteFault` and `NoMemory` where the
/// sink answers so, and `NoMemory` where memory runs out. What was read, handled and sent before a refusal stays so.
pub fn ei_handshake_blocking<S: Source, K: Sink>(
    alloc: Global,
    ctx: &mut Context,
    source: &mut S,
    sink: &mut K,
    name: &str,
    context_type: ContextType,
    pieces: u32,
) -> Result<HandshakeResp, Error>
    // over the pieces that the source tells, or that it gives: the handshake that the definitions say
    ensures opens { ForPieces (CameToEnd ctx.old.closed result) (S.view source.old) (S.view source.new) (λ told left.
        Opens (greeter name.now context_type) pieces told left result
        (around ctx.old (K.view sink.old)) (around ctx.new (K.view sink.new))) }
    ensures answer { ForPieces (CameToEnd ctx.old.closed result) (S.view source.old) (S.view source.new) (λ told left.
        EndsAs (opening (greeter name.now context_type) pieces ctx.old told).ending result) }
    // over any source
    ensures gave { GavePieces (S.view source.old) (S.view source.new) }
    ensures only { IfErr result IsOfOpening }
    // what source and sink say
    ensures source { LentSource S.view S.later (IsErrOf result error.ReadFault) (CameToEnd ctx.old.closed result)
        source.old source.new }
    ensures sink { LentSink K.view K.later (IsErrOf result error.WriteFault) sink.old sink.new }
{
    let mut handshaker = EiHandshaker::new(alloc, name, context_type)?;
    take_pieces(&mut handshaker, ctx, source, sink, pieces)
}

/// Goes on with a handshake that has just begun.
fn take_pieces<S: Source, K: Sink>(
    handshaker: &mut EiHandshaker,
    ctx: &mut Context,
    source: &mut S,
    sink: &mut K,
    pieces: u32,
) -> Result<HandshakeResp, Error>
    requires begun { handshaker.old ≡ unshaken handshaker.old.greeter }
    ensures opens { ForPieces (CameToEnd ctx.old.closed result) (S.view source.old) (S.view source.new) (λ told left.
        Opens handshaker.old.greeter pieces told left result
        (around ctx.old (K.view sink.old)) (around ctx.new (K.view sink.new))) }
    ensures gave { GavePieces (S.view source.old) (S.view source.new) }
    ensures only { IfErr result IsOfOpening }
    ensures source { LentSource S.view S.later (IsErrOf result error.ReadFault) (CameToEnd ctx.old.closed result)
        source.old source.new }
    ensures sink { LentSink K.view K.later (IsErrOf result error.WriteFault) sink.old sink.new }
{
    for _piece in 0..pieces {
        if let Some(resp) = handle_all(handshaker, ctx, sink)? {
            return Ok(resp);
        }
        ctx.read(source)?;
    }
    // As many pieces as may be were taken.
    match handle_all(handshaker, ctx, sink)? {
        Some(resp) => Ok(resp),
        None => Err(Error::PieceLimit),
    }
}
