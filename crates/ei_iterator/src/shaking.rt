//! The handshake that gives the iterator.

ghost use Rattle.std.specs.Prelude.{IfErr, IsErrOf};
ghost use Rattle.ei_types.specs.declared.error.Error.TheVariants as error;
ghost use Rattle.ei_backend.specs.Lent.{LentSource, LentSink};
ghost use Rattle.ei_backend.specs.Pieces.{ForPieces, GavePieces};
ghost use Rattle.ei_handshake.specs.Client.{greeter};
ghost use Rattle.ei_blocking.specs.SourceEnd.{CameToEnd};
ghost use Rattle.ei_blocking.specs.Blocking.{IsOfOpening};
ghost use Rattle.ei_iterator.specs.Shaking.{OpensIterator};

use crate::iterator::EiConvertEventIterator;
use ei_backend::{Sink, Source};
use ei_blocking::ei_handshake_blocking;
use ei_client::Context;
use ei_types::{ContextType, Error};
use std::alloc::Global;

/// Shakes hands as `ei_handshake_blocking` does, and gives the iterator over the events that come behind the
/// connection. Both take at most so many pieces a call.
///
/// The answers are those of `ei_handshake_blocking`: where it refuses, the endpoint is dropped.
pub fn handshake_blocking<H, S: Source, K: Sink>(
    alloc: Global,
    mut ctx: Context,
    source: &mut S,
    sink: &mut K,
    name: &str,
    context_type: ContextType,
    pieces: u32,
) -> Result<EiConvertEventIterator<H>, Error>
    ensures opens { ForPieces (CameToEnd ctx.closed result) (S.view source.old) (S.view source.new) (λ told left.
        OpensIterator (greeter name.now context_type) pieces told left result ctx (K.view sink.old) (K.view sink.new)) }
    ensures gave { GavePieces (S.view source.old) (S.view source.new) }
    ensures only { IfErr result IsOfOpening }
    ensures source { LentSource S.view S.later (IsErrOf result error.ReadFault) (CameToEnd ctx.closed result)
        source.old source.new }
    ensures sink { LentSink K.view K.later (IsErrOf result error.WriteFault) sink.old sink.new }
{
    let resp = ei_handshake_blocking(alloc, &mut ctx, source, sink, name, context_type, pieces)?;
    Ok(EiConvertEventIterator::new(alloc, ctx, resp, pieces))
}
