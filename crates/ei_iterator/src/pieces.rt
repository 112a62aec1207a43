//! A client's next event, over the pieces of a source.

ghost use Rattle.std.specs.Prelude.{◌≡◌, [], IsErrOf};
ghost use Rattle.ei_types.specs.declared.error.Error.TheVariants as error;
ghost use Rattle.ei_backend.specs.Lent.{LentSource, LentSink, LentClock};
ghost use Rattle.ei_backend.specs.Pieces.{ForPieces, GavePieces};
ghost use Rattle.ei_iterator.specs.Around.{around};
ghost use Rattle.ei_iterator.specs.Nexts.{CameToEnd, Nexts, answered};

use crate::messages::take_all;
use ei_backend::{Clock, Sink, Source};
use ei_client::Context;
use ei_event::{EiEvent, EiEventConverter};
use ei_handler::Call;
use ei_types::Error;

/// The next event, where none is queued.
pub(crate) fn take_pieces<H: Call, S: Source, K: Sink, C: Clock>(
    context: &mut Context,
    converter: &mut EiEventConverter<H>,
    source: &mut S,
    sink: &mut K,
    clock: &mut C,
    pieces: u32,
) -> Result<EiEvent, Error>
    requires empty { converter.old.kept.queue ≡ [] }
    ensures nexts { ForPieces (CameToEnd context.old.closed (answered result)) (S.view source.old) (S.view source.new)
        (λ told left. Nexts H.may_answer pieces told left (answered result)
        (around context.old converter.old (K.view sink.old) (C.view clock.old).left)
        (around context.new converter.new (K.view sink.new) (C.view clock.new).left)) }
    ensures gave { GavePieces (S.view source.old) (S.view source.new) }
    ensures source { LentSource S.view S.later (IsErrOf result error.ReadFault)
        (CameToEnd context.old.closed (answered result)) source.old source.new }
    ensures sink { LentSink K.view K.later (IsErrOf result error.WriteFault) sink.old sink.new }
    ensures clock { LentClock C.later clock.old clock.new }
{
    for _piece in 0..pieces {
        take_all(context, converter, sink, clock)?;
        if let Some(event) = converter.next_event() {
            return Ok(event);
        }
        context.read(source)?;
    }
    // As many pieces as may be were taken.
    take_all(context, converter, sink, clock)?;
    match converter.next_event() {
        Some(event) => Ok(event),
        None => Err(Error::PieceLimit),
    }
}
