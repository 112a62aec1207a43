//! The client's end shakes hands, and then follows.

ghost use Rattle.std.specs.Prelude.{◌≡◌, None};
ghost use Rattle.ei_backend.specs.Lent.{LentClock};
ghost use Rattle.ei_pair.specs.Stages.{AsksEnd, HearsEnd};

use crate::server_end::ServerEnd;
use ei_backend::Clock;
use ei_client::{Context, Event};
use ei_event::EiEventConverter;
use ei_handler::Call;
use ei_handshake::EiHandshaker;
use ei_linked::Ends;
use ei_types::Error;
use std::alloc::Global;
use std::mem;

/// Hands an event to the client's handshaker. Where that hands the connection over, the converter is made.
fn ask<H: Call>(
    alloc: Global,
    context: &mut Context,
    asks: &mut EiHandshaker,
    converter: &mut Option<EiEventConverter<H>>,
    event: Event,
) -> Result<(), Error>
    requires none { converter.old ≡ None }
    ensures { AsksEnd asks.old context.old event result asks.new context.new converter.new }
{
    match asks.handle_event(context, event)? {
        Some(resp) => {
            drop(mem::replace(converter, Some(EiEventConverter::new(alloc, resp))));
            Ok(())
        }
        None => Ok(()),
    }
}

/// Hands an event to the client's handshaker, or to its converter once the handshake is done.
fn hear<H: Call, C: Clock>(
    alloc: Global,
    context: &mut Context,
    asks: &mut EiHandshaker,
    converter: &mut Option<EiEventConverter<H>>,
    clock: &mut C,
    event: Event,
) -> Result<(), Error>
    ensures hears { HearsEnd H.may_answer converter.old asks.old context.old event
        (C.view clock.old).left (C.view clock.new).left result asks.new context.new converter.new }
    ensures clock { LentClock C.later clock.old clock.new }
{
    match converter {
        Some(converter) => converter.handle_event(context, clock, event),
        None => ask(alloc, context, asks, converter, event),
    }
}

/// The same at the client's end of two.
pub(crate) fn hear_at<H: Call, C: Clock>(
    ends: &mut Ends<ServerEnd>,
    asks: &mut EiHandshaker,
    converter: &mut Option<EiEventConverter<H>>,
    clock: &mut C,
    event: Event,
) -> Result<(), Error>
    ensures hears { HearsEnd H.may_answer converter.old asks.old ends.old.client.context event
        (C.view clock.old).left (C.view clock.new).left result asks.new ends.new.client.context converter.new }
    ensures kept { ends.new ≡ record ends.old {
      client = record ends.old.client {
        context = ends.new.client.context;
      };
    } }
    ensures clock { LentClock C.later clock.old clock.new }
{
    hear(
        ends.alloc,
        &mut ends.client.context,
        asks,
        converter,
        clock,
        event,
    )
}
