//! A client by the iterator over its events.

use crate::outside::{Inbox, Outbox};
use crate::stop::Stop;
use ei_backend::Readings;
use ei_client::Context;
use ei_event::EiEvent;
use ei_iterator::{EiConvertEventIterator, handshake_blocking};
use ei_types::{ContextType, DeviceCapabilities};
use std::io::Print;

/// Shakes hands with a server that says this, and shows each event that the client is given then. Each seat is asked for all
/// devices. What the client says goes into the sink.
pub(crate) fn show_each<R: Print + AllocGlobal>(
    rt: &R,
    said: &[u8],
    sink: &mut Outbox,
) -> Result<(), Stop> {
    let mut source = Inbox::new(said);
    let context = Context::new(rt.alloc())?;
    let mut events: EiConvertEventIterator = handshake_blocking(
        rt.alloc(),
        context,
        &mut source,
        sink,
        "demo",
        ContextType::Sender,
        200,
    )?;
    let shown = show_given(rt, &mut events, &mut source, sink);
    // Let go by a call: at the end of a scope the drop of each field is proved anew.
    drop(events);
    shown
}

/// Shows each event that is given, up to the end of the source.
fn show_given<R: Print + AllocGlobal>(
    rt: &R,
    events: &mut EiConvertEventIterator,
    source: &mut Inbox<'_>,
    sink: &mut Outbox,
) -> Result<(), Stop> {
    let mut clock = Readings::new(rt.alloc(), &[])?;
    let shown = show_by(rt, events, source, sink, &mut clock);
    drop(clock);
    shown
}

/// The same, by this clock.
fn show_by<R: Print>(
    rt: &R,
    events: &mut EiConvertEventIterator,
    source: &mut Inbox<'_>,
    sink: &mut Outbox,
    clock: &mut Readings,
) -> Result<(), Stop> {
    for _event in 0..u64::MAX {
        let Some(event) = events.next(source, sink, clock) else {
            break;
        };
        act_on(rt, events, event?)?;
    }
    Ok(events.context_mut().flush(sink)?)
}

/// Shows an event, and lets it go. Where it adds a seat, the seat is asked for all devices.
fn act_on<R: Print>(
    rt: &R,
    events: &mut EiConvertEventIterator,
    event: EiEvent,
) -> Result<(), Stop> {
    let shown = show_event(rt, events, &event);
    drop(event);
    shown
}

/// Shows an event. Where it adds a seat, the seat is asked for all devices.
fn show_event<R: Print>(
    rt: &R,
    events: &mut EiConvertEventIterator,
    event: &EiEvent,
) -> Result<(), Stop> {
    println!(rt; "given: {event:?}")?;
    if let EiEvent::SeatAdded(added) = event {
        events.bind_capabilities(&added.seat, DeviceCapabilities::all())?;
    }
    Ok(())
}
