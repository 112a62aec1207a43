//! A client by its handshaker and its converter.

use crate::outside::{Inbox, Outbox};
use crate::stop::Stop;
use ei_backend::Readings;
use ei_client::Context;
use ei_event::{EiEvent, EiEventConverter};
use ei_handshake::{EiHandshaker, HandshakeResp, request_result};
use ei_types::{ContextType, DeviceCapabilities};
use std::io::Print;

/// Shakes hands with a server that says this, shows what the client is told then, and asks each seat for all devices. What the
/// client says goes into the sink.
pub(crate) fn show_told<R: Print + AllocGlobal>(
    rt: &R,
    said: &[u8],
    sink: &mut Outbox,
) -> Result<(), Stop> {
    let mut context = Context::new(rt.alloc())?;
    let shown = shake_and_show(rt, &mut context, said, sink);
    // Let go by a call: at the end of a scope the drop of each field is proved anew.
    drop(context);
    shown
}

/// The same, by this context.
fn shake_and_show<R: Print + AllocGlobal>(
    rt: &R,
    context: &mut Context,
    said: &[u8],
    sink: &mut Outbox,
) -> Result<(), Stop> {
    context.read(&mut Inbox::new(said))?;
    let mut handshaker = EiHandshaker::new(rt.alloc(), "demo", ContextType::Sender)?;
    let shaken = connected(&mut handshaker, context);
    drop(handshaker);
    match shaken? {
        Some(resp) => convert_and_show(rt, resp, context, sink),
        None => Ok(println!(rt; "no connection")?),
    }
}

/// Converts the events that came behind the handshake, shows what the client is told, and sends what it asks.
fn convert_and_show<R: Print + AllocGlobal>(
    rt: &R,
    resp: HandshakeResp,
    context: &mut Context,
    sink: &mut Outbox,
) -> Result<(), Stop> {
    let mut converter = EiEventConverter::new(rt.alloc(), resp);
    let shown = show_converted(rt, &mut converter, context, sink);
    drop(converter);
    shown
}

/// The same, by this converter.
fn show_converted<R: Print + AllocGlobal>(
    rt: &R,
    converter: &mut EiEventConverter,
    context: &mut Context,
    sink: &mut Outbox,
) -> Result<(), Stop> {
    let mut clock = Readings::new(rt.alloc(), &[])?;
    let converted = convert(converter, context, &mut clock);
    drop(clock);
    converted?;
    show_queued(rt, converter, context)?;
    Ok(converter.connection().flush(context, sink)?)
}

/// Shows the events that are queued.
fn show_queued<R: Print>(
    rt: &R,
    converter: &mut EiEventConverter,
    context: &mut Context,
) -> Result<(), Stop> {
    for _ in 0..converter.queued_len() {
        if let Some(event) = converter.next_event() {
            let shown = show_event(rt, &event, converter, context);
            drop(event);
            shown?;
        }
    }
    Ok(())
}

/// Answers the server's handshake, up to the connection.
fn connected(
    handshaker: &mut EiHandshaker,
    context: &mut Context,
) -> Result<Option<HandshakeResp>, Stop> {
    for _ in 0..context.unread_len() {
        let Some(pending) = context.pending_event()? else {
            break;
        };
        let event = request_result(pending)?;
        if let Some(resp) = handshaker.handle_event(context, event)? {
            return Ok(Some(resp));
        }
    }
    Ok(None)
}

/// Hands the converter each event that came.
fn convert(
    converter: &mut EiEventConverter,
    context: &mut Context,
    clock: &mut Readings,
) -> Result<(), Stop> {
    for _ in 0..context.unread_len() {
        let Some(pending) = context.pending_event()? else {
            break;
        };
        let event = request_result(pending)?;
        converter.handle_event(context, clock, event)?;
    }
    Ok(())
}

/// Shows an event. Where it adds a seat, the seat is asked for all devices.
fn show_event<R: Print>(
    rt: &R,
    event: &EiEvent,
    converter: &EiEventConverter,
    context: &mut Context,
) -> Result<(), Stop> {
    println!(rt; "{event:?}")?;
    if let EiEvent::SeatAdded(added) = event {
        added
            .seat
            .bind_capabilities(converter, context, DeviceCapabilities::all())?;
    }
    Ok(())
}
