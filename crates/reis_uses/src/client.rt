//! A client by its proxies.

use crate::stop::Stop;
use ei_backend::PendingRequestResult;
use ei_client::{Context, Event, Handshake, connection, handshake, seat};
use ei_types::{ContextType, Error};
use ei_wire::SendError;
use std::io::Print;

/// The interfaces that the client has, with their versions.
const INTERFACES: [(&str, u32); 5] = [
    ("ei_connection", 1),
    ("ei_callback", 1),
    ("ei_pingpong", 1),
    ("ei_seat", 1),
    ("ei_button", 1),
];

/// Says who the client is and what it has.
pub(crate) fn shake_hands(context: &mut Context) -> Result<(), SendError> {
    let Some(handshake) = context.handshake() else {
        return Ok(());
    };
    let told = tell(context, &handshake);
    // Let go by a call: at the end of a scope the drop of each field is proved anew.
    drop(handshake);
    told
}

/// Tells it by this proxy.
fn tell(context: &mut Context, handshake: &Handshake) -> Result<(), SendError> {
    handshake.handshake_version(context, 1)?;
    handshake.context_type(context, ContextType::Sender)?;
    handshake.name(context, "demo")?;
    for (name, version) in &INTERFACES {
        handshake.interface_version(context, name, *version)?;
    }
    handshake.finish(context)
}

/// Shows each event that came.
pub(crate) fn show_events<R: Print>(rt: &R, context: &mut Context) -> Result<(), Stop> {
    for _ in 0..context.unread_len() {
        let Some(pending) = context.pending_event()? else {
            break;
        };
        show_pending(rt, pending)?;
    }
    Ok(())
}

/// Shows an event, or what came in its place.
fn show_pending<R: Print>(rt: &R, pending: PendingRequestResult<Event>) -> Result<(), Stop> {
    match pending {
        PendingRequestResult::Request(event) => {
            let shown = show_event(rt, &event);
            drop(event);
            shown
        }
        PendingRequestResult::ParseError(error) => Err(Stop::from(Error::from(error))),
        PendingRequestResult::InvalidObject(id) => Ok(println!(rt; "no object {id}")?),
    }
}

/// Shows an event of the handshake, of the connection or of the seat.
fn show_event<R: Print>(rt: &R, event: &Event) -> Result<(), Stop> {
    match event {
        Event::Handshake(_, event) => show_handshake(rt, event),
        Event::Connection(_, connection::Event::Seat { .. }) => Ok(println!(rt; "a seat")?),
        Event::Seat(_, seat::Event::Capability { mask, interface }) => {
            Ok(println!(rt; "{} by bit {mask}", interface.as_str())?)
        }
        _ => Ok(()),
    }
}

/// Shows an event of the handshake.
fn show_handshake<R: Print>(rt: &R, event: &handshake::Event) -> Result<(), Stop> {
    match event {
        handshake::Event::HandshakeVersion { version } => println!(rt; "handshake {version}")?,
        handshake::Event::InterfaceVersion { name, version } => {
            println!(rt; "{} {version}", name.as_str())?
        }
        handshake::Event::Connection { serial, .. } => println!(rt; "connection at {serial}")?,
    }
    Ok(())
}
