//! The row `events`: a client converts motions of a pointer, each with a frame.

use crate::outside::Cut;
use crate::row::Outcome;
use crate::stream::say_motions;
use crate::tally::Tally;
use ei_backend::{Answer, PendingRequestResult, Readings, Tray};
use ei_client::{Context, Event};
use ei_event::{EiEvent, EiEventConverter};
use ei_handshake::{EiHandshaker, HandshakeResp, request_result};
use ei_types::{ContextType, Error, HandshakeError};
use std::alloc::Global;

/// The bytes of a piece.
const PIECE: usize = 4096;

/// Converts what a server says that announces a device and sends so many groups, each of a motion and a frame.
pub(crate) fn row(alloc: Global, count: u32, said: &mut Tray) -> Result<Outcome, Error> {
    say_motions(alloc, count, true, said)?;
    convert_bytes(alloc, said.bytes())
}

/// Converts these bytes.
fn convert_bytes(alloc: Global, bytes: &[u8]) -> Result<Outcome, Error> {
    let mut context = Context::new(alloc)?;
    let mut source = Cut::new(bytes, PIECE);
    let converted = convert_source(alloc, &mut context, &mut source);
    // Let go by a call: at the end of a scope the drop of each field is proved anew.
    drop(source);
    drop(context);
    converted
}

/// Converts what a source hands out. The handshake ends in its first piece.
fn convert_source(
    alloc: Global,
    context: &mut Context,
    source: &mut Cut<'_>,
) -> Result<Outcome, Error> {
    let _count = context.read(source)?;
    let resp = connected(alloc, context)?;
    let mut converter = EiEventConverter::new(alloc, resp);
    let converted = convert_by(alloc, &mut converter, context, source);
    drop(converter);
    converted
}

/// The same, by this converter.
fn convert_by(
    alloc: Global,
    converter: &mut EiEventConverter,
    context: &mut Context,
    source: &mut Cut<'_>,
) -> Result<Outcome, Error> {
    let mut clock = Readings::new(alloc, &[])?;
    let mut told = Vec::new(alloc);
    let mut tally = Tally::new();
    let converted = convert_events(
        converter, context, source, &mut clock, &mut told, &mut tally,
    );
    drop(told);
    drop(clock);
    converted?;
    Ok(Outcome::Read(tally))
}

/// What the handshake answers, which is at its end with the first message.
fn connected(alloc: Global, context: &mut Context) -> Result<HandshakeResp, Error> {
    let mut handshaker = EiHandshaker::new(alloc, "demo", ContextType::Receiver)?;
    let resp = shaken(&mut handshaker, context);
    drop(handshaker);
    resp
}

/// What the first message ends the handshake with.
fn shaken(handshaker: &mut EiHandshaker, context: &mut Context) -> Result<HandshakeResp, Error> {
    let event = brought(context.pending_event())?;
    match handshaker.handle_event(context, event)? {
        Some(resp) => Ok(resp),
        None => Err(Error::Handshake(HandshakeError::MissingInterface)),
    }
}

/// The message that an answer brings. What it is isn't known here: where it is known, the drop of each of its fields is proved
/// anew.
fn brought<T: Drop>(answer: Answer<T>) -> Result<T, Error> {
    match answer? {
        Some(pending) => request_result(pending),
        None => Err(Error::UnexpectedEof),
    }
}

/// Converts all messages that are unread, and then those of each piece. This is what is counted.
#[inline(never)]
fn convert_events(
    converter: &mut EiEventConverter,
    context: &mut Context,
    source: &mut Cut<'_>,
    clock: &mut Readings,
    told: &mut Vec<EiEvent>,
    tally: &mut Tally,
) -> Result<(), Error> {
    convert_unread(converter, context, clock, told, tally)?;
    for _piece in 0..source.left() {
        if source.left() == 0 {
            break;
        }
        let _count = context.read(source)?;
        convert_unread(converter, context, clock, told, tally)?;
    }
    Ok(())
}

/// Converts all messages that are whole, and drops what the client is told.
fn convert_unread(
    converter: &mut EiEventConverter,
    context: &mut Context,
    clock: &mut Readings,
    told: &mut Vec<EiEvent>,
    tally: &mut Tally,
) -> Result<(), Error> {
    let mut messages = context.unread_len();
    for message in 0..messages {
        match context.pending_event()? {
            Some(PendingRequestResult::Request(event)) => {
                converter.handle_event(context, clock, event)?;
            }
            Some(refused) => count_refused(refused, tally),
            None => {
                messages = message;
                break;
            }
        }
    }
    tally.count_messages(messages as u64);
    converter.drain_into(told)?;
    told.clear();
    Ok(())
}

/// Counts a message that is no event.
#[inline(never)]
fn count_refused(refused: PendingRequestResult<Event>, tally: &mut Tally) {
    drop(refused);
    tally.count_refusal();
}
