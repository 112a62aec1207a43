//! The handshake of a client, up to the connection.

use crate::pieces::in_pieces;
use ei_backend::{HasBackend, PendingRequestResult};
use ei_handshake::{EisHandshakeResp, EisHandshaker, request_result};
use ei_request::EisRequestConverter;
use ei_server::{Context, Request};
use std::alloc::Global;
use test_table::{Answer, Stop};

/// Lets these bytes come to a context.
pub(crate) fn reach(alloc: Global, context: &mut Context, bytes: &[u8], answer: &mut Answer) {
    let mut pieces = in_pieces(alloc, bytes, answer);
    answer.take(context.read(&mut pieces));
    drop(pieces);
}

/// A converter behind the handshake of a client that sends these bytes.
pub(crate) fn connected(
    alloc: Global,
    serial: u32,
    sent: &[u8],
    answer: &mut Answer,
) -> Option<EisRequestConverter> {
    match answer.take(Context::new(alloc)) {
        Some(mut context) => {
            let resp = greeted(alloc, &mut context, serial, sent, answer);
            converter(alloc, context, serial, resp)
        }
        None => None,
    }
}

/// The converter of the context, where the handshake has answered.
fn converter(
    alloc: Global,
    context: Context,
    serial: u32,
    resp: Option<EisHandshakeResp>,
) -> Option<EisRequestConverter> {
    match resp {
        Some(resp) => Some(EisRequestConverter::new(alloc, context, resp, serial)),
        None => {
            drop(context);
            None
        }
    }
}

/// What a handshake with that serial answers to these bytes.
fn greeted(
    alloc: Global,
    context: &mut Context,
    serial: u32,
    sent: &[u8],
    answer: &mut Answer,
) -> Option<EisHandshakeResp> {
    reach(alloc, context, sent, answer);
    match started(alloc, context, serial, answer) {
        Some(mut handshaker) => {
            let resp = shaken(&mut handshaker, context);
            drop(handshaker);
            answer.take(resp)
        }
        None => None,
    }
}

/// A handshake with that serial.
pub(crate) fn started(
    alloc: Global,
    context: &mut Context,
    serial: u32,
    answer: &mut Answer,
) -> Option<EisHandshaker> {
    if context.handshake().is_none() {
        answer.stop(Stop::Call);
        return None;
    }
    answer.take(EisHandshaker::new(alloc, context, serial))
}

/// What the handshake answers, once it does.
fn shaken(handshaker: &mut EisHandshaker, context: &mut Context) -> Result<EisHandshakeResp, Stop> {
    for _ in 0..context.unread_len() {
        match step(handshaker, context) {
            Ok(None) => {}
            Ok(Some(resp)) => return Ok(resp),
            Err(stop) => return Err(stop),
        }
    }
    Err(Stop::Call)
}

/// What the handshake answers to the next message.
fn step(
    handshaker: &mut EisHandshaker,
    context: &mut Context,
) -> Result<Option<EisHandshakeResp>, Stop> {
    match context.pending_request() {
        Ok(Some(pending)) => answered(handshaker, context, pending),
        Ok(None) => Err(Stop::Call),
        Err(error) => Err(Stop::from(error)),
    }
}

/// What the handshake answers to a message.
fn answered(
    handshaker: &mut EisHandshaker,
    context: &mut Context,
    pending: PendingRequestResult<Request>,
) -> Result<Option<EisHandshakeResp>, Stop> {
    match request_result(pending) {
        Ok(request) => handshaker
            .handle_request(context, request)
            .map_err(Stop::from),
        Err(error) => Err(Stop::from(error)),
    }
}
