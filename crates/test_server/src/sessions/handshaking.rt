//! A call of the handshake that no session makes.

use crate::handshakes::started;
use crate::reports::put_error;
use ei_backend::{HasBackend, Interface, InterfaceName};
use ei_handshake::EisHandshaker;
use ei_server::{Context, Pingpong, Request, pingpong};
use ei_spec::KnownInterface;
use ei_wire::SendError;
use std::alloc::Global;
use test_table::{Answer, Stop};

/// `pong-in-handshake`: what a handshake answers to a request of ei_pingpong, and how many bytes wait then. In a session
/// none comes before the connection, since object 0 is the only one that is there.
pub(crate) fn pong_in_handshake(alloc: Global, answer: &mut Answer) {
    if let Some(mut context) = answer.take(Context::new(alloc)) {
        put_pong(alloc, &mut context, answer);
        drop(context);
    }
}

/// What a handshake of this context answers to it, and how many bytes wait then.
fn put_pong(alloc: Global, context: &mut Context, answer: &mut Answer) {
    if let Some(mut handshaker) = started(alloc, context, 5, answer) {
        put_refusal(&mut handshaker, context, answer);
        drop(handshaker);
    }
    answer.put("; ");
    answer.display(&context.backend().unsent().len());
    answer.put(" bytes");
}

/// Why the request is refused.
fn put_refusal(handshaker: &mut EisHandshaker, context: &mut Context, answer: &mut Answer) {
    let Some(request) = answer.take(pong(context)) else {
        return;
    };
    let done = handshaker.handle_request(context, request);
    match &done {
        Ok(_) => answer.stop(Stop::Call),
        Err(error) => put_error(answer, error),
    }
    drop(done);
}

/// A request of ei_pingpong.
fn pong(context: &mut Context) -> Result<Request, SendError> {
    let interface = InterfaceName::Known(KnownInterface::Pingpong);
    let object = context.backend_mut().new_object(interface, 1)?;
    Ok(Request::Pingpong(
        Pingpong::new_unchecked(object),
        pingpong::Request::Done { callback_data: 3 },
    ))
}
