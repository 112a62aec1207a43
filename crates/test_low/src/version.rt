//! The requests of a handshake that are read, fresh endpoints, and pieces of bytes.

use crate::words::{Hex, tell_next};
use ei_backend::{Backend, PendingRequestResult, Pieces};
use ei_server::{Request, handshake};
use ei_spec::Handle;
use ei_wire::NoMemory;
use test_table::{Answer, Stop};

/// The most bytes of a piece.
pub(crate) const PIECE: usize = 65536;

/// Adds a piece to a source, unless it has no byte, or more bytes or handles than a piece may have.
pub(crate) fn give(answer: &mut Answer, pieces: &mut Pieces, bytes: &[u8], handles: &[Handle]) {
    if bytes.is_empty() || bytes.len() > PIECE || handles.len() > 64 {
        answer.stop(Stop::Line);
    } else {
        answer.take(pieces.push(bytes, handles));
    }
}

/// What the next message is read as.
pub(crate) fn next(
    backend: &mut Backend,
) -> Result<Option<PendingRequestResult<Request>>, NoMemory> {
    backend.pending()
}

/// Tells what the next message is read as, or why there is none.
pub(crate) fn tell_pending(answer: &mut Answer, backend: &mut Backend) {
    match next(backend) {
        Ok(next) => {
            tell_answer(answer, &next);
            // Let go by a call: at the end of a scope the drop of each field is proved anew.
            drop(next);
        }
        Err(NoMemory) => answer.put("no memory"),
    }
}

/// Tells a message that was read, or why there is none.
fn tell_answer(answer: &mut Answer, next: &Option<PendingRequestResult<Request>>) {
    match next {
        None => answer.put("nothing"),
        Some(PendingRequestResult::InvalidObject(id)) => {
            answer.put("no object");
            tell_next(answer, &Hex(*id));
        }
        Some(PendingRequestResult::ParseError(error)) => answer.show(error),
        Some(PendingRequestResult::Request(request)) => tell_request(answer, request),
    }
}

/// Tells the interface and the version that a request tells, or the finish: no other is sent here.
fn tell_request(answer: &mut Answer, request: &Request) {
    match request {
        Request::Handshake(_, handshake::Request::InterfaceVersion { name, version }) => {
            answer.put(name.as_str());
            tell_next(answer, version);
        }
        Request::Handshake(_, handshake::Request::Finish) => answer.put("finish"),
        _ => answer.stop(Stop::Line),
    }
}
