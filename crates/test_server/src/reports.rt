//! What is told of sessions, in words.

use crate::texts::put_made;
use ei_request::EisRequest;
use ei_serve::Ended;
use ei_types::Error;
use reis_report::request_line;
use std::alloc::Global;
use test_table::Answer;

/// Adds how a session ended.
pub(crate) fn put_ended(answer: &mut Answer, ended: &Result<Ended, Error>) {
    match ended {
        Ok(Ended::Disconnect) => answer.put("disconnect"),
        Ok(Ended::End) => answer.put("eof"),
        Err(error) => put_error(answer, error),
    }
}

/// Adds an error.
pub(crate) fn put_error(answer: &mut Answer, error: &Error) {
    answer.put("error ");
    answer.display(error);
}

/// Adds the requests by their lines, with slashes between them; `nothing` where there is none.
pub(crate) fn put_asked(alloc: Global, requests: &[EisRequest], answer: &mut Answer) {
    match requests.split_first() {
        Some((request, others)) => {
            put_line(alloc, request, answer);
            for request in others {
                answer.put(" / ");
                put_line(alloc, request, answer);
            }
        }
        None => answer.put("nothing"),
    }
}

/// Adds the line of a request.
pub(crate) fn put_line(alloc: Global, request: &EisRequest, answer: &mut Answer) {
    if let Some(line) = answer.take(request_line(alloc, request)) {
        answer.put(line.as_str());
        drop(line);
    }
}

/// Adds the bytes in hexadecimal digits; `nothing` where there is none.
pub(crate) fn put_digits(alloc: Global, bytes: &[u8], answer: &mut Answer) {
    if bytes.is_empty() {
        answer.put("nothing");
    } else {
        put_made(answer, hex::encode(alloc, bytes));
    }
}
