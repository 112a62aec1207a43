//! What can be seen of a pair.

use crate::changing::Pair;
use crate::shown::{tell, tell_id};
use ei_backend::{HasBackend, Interface};
use ei_handshake::Versions;
use ei_spec::KnownInterface;
use std::fmt::Debug;
use test_table::{Answer, Stop};

/// What can be seen of both.
pub(crate) fn look(answer: &mut Answer, pair: &mut Pair, name: &str) {
    match name {
        "event" => tell_one(answer, pair.next_event()),
        "request" => tell_one(answer, pair.next_request()),
        "steady" => answer.display(&pair.is_steady()),
        "spent" => answer.display(&pair.is_spent()),
        "maps" => tell_maps(answer, pair.maps()),
        "converter" => tell_converter(answer, pair),
        "handle" => tell_handle(answer, pair),
        "receipts" => tell_receipts(answer, pair),
        _ => answer.stop(Stop::Line),
    }
}

/// Tells the oldest that is queued.
fn tell_one<T: Debug + Drop>(answer: &mut Answer, oldest: Option<T>) {
    answer.show(&oldest);
    drop(oldest);
}

/// Tells what both handshakes settled: how many interfaces each has, and those that both have, with their versions.
fn tell_maps(answer: &mut Answer, maps: Option<(&Versions, &Versions)>) {
    match maps {
        Some((client, server)) => {
            answer.display(&client.len());
            tell(answer, " ", &server.len());
            tell_shared(answer, client, server);
        }
        None => answer.put("none"),
    }
}

/// Tells the interfaces that both have.
fn tell_shared(answer: &mut Answer, client: &Versions, server: &Versions) {
    for known in KnownInterface::ALL {
        let name = known.name();
        if let (Some(asked), Some(told)) = (client.get(name), server.get(name)) {
            tell(answer, " / ", &name);
            tell(answer, " ", &asked);
            tell(answer, " ", &told);
        }
    }
}

/// Tells the client's connection, the serial that it bears, and its next own id.
fn tell_converter(answer: &mut Answer, pair: &Pair) {
    match pair.converter() {
        Some(converter) => {
            let connection = converter.connection();
            tell_id(answer, "", connection.connection().as_object().id());
            tell(answer, " by ", &connection.serial());
            tell_id(answer, ", next ", pair.client().backend().next_id());
        }
        None => answer.put("none"),
    }
}

/// Tells the server's connection, its last serial, its next own id, and what the client told of itself.
fn tell_handle(answer: &mut Answer, pair: &Pair) {
    match pair.handle() {
        Some(handle) => {
            tell_id(answer, "", handle.connection().as_object().id());
            tell(answer, " by ", &handle.last_serial());
            tell_id(answer, ", next ", handle.context().backend().next_id());
            let letters = handle.name().map_or(0, |name| name.len());
            tell(answer, ", name of ", &letters);
            answer.put(", ");
            answer.show(&handle.context_type());
        }
        None => answer.put("none"),
    }
}

/// Tells of the handlers that were called.
fn tell_receipts(answer: &mut Answer, pair: &Pair) {
    let receipts = match pair.converter() {
        Some(converter) => converter.receipts(),
        None => &[],
    };
    if receipts.is_empty() {
        answer.put("none");
    }
    for one in receipts {
        tell(answer, "", &one.callback);
        tell(answer, " ", &one.value);
        tell(answer, " ", &one.answer);
        answer.put(" / ");
    }
}
