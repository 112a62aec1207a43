//! A new server.

use crate::kept::set;
use crate::setups::{capabilities_of, setup_of};
use ei_types::Error;
use reis_server::Server;
use std::alloc::Global;
use test_table::{Answer, Reader, Stop};

/// `start SERIAL CAPABILITIES PIECES`: a server in place of that of the lines before.
pub(crate) fn start(
    alloc: Global,
    server: &mut Option<Server>,
    words: &mut Reader<'_>,
    answer: &mut Answer,
) {
    let setup = setup_of(words);
    stand(server, Server::start(alloc, setup), answer);
}

/// `unlimited SERIAL CAPABILITIES`: a server without a limit of pieces in place of that of the lines before.
pub(crate) fn start_unlimited(
    alloc: Global,
    server: &mut Option<Server>,
    words: &mut Reader<'_>,
    answer: &mut Answer,
) {
    let serial = words.number();
    let capabilities = capabilities_of(words);
    stand(
        server,
        Server::start_unlimited(alloc, serial, capabilities),
        answer,
    );
}

/// Lets what was started stand in the place. Only want of memory keeps it from being started.
fn stand(place: &mut Option<Server>, started: Result<Server, Error>, answer: &mut Answer) {
    match started {
        Ok(server) => {
            set(place, Some(server));
            answer.put("started");
        }
        Err(_) => answer.stop(Stop::NoMemory),
    }
}
