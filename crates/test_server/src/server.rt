//! The calls of a session for a program with a loop of its own, which is called by the lines below that start it.

mod feeding;
mod starting;
mod telling;

use self::feeding::{feed, feed_cut, put_done, sent};
use self::starting::{start, start_unlimited};
use self::telling::{put_requests, put_told};
use crate::tables::Calls;
use reis_server::Server;
use std::alloc::Global;
use test_table::{Answer, Reader};

/// The server of the lines before.
#[derive(Drop)]
pub(crate) struct Servers {
    server: Option<Server>,
}

impl Servers {
    /// No server.
    pub(crate) fn new() -> Servers {
        Servers { server: None }
    }
}

/// What a call answers:
/// - `start SERIAL CAPABILITIES PIECES` and `unlimited SERIAL CAPABILITIES`: whether a server started;
/// - the calls of the server.
impl Calls for Servers {
    fn call(&mut self, alloc: Global, _table: &str, words: &mut Reader<'_>, answer: &mut Answer) {
        match words.word() {
            "start" => start(alloc, &mut self.server, words, answer),
            "unlimited" => start_unlimited(alloc, &mut self.server, words, answer),
            name => match &mut self.server {
                Some(server) => called(alloc, server, name, words, answer),
                None => words.miss(),
            },
        }
    }
}

/// What a call of the server answers:
/// - `feed TIME HANDLES PART ..`: whether the parts are taken as one piece, with so many handles;
/// - `cut SIZE TIME HANDLES PART ..`: whether they are taken in pieces of so many bytes, each with so many handles;
/// - `end`: whether the end of the input is taken;
/// - `sent BYTES HANDLES`: whether so many wait no more;
/// - `next` and `requests`: the next request, and all that wait;
/// - `unsent`, `unsent-handles`, `answer` and `over`: what waits to be sent, and how the session ended;
/// - `client`: its context type, and its name where it told one.
fn called(
    alloc: Global,
    server: &mut Server,
    name: &str,
    words: &mut Reader<'_>,
    answer: &mut Answer,
) {
    match name {
        "feed" => feed(alloc, server, words, answer),
        "cut" => feed_cut(alloc, server, words, answer),
        "end" => put_done(answer, server.end_of_input()),
        "sent" => sent(server, words, answer),
        "next" => put_requests(alloc, server, 1, answer),
        "requests" => put_requests(alloc, server, 100, answer),
        _ => put_told(alloc, server, name, answer),
    }
}
