//! The calls of the table by their names.

use crate::acting::act;
use crate::feeding::{done, feed, start};
use crate::strict::ask;
use crate::told::{notices, requests, tell};
use reis_eis::Connection;
use reis_strict::Strict;
use std::alloc::Global;
use std::mem;
use test_table::{Answer, Answers, Reader, Stop};

/// The calls, with the connection of the lines before, and the policy beside it.
#[derive(Drop)]
pub(crate) struct Calls {
    pub(crate) connection: Option<Connection>,
    pub(crate) strict: Option<Strict>,
}

impl Answers for Calls {
    fn answer(&mut self, alloc: Global, call: &str) -> Result<String, Stop> {
        let mut words = Reader::new(call);
        let mut answer = Answer::new(alloc);
        self.add(alloc, &mut words, &mut answer);
        // Once for each call: where a word was wrong the program stops, whatever was done with it.
        answer.take(words.done());
        answer.text()
    }
}

impl Calls {
    /// Adds what a call answers.
    fn add(&mut self, alloc: Global, words: &mut Reader<'_>, answer: &mut Answer) {
        match words.word() {
            "start" => start(alloc, &mut self.connection, words.number(), answer),
            "strict" => self.add_strict(alloc, words, answer),
            name => match &mut self.connection {
                Some(connection) => call(alloc, connection, name, words, answer),
                None => answer.stop(Stop::Line),
            },
        }
    }

    /// `strict CALL`: adds what a call answers that asks the policy, or tells it; `strict start SERIAL`: a connection with its
    /// policy in place of those of the lines before.
    fn add_strict(&mut self, alloc: Global, words: &mut Reader<'_>, answer: &mut Answer) {
        let name = words.word();
        if name == "start" {
            // Let go by a call: at the end of a scope the drop of each field is proved anew.
            drop(mem::replace(&mut self.strict, Some(Strict::new(alloc))));
            return start(alloc, &mut self.connection, words.number(), answer);
        }
        match (&mut self.connection, &mut self.strict) {
            (Some(connection), Some(strict)) => {
                ask(alloc, connection, strict, name, words, answer)
            }
            _ => answer.stop(Stop::Line),
        }
    }
}

/// Adds what a call of the connection answers:
/// - `feed TIME HANDLES PART ..`: whether the parts are taken as one piece, with so many handles;
/// - `cut SIZE TIME HANDLES PART ..`: whether they are taken in pieces of so many bytes, but for the last, which may have
///   fewer, each with so many handles. It stops at one that isn't taken;
/// - `end`: whether the end of the input is taken;
/// - `sent BYTES`: whether so many bytes wait no more, and with the first of them the handles;
/// - `next` and `requests`: the next request, and all that wait; `notice` and `notices`: the same of notices;
/// - `unsent`, `unsent-handles`, `ending` and `client`: what waits to be written, how the connection ended, and the client's
///   context type with its name;
/// - the calls of `acting`; those of `strict` have that word in front.
fn call(
    alloc: Global,
    connection: &mut Connection,
    name: &str,
    words: &mut Reader<'_>,
    answer: &mut Answer,
) {
    match name {
        "feed" => feed(alloc, connection, None, words, answer),
        "cut" => feed(alloc, connection, Some(words.count()), words, answer),
        "end" => done(connection.end_of_input(), answer),
        "sent" => done(connection.sent(words.count()), answer),
        "next" => requests(connection, 1, answer),
        "requests" => requests(connection, 100, answer),
        "notice" => notices(connection, 1, answer),
        "notices" => notices(connection, 100, answer),
        "unsent" | "unsent-handles" | "ending" | "client" => {
            tell(alloc, connection, name, answer)
        }
        _ => act(alloc, connection, name, words, answer),
    }
}
