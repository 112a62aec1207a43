//! The calls of the table by their parts.

use crate::client::Client;
use crate::{converter, handshake, iterator};
use ei_iterator::EiConvertEventIterator;
use std::alloc::Global;
use test_table::{Answer, Answers, Reader, Stop, joined};

/// The client that the calls go on with, what the server sent until its connection, and the iterator behind the last
/// handshake that gave one.
#[derive(Drop)]
pub(crate) struct Calls {
    pub(crate) alloc: Global,
    pub(crate) client: Client,
    pub(crate) hello: Vec<u8>,
    pub(crate) iterator: Option<EiConvertEventIterator>,
}

impl Calls {
    /// A client that shook no hands.
    pub(crate) fn new(alloc: Global) -> Result<Calls, Stop> {
        match Client::new(alloc) {
            Ok(client) => Ok(Calls {
                alloc,
                client,
                hello: Vec::new(alloc),
                iterator: None,
            }),
            Err(stop) => Err(stop),
        }
    }
}

impl Answers for Calls {
    fn answer(&mut self, alloc: Global, call: &str) -> Result<String, Stop> {
        let mut words = Reader::new(call.trim_end());
        let mut answer = Answer::new(alloc);
        add(self, &mut words, &mut answer);
        // Once for each call: where a word was wrong the program stops, whatever was done with it.
        answer.take(words.done());
        answer.text()
    }

    fn is_wanted(&self, alloc: Global, found: &str, wanted: &str) -> Result<bool, Stop> {
        match joined(alloc, found) {
            Ok(found) => {
                let wanted = is_joined(alloc, found.as_str(), wanted);
                drop(found);
                wanted
            }
            Err(error) => Err(Stop::from(error)),
        }
    }
}

/// Whether the words, one behind another, are that text.
fn is_joined(alloc: Global, text: &str, words: &str) -> Result<bool, Stop> {
    match joined(alloc, words) {
        Ok(joined) => {
            let same = joined.as_str() == text;
            drop(joined);
            Ok(same)
        }
        Err(error) => Err(Stop::from(error)),
    }
}

/// Adds what a call of a part answers, see `handshake`, `converter` and `iterator`.
fn add(calls: &mut Calls, words: &mut Reader<'_>, answer: &mut Answer) {
    let part = words.word();
    let name = words.word();
    match part {
        "handshake" => handshake::add(&mut calls.client, name, words, answer),
        "converter" => converter::add(calls, name, words, answer),
        "iterator" => iterator::add(calls, name, words, answer),
        _ => answer.stop(Stop::Line),
    }
}
