//! The calls of records: tested, played back, and sifted by rules.

mod inputs;
mod items;
mod keys;
mod playing;
mod rules;
mod sifting;
mod spelled;

use self::items::items_of;
use self::keys::Keys;
use self::playing::{play, recorded};
use self::sifting::{put_rules, sift};
use crate::handshakes::connected;
use crate::pieces::{bytes_of, source_of};
use crate::setups::setup_with;
use crate::tables::Calls;
use ei_replay::{ReplayError, check};
use ei_request::EisRequest;
use std::alloc::Global;
use test_table::{Answer, Reader, Stop};

/// The record of the line before, which a session made or rules let through, and the keys of the seats and devices that its
/// items name.
#[derive(Drop)]
pub(crate) struct Records {
    record: Vec<EisRequest>,
    keys: Keys,
}

impl Records {
    /// No record, and no keys.
    pub(crate) fn new(alloc: Global) -> Records {
        Records {
            record: Vec::new(alloc),
            keys: Keys::new(alloc),
        }
    }
}

/// What a call of a record answers:
/// - `serve CAPABILITIES PART ..`: the requests of a session are the record, and their keys are kept: of the table `replay`
///   how many there are, of the table `filter` how many devices became ready;
/// - `second-seat PART ..`: keeps the keys of a second seat, and of a device of it;
/// - `check CAPABILITIES`: whether the record can be played back; with `: ITEM ; ITEM ..` behind it, whether these items can;
/// - `replay CAPABILITIES`: plays the record back, or with `: ITEM ; ITEM ..` behind it these items;
/// - `sift BY RULE .. : ITEM ; ITEM ..`: what passes, at times divided by that number, or at 0 for the number 0. Where memory
///   ran out, what had been handed out by then. What passed is the record;
/// - `rules RULE ..`: how many rules there are, and of each that is taken out, the last one first, whether it is asked.
impl Calls for Records {
    fn call(&mut self, alloc: Global, table: &str, words: &mut Reader<'_>, answer: &mut Answer) {
        match words.word() {
            "serve" => {
                serve(alloc, self, words, answer);
                answer.display(&self.count(table));
            }
            "second-seat" => keep_second(alloc, &mut self.keys, words, answer),
            "check" => check_items(alloc, self, words, answer),
            "replay" => replay_items(alloc, self, words, answer),
            "sift" => sift(alloc, &self.keys.devices, words, &mut self.record, answer),
            "rules" => put_rules(alloc, words, answer),
            _ => words.miss(),
        }
    }
}

impl Records {
    /// How many requests the record has, or how many devices became ready in it.
    fn count(&self, table: &str) -> usize {
        match table {
            "replay" => self.record.len(),
            _ => self.keys.devices.len(),
        }
    }
}

/// Lets the requests of a session be the record, and keeps their keys.
fn serve(alloc: Global, records: &mut Records, words: &mut Reader<'_>, answer: &mut Answer) {
    let setup = setup_with(words);
    let mut source = source_of(alloc, words.rest(), answer);
    records.record.clear();
    recorded(alloc, &setup, &mut source, &mut records.record, answer);
    drop(source);
    records.keys.learn(&records.record, answer);
}

/// Keeps the keys of a second seat, and of a device of it, of a connection that the client makes by these parts.
fn keep_second(alloc: Global, keys: &mut Keys, words: &mut Reader<'_>, answer: &mut Answer) {
    let sent = bytes_of(alloc, words.rest().trim_end(), answer);
    if let Some(mut converter) = connected(alloc, 5, &sent, answer) {
        keys.learn_second(converter.handle_mut(), answer);
        drop(converter);
        answer.put("kept");
    }
    drop(sent);
}

/// Whether the record, or what is spelled, can be played back.
fn check_items(alloc: Global, records: &Records, words: &mut Reader<'_>, answer: &mut Answer) {
    let setup = setup_with(words);
    match words.rest().strip_prefix(':') {
        Some(line) => {
            let items = items_of(alloc, &records.keys, line, answer);
            put_checked(answer, check(alloc, &setup, &items));
            drop(items);
        }
        None => put_checked(answer, check(alloc, &setup, &records.record)),
    }
}

/// Whether it can be played back.
fn put_checked(answer: &mut Answer, checked: Result<(), ReplayError>) {
    match checked {
        Ok(()) => answer.put("ok"),
        Err(ReplayError::NotReplayable(place)) => {
            answer.put("wrong ");
            answer.display(&place);
        }
        Err(ReplayError::NoMemory) => answer.stop(Stop::Call),
    }
}

/// Plays the record, or what is spelled.
fn replay_items(alloc: Global, records: &Records, words: &mut Reader<'_>, answer: &mut Answer) {
    let setup = setup_with(words);
    match words.rest().strip_prefix(':') {
        Some(line) => {
            let items = items_of(alloc, &records.keys, line, answer);
            play(alloc, &setup, &items, answer);
            drop(items);
        }
        None => play(alloc, &setup, &records.record, answer),
    }
}
