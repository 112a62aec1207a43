//! The tables by their names, and what the lines before made.

use crate::caller::caller;
use crate::changing::Pair;
use crate::keys::Keys;
use crate::script::script;
use crate::spelled::{is_read, text_of};
use crate::{pair_calls, world_calls};
use ei_types::ContextType;
use ei_wire::NoMemory;
use ei_world::World;
use std::alloc::Global;
use std::mem;
use test_table::{Answer, Answers, Reader, Stop};

/// The world and the pair of the lines before, and what the pair's server made.
#[derive(Drop)]
pub(crate) struct Calls {
    world: Option<World>,
    pair: Option<Pair>,
    made: Keys,
}

impl Calls {
    /// Nothing is made.
    pub(crate) fn new(alloc: Global) -> Calls {
        Calls {
            world: None,
            pair: None,
            made: Keys::new(alloc),
        }
    }

    /// A call of the table that the first word names.
    fn call(&mut self, alloc: Global, answer: &mut Answer, mut words: Reader<'_>) {
        match words.word() {
            "world" => self.world(alloc, answer, words),
            "pair" => self.pair(alloc, answer, words),
            "emit" => script(alloc, answer, words),
            "caller" => caller(alloc, answer),
            _ => answer.stop(Stop::Line),
        }
    }

    /// A call of two endpoints over links: `new` makes others.
    fn world(&mut self, alloc: Global, answer: &mut Answer, mut words: Reader<'_>) {
        let name = words.word();
        if name == "new" {
            renew(answer, &mut self.world, World::new(alloc));
        } else {
            match &mut self.world {
                Some(world) => world_calls::make(alloc, answer, world, name, words),
                None => answer.stop(Stop::Line),
            }
        }
    }

    /// A call of two endpoints with handshakes and converters.
    fn pair(&mut self, alloc: Global, answer: &mut Answer, mut words: Reader<'_>) {
        let name = words.word();
        if name == "new" {
            self.begin(alloc, answer, words);
        } else {
            match &mut self.pair {
                Some(pair) => pair_calls::make(alloc, answer, pair, &mut self.made, name, words),
                None => answer.stop(Stop::Line),
            }
        }
    }

    /// `new NAME TYPE SERIAL`: another pair, whose server has made nothing. `t*9` is a name of nine letters.
    fn begin(&mut self, alloc: Global, answer: &mut Answer, mut words: Reader<'_>) {
        let name = words.word();
        let kind = kind_of(&mut words);
        let serial = words.number();
        if is_read(answer, &words) {
            let name = text_of(alloc, answer, name);
            let made = Pair::new(alloc, name.as_str(), kind, serial);
            drop(name);
            // Let go by a call: at the end of a scope the drop of each field is proved anew.
            drop(mem::replace(&mut self.made, Keys::new(alloc)));
            renew(answer, &mut self.pair, made);
        }
    }
}

/// What the client is for.
fn kind_of(words: &mut Reader<'_>) -> ContextType {
    match words.word() {
        "sender" => ContextType::Sender,
        "receiver" => ContextType::Receiver,
        _ => {
            words.miss();
            ContextType::Sender
        }
    }
}

/// Puts what was made into its place, and lets go what was there.
fn renew<T: Drop>(answer: &mut Answer, place: &mut Option<T>, made: Result<T, NoMemory>) {
    drop(mem::replace(place, answer.take(made)));
    answer.put("made");
}

impl Answers for Calls {
    /// The first word says the table.
    fn answer(&mut self, alloc: Global, call: &str) -> Result<String, Stop> {
        let mut answer = Answer::new(alloc);
        self.call(alloc, &mut answer, Reader::new(call.trim_end()));
        answer.text()
    }
}
