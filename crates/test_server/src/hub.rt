//! The calls of several clients in one loop.

mod joining;
mod serving;

use self::joining::{fails, join, joins};
use self::serving::{put_told, serve, turn};
use crate::kept::set;
use crate::setups::setup_with;
use crate::tables::Calls;
use ei_backend::{Pieces, Tray};
use ei_hub::Hub;
use std::alloc::Global;
use test_table::{Answer, Reader};

/// A hub over sources and sinks in memory.
pub(crate) type Clients = Hub<Pieces, Tray>;

/// The hub of the lines before.
#[derive(Drop)]
pub(crate) struct Hubs {
    hub: Option<Clients>,
}

impl Hubs {
    /// No hub.
    pub(crate) fn new() -> Hubs {
        Hubs { hub: None }
    }
}

/// What a call answers: `new CAPABILITIES`: a hub in place of that of the lines before; and the calls of the hub.
impl Calls for Hubs {
    fn call(&mut self, alloc: Global, _table: &str, words: &mut Reader<'_>, answer: &mut Answer) {
        match words.word() {
            "new" => make(alloc, &mut self.hub, words, answer),
            name => match &mut self.hub {
                Some(hub) => called(alloc, hub, name, words, answer),
                None => words.miss(),
            },
        }
    }
}

/// `new CAPABILITIES`: a hub without clients.
fn make(alloc: Global, hub: &mut Option<Clients>, words: &mut Reader<'_>, answer: &mut Answer) {
    let setup = setup_with(words);
    set(hub, Some(Hub::new(alloc, setup)));
    answer.put("made");
}

fn called(
    alloc: Global,
    hub: &mut Clients,
    name: &str,
    words: &mut Reader<'_>,
    answer: &mut Answer,
) {
    match name {
        "join" => join(alloc, hub, words, answer),
        "fails" => fails(alloc, hub, words, answer),
        "joins" => joins(alloc, hub, words, answer),
        "count" => answer.display(&hub.count()),
        "serve" => serve(alloc, hub, words, answer),
        "turn" => turn(alloc, hub, words, answer),
        "told" => put_told(alloc, hub, words, answer),
        _ => words.miss(),
    }
}
