//! Whole sessions, and sessions turn by turn.

mod cuts;
mod handshaking;
mod outlet;
mod outside;
mod serving;
mod told;
mod turns;
mod world;

use self::cuts::limits;
use self::handshaking::pong_in_handshake;
pub(crate) use self::outlet::Outlet;
pub(crate) use self::serving::serve_over;
use self::serving::{put_left, serve_call};
use self::told::lines_of;
use self::turns::{put_turned_to, start, turn};
pub(crate) use self::world::World;
use crate::tables::Calls;
use std::alloc::Global;
use test_table::{Answer, Reader};

/// What a call answers:
/// - `serve SERIAL CAPABILITIES PIECES OPTION .. : PART ..`: how a whole session over these parts ends;
/// - `asked`, `reply`, `sent` and `left`: what the client asked for in it, the bytes that were sent, how many bytes and
///   handles, and how many pieces are left;
/// - `limits REPLIED OVER`: whether the parts tell the same in any cut, and what they should at any limit of pieces;
/// - `start`, with what `serve` has, `turn COUNT` and `turned-to`: a session turn by turn;
/// - `pong-in-handshake`: what a handshake answers to a request of another interface.
impl Calls for World {
    fn call(&mut self, _alloc: Global, _table: &str, words: &mut Reader<'_>, answer: &mut Answer) {
        match words.word() {
            "serve" => serve_call(self, words, answer),
            "limits" => limits(self, words, answer),
            "start" => start(self, words, answer),
            "turn" => turn(self, words, answer),
            name => tell(self, name, words, answer),
        }
    }
}

/// What is told of a session.
fn tell(world: &mut World, name: &str, words: &mut Reader<'_>, answer: &mut Answer) {
    let (_, asked, reply) = lines_of(world.told.as_str());
    match name {
        "asked" => answer.put(asked),
        "reply" => answer.put(reply),
        "sent" => put_sent(world, answer),
        "left" => put_left(&mut world.stage, answer),
        "turned-to" => put_turned_to(world, words, answer),
        "pong-in-handshake" => pong_in_handshake(world.alloc, answer),
        _ => words.miss(),
    }
}

/// How many bytes and handles were sent.
fn put_sent(world: &World, answer: &mut Answer) {
    let tray = &world.stage.sink.tray;
    answer.display(&tray.bytes().len());
    answer.put(" bytes and ");
    answer.display(&tray.handles().len());
    answer.put(" handles");
}
