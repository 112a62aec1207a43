//! A session that is turned by hand.

use super::outside::options_and_parts;
use super::world::{Stage, World};
use crate::kept::set;
use crate::reports::{put_asked, put_digits, put_error};
use crate::setups::setup_of;
use crate::texts::display;
use ei_serve::{Session, Turn};
use ei_types::Error;
use test_table::{Answer, Reader, Stop};

/// `start SERIAL CAPABILITIES PIECES OPTION .. : PART ..`: whether a session starts.
pub(crate) fn start(world: &mut World, words: &mut Reader<'_>, answer: &mut Answer) {
    let setup = setup_of(words);
    let (options, parts) = options_and_parts(words, answer);
    world.stage.prepare(&options, options.cuts, parts, answer);
    match Session::start(world.alloc, setup, &mut world.stage.sink) {
        Ok(session) => {
            set(&mut world.session, Some(session));
            answer.put("started");
        }
        Err(error) => put_error(answer, &error),
    }
}

/// `turn COUNT`: what the last of so many turns answers; those before it go on.
pub(crate) fn turn(world: &mut World, words: &mut Reader<'_>, answer: &mut Answer) {
    match &mut world.session {
        Some(session) => turn_often(session, &mut world.stage, words.number(), answer),
        None => words.miss(),
    }
}

/// Turns so often.
fn turn_often(session: &mut Session, stage: &mut Stage, count: u32, answer: &mut Answer) {
    for _ in 1..count {
        go_on(session, stage, answer);
    }
    if let Some(turned) = turned(session, stage, answer) {
        put_turn(answer, &turned);
        drop(turned);
    }
}

/// A turn that goes on.
fn go_on(session: &mut Session, stage: &mut Stage, answer: &mut Answer) {
    let turned = turned(session, stage, answer);
    if !matches!(turned, Some(Ok(Turn::GoOn))) {
        answer.stop(Stop::Call);
    }
    drop(turned);
}

/// What a turn answers.
fn turned(
    session: &mut Session,
    stage: &mut Stage,
    answer: &mut Answer,
) -> Option<Result<Turn, Error>> {
    if session.is_over() {
        answer.stop(Stop::Call);
        return None;
    }
    Some(session.turn(
        &mut stage.source,
        &mut stage.sink,
        &mut stage.clock,
        &mut stage.out,
    ))
}

/// A turn's answer, in words.
fn put_turn(answer: &mut Answer, turned: &Result<Turn, Error>) {
    match turned {
        Ok(Turn::GoOn) => answer.put("goes on"),
        Ok(Turn::Disconnect) => answer.put("disconnect"),
        Ok(Turn::End) => answer.put("eof"),
        Err(error) => put_error(answer, error),
    }
}

/// `turned-to`: whether the session is over, how many unread bytes it can hold, how many bytes wait to be sent, what was
/// asked for and what was sent.
pub(crate) fn put_turned_to(world: &World, words: &mut Reader<'_>, answer: &mut Answer) {
    let Some(session) = &world.session else {
        words.miss();
        return;
    };
    display(answer, &session.is_over());
    display(answer, &session.buffer_capacity());
    display(answer, &session.unsent_len());
    put_asked(world.alloc, &world.stage.out, answer);
    answer.put(" ");
    put_digits(world.alloc, world.stage.sink.tray.bytes(), answer);
}
