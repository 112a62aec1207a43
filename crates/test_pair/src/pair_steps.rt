//! Steps, one after another.

ghost use Rattle.std.specs.Prelude.{◌≡◌, ◌<◌, ◌≤◌, false};

use crate::changing::Pair;
use crate::going::deliver_all;
use crate::linked::Linked;
use crate::shown::tell;
use crate::spelled::other;
use ei_backend::Readings;
use ei_linked::Side;
use ei_types::Error;
use std::alloc::Global;
use std::mem;
use test_table::{Answer, Stop};

/// How many messages were handed on, and why no more where one was refused.
#[derive(Drop)]
struct Stepped {
    many: usize,
    why: Option<Error>,
}

impl Stepped {
    /// None was handed on.
    fn new() -> Stepped {
        Stepped { many: 0, why: None }
    }

    /// What a step came to. Whether it handed a message on.
    fn goes_on(&mut self, answer: &mut Answer, stepped: Result<bool, Error>) -> bool {
        match stepped {
            Ok(handed_on) => {
                self.many = self.many.saturating_add(usize::from(handed_on));
                return handed_on;
            }
            Err(Error::NoMemory) => answer.stop(Stop::NoMemory),
            Err(error) => drop(mem::replace(&mut self.why, Some(error))),
        }
        false
    }
}

/// A step of the side. A frame that is made has the time 7.
pub(crate) fn step_once(
    alloc: Global,
    answer: &mut Answer,
    pair: &mut Pair,
    side: Side,
) -> Result<bool, Error> {
    if pair.is_spent() {
        answer.stop(Stop::Call);
        return Ok(false);
    }
    match answer.take(Readings::new(alloc, &[7])) {
        Some(mut clock) => {
            let stepped = pair.step(side, &mut clock);
            // Let go by a call: at the end of a scope the drop of each field is proved anew.
            drop(clock);
            stepped
        }
        None => Ok(false),
    }
}

/// `carry SIDE`: all that waits at the side goes to the other: how many bytes came, and why no more came where it was refused.
pub(crate) fn carry(answer: &mut Answer, pair: &mut Pair, side: Side) {
    pair.send_all(answer, side);
    deliver_all(answer, pair, other(side));
}

/// `step SIDE`.
pub(crate) fn step(alloc: Global, answer: &mut Answer, pair: &mut Pair, side: Side) {
    match step_once(alloc, answer, pair, side) {
        Ok(true) => answer.put("stepped"),
        Ok(false) => answer.put("nothing"),
        Err(Error::NoMemory) => answer.stop(Stop::NoMemory),
        Err(error) => {
            answer.display(&error);
            drop(error);
        }
    }
}

/// Steps of the side until no whole message waits, or one is refused.
fn step_all(
    alloc: Global,
    answer: &mut Answer,
    pair: &mut Pair,
    side: Side,
    stepped: &mut Stepped,
) {
    for _ in 0..u64::MAX {
        let one = step_once(alloc, answer, pair, side);
        if !stepped.goes_on(answer, one) {
            break;
        }
    }
}

/// `steps SIDE`: how many messages were handed on, and why no more where one was refused.
pub(crate) fn steps(alloc: Global, answer: &mut Answer, pair: &mut Pair, side: Side) {
    let mut stepped = Stepped::new();
    step_all(alloc, answer, pair, side, &mut stepped);
    answer.display(&stepped.many);
    if let Some(error) = &stepped.why {
        tell(answer, " ", error);
    }
    drop(stepped);
}

/// Flushes the side, and hands all of it to the other in pieces of so many bytes, with all its steps behind each.
fn pass(
    alloc: Global,
    answer: &mut Answer,
    pair: &mut Pair,
    from: Side,
    n: usize,
    stepped: &mut Stepped,
) {
    pair.send_all(answer, from);
    for _ in 0..u64::MAX {
        let came = pair.hand_over(answer, other(from), n).unwrap_or(0);
        step_all(alloc, answer, pair, other(from), stepped);
        if came == 0 || stepped.why.is_some() {
            break;
        }
    }
}

/// There, and where no step was refused back.
fn turn(alloc: Global, answer: &mut Answer, pair: &mut Pair, n: usize, stepped: &mut Stepped) {
    pass(alloc, answer, pair, Side::Server, n, stepped);
    if stepped.why.is_none() {
        pass(alloc, answer, pair, Side::Client, n, stepped);
    }
}

/// `settle`: both ways, in pieces of so many bytes, until nothing waits: `settled`, or why a step was refused.
pub(crate) fn settle(alloc: Global, answer: &mut Answer, pair: &mut Pair, n: usize) {
    let mut stepped = Stepped::new();
    for _ in 0..u64::MAX {
        let before = stepped.many;
        turn(alloc, answer, pair, n, &mut stepped);
        if stepped.many == before || stepped.why.is_some() {
            break;
        }
    }
    match &stepped.why {
        Some(error) => answer.display(error),
        None => answer.put("settled"),
    }
    drop(stepped);
}
