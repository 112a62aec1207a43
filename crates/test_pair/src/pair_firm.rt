//! A call that may want memory: what it leaves of the pair.

ghost use Rattle.std.specs.Prelude.{◌≡◌, false};

use crate::asking::ask_sync;
use crate::changing::Pair;
use crate::counted::{Counts, counts_of, lists_as_before};
use crate::keys::Keys;
use crate::linked::Linked;
use crate::making::{announce, announce_device};
use crate::pair_steps::step_once;
use crate::spelled::{capabilities, is_read, side_of};
use ei_linked::Side;
use ei_pair::Made;
use ei_types::{DeviceCapabilities, Error};
use ei_wire::{NoMemory, ReadError, SendError};
use std::alloc::Global;
use test_table::{Answer, Reader, Stop};

/// A call, to be made once or twice: a seat has a name, and a device the place of its seat and a name.
#[derive(Clone, Copy)]
enum Deed<'a> {
    Flush(Side),
    Deliver(Side, usize),
    Step(Side),
    Sync(u64),
    Seat(&'a str, DeviceCapabilities),
    Device(usize, &'a str, DeviceCapabilities),
}

/// What a call came to.
#[derive(Clone, Copy)]
enum Came {
    Made,
    Nothing,
    Refused,
    MayNot,
    WantsMemory,
}

/// What can be seen of a pair before a call, and behind it: what is counted, whether it is steady, and whether a step of the
/// client, and of the server, wanted memory.
#[derive(Clone, Copy)]
struct Seen {
    counts: Counts,
    is_steady: bool,
    wanted: (bool, bool),
}

impl Seen {
    /// What can be seen now.
    fn of(pair: &Pair) -> Seen {
        Seen {
            counts: counts_of(pair),
            is_steady: pair.is_steady(),
            wanted: (
                pair.wanted_memory(Side::Client),
                pair.wanted_memory(Side::Server),
            ),
        }
    }
}

/// The call that the words spell.
fn deed_of<'a>(words: &mut Reader<'a>) -> Deed<'a> {
    match words.word() {
        "flush" => Deed::Flush(side_of(words)),
        "deliver" => Deed::Deliver(side_of(words), words.count()),
        "step" => Deed::Step(side_of(words)),
        "sync" => Deed::Sync(words.id()),
        "seat" => Deed::Seat(words.word(), capabilities(words)),
        "device" => Deed::Device(words.count(), words.word(), capabilities(words)),
        _ => {
            words.miss();
            Deed::Sync(0)
        }
    }
}

/// Makes the call.
fn make(
    alloc: Global,
    answer: &mut Answer,
    pair: &mut Pair,
    keys: &mut Keys,
    deed: Deed<'_>,
) -> Came {
    match deed {
        Deed::Flush(side) => flush(pair, side),
        Deed::Deliver(side, n) => delivered(pair.hand_over(answer, side, n)),
        Deed::Step(side) => stepped(step_once(alloc, answer, pair, side)),
        Deed::Sync(by) => sync(pair, by),
        Deed::Seat(name, wanted) => {
            let made = announce(alloc, answer, pair, name, wanted);
            kept(answer, keys, made)
        }
        Deed::Device(place, name, wanted) => {
            let made = announce_device(alloc, answer, pair, keys, place, name, wanted);
            kept(answer, keys, made)
        }
    }
}

fn flush(pair: &mut Pair, side: Side) -> Came {
    if pair.is_spent() {
        return Came::MayNot;
    }
    match pair.flush(side) {
        Ok(()) => Came::Made,
        Err(NoMemory) => Came::WantsMemory,
    }
}

/// What a delivery came to.
fn delivered(came: Result<usize, ReadError>) -> Came {
    match came {
        Ok(0) => Came::Nothing,
        Ok(_) => Came::Made,
        Err(ReadError::NoMemory) => Came::WantsMemory,
        Err(_) => Came::Refused,
    }
}

/// What a step came to.
fn stepped(came: Result<bool, Error>) -> Came {
    match came {
        Ok(true) => Came::Made,
        Ok(false) => Came::Nothing,
        Err(Error::NoMemory) => Came::WantsMemory,
        Err(_) => Came::Refused,
    }
}

fn sync(pair: &mut Pair, by: u64) -> Came {
    match ask_sync(pair, by) {
        Some(Ok(callback)) => {
            // Let go by a call: at the end of a scope the drop of each field is proved anew.
            drop(callback);
            Came::Made
        }
        Some(Err(error)) => refused(error),
        None => Came::MayNot,
    }
}

/// What a call came to that is refused so.
fn refused(error: SendError) -> Came {
    match error {
        SendError::NoMemory => Came::WantsMemory,
        _ => Came::Refused,
    }
}

/// What a call of the server came to. What it made is kept.
fn kept(answer: &mut Answer, keys: &mut Keys, made: Option<Result<Made, SendError>>) -> Came {
    match made {
        Some(Ok(made)) => {
            keep(answer, keys, made);
            Came::Made
        }
        Some(Err(error)) => refused(error),
        None => Came::MayNot,
    }
}

/// Keeps what was made.
fn keep(answer: &mut Answer, keys: &mut Keys, made: Made) {
    match made {
        Made::Seat(seat) => drop(answer.take(keys.seats.push(seat))),
        Made::Device(device) => drop(answer.take(keys.devices.push(device))),
        Made::Nothing => {}
    }
}

/// `firm CALL`: makes the call, and once more where it wants memory and left all as it was. By a step that wants memory its
/// message may be gone; and a pair that is spent has the lists that it had.
pub(crate) fn firm(
    alloc: Global,
    answer: &mut Answer,
    pair: &mut Pair,
    keys: &mut Keys,
    mut words: Reader<'_>,
) {
    let deed = deed_of(&mut words);
    if pair.is_spent() {
        answer.put("spent before");
    } else if is_read(answer, &words) {
        make_twice(alloc, answer, pair, keys, deed);
    }
}

/// Makes the call, and once more where it wants memory and left all as it was. Tells what it came to.
fn make_twice(
    alloc: Global,
    answer: &mut Answer,
    pair: &mut Pair,
    keys: &mut Keys,
    deed: Deed<'_>,
) {
    let before = Seen::of(pair);
    let left = match make(alloc, answer, pair, keys, deed) {
        Came::WantsMemory => left_by(deed, pair, before),
        came => Some(name_of_came(came)),
    };
    match left {
        Some(left) => answer.put(left),
        None => make_again(alloc, answer, pair, keys, deed),
    }
}

/// Makes a call again. Tells what it came to.
fn make_again(
    alloc: Global,
    answer: &mut Answer,
    pair: &mut Pair,
    keys: &mut Keys,
    deed: Deed<'_>,
) {
    match make(alloc, answer, pair, keys, deed) {
        Came::Made => answer.put("made again"),
        Came::WantsMemory => answer.stop(Stop::NoMemory),
        came => answer.put(name_of_came(came)),
    }
}

/// What a call that wanted memory left of the pair; `None` where all is as it was.
fn left_by(deed: Deed<'_>, pair: &Pair, before: Seen) -> Option<&'static str> {
    let after = Seen::of(pair);
    if after.wanted != wanted_by(deed, before.wanted) {
        return Some("untold");
    }
    if pair.is_spent() {
        return Some(lists_as_before(pair, before.counts));
    }
    if is_lost(deed, after.counts, before.counts) {
        return Some("lost");
    }
    if after.counts == before.counts && after.is_steady == before.is_steady {
        None
    } else {
        Some("changed")
    }
}

/// Whether a step of the client, and of the server, wanted memory behind the call, which wanted some.
fn wanted_by(deed: Deed<'_>, before: (bool, bool)) -> (bool, bool) {
    match deed {
        Deed::Step(Side::Client) => (true, before.1),
        Deed::Step(Side::Server) => (before.0, true),
        _ => before,
    }
}

fn name_of_came(came: Came) -> &'static str {
    match came {
        Came::Made => "made",
        Came::Nothing => "nothing",
        Came::Refused => "refused",
        Came::MayNot => "may not",
        Came::WantsMemory => "out of memory",
    }
}

/// Whether a step took its message, and all that was sent is as it was.
fn is_lost(deed: Deed<'_>, after: Counts, before: Counts) -> bool {
    let (client, server) = match deed {
        Deed::Step(Side::Client) => (1, 0),
        Deed::Step(Side::Server) => (0, 1),
        _ => return false,
    };
    after.client.sent == before.client.sent
        && after.server.sent == before.server.sent
        && after.client.taken == before.client.taken.saturating_add(client)
        && after.server.taken == before.server.taken.saturating_add(server)
}
