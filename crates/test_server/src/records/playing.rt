//! Records that are played back.

ghost use Rattle.std.specs.Prelude.{◌≤◌, length};
ghost use Rattle.ei_types.specs.Capability.{bits_of, all_bits};

use crate::kept::or;
use crate::pieces::in_pieces;
use crate::sessions::{Outlet, serve_over};
use ei_backend::{Pieces, Readings};
use ei_replay::{ReplayError, replay};
use ei_request::EisRequest;
use ei_serve::Setup;
use std::alloc::Global;
use test_table::{Answer, Stop};

/// Plays the items, behind a byte and a request that are there already, and shows what came of it.
pub(crate) fn play(alloc: Global, setup: &Setup, items: &[EisRequest], answer: &mut Answer)
    requires lawful { bits_of setup.now.capabilities ≤ all_bits }
{
    if items.len() > 1000 {
        answer.stop(Stop::Line);
        return;
    }
    let mut stream = or(answer, vec![in alloc; 7u8], Vec::new(alloc));
    let mut out = Vec::new(alloc);
    answer.take(out.push(EisRequest::Disconnect));
    let played = replay(alloc, setup, items, &mut stream, &mut out);
    put_behind(alloc, setup, items, played, &stream, &out, answer);
    drop(out);
    drop(stream);
}

/// What came of it, behind what was there already.
fn put_behind(
    alloc: Global,
    setup: &Setup,
    items: &[EisRequest],
    played: Result<(), ReplayError>,
    stream: &[u8],
    out: &[EisRequest],
    answer: &mut Answer,
)
    requires lawful { bits_of setup.now.capabilities ≤ all_bits }
    requires few { length items.now ≤ 1000 }
{
    match (stream.split_first(), out.split_first()) {
        (Some((7, bytes)), Some((EisRequest::Disconnect, requests))) => {
            if !came(alloc, setup, items, played, bytes, requests, answer) {
                answer.put("not what it should be: ");
            }
            put_played(played, bytes.len(), requests.len(), answer);
        }
        _ => answer.stop(Stop::Call),
    }
}

/// How many requests came back, and by how many bytes; or which item is wrong.
fn put_played(played: Result<(), ReplayError>, bytes: usize, requests: usize, answer: &mut Answer) {
    match played {
        Ok(()) => put_counts(requests, bytes, answer),
        Err(ReplayError::NotReplayable(place)) => {
            answer.put("wrong ");
            answer.display(&place);
        }
        Err(ReplayError::NoMemory) => {
            answer.put("out of memory : ");
            put_counts(requests, bytes, answer);
        }
    }
}

fn put_counts(requests: usize, bytes: usize, answer: &mut Answer) {
    answer.display(&requests);
    answer.put(" by ");
    answer.display(&bytes);
}

/// Whether what came back is what it should be: the items, and the bytes by which a server hands them out; nothing, where an
/// item is wrong; where memory ran out, the first of them.
fn came(
    alloc: Global,
    setup: &Setup,
    items: &[EisRequest],
    played: Result<(), ReplayError>,
    bytes: &[u8],
    requests: &[EisRequest],
    answer: &mut Answer,
) -> bool
    requires lawful { bits_of setup.now.capabilities ≤ all_bits }
    requires few { length items.now ≤ 1000 }
{
    match played {
        Ok(()) => requests == items && serves(alloc, setup, bytes, items, answer),
        Err(ReplayError::NotReplayable(_)) => requests.is_empty() && bytes.is_empty(),
        Err(ReplayError::NoMemory) => {
            items.starts_with(requests) && begins(alloc, setup, items, bytes)
        }
    }
}

/// Whether the bytes are the first of those by which the items are played.
fn begins(alloc: Global, setup: &Setup, items: &[EisRequest], bytes: &[u8]) -> bool
    requires lawful { bits_of setup.now.capabilities ≤ all_bits }
    requires few { length items.now ≤ 1000 }
{
    let mut all = Vec::new(alloc);
    let mut out = Vec::new(alloc);
    let played = replay(alloc, setup, items, &mut all, &mut out);
    let begins = played.is_ok() && all.starts_with(bytes);
    drop(out);
    drop(all);
    begins
}

/// Whether a server of this setup hands out these items of these bytes, too.
fn serves(
    alloc: Global,
    setup: &Setup,
    bytes: &[u8],
    items: &[EisRequest],
    answer: &mut Answer,
) -> bool
    requires lawful { bits_of setup.now.capabilities ≤ all_bits }
{
    let mut source = in_pieces(alloc, bytes, answer);
    let mut out = Vec::new(alloc);
    recorded(alloc, setup, &mut source, &mut out, answer);
    let same = items == &*out;
    drop(out);
    drop(source);
    same
}

/// Adds the requests of a session over that source.
pub(crate) fn recorded(
    alloc: Global,
    setup: &Setup,
    source: &mut Pieces,
    out: &mut Vec<EisRequest>,
    answer: &mut Answer,
)
    requires lawful { bits_of setup.now.capabilities ≤ all_bits }
{
    let Some(mut clock) = answer.take(Readings::new(alloc, &[])) else {
        return;
    };
    let mut sink = Outlet::new(alloc, usize::MAX, 0);
    if serve_over(alloc, source, &mut sink, &mut clock, *setup, out).is_err() {
        answer.stop(Stop::Call);
    }
    drop(sink);
    drop(clock);
}
