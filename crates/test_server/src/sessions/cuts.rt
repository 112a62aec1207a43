//! A stream in each cut, at each limit of its pieces.

use super::outside::Options;
use super::serving::{put_wrong, served};
use super::told::lines_of;
use super::world::{Stage, World};
use crate::kept::or;
use crate::setups::setup_of;
use test_table::{Answer, Reader, count};

/// The greeting, `handshake_version(1)`.
const GREETING: &str = "0000000000000000140000000000000001000000";

/// The sizes of the pieces.
const SIZES: [&str; 4] = ["1", "5", "16", "65536"];

/// A stream: its parts and how many bytes they have, what is told of it without a limit, with how many of its bytes all
/// that is sent goes out, and with how many the session is over, before the source's end.
#[derive(Clone, Copy)]
struct Stream<'a> {
    parts: &'a str,
    bytes: usize,
    whole: &'a str,
    replied: usize,
    over: usize,
}

/// `limits REPLIED OVER`: whether the stream of the last session tells, in pieces of 1, 5, 16 and 65536 bytes, where none
/// is taken, one, one fewer than come, as many as come, or one more, what the session without a limit told, if its last
/// byte comes in one of these, or the byte with which it is over. Else one piece too many came: nothing was asked for, and
/// no more than the greeting was sent where what completes the reply hadn't come. `never` is a byte that no stream has.
pub(crate) fn limits(world: &mut World, words: &mut Reader<'_>, answer: &mut Answer) {
    let parts = world.parts.as_str();
    let stream = Stream {
        parts,
        bytes: bytes_in(parts),
        whole: world.told.as_str(),
        replied: mark(words),
        over: mark(words),
    };
    for cut in &SIZES {
        limit_cut(&mut world.stage, &stream, cut, answer);
    }
    answer.put("as they should be");
}

/// The number of bytes; `never` is more than any stream has.
fn mark(words: &mut Reader<'_>) -> usize {
    match words.word() {
        "never" => usize::MAX,
        word => words.or(count(word), 0),
    }
}

/// How many bytes the parts have.
fn bytes_in(parts: &str) -> usize {
    let mut digits = 0usize;
    for part in parts.split(' ') {
        digits = digits.saturating_add(part.len());
    }
    digits / 2
}

/// What is told at each limit where it isn't what it should be, in this cut.
fn limit_cut(stage: &mut Stage, stream: &Stream<'_>, cut: &str, answer: &mut Answer) {
    let size = or(answer, count(cut), 1).max(1);
    let come = stream.bytes.div_ceil(size);
    for most in &[0, 1, come.saturating_sub(1), come, come.saturating_add(1)] {
        limit(
            stage,
            stream,
            cut,
            *most,
            size.saturating_mul(*most),
            answer,
        );
    }
}

/// What is told where so many pieces are taken, which have so many bytes, if it isn't what it should be.
fn limit(
    stage: &mut Stage,
    stream: &Stream<'_>,
    cut: &str,
    most: usize,
    taken: usize,
    answer: &mut Answer,
) {
    let mut setup = setup_of(&mut Reader::new("5 127 0"));
    setup.pieces = u32::try_from(most).unwrap_or(u32::MAX);
    let told = served(stage, setup, &Options::new(), cut, stream.parts, answer);
    if !is_wanted(stream, told.as_str(), taken) {
        answer.display(&most);
        answer.put(" pieces ");
        put_wrong(cut, told.as_str(), answer);
    }
    drop(told);
}

/// Whether it is what should be told where so many bytes are taken.
fn is_wanted(stream: &Stream<'_>, told: &str, taken: usize) -> bool {
    if stream.over <= taken || stream.bytes <= taken {
        return told == stream.whole;
    }
    let (ended, asked, reply) = lines_of(told);
    let wanted = if stream.replied <= taken {
        lines_of(stream.whole).2
    } else {
        GREETING
    };
    ended == "error piece limit reached" && asked == "nothing" && reply == wanted
}
