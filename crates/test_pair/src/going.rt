//! Bytes that go from one end to the other, and what can be seen of a side.

use crate::linked::Linked;
use crate::shown::{tell, tell_read_error};
use crate::spelled::is_read;
use ei_linked::Side;
use ei_wire::ReadError;
use test_table::{Answer, Reader, Stop};

/// `flush SIDE`.
pub(crate) fn flush<T: Linked>(answer: &mut Answer, ends: &mut T, side: Side) {
    ends.send_all(answer, side);
    answer.put("done");
}

/// `deliver SIDE BYTES`: so many bytes.
pub(crate) fn deliver<T: Linked>(
    answer: &mut Answer,
    ends: &mut T,
    side: Side,
    mut words: Reader<'_>,
) {
    let n = words.count();
    if is_read(answer, &words) {
        match ends.hand_over(answer, side, n) {
            Ok(n) => answer.display(&n),
            Err(error) => tell_read_error(answer, error),
        }
    }
}

/// `deliver-all SIDE`: how many bytes came, and why no more came where it was refused.
pub(crate) fn deliver_all<T: Linked>(answer: &mut Answer, ends: &mut T, side: Side) {
    let (bytes, refused) = pour(answer, ends, side);
    answer.display(&bytes);
    if let Some(error) = refused {
        answer.put(" ");
        tell_read_error(answer, error);
    }
}

/// Hands over all that is there: how many bytes came, and why no more came where it was refused.
fn pour<T: Linked>(answer: &mut Answer, ends: &mut T, side: Side) -> (usize, Option<ReadError>) {
    let mut bytes = 0usize;
    for _ in 0..u64::MAX {
        match ends.hand_over(answer, side, 1536) {
            Ok(0) => break,
            Ok(n) => bytes = bytes.saturating_add(n),
            Err(error) => return (bytes, Some(error)),
        }
    }
    (bytes, None)
}

/// What can be seen of a side: `sent SIDE COUNT` and `taken SIDE COUNT` show what stands behind the first so many.
pub(crate) fn look_at<T: Linked>(
    answer: &mut Answer,
    ends: &T,
    name: &str,
    side: Side,
    mut words: Reader<'_>,
) {
    let past = past(&mut words);
    if is_read(answer, &words) {
        match name {
            "sent" => ends.tell_sent(answer, side, past),
            "taken" => ends.tell_taken(answer, side, past),
            _ => tell_count(answer, ends, name, side),
        }
    }
}

/// Tells what can be counted at a side.
fn tell_count<T: Linked>(answer: &mut Answer, ends: &T, name: &str, side: Side) {
    let counted = ends.counted(side);
    match name {
        "count" => tell_both(answer, counted.sent, counted.taken),
        "waiting" => tell_both(answer, counted.unsent, counted.unread),
        "closed" => answer.display(&counted.is_closed),
        _ => answer.stop(Stop::Line),
    }
}

/// Tells two numbers.
fn tell_both(answer: &mut Answer, one: usize, other: usize) {
    answer.display(&one);
    tell(answer, " ", &other);
}

/// How many messages are passed over: none where no word says it.
fn past(words: &mut Reader<'_>) -> usize {
    if words.rest().is_empty() {
        0
    } else {
        words.count()
    }
}
