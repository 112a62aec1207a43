//! Seats and devices by their keys.

use crate::client::Client;
use crate::words::{capabilities, push};
use std::fmt::Debug;
use std::hash::{FoldHasher, Hash, Hasher};
use test_table::{Answer, Reader, Stop};

/// `bind PLACE CAPABILITIES`: adds whether it is done.
pub(crate) fn bind(client: &mut Client, words: &mut Reader<'_>, answer: &mut Answer) {
    let (at, capabilities) = (words.count(), capabilities(words));
    let (Some(converter), Some(seat)) = (&client.converter, client.seats.get(at)) else {
        return answer.stop(Stop::Line);
    };
    let done = seat.bind_capabilities(converter, &mut client.context, capabilities);
    push(answer, &done);
    drop(done);
}

/// `seats PLACE PLACE` and `devices PLACE PLACE`: adds how the keys stand to each other.
pub(crate) fn compare<K: Clone + Debug + Drop + Eq + Hash>(
    keys: &[K],
    words: &mut Reader<'_>,
    answer: &mut Answer,
) {
    let (one, other) = (words.count(), words.count());
    match (keys.get(one), keys.get(other)) {
        (Some(one), Some(other)) => push_keys(answer, one, other),
        _ => answer.stop(Stop::Line),
    }
}

/// Adds both keys, whether a clone of the first equals it and is hashed like it, and whether the keys are equal.
fn push_keys<K: Clone + Debug + Drop + Eq + Hash>(answer: &mut Answer, one: &K, other: &K) {
    push(answer, one);
    push(answer, other);
    if let Some(clone) = answer.take(one.clone()) {
        push(answer, &(clone == *one));
        push(answer, &(hash_of(&clone) == hash_of(one)));
        drop(clone);
    }
    push(answer, &(one == other));
}

/// What the value is hashed to.
fn hash_of<T: Hash>(value: &T) -> u64 {
    let mut hasher = FoldHasher::default();
    value.hash(&mut hasher);
    hasher.finish()
}
