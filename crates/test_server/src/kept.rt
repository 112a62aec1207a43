//! What is kept of what calls make.

use std::fmt::Debug;
use test_table::{Answer, Reader, Stop};

/// Keeps what is there. Whether it was.
pub(crate) fn keep<T: Drop>(items: &mut Vec<T>, item: Option<T>, answer: &mut Answer) -> bool {
    match item {
        Some(item) => {
            answer.take(items.push(item));
            true
        }
        None => false,
    }
}

/// Shows what was made, or why it wasn't, and keeps it, if it was.
pub(crate) fn keep_made<T: Debug + Drop, E: Debug + Drop>(
    items: &mut Vec<T>,
    made: Result<T, E>,
    answer: &mut Answer,
) {
    answer.show(&made);
    keep(items, made.ok(), answer);
}

/// Lets the value stand in the place.
pub(crate) fn set<T: Drop>(place: &mut T, value: T) {
    *place = value;
}

/// Lets what is there stand in the place.
pub(crate) fn set_if<T: Drop>(place: &mut T, value: Option<T>) {
    if let Some(value) = value {
        *place = value;
    }
}

/// The value, where there is one; else another, and the program stops.
pub(crate) fn or<T: Drop, E: Drop>(answer: &mut Answer, made: Result<T, E>, other: T) -> T
where
    Stop: From<E>,
{
    match made {
        Ok(value) => {
            drop(other);
            value
        }
        Err(error) => {
            answer.stop(Stop::from(error));
            other
        }
    }
}

/// A copy of the key, where there is one; else the line is wrong.
pub(crate) fn copied<K: Clone + Drop>(
    key: Option<&K>,
    words: &mut Reader<'_>,
    answer: &mut Answer,
) -> Option<K> {
    match key {
        Some(key) => answer.take(key.clone()),
        None => {
            words.miss();
            None
        }
    }
}
