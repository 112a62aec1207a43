//! Values as words of an answer.

use std::alloc::{AllocError, Global};
use std::fmt::{Debug, Display};
use test_table::{Answer, Stop};

/// Adds a value as it is shown for developers, and a blank.
pub(crate) fn show<T: Debug>(answer: &mut Answer, value: &T) {
    answer.show(value);
    answer.put(" ");
}

/// Adds a value as it is displayed, and a blank.
pub(crate) fn display<T: Display>(answer: &mut Answer, value: &T) {
    answer.display(value);
    answer.put(" ");
}

/// Adds the text that was made; where none was, the program stops.
pub(crate) fn put_made<E: Drop>(answer: &mut Answer, made: Result<String, E>)
where
    Stop: From<E>,
{
    match made {
        Ok(text) => {
            answer.put(text.as_str());
            drop(text);
        }
        Err(error) => answer.stop(Stop::from(error)),
    }
}

/// Adds what a part of the answer tells; `nothing` where it has no letters.
pub(crate) fn put_part(answer: &mut Answer, part: Result<String, Stop>) {
    match part {
        Ok(text) => {
            answer.put(if text.is_empty() {
                "nothing"
            } else {
                text.as_str()
            });
            drop(text);
        }
        Err(stop) => answer.stop(stop),
    }
}

/// A text of so many letters.
pub(crate) fn letters(alloc: Global, count: u32) -> Result<String, AllocError> {
    let mut text = String::new(alloc);
    for _ in 0..count {
        text.push('a')?;
    }
    Ok(text)
}
