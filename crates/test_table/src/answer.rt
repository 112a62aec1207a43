//! What a call answers, as it is put together.

use crate::stop::Stop;
use std::alloc::Global;
use std::fmt::{Debug, Display, Write};
use std::mem;

/// The text that a call answers, as it is put together. What stops it is kept: what is put behind that is lost, and `text`
/// says why. So a call puts one thing behind another, and looks at no answer between.
#[derive(Drop)]
pub struct Answer {
    text: String,
    stop: Option<Stop>,
}

impl Answer {
    /// Nothing is answered yet.
    pub fn new(alloc: Global) -> Answer {
        Answer {
            text: String::new(alloc),
            stop: None,
        }
    }

    /// Adds these letters.
    pub fn put(&mut self, letters: &str) {
        if self.text.push_str(letters).is_err() {
            self.stop(Stop::NoMemory);
        }
    }

    /// Adds a value as it is displayed.
    pub fn display<T: Display>(&mut self, value: &T) {
        if write!(self.text, "{value}").is_err() {
            self.stop(Stop::NoMemory);
        }
    }

    /// Adds a value as it is shown for developers.
    pub fn show<T: Debug>(&mut self, value: &T) {
        if write!(self.text, "{value:?}").is_err() {
            self.stop(Stop::NoMemory);
        }
    }

    /// Nothing more is answered, and the program stops: the first reason counts.
    pub fn stop(&mut self, why: Stop) {
        if self.stop.is_none() {
            drop(mem::replace(&mut self.stop, Some(why)));
        }
    }

    /// The value, where there is one; else the program stops.
    pub fn take<T: Drop, E: Drop>(&mut self, made: Result<T, E>) -> Option<T>
    where
        Stop: From<E>,
    {
        match made {
            Ok(value) => Some(value),
            Err(error) => {
                self.stop(Stop::from(error));
                None
            }
        }
    }

    /// The text, or why the program stops.
    pub fn text(self) -> Result<String, Stop> {
        let Answer { text, stop } = self;
        match stop {
            None => Ok(text),
            Some(why) => {
                drop(text);
                Err(why)
            }
        }
    }
}
