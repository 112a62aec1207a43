//! The words of a call, as they are read.

use crate::stop::Stop;
use crate::words::first;

/// The words of a call that were not read yet. A word that is no number where one is to stand is read as 0, and `done` says
/// so. So a call reads one word behind another, and looks at `done` once, before it does anything.
#[derive(Clone, Copy, Debug)]
pub struct Reader<'a> {
    rest: &'a str,
    wrong: bool,
}

impl<'a> Reader<'a> {
    /// All words of a line.
    pub fn new(line: &'a str) -> Reader<'a> {
        Reader {
            rest: line,
            wrong: false,
        }
    }

    /// The next word: one without letters behind the last.
    pub fn word(&mut self) -> &'a str {
        let (word, rest) = first(self.rest);
        self.rest = rest;
        word
    }

    /// All words that were not read yet, as they stand.
    pub fn rest(&self) -> &'a str {
        self.rest
    }

    /// The next word, as a number of 32 bits in decimal digits.
    pub fn number(&mut self) -> u32 {
        let word = self.word();
        self.or(word.parse::<u32>(), 0)
    }

    /// The next word, as a number of 64 bits in decimal digits.
    pub fn id(&mut self) -> u64 {
        let word = self.word();
        self.or(word.parse::<u64>(), 0)
    }

    /// The next word, as a count in decimal digits.
    pub fn count(&mut self) -> usize {
        let word = self.word();
        self.or(word.parse::<usize>(), 0)
    }

    /// The value that a word was read as, where it is one; else another, and `done` says so.
    pub fn or<T: Drop, E: Drop>(&mut self, read: Result<T, E>, other: T) -> T {
        match read {
            Ok(value) => {
                drop(other);
                value
            }
            Err(error) => {
                drop(error);
                self.miss();
                other
            }
        }
    }

    /// Whether each word that was read was what it was to be.
    pub fn done(&self) -> Result<(), Stop> {
        if self.wrong { Err(Stop::Line) } else { Ok(()) }
    }

    /// A word isn't what it is to be.
    pub fn miss(&mut self) {
        self.wrong = true;
    }
}
