//! What a session is served over.

use super::outlet::Outlet;
use crate::kept::or;
use crate::pieces::{clock_of, pieces_of};
use ei_backend::{Pieces, Readings};
use std::alloc::Global;
use test_table::{Answer, Reader, Stop, count, id, number};

/// A row's options: which call of the source or the sink fails or wants memory, how many bytes the sink takes a call,
/// and how many handles come with the first pieces. A call of number 0 is none.
#[derive(Clone, Copy)]
pub(crate) struct Options<'a> {
    /// How many bytes each piece has, by commas; `each` where each part is a piece of its own.
    pub(crate) cuts: &'a str,
    take: u32,
    put: u32,
    want: u64,
    most: usize,
    handles: usize,
    clock: &'a str,
}

impl<'a> Options<'a> {
    /// Each part a piece, and nothing fails.
    pub(crate) fn new() -> Options<'a> {
        Options {
            cuts: "each",
            take: 0,
            put: 0,
            want: 0,
            most: usize::MAX,
            handles: 0,
            clock: "",
        }
    }

    /// Sets the option of a word.
    fn set(&mut self, word: &'a str, answer: &mut Answer) {
        let (name, value) = word.split_once('=').unwrap_or((word, ""));
        match name {
            "" => {}
            "cut" => self.cuts = value,
            "take" => self.take = or(answer, number(value), 0),
            "put" => self.put = or(answer, number(value), 0),
            "want" => self.want = or(answer, id(value), 0),
            "most" => self.most = or(answer, count(value), 0),
            "handles" => self.handles = or(answer, count(value), 0),
            "clock" => self.clock = value,
            _ => answer.stop(Stop::Line),
        }
    }

    /// The source of these parts in this cut.
    pub(crate) fn source(
        &self,
        alloc: Global,
        cut: &str,
        parts: &str,
        answer: &mut Answer,
    ) -> Pieces {
        let mut pieces = pieces_of(alloc, cut, parts, self.handles, answer);
        if self.take > 0 {
            answer.take(pieces.fail_at(self.take));
        }
        pieces
    }

    /// The sink.
    pub(crate) fn sink(&self, alloc: Global, answer: &mut Answer) -> Outlet {
        let mut outlet = Outlet::new(alloc, self.most, self.want);
        if self.put > 0 {
            answer.take(outlet.tray.fail_at(self.put));
        }
        outlet
    }

    /// The clock.
    pub(crate) fn clock(&self, alloc: Global, answer: &mut Answer) -> Option<Readings> {
        clock_of(alloc, self.clock, ',', answer)
    }
}

/// The options, and the parts behind the colon.
pub(crate) fn options_and_parts<'a>(
    words: &mut Reader<'a>,
    answer: &mut Answer,
) -> (Options<'a>, &'a str) {
    let mut options = Options::new();
    match words.rest().split_once(':') {
        Some((named, parts)) => {
            for word in named.split(' ') {
                options.set(word, answer);
            }
            (options, parts.trim_start())
        }
        None => {
            words.miss();
            (options, "")
        }
    }
}
