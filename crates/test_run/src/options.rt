//! What a row says of the outside.

use crate::fakes::{Reader, Ticks, Writer};
use crate::texts::{id, number, push_text};
use ei_backend::{Readings, Tray};
use ei_wire::EiText;
use reis_lines::MemoryText;
use std::alloc::Global;
use std::cell::Cell;
use test_table::{Answer, Stop};

/// A row's options. A call of number 0 is none.
#[derive(Clone, Copy)]
pub(crate) struct Options<'a> {
    /// Whether the outside is that of the system, over a reader, a writer and ticks in memory.
    pub(crate) is_std: bool,
    /// The most bytes that a fetch gives, by commas; `line` where it gives a line.
    pub(crate) cuts: &'a str,
    /// The call of the input that fails, from 1.
    pub(crate) fetch: u32,
    /// The call of the output that fails, from 1.
    pub(crate) put: u32,
    /// The most bytes that a put takes.
    most: usize,
    clock: &'a str,
    /// How many bytes each line spells, by commas, again and again; empty where the text has its own lines.
    lines: &'a str,
}

impl<'a> Options<'a> {
    /// An outside in memory that never fails.
    fn new() -> Options<'a> {
        Options {
            is_std: false,
            cuts: "all",
            fetch: 0,
            put: 0,
            most: usize::MAX,
            clock: "",
            lines: "",
        }
    }

    /// The options of these words.
    fn of(answer: &mut Answer, words: &'a str) -> Options<'a> {
        let mut options = Options::new();
        for word in words.split(' ') {
            options.set(answer, word);
        }
        options
    }

    /// Sets an option.
    fn set(&mut self, answer: &mut Answer, word: &'a str) {
        let (name, value) = word.split_once('=').unwrap_or((word, ""));
        match name {
            "" => {}
            "std" => self.is_std = true,
            "cut" => self.cuts = value,
            "clock" => self.clock = value,
            "lines" => self.lines = value,
            _ => self.set_number(answer, name, value),
        }
    }

    /// Sets an option that is a number.
    fn set_number(&mut self, answer: &mut Answer, name: &str, value: &str) {
        let number = number(answer, value);
        match name {
            "fetch" => self.fetch = number,
            "put" => self.put = number,
            "most" => self.most = number as usize,
            _ => answer.stop(Stop::Line),
        }
    }

    /// The text as an input in memory.
    pub(crate) fn memory_text(
        &self,
        alloc: Global,
        answer: &mut Answer,
        text: &[u8],
    ) -> Option<MemoryText> {
        let mut input = answer.take(MemoryText::new(alloc, text));
        if let Some(input) = &mut input {
            if self.fetch > 0 {
                answer.take(input.fail_at(self.fetch));
            }
        }
        input
    }

    /// An output in memory.
    pub(crate) fn tray(&self, alloc: Global, answer: &mut Answer) -> Tray {
        let mut tray = Tray::new(alloc);
        if self.put > 0 {
            answer.take(tray.fail_at(self.put));
        }
        tray
    }

    /// A clock in memory.
    pub(crate) fn readings(&self, alloc: Global, answer: &mut Answer) -> Option<Readings> {
        let mut readings = Vec::new(alloc);
        if !self.clock.is_empty() {
            for reading in self.clock.split(',') {
                let reading = id(answer, reading);
                answer.take(readings.push(reading));
            }
        }
        let clock = answer.take(Readings::new(alloc, &readings));
        // Let go by a call: at the end of a scope the drop of each field is proved anew.
        drop(readings);
        clock
    }

    /// A reader of the text, in this cut, which counts its calls.
    pub(crate) fn reader<'b>(
        &self,
        answer: &mut Answer,
        cut: &str,
        text: &'b [u8],
        calls: &'b Cell<u32>,
    ) -> Reader<'b> {
        let by_line = cut == "line";
        let most = if by_line || cut == "all" {
            usize::MAX
        } else {
            number(answer, cut) as usize
        };
        Reader {
            text,
            most,
            by_line,
            fails_at: self.fetch,
            calls,
        }
    }

    /// A writer into the vector.
    pub(crate) fn writer<'b>(&self, written: &'b mut Vec<u8>) -> Writer<'b> {
        Writer {
            written,
            most: self.most,
            fails_at: self.put,
            calls: 0,
        }
    }

    /// Ticks in memory; a dash is a tick that fails.
    pub(crate) fn ticks(&self, alloc: Global, answer: &mut Answer) -> Ticks {
        let mut ticks = Vec::new(alloc);
        for tick in self.clock.split(',') {
            let tick = tick_of(answer, tick);
            answer.take(ticks.push(tick));
        }
        Ticks {
            ticks,
            next: Cell::new(0),
        }
    }
}

/// A tick; none of a dash.
fn tick_of(answer: &mut Answer, word: &str) -> Option<u64> {
    if word.is_empty() || word == "-" {
        None
    } else {
        Some(id(answer, word))
    }
}

/// A row: its words, its options and its text.
#[derive(Drop)]
pub(crate) struct Row<'a> {
    pub(crate) words: &'a str,
    pub(crate) options: Options<'a>,
    pub(crate) text: Vec<u8>,
}

impl<'a> Row<'a> {
    /// The row of this line.
    pub(crate) fn of(alloc: Global, answer: &mut Answer, line: &'a str) -> Row<'a> {
        let (words, rest) = parted(answer, line);
        let (options, letters) = parted(answer, rest);
        let options = Options::of(answer, options);
        let mut text = Vec::new(alloc);
        push_text(
            alloc,
            answer,
            &mut text,
            options.lines,
            letters.trim_start(),
        );
        Row {
            words: words.trim_end(),
            options,
            text,
        }
    }

    /// The words that the program is started with.
    pub(crate) fn started_with(&self, alloc: Global, answer: &mut Answer) -> Vec<EiText> {
        let mut words = Vec::new(alloc);
        if !self.words.is_empty() {
            for word in self.words.split(' ') {
                push_word(alloc, answer, &mut words, word);
            }
        }
        words
    }
}

/// What stands before the first colon, and what behind it.
fn parted<'a>(answer: &mut Answer, line: &'a str) -> (&'a str, &'a str) {
    match line.split_once(':') {
        Some(parts) => parts,
        None => {
            answer.stop(Stop::Line);
            (line, "")
        }
    }
}

/// Adds a word.
fn push_word(alloc: Global, answer: &mut Answer, words: &mut Vec<EiText>, word: &str) {
    if let Some(word) = answer.take(EiText::new(alloc, word)) {
        answer.take(words.push(word));
    }
}
