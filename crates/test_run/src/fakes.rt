//! A reader, a writer and ticks in memory.

use std::cell::Cell;
use std::io;
use std::io::{Read, Write};
use std::time::{self, Duration};

/// A text that is read in cuts of at most so many bytes, or by lines. The call of a number fails, from 1, and the next ones
/// go on. The calls are counted.
#[derive(Drop)]
pub(crate) struct Reader<'a> {
    pub(crate) text: &'a [u8],
    pub(crate) most: usize,
    pub(crate) by_line: bool,
    pub(crate) fails_at: u32,
    pub(crate) calls: &'a Cell<u32>,
}

impl Reader<'_> {
    /// The most bytes that the next call gives.
    fn reach(&self) -> usize {
        if !self.by_line {
            return self.most;
        }
        match self.text.iter().position(|b| *b == b'\n') {
            Some(place) => place.saturating_add(1),
            None => self.most,
        }
    }
}

impl Read for Reader<'_> {
    fn read(&mut self, buf: &mut [u8]) -> io::Result<usize> {
        let call = self.calls.get().saturating_add(1);
        self.calls.set(call);
        if call == self.fails_at {
            return Err(io::Error::from(io::ErrorKind::BrokenPipe));
        }
        let count = buf.len().min(self.reach());
        self.text.read(&mut buf[..count])
    }
}

/// A vector that takes at most so many bytes a call. The call of a number fails, from 1.
#[derive(Drop)]
pub(crate) struct Writer<'a> {
    pub(crate) written: &'a mut Vec<u8>,
    pub(crate) most: usize,
    pub(crate) fails_at: u32,
    pub(crate) calls: u32,
}

impl Write for Writer<'_> {
    fn write(&mut self, buf: &[u8]) -> io::Result<usize> {
        self.calls = self.calls.saturating_add(1);
        if self.calls == self.fails_at {
            return Err(io::Error::from(io::ErrorKind::BrokenPipe));
        }
        let count = buf.len().min(self.most);
        self.written.extend_from_slice(&buf[..count])?;
        Ok(count)
    }

    fn flush(&mut self) -> io::Result<()> {
        Ok(())
    }
}

/// A clock of the system that shows these microseconds, one a call; where there is none, the call fails.
#[derive(Drop)]
pub(crate) struct Ticks {
    pub(crate) ticks: Vec<Option<u64>>,
    pub(crate) next: Cell<usize>,
}

impl time::Clock for Ticks {
    fn monotonic(&self) -> io::Result<Duration> {
        let place = self.next.get();
        self.next.set(place.saturating_add(1));
        match self.ticks.get(place) {
            Some(Some(micros)) => Ok(Duration::from_micros(*micros)),
            _ => Err(io::Error::from(io::ErrorKind::Unsupported)),
        }
    }

    fn since_1970(&self) -> io::Result<Duration> {
        self.monotonic()
    }
}
