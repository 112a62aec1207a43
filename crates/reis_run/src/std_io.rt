//! Standard input, standard output and the clock, as the outside of the program.
//!
//! Standard input tells the text that its reader has left, where the reader tells that, and says what each fetch gave. Standard
//! output says what it took, and a writer that tells what it holds holds that. The clock tells nothing of what it will show. Each
//! error of theirs counts as a fault.

ghost use Rattle.std.specs.Prelude.{◌≡◌, ◌<◌, ◌≤◌, ℕ, List, [], ◌∷◌, ◌++◌, None, Some, IfOk, IfSome, length};
ghost use Rattle.std.specs.Duration.{as_nanos};
ghost use Rattle.ei_backend.specs.Memory.{counted};
ghost use Rattle.ei_backend.specs.Outside.{HasCause, HasPutCause, HasPutWant, CountsOne, Puts, IsPutSize, IsReading};
ghost use Rattle.reis_lines.specs.Input.{Fetches, Gives, answer_with, last_fetched};
ghost use Rattle.ei_backend.specs.declared.outside.LastAnswer.TheVariants as answers;
ghost use Rattle.reis_run.specs.StdIo.{Counts, IsSince, ReadsOrRepeats, faults_of_start, whole_micros};

use ei_backend::{Clock, Fault, LastAnswer, PutError, Sink, TakenPiece};
use ei_spec::Handle;
use reis_lines::{Given, Input};
use std::io::{Read, Write};
use std::time::{Clock as TimeSource, Duration, Instant};

/// One fault more, up to the last value of the count.
fn count_fault(faults: &mut u64)
    ensures counted { faults.new ≡ counted faults.old }
    ensures later { faults.old ≤ faults.new }
{
    *faults = faults.saturating_add(1);
}

/// Standard input, of any reader. It keeps nothing of what it gave: that is for clauses alone.
#[derive(Drop)]
pub struct StdInput<R: Read + Drop> {
    reader: R,
    given: Given,
    last: LastAnswer,
    faults: u64,
    asked: u64,
}

impl<R: Read + Drop> StdInput<R> {
    /// The input of this reader.
    pub fn new(reader: R) -> Self
        ensures reader { result.reader ≡ reader }
        ensures given { result.given.bytes ≡ [] }
        ensures fetches { result.given.fetches ≡ [] }
        ensures last { result.last ≡ answers.Nothing }
        ensures faults { result.faults ≡ 0 }
    {
        StdInput {
            reader,
            given: Given::new(),
            last: LastAnswer::Nothing,
            faults: 0,
            asked: 0,
        }
    }
}

impl<R: Read + Drop> Input for StdInput<R> {
    ghost view = { λ s. record {
      left = R.remaining s.reader;
      given = s.given.bytes;
      fetches = s.given.fetches;
      faults = s.faults;
      asked = s.asked;
      last = s.last;
    } };

    ghost later = { λ _ _. Unit {0} };

    ghost later_refl = { λ _. tt };

    ghost later_trans = { λ _ _ _ _ _. tt };

    fn fetch(&mut self, bytes: &mut [u8]) -> Result<usize, Fault>
        requires { 0 < length bytes.old }
        ensures size { IfOk result (λ n. n ≤ length bytes.new) }
        ensures text { Fetches (R.remaining self.old.reader) (R.remaining self.new.reader) result bytes.new }
        ensures given { Gives self.old.given.bytes self.new.given.bytes result bytes.new }
        ensures fetches { self.new.given.fetches ≡ self.old.given.fetches ++ answer_with result bytes.new ∷ [] }
        ensures last { self.new.last ≡ last_fetched result }
        ensures cause { HasCause self.old.faults self.new.faults result }
        ensures asked { CountsOne self.old.asked self.new.asked }
        // beyond the trait's
        ensures counts { Counts result self.old.faults self.new.faults }
    {
        self.asked = self.asked.saturating_add(1);
        match self.reader.read(bytes) {
            Ok(n) => {
                self.given.note(&bytes[..n]);
                self.last = LastAnswer::at(n);
                Ok(n)
            }
            Err(_) => {
                self.given.note_fault();
                count_fault(&mut self.faults);
                self.last = LastAnswer::Fault;
                Err(Fault)
            }
        }
    }
}

/// Standard output, of any writer. It keeps nothing of what it took: that is for clauses alone. It has no place for handles: they
/// go nowhere, and count as taken. It never wants memory.
#[derive(Drop)]
pub struct StdOutput<W: Write + Drop> {
    writer: W,
    taken: TakenPiece,
    faults: u64,
}

impl<W: Write + Drop> StdOutput<W> {
    /// The output of this writer.
    pub fn new(writer: W) -> Self
        ensures writer { result.writer ≡ writer }
        ensures taken { result.taken.piece ≡ record { bytes = []; handles = [] } }
        ensures faults { result.faults ≡ 0 }
    {
        StdOutput {
            writer,
            taken: TakenPiece::new(),
            faults: 0,
        }
    }
}

impl<W: Write + Drop> Sink for StdOutput<W> {
    ghost use Rattle.reis_run.specs.StdIo.{Wrote, wrote_none, wrote_on};

    ghost view = { λ s. record { taken = Some s.taken.piece; puts = None; faults = s.faults; wants = 0 } };

    // the writer took what it took
    ghost later = { λ x y. Wrote (W.contents x.writer) (W.contents y.writer) x.taken.piece y.taken.piece };

    ghost later_refl = { λ x. wrote_none (W.contents x.writer) x.taken.piece };

    ghost later_trans = { λ x y z a b. wrote_on (W.contents x.writer) (W.contents y.writer) (W.contents z.writer)
        x.taken.piece y.taken.piece z.taken.piece a b };

    fn put(&mut self, bytes: &[u8], handles: &[Handle]) -> Result<usize, PutError>
        ensures size { IfOk result (λ n. IsPutSize n bytes.now) }
        ensures taken { Puts (Some self.old.taken.piece) (Some self.new.taken.piece) result bytes.now handles.now }
        ensures cause { HasPutCause self.old.faults self.new.faults result }
        ensures want { HasPutWant 0 0 result }
        ensures later { Wrote (W.contents self.old.writer)
            (W.contents self.new.writer) self.old.taken.piece self.new.taken.piece }
        // beyond the trait's
        ensures counts { Counts result self.old.faults self.new.faults }
    {
        match self.writer.write(bytes) {
            Ok(n) if n > 0 || bytes.is_empty() => {
                self.taken.note(&bytes[..n], handles);
                Ok(n)
            }
            _ => {
                count_fault(&mut self.faults);
                Err(PutError::Fault)
            }
        }
    }
}

/// The whole microseconds since it was made; where its source fails, its last answer, at first 0.
///
/// Of the time that a source tells, std says only that it is within a clock's range: it may go back.
#[derive(Drop)]
pub struct StdClock<'a, C: TimeSource> {
    source: &'a C,
    start: Option<Instant>,
    last: u64,
    faults: u64,
}

/// The whole microseconds of a duration, up to the last value.
fn micros_of(elapsed: Duration) -> u64
    ensures { result ≡ whole_micros (as_nanos elapsed) }
{
    u64::try_from(elapsed.as_micros()).unwrap_or(u64::MAX)
}

impl<'a, C: TimeSource> StdClock<'a, C> {
    /// Where the source has no time now, no later reading has one.
    pub fn new(source: &'a C) -> Self
        ensures last { result.last ≡ 0 }
        ensures faults { result.faults ≡ faults_of_start result.start }
    {
        let start = Instant::now(source).ok();
        let faults = if start.is_none() { 1 } else { 0 };
        StdClock {
            source,
            start,
            last: 0,
            faults,
        }
    }

    /// The microseconds from the start to the time that the source tells.
    fn reading(&self) -> Option<u64>
        ensures { IfSome result (IsSince self.now.start) }
    {
        let start = self.start?;
        let now = Instant::now(self.source).ok()?;
        Some(micros_of(now.duration_since(start)))
    }
}

impl<C: TimeSource> Clock for StdClock<'_, C> {
    ghost view = { λ s. record { left = None; faults = s.faults } };

    ghost later = { λ _ _. Unit {0} };

    ghost later_refl = { λ _. tt };

    ghost later_trans = { λ _ _ _ _ _. tt };

    fn now(&mut self) -> u64
        ensures reads { IsReading (record { left = None; faults = self.old.faults })
            (record { left = None; faults = self.new.faults }) result }
        // beyond the trait's
        ensures answers { ReadsOrRepeats self.old.start self.old.faults self.new.faults self.old.last result }
        ensures last { self.new.last ≡ result }
        ensures same_start { self.new.start ≡ self.old.start }
    {
        match self.reading() {
            Some(micros) => {
                self.last = micros;
                micros
            }
            None => {
                count_fault(&mut self.faults);
                self.last
            }
        }
    }
}
