//! The bytes of a text that were read and not yet handed out.

ghost use Rattle.std.specs.Prelude.{◌≡◌, ◌<◌, ◌≤◌, ◌+◌, ◌-◌, ◌↔◌, ℕ, List, [], ◌∷◌, ◌++◌, Some, None, Ok, Err, true, false, length, vec_len, take, drop, IfOk, OnErr};
ghost use Rattle.std.specs.Prelude.{IsTrue, ◌⊎◌};
ghost use Rattle.ei_backend.specs.Outside.{HasCause, is_end};
ghost use Rattle.reis_lines.specs.Input.{last_fetched};
ghost use Rattle.ei_backend.specs.declared.outside.LastAnswer.TheVariants as answers;
ghost use Rattle.reis_lines.specs.Given.{GaveBehind, came_to_end};
ghost use Rattle.reis_lines.specs.Text.{has_newline};
ghost use Rattle.reis_lines.specs.Asking.{HasLine, AskedBehind};
ghost use Rattle.reis_lines.specs.Held.{Moves, ReadsBehind, AnswersBehind, FindsNewline, line_len, line_skip};

use crate::input::Input;
use ei_backend::Fault;
use ei_spec::limits::MOST_PIECE_BYTES;
use ei_wire::NoMemory;
use memchr::memchr;
use std::alloc::Global;
use std::marker::Model;

/// The byte that ends a line.
const NEWLINE: u8 = 10;

/// The longest line, without its newline: two digits for each byte of a piece.
pub(crate) const LONGEST_LINE: usize = 2 * MOST_PIECE_BYTES;

/// So many bytes without a newline are no line.
const TOO_LONG: usize = LONGEST_LINE + 1;

/// Room for twice as much, so that bytes move to the front only once as many went from there.
const ROOM: usize = 2 * TOO_LONG;

/// A buffer for lines. Each byte is looked at once for a newline, and moves at most once for each
/// byte that was handed out. Contracts see the bytes that it holds.
#[derive(Drop)]
pub struct Held {
    room: Vec<u8>,
    start: usize,
    end: usize,
    /// How many of the bytes held are known to have no newline.
    scanned: usize,
}

impl Model for Held {
    ghost use Rattle.std.specs.Prelude.{List, ℕ, take, drop};
    ghost use Rattle.reis_lines.specs.Held.{IsBuffer};

    ghost Value = { List ℕ };

    ghost view = { λ h. drop h.start (take h.end h.room.items) };

    ghost invariant = { λ h. IsBuffer h.room.items h.start h.end h.scanned };
}

/// Room for bytes.
pub(crate) fn zeroed(alloc: Global, n: usize) -> Result<Vec<u8>, NoMemory>
    ensures { IfOk result (λ v. length v.items ≡ n) }
{
    Ok(vec![in alloc; 0u8; n]?)
}

/// Where the first newline is.
fn newline_in(bytes: &[u8]) -> Option<usize>
    ensures { FindsNewline result bytes.now }
{
    memchr(NEWLINE, bytes)
}

/// Where the bytes from `start` to `end` lie once there is room behind them: at the front, if they
/// reached the end of the room.
fn moved_to_front(room: &mut [u8], start: usize, end: usize) -> (usize, usize)
    requires order { start ≤ end }
    requires within { end ≤ length room.old }
    requires less { end - start < length room.old }
    ensures same { drop result.0 (take result.1 room.new) ≡ drop start (take end room.old) }
    ensures kept_order { result.0 ≤ result.1 }
    ensures kept_len { result.1 - result.0 ≡ end - start }
    ensures room { result.1 < length room.new }
{
    if end < room.len() {
        return (start, end);
    }
    room.copy_within(start..end, 0);
    (0, end - start)
}

/// Reads on behind the first `end` bytes of the room.
fn fetch_behind<I: Input>(input: &mut I, room: &mut [u8], end: usize) -> Result<usize, Fault>
    requires { end < length room.old }
    ensures fits { IfOk result (λ n. end + n ≤ length room.new) }
    ensures front { take end room.new ≡ take end room.old }
    ensures text { (text : List ℕ) → (I.view input.old).left ≡ Some text →
        IfOk result (λ n. ReadsBehind (take end room.old) text (take (end + n) room.new) (I.view input.new).left n) }
    ensures left { OnErr result ((text : List ℕ) → (I.view input.old).left ≡ Some text →
        (I.view input.new).left ≡ Some text) }
    ensures given { IfOk result (λ n. GaveBehind (I.view input.old).given (I.view input.new).given (take end room.old)
        (take (end + n) room.new)) }
    ensures none_given { OnErr result ((I.view input.new).given ≡ (I.view input.old).given) }
    ensures answered { IfOk result (λ n. AnswersBehind (I.view input.old).fetches (I.view input.new).fetches
        (take end room.old) (take (end + n) room.new) n) }
    ensures faulted { OnErr result ((I.view input.new).fetches ≡ (I.view input.old).fetches ++ Err (record {}) ∷ []) }
    ensures last { (I.view input.new).last ≡ last_fetched result }
    ensures cause { HasCause (I.view input.old).faults (I.view input.new).faults result }
    ensures later { I.later input.old input.new }
{
    input.fetch(&mut room[end..])
}

impl Held {
    pub fn new(alloc: Global) -> Result<Self, NoMemory>
        ensures { IfOk result (λ h. h ≡ []) }
    {
        let room = zeroed(alloc, ROOM)?;
        Ok(Held {
            room,
            start: 0,
            end: 0,
            scanned: 0,
        })
    }

    /// The bytes held.
    pub(crate) fn bytes(&self) -> &[u8]
        ensures { result.now ≡ self.now }
    {
        &self.room[self.start..self.end]
    }

    pub(crate) fn len(&self) -> usize
        ensures { result ≡ length self.now }
    {
        self.end - self.start
    }

    /// Takes the first bytes away.
    pub(crate) fn remove(&mut self, count: usize)
        requires { count ≤ length self.old }
        ensures { self.new ≡ drop count self.old }
    {
        self.start += count;
        self.scanned = 0;
    }

    /// Where the first newline is.
    pub(crate) fn newline(&mut self) -> Option<usize>
        ensures found { FindsNewline result self.old }
        ensures same { self.new ≡ self.old }
        ensures fits { length self.new ≤ ROOM }
    {
        let from = self.start + self.scanned;
        match newline_in(&self.room[from..self.end]) {
            Some(n) => {
                self.scanned += n;
                Some(self.scanned)
            }
            None => {
                self.scanned = self.end - self.start;
                None
            }
        }
    }

    /// Reads on, where fewer bytes are held than are too many for a line. No byte is the end.
    fn read<I: Input>(&mut self, input: &mut I) -> Result<usize, Fault>
        requires { length self.old < TOO_LONG }
        ensures text { (text : List ℕ) → (I.view input.old).left ≡ Some text →
            IfOk result (λ n. ReadsBehind self.old text self.new (I.view input.new).left n) }
        ensures left { OnErr result ((text : List ℕ) → (I.view input.old).left ≡ Some text →
            (I.view input.new).left ≡ Some text) }
        ensures given { IfOk result (λ n. GaveBehind (I.view input.old).given
            (I.view input.new).given self.old self.new) }
        ensures none_given { OnErr result ((I.view input.new).given ≡ (I.view input.old).given) }
        ensures answered { IfOk result (λ n. AnswersBehind (I.view input.old).fetches
            (I.view input.new).fetches self.old self.new n) }
        ensures faulted { OnErr result ((I.view input.new).fetches ≡
            (I.view input.old).fetches ++ Err (record {}) ∷ []) }
        ensures last { (I.view input.new).last ≡ last_fetched result }
        ensures count { IfOk result (λ n. length self.new ≡ length self.old + n) }
        ensures none { result ≡ Ok 0 → self.new ≡ self.old }
        ensures err { OnErr result (self.new ≡ self.old) }
        ensures fits { length self.new ≤ ROOM }
        ensures cause { HasCause (I.view input.old).faults (I.view input.new).faults result }
        ensures later { I.later input.old input.new }
    {
        let (start, end) = moved_to_front(&mut self.room, self.start, self.end);
        self.start = start;
        self.end = end;
        let count = fetch_behind(input, &mut self.room, end)?;
        self.end = end + count;
        Ok(count)
    }

    /// Reads until a whole line is held, or more than a line may have, or all of the text. It answers
    /// where the newline is, if there is one.
    pub(crate) fn find_line<I: Input>(&mut self, input: &mut I) -> Result<Option<usize>, Fault>
        ensures text { (text : List ℕ) → (I.view input.old).left ≡ Some text →
            Moves self.old text self.new (I.view input.new).left }
        // whatever the input tells: what it gave, and that it answered its end exactly where this comes to it
        ensures given { GaveBehind (I.view input.old).given (I.view input.new).given self.old self.new }
        ensures asked { ((input.new ≡ input.old) × (came_to_end result (length self.new) ≡ false))
            ⊎ (is_end (I.view input.new).last ≡ came_to_end result (length self.new)) }
        // and how often it was asked: until a line was there, or no byte came
        ensures fetched { AskedBehind (HasLine self.old) I.view input.old input.new self.old self.new
            (came_to_end result (length self.new)) }
        ensures place { IfOk result (λ found. FindsNewline found self.new) }
        ensures ends { result ≡ Ok None → length self.new < TOO_LONG →
            (text : List ℕ) → (I.view input.old).left ≡ Some text → (I.view input.new).left ≡ Some [] }
        ensures within { IfOk result (λ found. line_skip found self.new ≤ length self.new) }
        ensures err { OnErr result (has_newline self.new ≡ false) }
        ensures failed { OnErr result ((I.view input.new).last ≡ answers.Fault) }
        ensures fits { length self.new ≤ ROOM }
        // a whole line is held already: the input isn't asked
        ensures unasked { has_newline self.old ≡ true → input.new ≡ input.old }
        ensures kept { has_newline self.old ≡ true → self.new ≡ self.old }
        ensures cause { HasCause (I.view input.old).faults (I.view input.new).faults result }
        ensures later { I.later input.old input.new }
    {
        'lines: loop {
            let found = self.newline();
            if found.is_some() || self.len() >= TOO_LONG {
                return Ok(found);
            }
            if self.read(input)? == 0 {
                return Ok(None);
            }
        }
    }
}

/// How long the first line is, and how many bytes go with it.
pub(crate) fn line_extent(found: Option<usize>, held: &[u8]) -> (usize, usize)
    requires within { line_skip found held.now ≤ length held.now }
    ensures count { result.0 ≡ line_len found held.now }
    ensures skip { result.1 ≡ line_skip found held.now }
    ensures bound { result.0 ≤ length held.now }
{
    match found {
        Some(n) => (n, n + 1),
        None => (held.len(), held.len()),
    }
}
