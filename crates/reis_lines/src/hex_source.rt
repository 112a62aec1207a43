//! Pieces as lines of hexadecimal digits.

ghost use Rattle.std.specs.Prelude.{◌≡◌, ◌<◌, ◌≤◌, ◌+◌, ◌⊎◌, ℕ, List, [], None, Some, Ok, true, false, length, take, IfOk, IfSome, IsErr, IsSome, MatchOption};
ghost use Rattle.std.specs.Prelude.{OnErr};
ghost use Rattle.reis_lines.specs.Text.{has_newline};
ghost use Rattle.ei_spec.specs.declared.limits.TheConstants.{MOST_PIECE_BYTES};

use crate::digits::decode_line;
use crate::held::{Held, LONGEST_LINE, line_extent};
use crate::input::Input;
use ei_backend::{Fault, GivenPieces, LastAnswer, Source, Taken};
use ei_spec::Handle;
use ei_wire::NoMemory;
use std::alloc::Global;

/// The pieces that the lines of an input spell.
///
/// A line has 2 to 131072 hexadecimal digits of either case, an even number, and ends at a newline or
/// at the end of the text. An empty line ends the pieces. Any other line is bad: it counts as a fault
/// at each call from then on. The input isn't asked again once it has answered its end.
#[derive(Drop)]
pub struct HexSource<'a, I: Input> {
    input: &'a mut I,
    held: Held,
    /// Whether the input answered its end.
    ended: bool,
    /// How many lines were handed out.
    line: u64,
    bad: Option<u64>,
    bad_faults: u64,
    given: GivenPieces,
    /// How often it was asked.
    asked: u64,
    last: LastAnswer,
}

impl<'a, I: Input> HexSource<'a, I> {
    ghost use Rattle.ei_backend.specs.Outside.{HasCause};
    ghost use Rattle.ei_backend.specs.Memory.{counted};
    ghost use Rattle.ei_backend.specs.declared.outside.LastAnswer.TheVariants as answers;
    ghost use Rattle.reis_lines.specs.Given.{GaveBehind};
    ghost use Rattle.reis_lines.specs.Held.{FindsNewline, Moves, line_skip};
    ghost use Rattle.reis_lines.specs.HexSource.{reference_of, text_reading, answer_of, fresh, unread, faults_of, LaterReading, NextPiece, GivesLine};
    ghost use Rattle.reis_lines.specs.HexSource.{KnowsEnd, HoldsEnd, FailsHere, EndsOrHasLine, AsksNoMore};
    ghost use Rattle.reis_lines.specs.Asking.{AskedUntil, AskedBehind};
    ghost use Rattle.reis_lines.specs.declared.held.TheConstants.{ROOM};

    /// `NoMemory` where there is none for the longest line.
    pub fn new(alloc: Global, input: &'a mut I) -> Result<HexSource<'a, I>, NoMemory>
        ensures same_reference { IfOk result (λ s. reference_of s ≡ input.entry.ghost_name) }
        ensures fresh { IfOk result (λ s. text_reading s ≡ fresh input.old) }
        ensures unasked { IfOk result (λ s. answer_of s ≡ answers.Nothing) }
    {
        let held = Held::new(alloc)?;
        Ok(HexSource::over(held, input))
    }

    /// The same with the room made before, so that the input is not lent where there is no memory.
    pub fn over(held: Held, input: &'a mut I) -> HexSource<'a, I>
        requires { held ≡ [] }
        ensures same_reference { reference_of result ≡ input.entry.ghost_name }
        ensures fresh { text_reading result ≡ fresh input.old }
        ensures unasked { answer_of result ≡ answers.Nothing }
    {
        HexSource {
            input,
            held,
            ended: false,
            line: 0,
            bad: None,
            bad_faults: 0,
            given: GivenPieces::new(),
            asked: 0,
            last: LastAnswer::Nothing,
        }
    }

    /// Gives the input back.
    pub fn close(self) -> &'a mut I
        ensures same_reference { result.ghost_name ≡ reference_of self.entry }
        ensures same { result.now ≡ (text_reading self.entry).input }
    {
        self.input
    }

    /// The number, from 1, of the bad line that a `take` has met.
    pub fn bad_line(&self) -> Option<u64>
        ensures { result ≡ (text_reading self.now).bad }
    {
        self.bad
    }

    /// Where the first line ends, if a newline ends it. The input isn't asked behind its end.
    fn find_line(&mut self) -> Result<Option<usize>, Fault>
        ensures text { (text : List ℕ) → unread I.view (text_reading self.old) ≡ Some text →
            Moves (text_reading self.old).held text (text_reading self.new).held
            (unread I.view (text_reading self.new)) }
        ensures told { (text : List ℕ) → unread I.view (text_reading self.old) ≡ Some text →
            (I.view (text_reading self.old).input).left ≡ Some text →
            (I.view (text_reading self.new).input).left ≡ unread I.view (text_reading self.new) }
        ensures given { GaveBehind (I.view (text_reading self.old).input).given
            (I.view (text_reading self.new).input).given
            (text_reading self.old).held (text_reading self.new).held }
        ensures asked { KnowsEnd I.view (text_reading self.old) (text_reading self.new) }
        ensures fetched { AskedBehind (EndsOrHasLine (text_reading self.old).ended (text_reading self.old).held) I.view
            (text_reading self.old).input (text_reading self.new).input
            (text_reading self.old).held (text_reading self.new).held (text_reading self.new).ended }
        ensures place { IfOk result (λ found. FindsNewline found (text_reading self.new).held) }
        ensures within { IfOk result (λ found. line_skip found (text_reading self.new).held ≤
            length (text_reading self.new).held) }
        ensures ends { result ≡ Ok None → length (text_reading self.new).held ≤ LONGEST_LINE →
            (text_reading self.new).ended ≡ true }
        ensures err { OnErr result (FailsHere I.view (text_reading self.new)) }
        ensures fits { length (text_reading self.new).held ≤ ROOM }
        ensures unasked { has_newline (text_reading self.old).held ≡ true →
            (text_reading self.new).input ≡ (text_reading self.old).input }
        ensures behind_end { (text_reading self.old).ended ≡ true →
            ((text_reading self.new).input ≡ (text_reading self.old).input) × ((text_reading self.new).ended ≡ true) }
        ensures cause { HasCause (I.view (text_reading self.old).input).faults
            (I.view (text_reading self.new).input).faults result }
        ensures later { I.later (text_reading self.old).input (text_reading self.new).input }
        ensures same_line { self.new.line ≡ self.old.line }
        ensures same_bad { self.new.bad ≡ self.old.bad }
        ensures same_faults { self.new.bad_faults ≡ self.old.bad_faults }
        ensures same_pieces { self.new.given.pieces ≡ self.old.given.pieces }
        ensures same_last { self.new.last ≡ self.old.last }
        ensures same_reference { reference_of self.new ≡ reference_of self.old }
    {
        if self.ended {
            return Ok(self.held.newline());
        }
        let found = self.held.find_line(self.input)?;
        self.ended = found.is_none() && self.held.len() <= LONGEST_LINE;
        Ok(found)
    }

    /// The next line's bytes. No byte is the end.
    fn next_piece(&mut self, bytes: &mut [u8]) -> Result<usize, Fault>
        requires { MOST_PIECE_BYTES ≤ length bytes.old }
        ensures size { IfOk result (λ n. n ≤ MOST_PIECE_BYTES) }
        ensures pieces { (text : List ℕ) → unread I.view (text_reading self.old) ≡ Some text →
            NextPiece (text_reading self.old).held text result (text_reading self.new).held
            (unread I.view (text_reading self.new)) bytes.new }
        ensures given { GivesLine (text_reading self.old).pieces (text_reading self.new).pieces result bytes.new }
        ensures end { result ≡ Ok 0 → HoldsEnd (text_reading self.new).held (text_reading self.new).ended }
        ensures fault { IsErr result → FailsHere I.view (text_reading self.new) ⊎ IsSome (text_reading self.new).bad }
        ensures fetched { AskedUntil (AsksNoMore (text_reading self.old)) I.view
            (text_reading self.old).input (text_reading self.new).input }
        ensures unasked { has_newline (text_reading self.old).held ≡ true →
            (text_reading self.new).input ≡ (text_reading self.old).input }
        ensures behind_end { (text_reading self.old).ended ≡ true →
            (text_reading self.new).input ≡ (text_reading self.old).input }
        ensures refused { IsSome (text_reading self.old).bad → IsErr result ×
            ((text_reading self.new).input ≡ (text_reading self.old).input) }
        ensures cause { HasCause (faults_of I.view (text_reading self.old))
            (faults_of I.view (text_reading self.new)) result }
        ensures input_cause { (text_reading self.new).bad ≡ None →
            HasCause (I.view (text_reading self.old).input).faults
            (I.view (text_reading self.new).input).faults result }
        ensures counted { (n : ℕ) → (text_reading self.new).bad ≡ Some n →
            faults_of I.view (text_reading self.new) ≡
            (I.view (text_reading self.old).input).faults + counted (text_reading self.old).bad_faults }
        ensures same_reference { reference_of self.new ≡ reference_of self.old }
        ensures later { LaterReading I.view I.later (text_reading self.old) (text_reading self.new) }
    {
        if self.bad.is_some() {
            self.bad_faults = self.bad_faults.saturating_add(1);
            return Err(Fault);
        }
        let found = self.find_line()?;
        let line = self.held.bytes();
        let (count, skip) = line_extent(found, line);
        if count == 0 {
            return Ok(0);
        }
        match decode_line(&line[..count], bytes) {
            Some(n) => {
                self.held.remove(skip);
                self.line = self.line.saturating_add(1);
                self.given.note(&bytes[..n], &[]);
                Ok(n)
            }
            None => {
                self.bad = Some(self.line.saturating_add(1));
                self.bad_faults = self.bad_faults.saturating_add(1);
                Err(Fault)
            }
        }
    }
}

impl<'a, I: Input> Source for HexSource<'a, I> {
    ghost use Rattle.std.specs.Prelude.{◌≡◌, ◌≤◌, ◌+◌, ◌⊎◌, ℕ, Some, None, length, IfOk, IsErr, true};
    ghost use Rattle.ei_backend.specs.Memory.{counted};
    ghost use Rattle.ei_backend.specs.Outside.{HasCause, IsPieceSize, IsTake};
    ghost use Rattle.reis_lines.specs.Text.{has_newline};
    ghost use Rattle.reis_lines.specs.HexSource.{text_reading, source_of, faults_of, AsksNoMore, LaterSource};
    ghost use Rattle.reis_lines.specs.Asking.{AskedUntil};
    ghost use Rattle.reis_lines.specs.LaterReadings.{LaterSource-refl, LaterSource-trans};

    ghost view = { source_of I.view };

    ghost later = { λ x y. LaterSource I.view I.later x y };

    ghost later_refl = { λ x. LaterSource-refl I.view I.later I.later_refl x };

    ghost later_trans = { λ x y z a b. LaterSource-trans I.view I.later I.later_trans x y z a b };

    fn take(&mut self, bytes: &mut [u8], _handles: &mut [Handle]) -> Result<Taken, Fault>
        requires room { MOST_PIECE_BYTES ≤ length bytes.old }
        requires handle_room { 64 ≤ length _handles.old }
        ensures size { IfOk result IsPieceSize }
        ensures takes { IsTake (source_of I.view self.old) (source_of I.view self.new) result bytes.new _handles.new }
        ensures later { LaterSource I.view I.later self.old self.new }
        // the input is asked until a line is there or an answer has no byte, and no more; nor behind its end, nor behind a bad line
        ensures fetched { AskedUntil (AsksNoMore (text_reading self.old)) I.view
            (text_reading self.old).input (text_reading self.new).input }
        ensures unasked { (has_newline (text_reading self.old).held ≡ true) ⊎ ((text_reading self.old).ended ≡ true) →
            (text_reading self.new).input ≡ (text_reading self.old).input }
        ensures refused { (n : ℕ) → (text_reading self.old).bad ≡ Some n →
            IsErr result × ((text_reading self.new).input ≡ (text_reading self.old).input) }
        // a bad line counts one fault at each call, and where none was met a fault is the input's
        ensures counted { (n : ℕ) → (text_reading self.new).bad ≡ Some n →
            faults_of I.view (text_reading self.new) ≡
            (I.view (text_reading self.old).input).faults + counted (text_reading self.old).bad_faults }
        ensures input_cause { (text_reading self.new).bad ≡ None →
            HasCause (I.view (text_reading self.old).input).faults
            (I.view (text_reading self.new).input).faults result }
    {
        let asked = self.asked.saturating_add(1);
        match self.next_piece(bytes) {
            Ok(0) => {
                self.asked = asked;
                self.last = LastAnswer::End;
                Ok(Taken {
                    bytes: 0,
                    handles: 0,
                })
            }
            Ok(n) => {
                self.asked = asked;
                self.last = LastAnswer::Piece;
                Ok(Taken {
                    bytes: n,
                    handles: 0,
                })
            }
            Err(e) => {
                self.asked = asked;
                self.last = LastAnswer::Fault;
                Err(e)
            }
        }
    }
}
