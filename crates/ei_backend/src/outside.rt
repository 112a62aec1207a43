//! The traits of the outside: where pieces come from, where bytes go, and a clock.
//!
//! Each has one view, which says all that it tells of itself, and a relation "later" between two of its values, which every call
//! keeps. What it has left, and what it took or was put, is told or not, as the type likes. What it gave, every
//! source says. Each counts its faults: the count goes up with each fault, unless it stands at its last value, and
//! stays at every other answer. A sink counts its wants of memory in the same way, a source its calls.

ghost use Rattle.std.specs.Prelude.{◌≡◌, ◌<◌, ◌≤◌, length, IfOk};
ghost use Rattle.ei_backend.specs.Outside.{SourceView, SinkView, ClockView, IsPieceSize, IsTake, IsPutSize, IsPut, IsReading};
ghost use Rattle.ei_backend.specs.Outside.{answer_at};
ghost use Rattle.ei_spec.specs.declared.limits.TheConstants.{MOST_PIECE_BYTES, MOST_PIECE_HANDLES};

use ei_spec::Handle;

/// A call of the outside failed.
#[derive(Clone, Copy, Debug, PartialEq, Eq)]
pub struct Fault;

/// Why a sink took nothing.
#[derive(Clone, Copy, Debug, PartialEq, Eq)]
pub enum PutError {
    /// The sink failed.
    Fault,
    /// The sink wants memory.
    NoMemory,
}

/// How many bytes and handles a source handed out.
#[derive(Clone, Copy, Debug, PartialEq, Eq)]
pub struct Taken {
    pub bytes: usize,
    pub handles: usize,
}

/// What a source or an input answered last.
#[derive(Clone, Copy, Debug, PartialEq, Eq)]
pub enum LastAnswer {
    /// It wasn't asked yet.
    Nothing,
    /// A piece, or a part of a text.
    Piece,
    End,
    Fault,
}

impl LastAnswer {
    /// The answer of so many bytes: none is the end.
    pub fn at(bytes: usize) -> LastAnswer
        ensures { result ≡ answer_at bytes }
    {
        if bytes == 0 {
            LastAnswer::End
        } else {
            LastAnswer::Piece
        }
    }
}

/// Where pieces of bytes and handles come from.
pub trait Source {
    /// What it says of itself: its pieces, its faults, how often it was asked, and its last answer.
    ghost view: { Self → SourceView };

    /// The second may come of the first by calls of this trait.
    ghost later: { Self → Self → Type 0 };

    /// The next piece, at the front of the two slices: 1 to 65536 bytes and at most 64 handles. No byte
    /// and no handle is the end.
    ///
    /// `Fault` where the source failed; then it moved nothing.
    fn take(&mut self, bytes: &mut [u8], handles: &mut [Handle]) -> Result<Taken, Fault>
        requires room { MOST_PIECE_BYTES ≤ length bytes.old }
        requires handle_room { MOST_PIECE_HANDLES ≤ length handles.old }
        ensures size { IfOk result IsPieceSize }
        ensures takes { IsTake (view self.old) (view self.new) result bytes.new handles.new }
        ensures later { later self.old self.new };

    ghost later_refl: { (x : Self) → later x x };

    ghost later_trans: { (x y z : Self) → later x y → later y z → later x z };
}

/// Where bytes and handles go.
pub trait Sink {
    /// What it says of itself: what it took, what was put to it at each call, its faults and its wants of memory.
    ghost view: { Self → SinkView };

    /// The second may come of the first by calls of this trait.
    ghost later: { Self → Self → Type 0 };

    /// Takes the first bytes, at least one where there is any, and all the handles. It answers how many
    /// bytes.
    ///
    /// `Fault` where the sink failed, `NoMemory` where it wants memory; then it took nothing.
    fn put(&mut self, bytes: &[u8], handles: &[Handle]) -> Result<usize, PutError>
        ensures size { IfOk result (λ n. IsPutSize n bytes.now) }
        ensures puts { IsPut (view self.old) (view self.new) result bytes.now handles.now }
        ensures later { later self.old self.new };

    ghost later_refl: { (x : Self) → later x x };

    ghost later_trans: { (x y z : Self) → later x y → later y z → later x z };
}

/// A clock, in microseconds.
pub trait Clock {
    /// What it says of itself: its readings and its faults.
    ghost view: { Self → ClockView };

    /// The second may come of the first by calls of this trait.
    ghost later: { Self → Self → Type 0 };

    /// The next reading.
    fn now(&mut self) -> u64
        ensures reads { IsReading (view self.old) (view self.new) result }
        ensures later { later self.old self.new };

    ghost later_refl: { (x : Self) → later x x };

    ghost later_trans: { (x y z : Self) → later x y → later y z → later x z };
}
