//! A text that comes in parts.
//!
//! An input has one view, which says all that it tells of itself, and a relation "later" between two of its values, which every
//! call keeps. What it has left it tells or not, as the type likes; what it gave, and what each fetch answered, every input says.
//! It counts its faults: the count goes up with each fault, unless it stands at its last value, and stays at every other answer.
//! It counts its calls in the same way.

ghost use Rattle.std.specs.Prelude.{◌<◌, ◌≤◌, length, IfOk};
ghost use Rattle.reis_lines.specs.Input.{InputView, IsFetch};

use ei_backend::Fault;

/// A text that comes in parts.
pub trait Input {
    /// What it says of itself: its text, what its fetches answered, its faults, how often it was asked, and its last answer.
    ghost view: { Self → InputView };

    /// The second may come of the first by calls of this trait.
    ghost later: { Self → Self → Type 0 };

    /// The next bytes of the text, at the front of the slice: at least one where any is left, none at
    /// the end.
    ///
    /// `Fault` where the input failed; then it moved nothing.
    fn fetch(&mut self, bytes: &mut [u8]) -> Result<usize, Fault>
        requires { 0 < length bytes.old }
        ensures size { IfOk result (λ n. n ≤ length bytes.new) }
        ensures fetches { IsFetch (view self.old) (view self.new) result bytes.new }
        ensures later { later self.old self.new };

    ghost later_refl: { (x : Self) → later x x };

    ghost later_trans: { (x y z : Self) → later x y → later y z → later x z };
}
