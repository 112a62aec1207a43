//! A clock that stands still.

ghost use Rattle.std.specs.Prelude.{◌≡◌, ◌≤◌, ℕ, List, Some, replicate};
ghost use Rattle.ei_backend.specs.Outside.{IsReading};

use ei_backend::Clock;

/// How often a moment may be read: more often than one piece can make frames.
const READINGS: u64 = 4294967296;

/// One time, in microseconds, so many times.
#[derive(Drop)]
pub(crate) struct Moment {
    time: u64,
    left: u64,
}

impl Moment {
    /// The time that was handed in.
    pub(crate) fn at(time: u64) -> Moment
        ensures is { result.time ≡ time }
        ensures enough { 4294967296 ≤ result.left }
    {
        Moment {
            time,
            left: READINGS,
        }
    }
}

impl Clock for Moment {
    ghost view = { λ m. record { left = Some (replicate m.left m.time); faults = 0 } };

    ghost later = { λ _ _. Unit {0} };

    ghost later_refl = { λ _. tt };

    ghost later_trans = { λ _ _ _ _ _. tt };

    fn now(&mut self) -> u64 {
        if self.left == 0 {
            return 0;
        }
        self.left -= 1;
        self.time
    }
}
