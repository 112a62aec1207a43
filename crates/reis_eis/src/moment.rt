//! A clock for one message.

ghost use Rattle.std.specs.Prelude.{◌≡◌, Some, false};
ghost use Rattle.ei_backend.specs.Outside.{IsReading};

use ei_backend::Clock;

/// One time, in microseconds, which may be read once: a message makes one frame at most.
#[derive(Drop)]
pub(crate) struct Moment {
    time: u64,
    is_read: bool,
}

impl Moment {
    /// The time that was handed in.
    pub(crate) fn at(time: u64) -> Moment
        ensures time { result.time ≡ time }
        ensures unread { result.is_read ≡ false }
    {
        Moment {
            time,
            is_read: false,
        }
    }
}

impl Clock for Moment {
    ghost use Rattle.reis_eis.specs.Lent.{readings_left};

    ghost view = { λ m. record { left = Some (readings_left m.is_read m.time); faults = 0 } };

    ghost later = { λ _ _. Unit {0} };

    ghost later_refl = { λ _. tt };

    ghost later_trans = { λ _ _ _ _ _. tt };

    fn now(&mut self) -> u64 {
        if self.is_read {
            return 0;
        }
        self.is_read = true;
        self.time
    }
}
