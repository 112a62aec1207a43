//! Laws of the definitions.

ghost use Rattle.std.specs.Prelude.{ℕ, List};
ghost use Rattle.ei_session.specs.Setup.{Setup};
ghost use Rattle.ei_session.specs.Requests.{Request};
ghost use Rattle.ei_record.specs.Replayable.{IsReplayable};
ghost use Rattle.ei_filter.specs.Sifted.{Test, sifted};
ghost use Rattle.ei_filter.specs.Worked.{Rows};

/// What passes of a record that can be played back can be played back, by whatever rules, at whatever times.
pub fn sifted_right()
    ensures { (setup : Setup) (tests : List Test) (times : List ℕ) (items : List Request) →
        IsReplayable setup items → IsReplayable setup (sifted tests times items) }
{}

/// The worked rows.
pub fn rows()
    ensures { Rows }
{}
