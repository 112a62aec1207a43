//! Laws of the definitions.

ghost use Rattle.std.specs.Prelude.{ℕ, List};
ghost use Rattle.ei_spec.specs.Message.{IsBytes};
ghost use Rattle.ei_session.specs.Setup.{Setup};
ghost use Rattle.ei_session.specs.Requests.{framed};
ghost use Rattle.ei_session.specs.Served.{accepted};
ghost use Rattle.ei_record.specs.Replayable.{IsReplayable};
ghost use Rattle.ei_record.specs.Worked.{Rows};

/// What a server hands out can be played back: the requests of any stream, whatever the clock told.
pub fn handed_out()
    ensures { (setup : Setup) (stream readings : List ℕ) → IsBytes stream →
        IsReplayable setup (framed setup readings (accepted setup stream)) }
{}

/// The worked rows.
pub fn rows()
    ensures { Rows }
{}
