//! Laws of the definitions.

ghost use Rattle.std.specs.Prelude.{◌≡◌, ℕ, List, map};
ghost use Rattle.ei_spec.specs.Message.{IsBytes};
ghost use Rattle.ei_session.specs.Setup.{Setup};
ghost use Rattle.ei_session.specs.Requests.{framed};
ghost use Rattle.ei_session.specs.Served.{accepted};
ghost use Rattle.ei_standing.specs.Standing.{request_in_code};
ghost use Rattle.ei_record.specs.Replayable.{IsReplayable};
ghost use Rattle.ei_replay.specs.Asked.{asked_of};

/// A record of a session can be played back under its setup: what it asks is what the definitions hand out of its stream, so a
/// test of it answers Ok, or memory runs out.
pub fn of_session()
    ensures asks { (setup : Setup) (stream readings : List ℕ) → IsBytes stream →
        map asked_of (map (request_in_code (accepted setup stream)) (framed setup readings (accepted setup stream)))
        ≡ framed setup readings (accepted setup stream) }
    ensures right { (setup : Setup) (stream readings : List ℕ) → IsBytes stream →
        IsReplayable setup (map asked_of (map (request_in_code (accepted setup stream))
        (framed setup readings (accepted setup stream)))) }
{}
