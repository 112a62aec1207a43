//! The laws. Each function does nothing: its clauses are the laws.

ghost use Rattle.std.specs.Prelude.{◌≤◌, List, length};
ghost use Rattle.std.specs.List.{All};
ghost use Rattle.ei_session.specs.Setup.{Setup};
ghost use Rattle.ei_session.specs.Requests.{Request};
ghost use Rattle.ei_record.specs.Replayable.{IsReplayable};
ghost use Rattle.ei_playing.specs.Playing.{IsBorne};
ghost use Rattle.ei_playing.specs.Whole.{Plays, played_bytes};

/// A record that can be played back is: of the bytes that its items are played as each message is accepted, and they are handed out again,
/// whatever the clock told.
pub fn played()
    ensures { (setup : Setup) (items : List Request) → IsReplayable setup items → All IsBorne items →
        length items ≤ 4294967000 → Plays setup (played_bytes items) items }
{}
