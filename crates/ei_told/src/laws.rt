//! The laws. Each function does nothing: its clauses are the laws.

ghost use Rattle.std.specs.Prelude.{◌≡◌, true, ℕ, List, [], ◌∷◌, ◌++◌, Some, None, length};
ghost use Rattle.ei_spec.specs.Piece.{Piece};
ghost use Rattle.ei_ends.specs.Sent.{Sent};
ghost use Rattle.ei_ends.specs.Agree.{oldest};
ghost use Rattle.ei_ends.specs.Way.{End};
ghost use Rattle.ei_ends.specs.Joined.{Joined};
ghost use Rattle.ei_reported.specs.Said.{Said, said};
ghost use Rattle.ei_reported.specs.Reported.{refusal};
ghost use Rattle.ei_steady.specs.Steady.{NoneRefused, after};
ghost use Rattle.ei_told.specs.Told.{event_of, all_said, after_connection, messages, NoneMissed, NeverRefused};

/// What a client took of a server's messages, where none was dropped.
pub fn told()
    // events that are taken one after another
    ensures more { (before ms : List Said) → NeverRefused before → NoneRefused before ms →
        NeverRefused (after before ms) }
    // the very messages, handles and all
    ensures taken { (x y : End) (to_y to_x : Piece) → Joined true x y to_y to_x → NoneMissed y.taken →
        messages y.taken ≡ oldest (length y.taken) x.sent }
    ensures prefix { (newer older ms : List Sent) → after_connection older ≡ Some ms →
        (more : List Sent) × (after_connection (newer ++ older) ≡ Some (more ++ ms)) }
    // no event that the client takes behind the connection is refused, where none that the server sent would be
    ensures never { (x y : End) (to_y to_x : Piece) (all ms : List Sent) (r : Sent) → Joined true x y to_y to_x →
        NoneMissed y.taken →
        after_connection x.sent ≡ Some all → NeverRefused (all_said all) →
        after_connection (messages y.taken) ≡ Some (r ∷ ms) →
        refusal (all_said ms) (said (event_of r)) ≡ None }
{}
