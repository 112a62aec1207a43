//! Each function does nothing: its clauses are the laws.

ghost use Rattle.std.specs.Prelude.{◌≡◌, ◌≤◌, ℕ, List, [], ◌∷◌, ◌++◌, Option, length};
ghost use Rattle.ei_spec.specs.Piece.{Piece};
ghost use Rattle.ei_types.specs.declared.error.EventError.{EventError};
ghost use Rattle.ei_reported.specs.Said.{Said};
ghost use Rattle.ei_reported.specs.Changes.{NewIdsDiffer};
ghost use Rattle.ei_event.specs.declared.event.EiEvent.{EiEvent};
ghost use Rattle.ei_event.specs.Connection.{ConnectionView};
ghost use Rattle.ei_event.specs.Kept.{new_kept};
ghost use Rattle.ei_event.specs.Typed.{said_of};
ghost use Rattle.ei_heeding.specs.Heeding.{Heeds};
ghost use Rattle.ei_iterator.specs.Turns.{Standing, Turn, standing_at, pieces_of};
ghost use Rattle.ei_iterator.specs.Next.{Next, NextOver, Gives, GivesFirst, FailsAt};
ghost use Rattle.ei_iterator.specs.Around.{Around, standing_of};
ghost use Rattle.ei_iterator.specs.Nexts.{Answered, Nexts};
ghost use Rattle.ei_iterator.specs.Heard.{heard, readings_of, HeedsMore, Accounts, GoesOn};

use ei_handler::Call;

/// The next event over pieces: no more of them come than may, and an event that is queued is given first, whatever
/// comes.
pub fn next_over<H>()
    ensures most { (most : ℕ) (s : Standing H) (pieces : List Piece) (turns : List Turn) (n : Next H) →
        NextOver most s pieces turns n → length (pieces_of turns) ≤ most }
    ensures first { (most : ℕ) (s : Standing H) (pieces : List Piece) (turns : List Turn) (n : Next H) →
        (event : EiEvent) (others : List EiEvent) → s.kept.queue ≡ event ∷ others →
        NextOver most s pieces turns n → n.answer ≡ Gives event }
{}

/// Where the converter follows a list of events, it follows the list with those that turns took behind them, and has
/// queued what the longer list reports more.
pub fn follows<H>()
    ensures { (start : ℕ) (before : List Said) (readings : List ℕ) (s : Standing H) (turns : List Turn) →
        Heeds start before readings s.kept → NewIdsDiffer (heard turns ++ before) →
        HeedsMore start before (heard turns) readings (readings_of s turns) s.kept (standing_at s turns).kept }
{
    ei_heeding::laws::events();
}

/// The account of a client's user: of a new converter it is empty, and it goes on over turns, an event that is given
/// and one that is refused.
pub fn accounts<H>()
    ensures first { (c : ConnectionView) → Accounts c.serial [] [] [] (new_kept c) }
    ensures turns { (start : ℕ) (before : List Said) (readings : List ℕ) (given : List EiEvent) (s : Standing H)
        (turns : List Turn) →
        Accounts start before readings given s.kept → NewIdsDiffer (heard turns ++ before) →
        Accounts start (heard turns ++ before) (readings ++ readings_of s turns) given (standing_at s turns).kept }
    ensures gives { (start : ℕ) (events : List Said) (readings : List ℕ) (given : List EiEvent) (s left : Standing H)
        (event : EiEvent) →
        Accounts start events readings given s.kept → GivesFirst s event left →
        Accounts start events readings (given ++ event ∷ []) left.kept }
    ensures refuses { (start : ℕ) (before : List Said) (readings : List ℕ) (given : List EiEvent) (s left : Standing H)
        (why : EventError) →
        Accounts start before readings given s.kept → (f : FailsAt s why left) →
        NewIdsDiffer (said_of f.event ∷ before) → Accounts start (said_of f.event ∷ before) readings given left.kept }
{
    ei_heeding::laws::events();
    ei_heeding::laws::refusals();
    ei_reported::laws::refused_events();
    ei_reported::laws::frames_after();
}

/// So it goes on over a call for the next event, whatever the call answers.
pub fn nexts<H: Call>()
    ensures { (most : ℕ) (told : List Piece) (left : Option (List Piece)) (result : Answered) (old new : Around H)
        (start : ℕ) (before : List Said) (readings : List ℕ) (given : List EiEvent) →
        Nexts H.may_answer most told left result old new →
        Accounts start before readings given old.converter.kept →
        GoesOn most told start before readings given (standing_of old) result new.converter.kept }
{
    ei_heeding::laws::events();
    ei_heeding::laws::refusals();
    ei_reported::laws::refused_events();
    ei_reported::laws::frames_after();
}
