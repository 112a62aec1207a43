//! Each function does nothing: its clauses are the laws.

ghost use Rattle.std.specs.Prelude.{◌≡◌, ℕ, List, [], ◌∷◌, Option, Result};
ghost use Rattle.ei_client.specs.declared.event.Event.{Event};
ghost use Rattle.ei_types.specs.declared.error.Error.{Error};
ghost use Rattle.ei_reported.specs.Said.{Said};
ghost use Rattle.ei_reported.specs.Reported.{refusal};
ghost use Rattle.ei_reported.specs.Changes.{NewIdsDiffer};
ghost use Rattle.ei_following.specs.Core.{refused, closed_group, used_by};
ghost use Rattle.ei_event.specs.Typed.{said_of};
ghost use Rattle.ei_event.specs.Connection.{ConnectionView};
ghost use Rattle.ei_event.specs.Kept.{KeptView, new_kept};
ghost use Rattle.ei_event.specs.Core.{core_of};
ghost use Rattle.ei_event.specs.Handles.{after, Handles};
ghost use Rattle.ei_heeding.specs.Heeding.{Heeds, HeedsOne, HeedsBy, IsHeard};

/// A converter that follows some events refuses what the definitions refuse, and for the same reason.
pub fn refusals()
    ensures same { (start : ℕ) (before : List Said) (readings : List ℕ) (c : KeptView) (e : Event) →
        Heeds start before readings c → refused (core_of c) (said_of e) ≡ refusal before (said_of e) }
{
    ei_following::laws::refusals();
}

/// A new converter follows no events, and one that follows some follows them with one more.
pub fn events()
    ensures first { (c : ConnectionView) → Heeds c.serial [] [] (new_kept c) }
    ensures took { (start : ℕ) (before : List Said) (readings : List ℕ) (c : KeptView) (e : Event) (time : ℕ) →
        Heeds start before readings c → NewIdsDiffer (said_of e ∷ before) →
        HeedsOne start before e readings (used_by (closed_group (core_of c) (said_of e)) time) c (after c e time) }
{
    ei_following::laws::events();
}

/// Where `handle_event` took the event or refused it for what it is, the converter follows the list with it, and
/// queued what the longer list tells.
pub fn handled()
    ensures { (start : ℕ) (before : List Said) (readings : List ℕ) (c new : KeptView) (e : Event)
        (told now : Option (List ℕ)) (result : Result Unit Error) →
        Heeds start before readings c → NewIdsDiffer (said_of e ∷ before) → Handles c e told now result new →
        IsHeard result →
        HeedsBy start before e readings told now c new }
{
    events();
}
