//! The converter's call, with what it comes to over a list of events.

ghost use Rattle.std.specs.Prelude.{ℕ, List, ◌∷◌};
ghost use Rattle.ei_reported.specs.Said.{Said};
ghost use Rattle.ei_reported.specs.Changes.{NewIdsDiffer};
ghost use Rattle.ei_event.specs.Typed.{said_of};
ghost use Rattle.ei_heeding.specs.Heeding.{Heeds, HeedsBy, IsHeard};

use crate::laws;
use ei_backend::Clock;
use ei_client::{Context, Event};
use ei_event::{Call, EiEventConverter};
use ei_types::Error;

/// Calls `handle_event`. Where the converter followed a list of events, and the new ids of the list and of this event
/// all differ, it follows the list with the event then, taken or refused, and the queue has grown by what the longer
/// list reports more.
pub fn follow_event<C: Clock>(
    converter: &mut EiEventConverter<impl Call>,
    ctx: &mut Context,
    clock: &mut C,
    event: Event,
) -> Result<(), Error>
    ensures { (start : ℕ) (before : List Said) (readings : List ℕ) →
        Heeds start before readings converter.old.kept → NewIdsDiffer (said_of event ∷ before) → IsHeard result →
        HeedsBy start before event readings (C.view clock.old).left (C.view clock.new).left converter.old.kept
        converter.new.kept }
{
    laws::handled();
    converter.handle_event(ctx, clock, event)
}
