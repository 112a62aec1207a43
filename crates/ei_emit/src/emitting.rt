//! A script is carried out.

ghost use Rattle.std.specs.Prelude.{◌≤◌, ◌<◌, length};
ghost use Rattle.ei_backend.specs.Lent.{LentClock};
ghost use Rattle.ei_emit.specs.Emits.{Answers};

use crate::emitter::Emitter;
use crate::error::EmitError;
use crate::step::EmitStep;
use ei_backend::Clock;
use ei_event::EiEvent;
use ei_pair::Pair;
use std::alloc::Global;

/// A server, whose connection bears the serial, sends a script of inputs to a client of this name that receives them.
/// Each step comes to the client before the next, and the events that its converter reports are put behind those in
/// `out`. The clock tells the time of each group that a step closes without a frame. The pair is answered as it stands
/// behind the last step, with no event waiting.
///
/// `BadStep(i)` where step i is the first that can't be carried out: its device wasn't added before it, or was removed;
/// or the device lacks the interface of an input, which has no such input with such values, or whose message would be
/// too long. `out` then has the events of the steps before it. `NoMemory` where memory runs out; `out` then has the
/// first of the events.
pub fn emit<C: Clock>(
    alloc: Global,
    name: &str,
    initial_serial: u32,
    clock: &mut C,
    steps: &[EmitStep],
    out: &mut Vec<EiEvent>,
) -> Result<Pair, EmitError>
    requires short { length name.now ≤ 1048555 }
    requires few { length steps.now < 4294967295 }
    ensures answers { Answers initial_serial steps.now (C.view clock.old).left (C.view clock.new).left
        out.old.items out.new.items result }
    ensures clock { LentClock C.later clock.old clock.new }
{
    let Ok(mut sender) = Emitter::new(alloc, name, initial_serial, clock) else {
        return Err(EmitError::NoMemory);
    };
    let played = sender.play_all(clock, steps, out);
    played.and(Ok(sender.into_pair()))
}
