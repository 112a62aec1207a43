//! The steps of a script are carried out, to the client.

ghost use Rattle.std.specs.Prelude.{◌<◌, ℕ, List, Option, Ok, length};
ghost use Rattle.std.specs.Result.{result_and};
ghost use Rattle.ei_backend.specs.Lent.{LentClock};
ghost use Rattle.ei_emit.specs.Emits.{Answers};
ghost use Rattle.ei_emit.specs.Stands.{emitter, Script, IsStanding, StandsFor, Begins, Plays};

use crate::carrying::carry;
use crate::emitter::{Emitter, report};
use crate::error::EmitError;
use crate::step::EmitStep;
use ei_backend::Clock;
use ei_event::EiEvent;
use ei_pair::Side;
use ei_wire::NoMemory;

impl Emitter {
    /// Carries the steps out, one by one, and each to the client before the next. The events that the client has queued
    /// by now, and those that it reports of each step, are put behind those in `out`.
    pub(crate) fn play_all<C: Clock>(
        &mut self,
        clock: &mut C,
        steps: &[EmitStep],
        out: &mut Vec<EiEvent>,
    ) -> Result<(), EmitError>
        requires few { length steps.now < 4294967295 }
        requires stands { IsStanding (emitter self.old.pair self.old.seat self.old.devices.added.items) }
        ensures answers { (start : ℕ) (told : Option (List ℕ)) → Begins start told (C.view clock.old).left
            (emitter self.old.pair self.old.seat self.old.devices.added.items) →
            Answers start steps.now told (C.view clock.new).left
            out.old.items out.new.items (result_and result (Ok self.new.pair)) }
        ensures clock { LentClock C.later clock.old clock.new }
    {
        report(&mut self.pair, out)?;
        for (place, step) in steps.iter().enumerate() {
            if !self.play(clock, step)? {
                return Err(EmitError::BadStep(place as u32));
            }
            report(&mut self.pair, out)?;
        }
        Ok(())
    }

    /// Carries a step out, and to the client. `false` exactly where it is bad: then nothing was sent.
    fn play<C: Clock>(&mut self, clock: &mut C, step: &EmitStep) -> Result<bool, NoMemory>
        requires { IsStanding (emitter self.old.pair self.old.seat self.old.devices.added.items) }
        ensures plays { (s : Script) →
            StandsFor s (emitter self.old.pair self.old.seat self.old.devices.added.items) →
            Plays s step.now (C.view clock.old).left (C.view clock.new).left result
            (emitter self.new.pair self.new.seat self.new.devices.added.items) }
        ensures clock { LentClock C.later clock.old clock.new }
    {
        ei_event::heard::events();
        ei_heeding::laws::handled();
        ei_emitting::laws::beginning();
        if !self.perform(step)? {
            return Ok(false);
        }
        carry(&mut self.pair, Side::Client, clock)?;
        Ok(true)
    }
}
