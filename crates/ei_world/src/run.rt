//! Steps, one after another.

ghost use Rattle.std.specs.Prelude.{◌≡◌, ◌<◌, length, false};
ghost use Rattle.ei_wire.specs.declared.error.SendError.TheVariants as send_error;
ghost use Rattle.ei_wire.specs.declared.error.ReadError.TheVariants as read_error;
ghost use Rattle.ei_world.specs.declared.run.Step.TheVariants as step_of;
ghost use Rattle.ei_world.specs.declared.run.WorldEnd.TheVariants as world_end;
ghost use Rattle.ei_world.specs.Steps.{Steps, Runs, end_of_send, end_of_read};

use crate::world::World;
use ei_linked::{Side, is_of_row};
use ei_values::{Value, Values};
use ei_wire::{NoMemory, ReadError, SendError};

/// A step of a run.
#[derive(Drop)]
pub enum Step {
    /// `client_call` or `server_call`, to the object of that id which the side made or read at some time, or to object 0.
    Call {
        side: Side,
        target: u64,
        opcode: u32,
        values: Values,
    },
    Flush(Side),
    Deliver(Side, usize),
    Read(Side),
}

/// Why a run ended before its last step.
#[derive(Debug, PartialEq, Eq, Drop)]
pub enum WorldEnd {
    /// The step of this number, from 0, doesn't meet the condition of its call.
    BadStep(u32),
    /// A call was refused.
    Send(SendError),
    /// A delivery was refused.
    Read(ReadError),
    /// Memory ran out.
    NoMemory,
}

impl From<SendError> for WorldEnd {
    ghost from_gives = { λ e end. end ≡ end_of_send e };

    fn from(error: SendError) -> WorldEnd {
        match error {
            SendError::NoMemory => WorldEnd::NoMemory,
            error => WorldEnd::Send(error),
        }
    }
}

impl From<ReadError> for WorldEnd {
    ghost from_gives = { λ e end. end ≡ end_of_read e };

    fn from(error: ReadError) -> WorldEnd {
        match error {
            ReadError::NoMemory => WorldEnd::NoMemory,
            error => WorldEnd::Read(error),
        }
    }
}

impl From<NoMemory> for WorldEnd {
    ghost from_gives = { λ _ end. end ≡ world_end.NoMemory };

    fn from(_error: NoMemory) -> WorldEnd {
        WorldEnd::NoMemory
    }
}

impl World {
    /// Makes the steps, the first first, up to the first that isn't accepted.
    ///
    /// `BadStep` has the number of the first step that doesn't meet the condition of its call; it isn't made. `Send` and
    /// `Read` have the refusal of the first step that is refused otherwise. Want of memory in a step is `NoMemory`. The steps
    /// before that one are made.
    pub fn run(&mut self, steps: &[Step]) -> Result<(), WorldEnd>
        requires few { length steps.now < 4294967295 }
        requires whole { self.old.spent ≡ false }
        ensures { Runs steps.now result self.old self.new }
    {
        for (place, step) in steps.iter().enumerate() {
            self.step(step, place as u32)?;
        }
        Ok(())
    }

    /// Makes the step of that number.
    fn step(&mut self, step: &Step, place: u32) -> Result<(), WorldEnd>
        requires whole { self.old.spent ≡ false }
        ensures { Steps step.now place result self.old self.new }
    {
        match step {
            Step::Call {
                side,
                target,
                opcode,
                values,
            } => self.call_step(*side, *target, *opcode, values.as_slice(), place),
            Step::Flush(side) => self.flush_step(*side, place),
            Step::Deliver(side, n) => self.deliver_step(*side, *n, place),
            Step::Read(side) => self.read_step(*side, place),
        }
    }

    /// Calls, where the condition is met.
    fn call_step(
        &mut self,
        side: Side,
        target: u64,
        opcode: u32,
        values: &[Value],
        place: u32,
    ) -> Result<(), WorldEnd>
        requires whole { self.old.spent ≡ false }
        ensures { Steps (step_of.Call side target opcode values.now) place result self.old self.new }
    {
        let Some(target) = self.target(side, target) else {
            return Err(WorldEnd::BadStep(place));
        };
        if !is_of_row(side, target.interface, opcode, values) {
            return Err(WorldEnd::BadStep(place));
        }
        let _object = self.call(side, target, opcode, values)?;
        Ok(())
    }

    /// Flushes.
    fn flush_step(&mut self, side: Side, _place: u32) -> Result<(), WorldEnd>
        requires whole { self.old.spent ≡ false }
        ensures { Steps (step_of.Flush side) _place result self.old self.new }
    {
        self.flush(side)?;
        Ok(())
    }

    /// Delivers, where the condition is met.
    fn deliver_step(&mut self, side: Side, n: usize, place: u32) -> Result<(), WorldEnd>
        requires whole { self.old.spent ≡ false }
        ensures { Steps (step_of.Deliver side n) place result self.old self.new }
    {
        if n == 0 || n > 1536 {
            return Err(WorldEnd::BadStep(place));
        }
        let _count = self.deliver(side, n)?;
        Ok(())
    }

    /// Reads.
    fn read_step(&mut self, side: Side, _place: u32) -> Result<(), WorldEnd>
        requires whole { self.old.spent ≡ false }
        ensures { Steps (step_of.Read side) _place result self.old self.new }
    {
        // Let go by a call: at the end of a scope the drop of each field is proved anew.
        drop(self.read(side)?);
        Ok(())
    }
}
