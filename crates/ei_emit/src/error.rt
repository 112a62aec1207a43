//! Why a script can't be carried out.

ghost use Rattle.std.specs.Prelude.{◌≡◌};

use ei_wire::NoMemory;
use thiserror::Error;

/// Why a script can't be carried out.
#[derive(Clone, Copy, Debug, PartialEq, Eq, Error)]
pub enum EmitError {
    /// The step at that place, from 0 on, is the first that is bad.
    #[error("step {0} can't be carried out")]
    BadStep(u32),
    /// Memory ran out.
    #[error("out of memory")]
    NoMemory,
}

impl From<NoMemory> for EmitError {
    ghost use Rattle.ei_emit.specs.declared.error.EmitError.TheVariants as emit_error;

    ghost from_gives = { λ _ e. e ≡ emit_error.NoMemory };

    fn from(_e: NoMemory) -> EmitError {
        EmitError::NoMemory
    }
}
