//! Why a record can't be played back.

ghost use Rattle.std.specs.Prelude.{◌≡◌};

use ei_wire::NoMemory;
use std::alloc::AllocError;
use thiserror::Error;

/// Why a record can't be played back.
#[derive(Clone, Copy, Debug, PartialEq, Eq, Error)]
pub enum ReplayError {
    /// The item at that place, from 0 on, is the first that is wrong.
    #[error("request {0} can't be played back")]
    NotReplayable(u64),
    /// Memory ran out.
    #[error("out of memory")]
    NoMemory,
}

impl From<AllocError> for ReplayError {
    ghost use Rattle.ei_replay.specs.declared.error.ReplayError.TheVariants.{NoMemory};

    ghost from_gives = { λ _ e. e ≡ NoMemory };

    fn from(_e: AllocError) -> ReplayError {
        ReplayError::NoMemory
    }
}

impl From<NoMemory> for ReplayError {
    ghost use Rattle.ei_replay.specs.declared.error.ReplayError.TheVariants.{NoMemory};

    ghost from_gives = { λ _ e. e ≡ NoMemory };

    fn from(_e: NoMemory) -> ReplayError {
        ReplayError::NoMemory
    }
}
