//! Why a step isn't done.

ghost use Rattle.std.specs.Prelude.{◌≡◌};
ghost use Rattle.volume_world.specs.declared.fault.StepFault.TheVariants.{Memory};

use disk_base::NoMemory;
use std::alloc::{AllocError, AllocFailed};
use thiserror::Error;

/// Why a step of a volume isn't done.
#[derive(Debug, Drop, Error)]
pub enum StepFault {
    /// The history has as many entries as it can have.
    #[error("the volume's history is full")]
    HistoryFull,
    /// The allocator had no memory left.
    #[error("out of memory")]
    Memory,
}

impl From<NoMemory> for StepFault {
    ghost from_gives = { λ _ fault. fault ≡ Memory };

    fn from(_error: NoMemory) -> StepFault {
        StepFault::Memory
    }
}

impl From<AllocError> for StepFault {
    ghost from_gives = { λ _ fault. fault ≡ Memory };

    fn from(_error: AllocError) -> StepFault {
        StepFault::Memory
    }
}

impl<T: Drop> From<AllocFailed<T>> for StepFault {
    ghost from_gives = { λ _ fault. fault ≡ Memory };

    fn from(_error: AllocFailed<T>) -> StepFault {
        StepFault::Memory
    }
}
