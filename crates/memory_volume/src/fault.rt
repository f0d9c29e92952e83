//! Why a volume in memory isn't made.

ghost use Rattle.std.specs.Prelude.{◌≡◌};
ghost use Rattle.volume_world.specs.declared.world_fault.WorldFault.TheVariants.{Memory};
ghost use Rattle.memory_volume.specs.declared.fault.MakeFault.TheVariants as faults;

use std::alloc::{AllocError, AllocFailed};
use thiserror::Error;
use volume_world::WorldFault;

/// Why a volume in memory isn't made.
#[derive(Clone, Copy, Debug, PartialEq, Eq, Error)]
pub enum MakeFault {
    /// There are fewer disks than the mode has units, or more than 64.
    #[error("a volume of {need} units can't be made on {have} disks")]
    Disks { have: u32, need: u32 },
    /// The epoch of the first unit isn't 1 to 16,777,215.
    #[error("no unit has the epoch {epoch}")]
    Epoch { epoch: u32 },
    /// A call on a file failed, or memory is out.
    #[error("the volume isn't made: {0}")]
    World(WorldFault),
}

impl From<AllocError> for MakeFault {
    ghost from_gives = { λ _ fault. fault ≡ faults.World Memory };

    fn from(_error: AllocError) -> MakeFault {
        MakeFault::World(WorldFault::Memory)
    }
}

impl<T: Drop> From<AllocFailed<T>> for MakeFault {
    ghost from_gives = { λ _ fault. fault ≡ faults.World Memory };

    fn from(_error: AllocFailed<T>) -> MakeFault {
        MakeFault::World(WorldFault::Memory)
    }
}
