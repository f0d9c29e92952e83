//! Why a call is refused.

use crate::disks::DiskState;
use std::alloc::{AllocError, AllocFailed};
use thiserror::Error;

/// Why a call of the cluster's tables is refused.
#[derive(Clone, Copy, Debug, PartialEq, Eq, Error)]
pub enum AdminFault {
    #[error("a store has 1 to 64 disks")]
    LimitDisks,
    #[error("{have} disks were given before")]
    DisksGiven { have: u32 },
    #[error("there is no such placer")]
    NoPlacer,
    #[error("that placer is or was in use")]
    PlacerUsed,
    #[error("no volume number is left")]
    LimitVolumes,
    #[error("{have} disks can be chosen and {need} are needed")]
    FewDisks { have: u32, need: u32 },
    #[error("there is no such volume")]
    NoVolume,
    #[error("the volume has no such unit")]
    NoIndex,
    #[error("there is no such disk")]
    NoTarget,
    #[error("the disk is {state:?}")]
    BadState { state: DiskState },
    #[error("at most {most} units can be moved at once")]
    TooMany { most: u32 },
    #[error("task {task} has this unit")]
    Busy { task: u64 },
    #[error("no task number is left")]
    LimitTasks,
    #[error("there is no disk to choose")]
    NoDisk,
    #[error("the name is taken")]
    NameTaken,
    #[error("there is no such name")]
    NoName,
    #[error("no more names can be held")]
    LimitNames,
    #[error("no blob number is left in the volume")]
    LimitBids,
    #[error("no memory")]
    Memory,
}

impl From<AllocError> for AdminFault {
    ghost use Rattle.std.specs.Prelude.{◌≡◌};
    ghost use Rattle.cluster_admin.specs.declared.fault.AdminFault.TheVariants.{Memory};

    ghost from_gives = { λ _ e. e ≡ Memory };

    fn from(_error: AllocError) -> AdminFault {
        AdminFault::Memory
    }
}

impl<T: Drop> From<AllocFailed<T>> for AdminFault {
    ghost use Rattle.std.specs.Prelude.{◌≡◌};
    ghost use Rattle.cluster_admin.specs.declared.fault.AdminFault.TheVariants.{Memory};

    ghost from_gives = { λ _ e. e ≡ Memory };

    fn from(_error: AllocFailed<T>) -> AdminFault {
        AdminFault::Memory
    }
}
