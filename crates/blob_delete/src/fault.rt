//! Why a sweep gives up.

ghost use Rattle.std.specs.Prelude.{◌≡◌};
ghost use Rattle.blob_delete.specs.SweepParts.{broken_off};

use thiserror::Error;
use volume_world::StepFault;

/// Why a sweep gives up.
#[derive(Debug, Drop, Error)]
pub enum DeleteFault {
    /// A task has locked the volume.
    #[error("task {task} has locked the volume")]
    Locked { task: u64 },
    /// The blob's deletion wasn't asked for.
    #[error("the blob's deletion wasn't asked for")]
    NotAsked,
    /// A file failed.
    #[error("a file failed")]
    Fault,
    /// The manager's log has no legal record at this place.
    #[error("the manager's log is spoiled at place {place}")]
    Spoiled { place: u64 },
    /// The volume's history is full.
    #[error("the volume's history is full")]
    HistoryFull,
    /// The allocator had no memory left.
    #[error("out of memory")]
    Memory,
}

impl From<StepFault> for DeleteFault {
    ghost from_gives = { λ fault given. given ≡ broken_off fault };

    fn from(fault: StepFault) -> DeleteFault {
        match fault {
            StepFault::HistoryFull => DeleteFault::HistoryFull,
            StepFault::Memory => DeleteFault::Memory,
        }
    }
}
