//! Why a blob isn't put, or isn't got.

ghost use Rattle.std.specs.Prelude.{◌≡◌};
ghost use Rattle.blob_access.specs.declared.fault.PutFault.TheVariants.{Memory as PutMemory};
ghost use Rattle.blob_access.specs.declared.fault.GetFault.TheVariants.{Memory as GetMemory};
ghost use Rattle.blob_access.specs.PutParts.{broken_off};
ghost use Rattle.blob_access.specs.GetParts.{get_broken_off};

use disk_base::NoMemory;
use thiserror::Error;
use volume_world::StepFault;

/// Why a put isn't acknowledged. Times are ticks of the volume's clock.
#[derive(Debug, Drop, Error)]
pub enum PutFault {
    /// A task has locked the volume.
    #[error("task {task} has locked the volume")]
    Locked { task: u64 },
    /// The blob was begun before.
    #[error("the blob was begun before")]
    Begun,
    /// The lease that the put saw ended before the put did.
    #[error("the lease ended at {end}, and it is {now}")]
    LeaseEnded { end: u64, now: u64 },
    /// The put isn't open any more.
    #[error("the put isn't open")]
    NotOpen,
    /// Only so many units accepted their shards.
    #[error("only {accepted} units accepted the blob")]
    Quorum { accepted: u32 },
    /// A file failed.
    #[error("a file failed")]
    Fault,
    /// The manager's log has no legal record at this place.
    #[error("the manager's log is spoiled at place {place}")]
    Spoiled { place: u64 },
    /// The volume's history is full.
    #[error("the volume's history is full")]
    HistoryFull,
    /// The allocator had no memory left.
    #[error("out of memory")]
    Memory,
}

impl From<StepFault> for PutFault {
    ghost from_gives = { λ fault given. given ≡ broken_off fault };

    fn from(fault: StepFault) -> PutFault {
        match fault {
            StepFault::HistoryFull => PutFault::HistoryFull,
            StepFault::Memory => PutFault::Memory,
        }
    }
}

impl From<NoMemory> for PutFault {
    ghost from_gives = { λ _ given. given ≡ PutMemory };

    fn from(_error: NoMemory) -> PutFault {
        PutFault::Memory
    }
}

/// Why a blob isn't got.
#[derive(Debug, Drop, Error)]
pub enum GetFault {
    /// The units gave only so many live shards; so many reads had no answer, and so many units were on broken disks.
    #[error("only {live} shards were heard")]
    Short {
        live: u32,
        unheard: u32,
        broken: u32,
    },
    /// The blob has another size.
    #[error("the blob has {kept} bytes")]
    Size {
        kept: u32,
    },
    /// Units moved at each try. These versions of the volume were seen.
    #[error("units moved at each try")]
    Moving {
        versions: [u64; 5],
    },
    /// A file failed.
    #[error("a file failed")]
    Fault,
    /// The manager's log has no legal record at this place.
    #[error("the manager's log is spoiled at place {place}")]
    Spoiled {
        place: u64,
    },
    /// The volume's history is full.
    #[error("the volume's history is full")]
    HistoryFull,
    /// The allocator had no memory left.
    #[error("out of memory")]
    Memory,
}

impl From<StepFault> for GetFault {
    ghost from_gives = { λ fault given. given ≡ get_broken_off fault };

    fn from(fault: StepFault) -> GetFault {
        match fault {
            StepFault::HistoryFull => GetFault::HistoryFull,
            StepFault::Memory => GetFault::Memory,
        }
    }
}

impl From<NoMemory> for GetFault {
    ghost from_gives = { λ _ given. given ≡ GetMemory };

    fn from(_error: NoMemory) -> GetFault {
        GetFault::Memory
    }
}
