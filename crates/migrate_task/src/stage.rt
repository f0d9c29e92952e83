//! How far a task has come.

use thiserror::Error;
use unit_id::Homes;

/// How far a task has come in one call.
#[derive(Drop)]
pub enum Stage {
    /// All is done: these units stand in place of the old ones, in order of index.
    Done { units: Homes },
    /// A later call may go on.
    Waits(Why),
}

/// Why a task goes no further in this call. Disks and times are the volume's.
#[derive(Clone, Copy, Debug, PartialEq, Eq)]
pub enum Why {
    /// A task has locked the volume.
    Locked { task: u64 },
    /// Puts may still be acknowledged before this time.
    Leased { end: u64 },
    /// A target has no disk.
    NoDisk,
    /// A destination's disk is broken.
    DestBroken,
    /// A destination's disk has the unit of this index, or is to have it.
    DestHeld { index: u8 },
    /// Only so many units were listed.
    Short { listed: u32 },
    /// So few shards of a blob were heard, and so many reads had no answer.
    ShortShards { bid: u64, live: u32, unheard: u32 },
    /// A request to this disk had no answer.
    Unheard { disk: u32 },
    /// A unit on this disk gave an answer that is of no use.
    Sick { disk: u32 },
}

/// Why a call of a task gives up.
#[derive(Debug, Drop, Error)]
pub enum TaskFault {
    /// An index has no epochs left.
    #[error("a unit of the volume has no epochs left")]
    EpochSpent,
    /// A file failed.
    #[error("a file failed")]
    Fault,
    /// The manager's log has no legal record at this place.
    #[error("the manager's log is spoiled at place {place}")]
    Spoiled { place: u64 },
    /// The volume's history is full.
    #[error("the volume's history is full")]
    HistoryFull,
    /// The allocator had no memory left.
    #[error("out of memory")]
    Memory,
}
