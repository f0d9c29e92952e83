//! What the manager of a volume does, and what it replies.

use unit_id::{Moves, Targets};

/// A step of the manager. Blob numbers are 1 to 2^62, disks count from 1.
#[derive(Drop)]
pub enum ManagerEvent {
    /// Puts may be acknowledged for ten ticks from now on.
    Lease,
    /// A task locks the volume, to move units to these targets.
    Lock { task: u64, targets: Targets },
    /// A destination that broke is replaced.
    Retarget { task: u64, index: u8, disk: u32 },
    /// The destinations become the units of their indexes.
    Swap { task: u64 },
    /// The task gives the volume free.
    Unlock { task: u64 },
    /// The deletion of a blob is asked for.
    Ask { bid: u64 },
    /// The deletion of a blob is committed.
    Commit { bid: u64 },
}

/// The manager's reply to a step.
#[derive(Drop)]
pub enum ManagerReply {
    /// It is done now.
    Done,
    /// It was done before.
    Already,
    /// Puts may be acknowledged before this time.
    LeaseTo { end: u64 },
    /// A task has the lock.
    Locked { task: u64 },
    /// Puts may still be acknowledged before this time.
    LeaseRuns { end: u64 },
    /// The lock of this number moves units so.
    Granted { lock: u64, moves: Moves },
    /// A destination's disk is broken.
    DestBroken,
    /// A destination's disk has the unit of this index, or is to have it.
    DestHeld { index: u8 },
    /// The index has no epochs left.
    EpochSpent,
    /// There is no lock.
    NotLocked,
    /// The lock is another task's.
    OtherTask { task: u64 },
    /// The lock's units were swapped before.
    AlreadySwapped,
    /// The lock moves no unit of this index.
    NotMoved,
    /// The present destination isn't broken.
    DestGood,
    /// An old unit wasn't heard to be fenced.
    NotFenced,
    /// Listings of so few units were heard.
    NotListed { have: u32 },
    /// The destinations lack this blob, the least one.
    NotCopied { bid: u64 },
    /// The lock's units weren't swapped yet.
    NotSwapped,
    /// An old unit wasn't heard to be released.
    NotReleased,
    /// The blob's deletion wasn't asked for.
    NotAsked,
    /// Marks of so few units were heard.
    TooFewMarks { have: u32 },
}
