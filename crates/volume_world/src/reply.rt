//! What a volume replies to an event.

use unit_id::{Answer, Homes, Moves};
use volume_entry::View;

/// The reply of a volume to an event.
#[derive(Drop)]
pub enum Reply {
    /// It is done now.
    Done,
    /// It was done before.
    Already,
    /// The clock, after a tick.
    Now { now: u64 },
    /// Puts may be acknowledged before this time.
    LeaseTo { end: u64 },
    /// The put is open until `end`, and these are the units to which its shards go.
    Begun { end: u64, units: Homes },
    /// The blob was begun before.
    BeginTwice,
    /// The answer of the unit was heard.
    Heard { answer: Answer },
    /// No answer was heard.
    Unheard,
    /// The request may not be sent as things stand.
    Barred,
    /// A late request was handled, or a late answer heard.
    Flushed { request: bool },
    /// Nothing is late.
    NothingLate,
    /// The put is acknowledged, by so many units.
    Acked { accepted: u32 },
    /// There is no open put of the blob.
    NotOpen,
    /// The put's lease ended before it did.
    LeaseOver { end: u64, now: u64 },
    /// Too few units accepted the put.
    Quorum { accepted: u32 },
    /// The lock of this number moves units so.
    Granted { lock: u64, moves: Moves },
    /// A task has the lock.
    Locked { task: u64 },
    /// Puts may still be acknowledged before this time.
    LeaseRuns { end: u64 },
    /// A destination's disk is broken.
    DestBroken,
    /// A destination's disk has the unit of this index, or is to have it.
    DestHeld { index: u8 },
    /// The index has no epochs left.
    EpochSpent,
    /// There is no lock.
    NotLocked,
    /// The lock is another task's.
    OtherTask { task: u64 },
    /// The lock's units were swapped before.
    AlreadySwapped,
    /// The lock moves no unit of this index.
    NotMoved,
    /// The present destination isn't broken.
    DestGood,
    /// An old unit wasn't heard to be fenced.
    NotFenced,
    /// Listings of so few units were heard.
    NotListed { have: u32 },
    /// The destinations lack this blob, the least one.
    NotCopied { bid: u64 },
    /// The lock's units weren't swapped yet.
    NotSwapped,
    /// An old unit wasn't heard to be released.
    NotReleased,
    /// The blob wasn't begun.
    NotBegun,
    /// The blob's deletion wasn't asked for.
    NotAsked,
    /// Marks of so few units were heard.
    TooFewMarks { have: u32 },
    /// The volume as it stands.
    Seen { view: View },
    /// A file failed.
    Fault,
    /// A record's sum is wrong in a chunk.
    Damaged { kept: u32, computed: u32 },
    /// A log has no legal record at this place.
    Spoiled { place: u64 },
}
