//! What a station answers.

use crate::bids::Bids;
use crate::bytes::Bytes;

/// The answer of a station to a request.
#[derive(Drop)]
pub enum Answer {
    /// It is done now.
    Done,
    /// It was done before.
    Already,
    /// The shard that was read, and the size of its blob.
    Live { blob_size: u32, bytes: Bytes },
    /// The blob is marked as deleted.
    Marked,
    /// The blob's shard is gone.
    Gone,
    /// The unit has no row of the blob.
    Absent,
    /// The blobs with live rows, and those that are marked or gone, each ascending.
    Listing { lock: u64, live: Bids, marked: Bids },
    /// The unit was released, or followed on this disk by one with a greater epoch; `have` is the
    /// greatest epoch of its index that was made here.
    Stale { have: u32 },
    /// The unit wasn't made here.
    NoUnit,
    /// The unit takes no writes; it was fenced under this lock.
    Fenced { lock: u64 },
    /// The blob is marked or gone, so its shard isn't taken.
    Deleted,
    /// The blob isn't marked, so it can't be freed.
    NotMarked,
    /// The disk is broken.
    Broken,
    /// The chunk's log ends at `end` and has no room left.
    Full { end: u64 },
    /// A file or shelf failed.
    Fault,
    /// The sum that was kept isn't that of the record.
    Damaged { kept: u32, computed: u32 },
    /// The log at this place holds no record.
    Spoiled { place: u64 },
}
