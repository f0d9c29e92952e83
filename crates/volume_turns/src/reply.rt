//! What one volume replies to a command.

use unit_id::Bytes;
use volume_entry::View;

/// Why a command isn't done. The first reason decides.
#[derive(Clone, Copy, Debug, PartialEq, Eq)]
pub enum VolumeRefusal {
    /// A task has locked the volume.
    Locked { task: u64 },
    /// The lease that the put saw ended at this time, before the put did.
    Lease { end: u64 },
    /// Only so many units accepted their shards.
    Quorum { accepted: u32 },
    /// A blob of this number was begun before.
    Begun,
    /// The put of a blob isn't open any more.
    NotOpen,
    /// Only so many shards were heard.
    Short { live: u32 },
    /// The blob has so many bytes, and not as many as were asked for.
    Size { kept: u32 },
    /// Units moved at each try.
    Moving,
    /// The blob wasn't begun.
    NotBegun,
    /// A file failed.
    Fault,
    /// The sum of a record is wrong.
    Damaged,
    /// A log has no legal record at this place.
    Spoiled { place: u64 },
}

/// The reply to a command.
#[derive(Drop)]
pub enum VolumeReply {
    /// The volume as the look shows it.
    Seen { view: View },
    /// All blobs of the object are acknowledged.
    Put,
    /// The bytes of the object.
    Got { bytes: Bytes },
    /// The bytes of the blob.
    Fetched { bytes: Bytes },
    /// The deletion is asked for, now or before.
    Asked,
    /// The time after the ticks.
    Ticked { now: u64 },
    /// The disk is broken.
    Broken,
    /// The fates are planned.
    Planned,
    /// So many late requests and answers arrived, and none is left.
    Flushed { requests: u64, answers: u64 },
    /// The chunks of the disk are started anew.
    Restarted,
    /// The manager's log is started anew.
    RestartedManager,
    /// It isn't done.
    Refused { refusal: VolumeRefusal },
}
