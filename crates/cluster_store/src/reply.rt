//! What a store replies.

use cluster_admin::DiskState;
use unit_id::Bytes;
use volume_turns::VolumeRefusal;

/// Why a command isn't done. The first reason decides.
#[derive(Clone, Copy, Debug, PartialEq, Eq)]
pub enum Refusal {
    /// The store was given this many disks before.
    Given { have: u32 },
    /// A store has 1 to 64 disks, 63 volumes and 100,000 names, and a volume 2^62 blob numbers.
    Limit,
    /// So many disks can be chosen, and the mode has more units.
    FewDisks { have: u32, need: u32 },
    /// The object has no bytes.
    Empty,
    /// The object has more bytes than an object may have.
    TooLarge,
    /// The name has an object.
    NameTaken,
    /// The name has no object.
    NoName,
    /// There is no such volume, or none that takes puts.
    NoVolume,
    /// There is no such disk.
    NoDisk,
    /// The disk isn't normal.
    BadState { state: DiskState },
    /// A call of the farm, a shelf or a file failed as a volume was made.
    Fault,
    /// A new chunk of a volume has a record with a wrong sum.
    Damaged,
    /// A new log of a volume isn't one at this place.
    Spoiled { place: u64 },
    /// A volume refuses.
    OfVolume { refusal: VolumeRefusal },
}

/// The reply to a command.
#[derive(Drop)]
pub enum Reply {
    /// The disks are there.
    Disks,
    /// The volume is there, under this number.
    Volume { vid: u32 },
    /// The object is put, the first blob of it under this number.
    Put { vid: u32, bid: u64, size: u32 },
    /// The bytes of the object.
    Got { bytes: Bytes },
    /// The bytes of the blob.
    Fetched { bytes: Bytes },
    /// The clocks have gone on.
    Ticked,
    /// The disk is broken.
    Broken,
    /// The fates are planned.
    Planned,
    /// So many late requests and answers arrived, and none is left.
    Flushed { requests: u64, answers: u64 },
    /// The chunks of the disk are started anew.
    Restarted,
    /// The managers' logs are started anew.
    RestartedManager,
    /// It isn't done.
    Refused { cause: Refusal },
}
