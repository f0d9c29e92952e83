//! What one volume is told to do.

use blob_node::Fate;
use unit_id::Bytes;

/// A command of a script that goes to one volume. Blob numbers are 1 to 2^62, sizes are bytes, disks count from 1, and
/// ticks are the clock's.
#[derive(Drop)]
pub enum VolumeCommand {
    /// It is looked at the volume.
    Look,
    /// An object of 1 to `OBJECT_LIMIT` bytes is put, the first blob of it under this number.
    Put { first: u64, object: Bytes },
    /// An object of so many bytes is got, the first blob of which has this number.
    Get { first: u64, size: u32 },
    /// One blob of so many bytes is got.
    Fetch { bid: u64, size: u32 },
    /// The deletion of a blob is asked for.
    Ask { bid: u64 },
    /// The clock goes on by so many ticks.
    Tick { by: u32 },
    /// A disk breaks for good.
    Break { disk: u32 },
    /// The next `count` requests to the disk, behind those planned already, are to have this fate.
    Plan { disk: u32, fate: Fate, count: u32 },
    /// Late requests and answers arrive until none is left.
    Flush,
    /// The station of a disk starts its chunks anew.
    Restart { disk: u32 },
    /// The manager's log starts anew.
    RestartManager,
}
