//! What a store is told to do.

use blob_node::Fate;
use code_mode::{Mode, Payload};

/// A command to a store. Volumes and disks count from 1, blob numbers are 1 to 2^62, sizes are bytes, and ticks are those of
/// the volumes' clocks.
#[derive(Drop)]
pub enum Command {
    /// The store has this many disks from now on.
    Disks {
        count: u32,
    },
    /// A volume more is made, of this mode.
    Volume {
        mode: Mode,
    },
    /// An object is put under a name, as blobs of one volume.
    Put {
        name: String,
        object: Payload,
    },
    /// The object of a name is got.
    Get {
        name: String,
    },
    /// One blob is got.
    Fetch {
        vid: u32,
        bid: u64,
        size: u32,
    },
    /// The clock of each volume goes on by so many ticks.
    Tick {
        by: u32,
    },
    /// A disk breaks for good.
    Break {
        disk: u32,
    },
    /// The next `count` requests of a volume to the disk, behind those planned already, are to have this fate.
    Plan {
        vid: u32,
        disk: u32,
        fate: Fate,
        count: u32,
    },
    /// The late requests and answers of a volume arrive until none is left.
    Flush {
        vid: u32,
    },
    /// The stations of a disk start their chunks anew, volume by volume.
    Restart {
        disk: u32,
    },
    /// The managers' logs start anew, volume by volume.
    RestartManager,
}
