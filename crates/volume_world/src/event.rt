//! What can happen to a volume.

use blob_node::Fate;
use code_mode::Payload;
use unit_id::{Request, Targets};

/// An event of one volume. Blob numbers are 1 to 2^62, disks count from 1, and ticks are the clock's.
#[derive(Drop)]
pub enum Event {
    /// The clock goes on by so many ticks.
    Tick { by: u32 },
    /// The next `count` requests to the disk, behind those planned already, have this fate.
    Plan { disk: u32, fate: Fate, count: u32 },
    /// Puts may be acknowledged for ten ticks from now on.
    Lease,
    /// A put of these bytes begins.
    Begin { bid: u64, payload: Payload },
    /// A request goes to its unit.
    Send { request: Request },
    /// The first late request or answer arrives.
    FlushOne,
    /// A put ends.
    End { bid: u64 },
    /// A task locks the volume, to move units to these targets.
    Lock { task: u64, targets: Targets },
    /// A destination that broke is replaced.
    Retarget { task: u64, index: u8, disk: u32 },
    /// The destinations become the units of their indexes.
    Swap { task: u64 },
    /// The task gives the volume free.
    Unlock { task: u64 },
    /// A disk breaks for good.
    Break { disk: u32 },
    /// The deletion of a blob is asked for.
    Ask { bid: u64 },
    /// The deletion of a blob is committed.
    Commit { bid: u64 },
    /// The station of a disk starts its chunks anew.
    Restart { disk: u32 },
    /// The manager's log starts anew.
    RestartManager,
    /// The volume is looked at.
    Look,
}
