//! What a volume's history keeps of events and replies: all but shard bytes and lists of blobs.

use blob_node::Fate;
use code_mode::Payload;
use unit_id::{Homes, Moves, Targets, UnitName};
use volume_entry::View;

/// A request, without the bytes of its shard.
#[derive(Clone, Copy, Debug, PartialEq, Eq)]
pub enum TraceRequest {
    Create {
        unit: UnitName,
        disk: u32,
    },
    Fence {
        unit: UnitName,
        disk: u32,
        lock: u64,
    },
    Put {
        unit: UnitName,
        disk: u32,
        bid: u64,
        blob_size: u32,
    },
    Read {
        unit: UnitName,
        disk: u32,
        bid: u64,
    },
    List {
        unit: UnitName,
        disk: u32,
        lock: u64,
    },
    Copy {
        unit: UnitName,
        disk: u32,
        bid: u64,
        blob_size: u32,
    },
    Mark {
        unit: UnitName,
        disk: u32,
        bid: u64,
    },
    Free {
        unit: UnitName,
        disk: u32,
        bid: u64,
    },
    Release {
        unit: UnitName,
        disk: u32,
    },
}

/// An answer, without a shard's bytes and a listing's blobs.
#[derive(Clone, Copy, Debug, PartialEq, Eq)]
pub enum TraceAnswer {
    Done,
    Already,
    Live { blob_size: u32 },
    Marked,
    Gone,
    Absent,
    Listing { lock: u64 },
    Stale { have: u32 },
    NoUnit,
    Fenced { lock: u64 },
    Deleted,
    NotMarked,
    Broken,
    Full { end: u64 },
    Fault,
    Damaged { kept: u32, computed: u32 },
    Spoiled { place: u64 },
}

/// An event as the history keeps it, and one that only the history has: before an event a log that was shut is
/// started, and its record in doubt is found (`kept`) or not.
#[derive(Drop)]
pub enum TraceEvent {
    Tick { by: u32 },
    Plan { disk: u32, fate: Fate, count: u32 },
    Lease,
    Begin { bid: u64, payload: Payload },
    Send { request: TraceRequest },
    FlushOne,
    End { bid: u64 },
    Lock { task: u64, targets: Targets },
    Retarget { task: u64, index: u8, disk: u32 },
    Swap { task: u64 },
    Unlock { task: u64 },
    Break { disk: u32 },
    Ask { bid: u64 },
    Commit { bid: u64 },
    Restart { disk: u32 },
    RestartManager,
    Look,
    /// The log is the manager's where `disk` is 0, and otherwise that of a unit on this disk.
    Settle { disk: u32, kept: bool },
}

/// A reply, without a shard's bytes and a listing's blobs.
#[derive(Drop)]
pub enum TraceReply {
    Done,
    Already,
    Now { now: u64 },
    LeaseTo { end: u64 },
    Begun { end: u64, units: Homes },
    BeginTwice,
    Heard { answer: TraceAnswer },
    Unheard,
    Barred,
    Flushed { request: bool },
    NothingLate,
    Acked { accepted: u32 },
    NotOpen,
    LeaseOver { end: u64, now: u64 },
    Quorum { accepted: u32 },
    Granted { lock: u64, moves: Moves },
    Locked { task: u64 },
    LeaseRuns { end: u64 },
    DestBroken,
    DestHeld { index: u8 },
    EpochSpent,
    NotLocked,
    OtherTask { task: u64 },
    AlreadySwapped,
    NotMoved,
    DestGood,
    NotFenced,
    NotListed { have: u32 },
    NotCopied { bid: u64 },
    NotSwapped,
    NotReleased,
    NotBegun,
    NotAsked,
    TooFewMarks { have: u32 },
    Seen { view: View },
    Fault,
    Damaged { kept: u32, computed: u32 },
    Spoiled { place: u64 },
}

/// One entry of a history.
#[derive(Drop)]
pub struct Trace {
    pub event: TraceEvent,
    pub reply: TraceReply,
}
