//! Why a call on a volume gives no answer.

ghost use Rattle.std.specs.Prelude.{◌≡◌, Some};
ghost use Rattle.volume_calls.specs.CutOff.{ask_cut, log_cut, restart_cut};

use thiserror::Error;
use volume_world::StepFault;

/// Why a volume isn't looked at or flushed, or its manager's log isn't started anew.
#[derive(Debug, PartialEq, Eq, Drop, Error)]
pub enum LogFault {
    /// A file failed.
    #[error("a file failed")]
    Fault,
    /// The manager's log has no legal record at this place.
    #[error("the manager's log is spoiled at place {place}")]
    Spoiled { place: u64 },
    /// The volume's history is full.
    #[error("the volume's history is full")]
    HistoryFull,
    /// The allocator had no memory left.
    #[error("out of memory")]
    Memory,
}

/// Why the chunks of a disk aren't all started anew.
#[derive(Debug, PartialEq, Eq, Drop, Error)]
pub enum RestartFault {
    /// A file failed.
    #[error("a file failed")]
    Fault,
    /// A record's sum is wrong in a chunk.
    #[error("a record has the sum {kept:08x}, and {computed:08x} was computed")]
    Damaged { kept: u32, computed: u32 },
    /// A chunk has no legal record at this place.
    #[error("a chunk is spoiled at place {place}")]
    Spoiled { place: u64 },
    /// The volume's history is full.
    #[error("the volume's history is full")]
    HistoryFull,
    /// The allocator had no memory left.
    #[error("out of memory")]
    Memory,
}

/// Why the deletion of a blob isn't asked for.
#[derive(Debug, PartialEq, Eq, Drop, Error)]
pub enum AskFault {
    /// The blob wasn't begun.
    #[error("the blob wasn't begun")]
    NotBegun,
    /// A file failed.
    #[error("a file failed")]
    Fault,
    /// The manager's log has no legal record at this place.
    #[error("the manager's log is spoiled at place {place}")]
    Spoiled { place: u64 },
    /// The volume's history is full.
    #[error("the volume's history is full")]
    HistoryFull,
    /// The allocator had no memory left.
    #[error("out of memory")]
    Memory,
}

impl From<StepFault> for LogFault {
    ghost from_gives = { λ fault given. log_cut given ≡ Some fault };

    fn from(fault: StepFault) -> LogFault {
        match fault {
            StepFault::HistoryFull => LogFault::HistoryFull,
            StepFault::Memory => LogFault::Memory,
        }
    }
}

impl From<StepFault> for RestartFault {
    ghost from_gives = { λ fault given. restart_cut given ≡ Some fault };

    fn from(fault: StepFault) -> RestartFault {
        match fault {
            StepFault::HistoryFull => RestartFault::HistoryFull,
            StepFault::Memory => RestartFault::Memory,
        }
    }
}

impl From<StepFault> for AskFault {
    ghost from_gives = { λ fault given. ask_cut given ≡ Some fault };

    fn from(fault: StepFault) -> AskFault {
        match fault {
            StepFault::HistoryFull => AskFault::HistoryFull,
            StepFault::Memory => AskFault::Memory,
        }
    }
}
