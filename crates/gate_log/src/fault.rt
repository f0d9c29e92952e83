//! Why a call on a log gives up.

ghost use Rattle.std.specs.Prelude.{◌≡◌};
ghost use Rattle.gate_log.specs.declared.fault.LogFault.TheVariants.{Fault, Memory};

use disk_base::{Failed, NoMemory};
use std::alloc::{AllocError, AllocFailed};
use thiserror::Error;

/// Why a call on a log gives up. Places, lengths and ends are in bytes.
#[derive(Debug, Drop, Error)]
pub enum LogFault {
    /// A call on the file failed.
    #[error("a call on the log's file failed")]
    Fault,
    /// The log isn't started.
    #[error("the log is shut")]
    Shut,
    /// The file has more than 9 bytes and doesn't begin with the mark of a log.
    #[error("the file doesn't begin as a log")]
    BadHead,
    /// At this place no whole record stands behind an open gate.
    #[error("the log has no whole record at place {place}")]
    BadChain { place: u64 },
    /// A body of so many bytes is empty or too long.
    #[error("a body of {len} bytes is empty or too long")]
    BadLength { len: u64 },
    /// With the body the file would pass 2^40 bytes. The log ends at this place.
    #[error("the log is full at place {end}")]
    Full { end: u64 },
    /// The allocator had no memory left.
    #[error("out of memory")]
    Memory,
}

impl From<Failed> for LogFault {
    ghost from_gives = { λ _ fault. fault ≡ Fault };

    fn from(_error: Failed) -> LogFault {
        LogFault::Fault
    }
}

impl From<NoMemory> for LogFault {
    ghost from_gives = { λ _ fault. fault ≡ Memory };

    fn from(_error: NoMemory) -> LogFault {
        LogFault::Memory
    }
}

impl From<AllocError> for LogFault {
    ghost from_gives = { λ _ fault. fault ≡ Memory };

    fn from(_error: AllocError) -> LogFault {
        LogFault::Memory
    }
}

impl<T: Drop> From<AllocFailed<T>> for LogFault {
    ghost from_gives = { λ _ fault. fault ≡ Memory };

    fn from(_error: AllocFailed<T>) -> LogFault {
        LogFault::Memory
    }
}
