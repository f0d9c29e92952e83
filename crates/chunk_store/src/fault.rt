//! Why a call on a chunk gives up.

ghost use Rattle.std.specs.Prelude.{◌≡◌};
ghost use Rattle.chunk_store.specs.declared.fault.ChunkFault.TheVariants.{Memory};

use disk_base::NoMemory;
use std::alloc::{AllocError, AllocFailed};
use thiserror::Error;

/// Why a call on a chunk gives up. Places and ends are in bytes of the chunk's file.
#[derive(Debug, Drop, Error)]
pub enum ChunkFault {
    /// A call on the file failed.
    #[error("a call on the chunk's file failed")]
    Fault,
    /// The chunk isn't started.
    #[error("the chunk is shut")]
    Shut,
    /// The sum of a record's bytes differs from the one that stands with them.
    #[error("a record's sum is {kept:08x} where {computed:08x} is right")]
    Damaged { kept: u32, computed: u32 },
    /// At this place no record of the unit can be read.
    #[error("the chunk has no record of its unit at place {place}")]
    Spoiled { place: u64 },
    /// With the record the file would pass 2^40 bytes. The chunk ends at this place.
    #[error("the chunk is full at place {end}")]
    Full { end: u64 },
    /// A row that isn't marked isn't freed.
    #[error("the row isn't marked")]
    NotMarked,
    /// No write is taken any more, by the lock of this number.
    #[error("the chunk is fenced by lock {lock}")]
    Fenced { lock: u64 },
    /// The allocator had no memory left.
    #[error("out of memory")]
    Memory,
}

impl ChunkFault {
    ghost use Rattle.chunk_store.specs.Kept.{is_fault, shut_after};

    // Whether a call on the file failed.
    pub(crate) fn is_fault(&self) -> bool
        ensures { result ≡ is_fault self.now }
    {
        matches!(self, ChunkFault::Fault)
    }

    // Whether a chunk is shut after a start that gave up so: want of memory alone leaves it as it was.
    pub(crate) fn leaves_shut(&self, was_shut: bool) -> bool
        ensures { result ≡ shut_after self.now was_shut }
    {
        match self {
            ChunkFault::Memory => was_shut,
            _ => true,
        }
    }
}

impl From<NoMemory> for ChunkFault {
    ghost from_gives = { λ _ fault. fault ≡ Memory };

    fn from(_error: NoMemory) -> ChunkFault {
        ChunkFault::Memory
    }
}

impl From<AllocError> for ChunkFault {
    ghost from_gives = { λ _ fault. fault ≡ Memory };

    fn from(_error: AllocError) -> ChunkFault {
        ChunkFault::Memory
    }
}

impl<T: Drop> From<AllocFailed<T>> for ChunkFault {
    ghost from_gives = { λ _ fault. fault ≡ Memory };

    fn from(_error: AllocFailed<T>) -> ChunkFault {
        ChunkFault::Memory
    }
}
