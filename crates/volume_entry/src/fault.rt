//! Why a call on an entry gives up.

ghost use Rattle.std.specs.Prelude.{◌≡◌};
ghost use Rattle.volume_entry.specs.declared.fault.EntryFault.TheVariants.{Memory};

use disk_base::NoMemory;
use std::alloc::{AllocError, AllocFailed};
use thiserror::Error;

/// Why a call on an entry gives up. Places are in bytes of the file of its log.
#[derive(Debug, Drop, Error)]
pub enum EntryFault {
    /// A call on the file failed.
    #[error("a call on the file of the volume's log failed")]
    Fault,
    /// At this place no record stands that is legal behind those before it.
    #[error("the volume's log has no legal record at place {place}")]
    Spoiled { place: u64 },
    /// The log isn't started.
    #[error("the volume's log is shut")]
    Shut,
    /// The allocator had no memory left.
    #[error("out of memory")]
    Memory,
}

impl EntryFault {
    ghost use Rattle.volume_entry.specs.Book.{is_fault, is_memory};

    // Whether a call on the file failed.
    pub(crate) fn is_fault(&self) -> bool
        ensures { result ≡ is_fault self.now }
    {
        matches!(self, EntryFault::Fault)
    }

    // Whether memory ran out.
    pub(crate) fn is_memory(&self) -> bool
        ensures { result ≡ is_memory self.now }
    {
        matches!(self, EntryFault::Memory)
    }
}

impl From<NoMemory> for EntryFault {
    ghost from_gives = { λ _ fault. fault ≡ Memory };

    fn from(_error: NoMemory) -> EntryFault {
        EntryFault::Memory
    }
}

impl From<AllocError> for EntryFault {
    ghost from_gives = { λ _ fault. fault ≡ Memory };

    fn from(_error: AllocError) -> EntryFault {
        EntryFault::Memory
    }
}

impl<T: Drop> From<AllocFailed<T>> for EntryFault {
    ghost from_gives = { λ _ fault. fault ≡ Memory };

    fn from(_error: AllocFailed<T>) -> EntryFault {
        EntryFault::Memory
    }
}
