//! The ways in which a call on the outside gives up.

ghost use Rattle.std.specs.Prelude.{◌≡◌};
ghost use Rattle.disk_base.specs.declared.fault.ShelfFault.TheVariants.{Memory as ShelfMemory};
ghost use Rattle.disk_base.specs.declared.fault.FarmFault.TheVariants.{Memory as FarmMemory};

use std::alloc::{AllocError, AllocFailed};
use thiserror::Error;

/// A device call failed. It may come only where the object's count of faults rose in that call.
#[derive(Debug, Drop, Error)]
#[error("the device failed")]
pub struct Failed;

/// The allocator had no memory left. The call that answers it changed nothing.
#[derive(Debug, Drop, Error)]
#[error("out of memory")]
pub struct NoMemory;

impl From<AllocError> for NoMemory {
    fn from(_error: AllocError) -> NoMemory {
        NoMemory
    }
}

impl<T: Drop> From<AllocFailed<T>> for NoMemory {
    fn from(_error: AllocFailed<T>) -> NoMemory {
        NoMemory
    }
}

/// Why a shelf refuses a call.
#[derive(Debug, Drop, Error)]
pub enum ShelfFault {
    /// There is a file of that name.
    #[error("the file exists")]
    Exists,
    /// There is no file of that name.
    #[error("the file is absent")]
    Absent,
    /// A device call failed.
    #[error("the device failed")]
    Failed,
    /// The allocator had no memory left. Nothing changed.
    #[error("out of memory")]
    Memory,
}

impl From<AllocError> for ShelfFault {
    ghost from_gives = { λ _ fault. fault ≡ ShelfMemory };

    fn from(_error: AllocError) -> ShelfFault {
        ShelfFault::Memory
    }
}

impl<T: Drop> From<AllocFailed<T>> for ShelfFault {
    ghost from_gives = { λ _ fault. fault ≡ ShelfMemory };

    fn from(_error: AllocFailed<T>) -> ShelfFault {
        ShelfFault::Memory
    }
}

/// Why a farm hands out no root or shelf.
#[derive(Debug, Drop, Error)]
pub enum FarmFault {
    /// The root has a file, and not the admin's.
    #[error("the root is not empty")]
    NotEmpty,
    /// A device call failed.
    #[error("the device failed")]
    Failed,
    /// The allocator had no memory left. Nothing changed.
    #[error("out of memory")]
    Memory,
}

impl From<AllocError> for FarmFault {
    ghost from_gives = { λ _ fault. fault ≡ FarmMemory };

    fn from(_error: AllocError) -> FarmFault {
        FarmFault::Memory
    }
}

impl<T: Drop> From<AllocFailed<T>> for FarmFault {
    ghost from_gives = { λ _ fault. fault ≡ FarmMemory };

    fn from(_error: AllocFailed<T>) -> FarmFault {
        FarmFault::Memory
    }
}
