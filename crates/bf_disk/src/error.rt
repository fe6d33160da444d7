//! Why a call of a disk failed.

ghost use Rattle.std.specs.Prelude.{◌≡◌};
ghost use Rattle.bf_disk.specs.declared.error.DiskError.TheVariants.{Memory as NoMemory};

use bf_base::Memory;
use std::alloc::{AllocError, AllocFailed};
use thiserror::Error;

/// Why one call of a disk, or one `take` of a shelf, failed.
#[derive(Clone, Copy, Debug, PartialEq, Eq, Error)]
pub enum DiskError {
    /// The device failed, and the count of faults rose.
    #[error("the disk failed")]
    Fault,
    /// A disk in memory has no room, and the call changed nothing.
    #[error("out of memory")]
    Memory,
}

impl From<Memory> for DiskError {
    ghost from_gives = { λ _ e. e ≡ NoMemory };

    fn from(_e: Memory) -> DiskError {
        DiskError::Memory
    }
}

impl From<AllocError> for DiskError {
    ghost from_gives = { λ _ e. e ≡ NoMemory };

    fn from(_e: AllocError) -> DiskError {
        DiskError::Memory
    }
}

impl<T: Drop> From<AllocFailed<T>> for DiskError {
    ghost from_gives = { λ _ e. e ≡ NoMemory };

    fn from(_e: AllocFailed<T>) -> DiskError {
        DiskError::Memory
    }
}
