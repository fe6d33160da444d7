//! Why a log could not be made, opened or added to.

ghost use Rattle.std.specs.Prelude.{◌≡◌};
ghost use Rattle.bf_log.specs.Errors.{create_error, open_error};
ghost use Rattle.bf_log.specs.declared.error.OpenError.TheVariants.{Memory as NoRoomToRead};
ghost use Rattle.bf_log.specs.declared.error.AppendError.TheVariants.{Memory as NoRoomToAppend};

use bf_disk::DiskError;
use std::alloc::{AllocError, AllocFailed};
use thiserror::Error;

/// Why a log was not made.
#[derive(Clone, Copy, Debug, PartialEq, Eq, Error)]
pub enum CreateError {
    /// The file has so many bytes already.
    #[error("not empty: {0} bytes")]
    NotEmpty(u64),
    /// The device failed. A file that was empty may hold anything.
    #[error("disk fault")]
    DiskFault,
    /// A disk in memory has no room. A file that was empty may hold anything.
    #[error("out of memory")]
    Memory,
}

impl From<DiskError> for CreateError {
    ghost from_gives = { λ error made. made ≡ create_error error };

    fn from(error: DiskError) -> CreateError {
        match error {
            DiskError::Fault => CreateError::DiskFault,
            DiskError::Memory => CreateError::Memory,
        }
    }
}

/// Why a log could not be read.
#[derive(Clone, Copy, Debug, PartialEq, Eq, Error)]
pub enum OpenError {
    /// The file is no log. The first thing that is wrong stands at this offset.
    #[error("not a log at {0}")]
    NotALog(u64),
    /// The device failed.
    #[error("disk fault")]
    DiskFault,
    /// There is no memory for the payload, or in a disk in memory.
    #[error("out of memory")]
    Memory,
}

impl From<DiskError> for OpenError {
    ghost from_gives = { λ error made. made ≡ open_error error };

    fn from(error: DiskError) -> OpenError {
        match error {
            DiskError::Fault => OpenError::DiskFault,
            DiskError::Memory => OpenError::Memory,
        }
    }
}

impl From<AllocError> for OpenError {
    ghost from_gives = { λ _ made. made ≡ NoRoomToRead };

    fn from(_e: AllocError) -> OpenError {
        OpenError::Memory
    }
}

/// Why a record was not appended.
#[derive(Clone, Copy, Debug, PartialEq, Eq, Error)]
pub enum AppendError {
    /// An earlier append met a fault, after which the disk's count of faults was this.
    #[error("halted {0}")]
    Halted(u64),
    /// The payload has so many bytes, which is more than the largest.
    #[error("too large {0}")]
    TooLarge(u64),
    /// The closed gate stands at the first number, and an entry for the record takes as many bytes
    /// as the second.
    #[error("log full {0} {1}")]
    LogFull(u64, u64),
    /// The device failed. A crash leaves the record or not, and the log is halted.
    #[error("disk fault")]
    DiskFault,
    /// There is no room for a copy of the record, and the log is as it was. Or a disk in memory had
    /// none in this append or an earlier one, and the log is spent.
    #[error("out of memory")]
    Memory,
}

impl From<AllocError> for AppendError {
    ghost from_gives = { λ _ made. made ≡ NoRoomToAppend };

    fn from(_e: AllocError) -> AppendError {
        AppendError::Memory
    }
}

impl<T: Drop> From<AllocFailed<T>> for AppendError {
    ghost from_gives = { λ _ made. made ≡ NoRoomToAppend };

    fn from(_e: AllocFailed<T>) -> AppendError {
        AppendError::Memory
    }
}
