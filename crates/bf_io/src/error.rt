//! Why a read or a write failed.

ghost use Rattle.std.specs.Prelude.{◌≡◌};
ghost use Rattle.bf_io.specs.declared.error.ReadError.TheVariants.{Fault, Memory};

use std::alloc::AllocError;
use thiserror::Error;

/// Why one read or one write failed.
#[derive(Clone, Copy, Debug, PartialEq, Eq, Error)]
pub enum IoError {
    /// The source or the sink failed, took no byte, and counts the fault.
    #[error("the input or the output failed")]
    Failed,
}

/// Why a source could not be read to its end.
#[derive(Clone, Copy, Debug, PartialEq, Eq, Error)]
pub enum ReadError {
    /// The source has more bytes than were allowed.
    #[error("too many bytes")]
    TooLong,
    /// A read failed.
    #[error("a read failed")]
    Fault,
    /// There is no memory for the bytes.
    #[error("out of memory")]
    Memory,
}

impl From<IoError> for ReadError {
    ghost from_gives = { λ _ e. e ≡ Fault };

    fn from(_e: IoError) -> ReadError {
        ReadError::Fault
    }
}

impl From<AllocError> for ReadError {
    ghost from_gives = { λ _ e. e ≡ Memory };

    fn from(_e: AllocError) -> ReadError {
        ReadError::Memory
    }
}
