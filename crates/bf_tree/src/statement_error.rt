//! Why a statement stops.

ghost use Rattle.std.specs.Prelude.{◌≡◌};
ghost use Rattle.bf_tree.specs.declared.statement_error.StatementError.TheVariants.{Memory as OutOfMemory};

use crate::reply::Refusal;
use bf_base::Memory;
use std::alloc::{AllocError, AllocFailed};
use thiserror::Error;

/// Why a statement stops before it has its effect: at the first objection, or memory ran out.
#[derive(Debug, Drop, Error)]
pub enum StatementError {
    #[error("refused: {0:?}")]
    Refused(Refusal),
    #[error("out of memory")]
    Memory,
}

impl From<Memory> for StatementError {
    ghost from_gives = { λ _ e. e ≡ OutOfMemory };

    fn from(_e: Memory) -> StatementError {
        StatementError::Memory
    }
}

impl From<AllocError> for StatementError {
    ghost from_gives = { λ _ e. e ≡ OutOfMemory };

    fn from(_e: AllocError) -> StatementError {
        StatementError::Memory
    }
}

impl<T: Drop> From<AllocFailed<T>> for StatementError {
    ghost from_gives = { λ _ e. e ≡ OutOfMemory };

    fn from(_e: AllocFailed<T>) -> StatementError {
        StatementError::Memory
    }
}
