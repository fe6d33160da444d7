//! Why a reading of tokens stops.

ghost use Rattle.std.specs.Prelude.{◌≡◌};
ghost use Rattle.bf_phrase.specs.declared.error.ReadStop.TheVariants.{Memory as OutOfMemory};

use bf_base::Memory;
use bf_lex::ScriptKind;
use std::alloc::{AllocError, AllocFailed};
use thiserror::Error;

/// Why a reading stops, and the number of tokens that are left there.
#[derive(Clone, Copy, Debug, PartialEq, Eq, Error)]
pub enum ReadStop {
    /// The first token that can't go on, or the end.
    #[error("syntax")]
    Syntax(usize),
    /// A token that can go on, but beyond a limit.
    #[error("beyond a limit")]
    Limit(ScriptKind, usize),
    #[error("out of memory")]
    Memory,
}

impl From<Memory> for ReadStop {
    ghost from_gives = { λ _ e. e ≡ OutOfMemory };

    fn from(_e: Memory) -> ReadStop {
        ReadStop::Memory
    }
}

impl From<AllocError> for ReadStop {
    ghost from_gives = { λ _ e. e ≡ OutOfMemory };

    fn from(_e: AllocError) -> ReadStop {
        ReadStop::Memory
    }
}

impl<T: Drop> From<AllocFailed<T>> for ReadStop {
    ghost from_gives = { λ _ e. e ≡ OutOfMemory };

    fn from(_e: AllocFailed<T>) -> ReadStop {
        ReadStop::Memory
    }
}
