//! Why a text is no script.

ghost use Rattle.std.specs.Prelude.{◌≡◌};
ghost use Rattle.bf_lex.specs.Faults.{kind_text};
ghost use Rattle.bf_lex.specs.declared.fault.ScriptError.TheVariants.{Fault, Memory as OutOfMemory};

use bf_base::Memory;
use std::alloc::AllocFailed;
use thiserror::Error;

/// What is wrong at the place of a fault.
#[derive(Clone, Copy, Debug, PartialEq, Eq)]
pub enum ScriptKind {
    /// A byte with which no token begins, or that no text has.
    BadByte,
    /// A quote that no other closes.
    OpenString,
    /// A number above 2 ^ 63, or 2 ^ 63 where it can't stand.
    NumberTooWide,
    /// The first token that can't continue a script, or the end of a text that ends too early.
    Syntax,
    /// A quoted text of more than 255 bytes.
    TextTooLong,
    /// A name of more than 63 bytes.
    NameTooLong,
    /// The 17th part of a list.
    TooManyColumns,
    /// The 65th session, or the 17th of its phase.
    TooManySessions,
    /// The 65th MIGRATE.
    TooManyMigrations,
    /// The 9th target of a MIGRATE.
    TooManyTargets,
    /// The 257th operator or opening parenthesis of an expression or a condition.
    TooDeep,
    /// More than 16,777,216 bytes.
    ScriptTooLong,
}

impl ScriptKind {
    /// The words that tell of it.
    pub fn words(self) -> &'static [u8]
        ensures { result.now ≡ kind_text self }
    {
        match self {
            ScriptKind::BadByte => b"bad byte",
            ScriptKind::OpenString => b"open string",
            ScriptKind::NumberTooWide => b"number too wide",
            ScriptKind::Syntax => b"syntax",
            ScriptKind::TextTooLong => b"text too long",
            ScriptKind::NameTooLong => b"name too long",
            ScriptKind::TooManyColumns => b"too many columns",
            ScriptKind::TooManySessions => b"too many sessions",
            ScriptKind::TooManyMigrations => b"too many migrations",
            ScriptKind::TooManyTargets => b"too many targets",
            ScriptKind::TooDeep => b"too deep",
            ScriptKind::ScriptTooLong => b"script too long",
        }
    }
}

/// The first fault of a text, and the byte where it stands, counted from 0.
#[derive(Clone, Copy, Debug, PartialEq, Eq)]
pub struct ScriptFault {
    pub at: u32,
    pub kind: ScriptKind,
}

/// Why no script was made of a text.
#[derive(Clone, Copy, Debug, PartialEq, Eq, Error)]
pub enum ScriptError {
    #[error("no script")]
    Fault(ScriptFault),
    #[error("out of memory")]
    Memory,
}

impl From<ScriptFault> for ScriptError {
    ghost from_gives = { λ fault error. error ≡ Fault fault };

    fn from(fault: ScriptFault) -> ScriptError {
        ScriptError::Fault(fault)
    }
}

impl From<Memory> for ScriptError {
    ghost from_gives = { λ _ error. error ≡ OutOfMemory };

    fn from(_e: Memory) -> ScriptError {
        ScriptError::Memory
    }
}

impl<T: Drop> From<AllocFailed<T>> for ScriptError {
    ghost from_gives = { λ _ error. error ≡ OutOfMemory };

    fn from(_e: AllocFailed<T>) -> ScriptError {
        ScriptError::Memory
    }
}
