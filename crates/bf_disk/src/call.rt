//! The calls of a disk, as a tape keeps them.

use bf_base::Sequence;

/// What one call of a disk asked for.
#[derive(Debug, Drop)]
pub enum Act {
    /// The length, or bytes.
    Look,
    /// A write of bytes at an offset.
    Write(u64, Sequence<u8>),
    /// A cut to a length.
    Cut(u64),
    /// A sync.
    Sync,
}

/// One call of a disk, and whether it failed.
#[derive(Debug, Drop)]
pub struct Call {
    pub act: Act,
    pub failed: bool,
}
