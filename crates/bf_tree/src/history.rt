//! What a run leaves: the replies that its sessions got, and the order of its transactions.

use crate::reply::Reply;
use bf_base::Sequence;

/// How a transaction ended.
#[derive(Clone, Copy, Debug, PartialEq, Eq)]
pub enum Outcome {
    /// Its number among the commits of the run, counted from 1.
    Committed(u64),
    RolledBack,
}

/// A transaction in the order of its end: its session, and its first and last statement,
/// all counted from 1.
#[derive(Clone, Copy, Debug, PartialEq, Eq)]
pub struct Entry {
    pub session: u32,
    pub first: u32,
    pub last: u32,
    pub outcome: Outcome,
}

/// For each session of the script, in order, the replies to its first statements, in order.
#[derive(Debug, Drop, PartialEq, Eq)]
pub struct Transcripts {
    pub sessions: Sequence<Sequence<Reply>>,
}

/// The transactions of a run, in the order of their ends.
#[derive(Debug, Drop, PartialEq, Eq)]
pub struct History {
    pub entries: Sequence<Entry>,
}

/// How far the last migration has come. Migrations are counted from 1, units and positions
/// from 0; `moved` is the number of granules that are done.
#[derive(Clone, Copy, Debug, PartialEq, Eq)]
pub enum Sweep {
    /// There was no migration.
    Never,
    /// Each granule has moved.
    Complete {
        migration: u32,
        moved: u32,
    },
    /// The granule of this position of this unit is the first that has not moved.
    Running {
        migration: u32,
        moved: u32,
        unit: u8,
        position: u32,
    },
}
