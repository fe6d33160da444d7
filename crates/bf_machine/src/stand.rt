//! Where a session stands, how a statement, a move and a turn went, and how a group ends.

ghost use Rattle.std.specs.Prelude.{◌≡◌};
ghost use Rattle.bf_machine.specs.interleaving.Serving.{can_go};

use bf_base::Granule;
use bf_tree::Cause;

/// Where a session stands: which call is its next, if one is.
#[derive(Clone, Copy, Debug, PartialEq, Eq)]
pub enum Stand {
    /// Sessions of earlier phases have not ended.
    Later,
    /// Its next group died, and is to begin again once the group of this start number has ended.
    Named(u64),
    /// Its next group may begin.
    Begin,
    /// This statement, counted from 1, is to have its reply.
    Statement(u32),
    /// Its open group is to commit.
    Commit,
    /// Its open group is to be rolled back.
    Abort,
    /// Each statement has its reply, and no group is open.
    Ended,
}

impl Stand {
    /// Whether a call of the session can come now.
    pub fn can_go(self) -> bool
        ensures { result ≡ can_go self }
    {
        match self {
            Stand::Begin | Stand::Statement(_) | Stand::Commit | Stand::Abort => true,
            Stand::Ended | Stand::Later | Stand::Named(_) => false,
        }
    }
}

/// How a statement went.
#[derive(Debug, Drop)]
pub enum Step {
    /// It has its reply.
    Replied,
    /// These granules of its cover are to move first.
    Need(Vec<Granule>),
    /// The catalog has changed since it was bound, or the migration since its cover was made: it is to be
    /// bound again, in the catalog that has this number now.
    Stale(u64),
}

/// Why granules did not move.
#[derive(Clone, Copy, Debug, PartialEq, Eq)]
pub enum MoveError {
    /// The last migration is another one, with this number, which is 0 where there was none.
    Old(u32),
    /// The log does not keep the move. A group that needs it is to end by this cause.
    Ended(Cause),
    Memory,
}

/// How a group ended that was to commit.
#[derive(Clone, Copy, Debug, PartialEq, Eq)]
pub enum Ending {
    /// The number of the commit.
    Committed(u64),
    Ended(Cause),
}

/// How a turn of a session ended.
#[derive(Clone, Copy, Debug, PartialEq, Eq)]
pub enum Turn {
    /// No call of the session can come.
    Passed,
    /// Its next statement has its reply, or its open group has ended.
    Served,
    /// Its open group waits for a lock.
    Waited,
    /// Its open group died.
    Died,
    /// Its open group has ended by this cause of the log.
    Ended(Cause),
}
