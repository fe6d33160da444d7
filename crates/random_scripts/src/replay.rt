//! Groups of statements on the one-thread database.

use crate::group::whole_commits;
use bf_base::Memory;
use bf_eager::Eager;
use bf_tree::{Outcome, Reply, Statement, Sweep};
use std::alloc::Global;

/// What a whole group tells: the replies to its statements, and how it ended.
pub type Told = (Vec<Reply>, Outcome);

/// The one-thread database, behind the groups that have run on it.
#[derive(Drop)]
pub struct Replay {
    eager: Eager,
    /// How many groups have committed in this run, and in those before.
    commits: u64,
    before: u64,
    /// How many migrations were taken in all runs.
    migrations: u32,
}

impl Replay {
    /// The empty database.
    pub fn new(alloc: Global) -> Replay {
        Replay {
            eager: Eager::new(alloc),
            commits: 0,
            before: 0,
            migrations: 0,
        }
    }

    /// Begins a further run: its commits are counted from 1 again.
    pub fn begin_run(&mut self) {
        self.before = self.before.saturating_add(self.commits);
        self.commits = 0;
    }

    /// How many migrations were taken.
    pub fn migrations(&self) -> u32 {
        self.migrations
    }

    fn outcome(&mut self, committed: bool) -> Outcome {
        if !committed {
            return Outcome::RolledBack;
        }
        self.commits = self.commits.saturating_add(1);
        Outcome::Committed(self.commits)
    }

    /// Counts the commits that replies tell from this run on.
    fn renumber(&self, replies: &mut [Reply]) {
        for reply in replies.iter_mut() {
            if let Reply::Committed(number) = reply {
                *number = number.saturating_sub(self.before);
            }
        }
    }

    /// Runs a group, and tells what it replies. `None` of statements that are no whole group.
    ///
    /// # Errors
    /// Where memory runs out.
    pub fn run_group(&mut self, group: &[Statement]) -> Result<Option<Told>, Memory> {
        let Some(committed) = whole_commits(group) else {
            return Ok(None);
        };
        let mut replies = self.eager.run_entry(group, committed)?;
        if let [Reply::Migrated(_)] = replies.as_slice() {
            self.migrations = self.migrations.saturating_add(1);
        }
        self.renumber(replies.as_mut_slice());
        let outcome = self.outcome(committed);
        Ok(Some((replies, outcome)))
    }

    /// How far the last migration has come, where it has come to its end and no row was there to move.
    pub fn sweep(&self) -> Sweep {
        match self.migrations {
            0 => Sweep::Never,
            migration => Sweep::Complete {
                migration,
                moved: 0,
            },
        }
    }
}

/// A report with such a sweep, up to the last words, which say how far the last migration has come.
pub fn front(mut report: Vec<u8>) -> Vec<u8> {
    for end in [b"none\n".as_slice(), b"complete 0\n".as_slice()] {
        let length = report.as_slice().strip_suffix(end).map(|front| front.len());
        if let Some(length) = length {
            report.truncate(length);
        }
    }
    report
}
