//! How far a run is, for people who watch it. Nothing is promised of it.

use bf_run::{Choice, Gate, News, Point};
use std::io::{IsTerminal, Write};
use std::rt::Stderr;
use std::sync::atomic::{AtomicU32, AtomicU64, Ordering};

/// How many pieces of news lie between two lines.
const BETWEEN: u64 = 512;

/// A gate that lets everybody go on at once, counts, and tells on standard error how far the run is, where that is a
/// terminal. A failed write is passed over.
#[derive(Drop)]
pub struct Progress {
    stderr: Stderr,
    is_shown: bool,
    transactions: AtomicU64,
    /// The migration whose granules have moved last, 0 before any have; how many of it have in this run, and how many it has
    /// at most.
    migration: AtomicU32,
    granules: AtomicU64,
    most: AtomicU64,
    steps: AtomicU64,
}

impl Progress {
    pub fn new(stderr: Stderr) -> Progress {
        Progress {
            stderr,
            is_shown: stderr.is_terminal(),
            transactions: AtomicU64::new(0),
            migration: AtomicU32::new(0),
            granules: AtomicU64::new(0),
            most: AtomicU64::new(0),
            steps: AtomicU64::new(0),
        }
    }

    /// Writes a line over the last one.
    fn show(&self) {
        let transactions = self.transactions.load(Ordering::Relaxed);
        let migration = self.migration.load(Ordering::Relaxed);
        let mut stderr = &self.stderr;
        if migration == 0 {
            let _ = write!(stderr, "\r{transactions} transactions");
            return;
        }
        let granules = self.granules.load(Ordering::Relaxed);
        let most = self.most.load(Ordering::Relaxed);
        let _ = write!(
            stderr,
            "\r{transactions} transactions, {granules} granules of at most {most} of migration {migration} moved"
        );
    }

    /// Leaves the last line standing, where there is one.
    pub fn end(&self) {
        if self.is_shown && self.steps.load(Ordering::Relaxed) >= BETWEEN {
            self.show();
            let mut stderr = &self.stderr;
            let _ = stderr.write(b"\n");
        }
    }
}

impl Gate for Progress {
    fn ask(&self, point: Point) -> Choice {
        let _ = point;
        Choice::Go
    }

    fn tell(&self, news: News) {
        match news {
            News::Ended => {
                self.transactions.fetch_add(1, Ordering::Relaxed);
            }
            News::Moved {
                migration,
                granules,
                most,
            } => {
                if self.migration.swap(migration, Ordering::Relaxed) != migration {
                    self.granules.store(0, Ordering::Relaxed);
                    self.most.store(most, Ordering::Relaxed);
                }
                self.granules.fetch_add(granules as u64, Ordering::Relaxed);
            }
        }
        let steps = self.steps.fetch_add(1, Ordering::Relaxed);
        if self.is_shown && steps % BETWEEN == BETWEEN - 1 {
            self.show();
        }
    }
}
