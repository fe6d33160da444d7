// A gate that turns back at first.

use crate::hall::MIGRATION;
use bf_bench::{Choice, Gate, Point};
use std::sync::atomic::{AtomicU32, Ordering};

/// A gate that one actor asks: it answers Abort so often, and then Go. It also answers so to each
/// reply, which is to change nothing.
#[derive(Drop)]
pub struct Turnstile {
    actor: u32,
    aborts: u32,
    /// How often it was asked of claims.
    asked: AtomicU32,
    /// The sum of the granules that it was asked of.
    granules: AtomicU32,
    /// The sum of the statements that it was told of.
    replied: AtomicU32,
    /// How often it was asked for another actor or migration.
    strange: AtomicU32,
}

impl Turnstile {
    pub fn new(actor: u32, aborts: u32) -> Turnstile {
        Turnstile {
            actor,
            aborts,
            asked: AtomicU32::new(0),
            granules: AtomicU32::new(0),
            replied: AtomicU32::new(0),
            strange: AtomicU32::new(0),
        }
    }

    fn expect(&self, is_expected: bool) {
        if !is_expected {
            self.strange.fetch_add(1, Ordering::SeqCst);
        }
    }

    /// How often it was asked of claims, of how many granules in all, what it was told of
    /// statements, and how often it was asked wrongly.
    pub fn told(&self) -> (u32, u32, u32, u32) {
        (
            self.asked.load(Ordering::SeqCst),
            self.granules.load(Ordering::SeqCst),
            self.replied.load(Ordering::SeqCst),
            self.strange.load(Ordering::SeqCst),
        )
    }
}

impl Gate for Turnstile {
    fn ask(&self, point: Point) -> Choice {
        match point {
            Point::Claimed {
                actor,
                migration,
                granules,
            } => {
                self.expect(actor == self.actor && migration == MIGRATION);
                self.granules.fetch_add(granules, Ordering::SeqCst);
                if self.asked.fetch_add(1, Ordering::SeqCst) < self.aborts {
                    Choice::Abort
                } else {
                    Choice::Go
                }
            }
            Point::Replied { session, statement } => {
                self.expect(session == self.actor);
                self.replied.fetch_add(statement, Ordering::SeqCst);
                Choice::Abort
            }
        }
    }
}
