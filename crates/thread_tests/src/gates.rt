//! Gates that hold actors until others have come, turn them back, or set a switch.

use crate::waiting::{Event, Patience, pause};
use bf_run::{Choice, Gate, Point};
use std::sync::atomic::{AtomicBool, AtomicU32, Ordering};

/// Holds each of two sessions at its first reply until the other's has come.
#[derive(Drop)]
pub struct Meeting {
    first: Event,
    second: Event,
    pub patience: Patience,
}

impl Meeting {
    pub fn new() -> Meeting {
        Meeting {
            first: Event::new(),
            second: Event::new(),
            patience: Patience::new(),
        }
    }
}

impl Gate for Meeting {
    fn ask(&self, point: Point) -> Choice {
        if let Point::Replied { session, statement } = point {
            if statement == 1 {
                let (mine, other) = match session {
                    1 => (&self.first, &self.second),
                    _ => (&self.second, &self.first),
                };
                mine.happen();
                self.patience.wait_for(other);
            }
        }
        Choice::Go
    }
}

/// Holds the first worker beside one session at its claims until a statement of the session has its reply, and the session
/// at its claims until the worker has come to its own.
#[derive(Drop)]
pub struct Crossing {
    /// The statement of the session whose reply the worker waits for.
    statement: u32,
    worker_claimed: Event,
    replied: Event,
    pub patience: Patience,
    /// How many granules the worker held when it first came, and how many the session held in all.
    pub of_worker: AtomicU32,
    pub of_session: AtomicU32,
}

impl Crossing {
    pub fn new(statement: u32) -> Crossing {
        Crossing {
            statement,
            worker_claimed: Event::new(),
            replied: Event::new(),
            patience: Patience::new(),
            of_worker: AtomicU32::new(0),
            of_session: AtomicU32::new(0),
        }
    }
}

impl Gate for Crossing {
    fn ask(&self, point: Point) -> Choice {
        match point {
            Point::Claimed {
                actor: 1,
                granules,
                ..
            } => {
                self.of_session.fetch_add(granules, Ordering::SeqCst);
                self.patience.wait_for(&self.worker_claimed);
            }
            // Workers are numbered behind the 64 sessions that a script has at most.
            Point::Claimed {
                actor: 65,
                granules,
                ..
            } => {
                if self.worker_claimed.happen() {
                    self.of_worker.store(granules, Ordering::SeqCst);
                }
                self.patience.wait_for(&self.replied);
            }
            Point::Claimed { .. } => {}
            Point::Replied { statement, .. } => {
                if statement == self.statement {
                    self.replied.happen();
                }
            }
        }
        Choice::Go
    }
}

/// Holds whoever claims first for so many turns of other threads, and counts the granules that are claimed.
#[derive(Drop)]
pub struct Slow {
    turns: u32,
    claimed: Event,
    pub granules: AtomicU32,
}

impl Slow {
    pub fn new(turns: u32) -> Slow {
        Slow {
            turns,
            claimed: Event::new(),
            granules: AtomicU32::new(0),
        }
    }
}

impl Gate for Slow {
    fn ask(&self, point: Point) -> Choice {
        if let Point::Claimed { granules, .. } = point {
            self.granules.fetch_add(granules, Ordering::SeqCst);
            if self.claimed.happen() {
                pause(self.turns);
            }
        }
        Choice::Go
    }
}

/// Turns back whoever claims, so often, and counts how often it was asked.
#[derive(Drop)]
pub struct Turnstile {
    aborts: u32,
    pub asked: AtomicU32,
}

impl Turnstile {
    pub fn new(aborts: u32) -> Turnstile {
        Turnstile {
            aborts,
            asked: AtomicU32::new(0),
        }
    }
}

impl Gate for Turnstile {
    fn ask(&self, point: Point) -> Choice {
        if matches!(point, Point::Replied { .. }) {
            return Choice::Go;
        }
        if self.asked.fetch_add(1, Ordering::SeqCst) < self.aborts {
            Choice::Abort
        } else {
            Choice::Go
        }
    }
}

/// Sets a switch at the reply to a statement of the first session.
#[derive(Drop)]
pub struct Trigger<'s> {
    pub statement: u32,
    pub switch: &'s AtomicBool,
}

impl Gate for Trigger<'_> {
    fn ask(&self, point: Point) -> Choice {
        if let Point::Replied {
            session: 1,
            statement,
        } = point
        {
            if statement == self.statement {
                self.switch.store(true, Ordering::SeqCst);
            }
        }
        Choice::Go
    }
}
