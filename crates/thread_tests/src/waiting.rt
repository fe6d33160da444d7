//! Threads that wait for one another, at most so long.

use std::sync::atomic::{AtomicBool, Ordering};
use std::thread::yield_now;

/// How often a thread lets others run before it gives up.
const MOST_TURNS: u32 = 10_000_000;

/// What happens at most once, and may be waited for.
#[derive(Drop)]
pub struct Event {
    has_happened: AtomicBool,
}

impl Event {
    /// One that has not happened.
    pub fn new() -> Event {
        Event {
            has_happened: AtomicBool::new(false),
        }
    }

    /// It happens. Answers whether it has not before.
    pub fn happen(&self) -> bool {
        !self.has_happened.swap(true, Ordering::SeqCst)
    }

    pub fn has_happened(&self) -> bool {
        self.has_happened.load(Ordering::SeqCst)
    }
}

/// Who waits for events, and whether any wait met its limit.
#[derive(Drop)]
pub struct Patience {
    is_over: AtomicBool,
}

impl Patience {
    pub fn new() -> Patience {
        Patience {
            is_over: AtomicBool::new(false),
        }
    }

    /// Waits until an event has happened, at most ten million turns of other threads. That the limit was met is noted.
    pub fn wait_for(&self, event: &Event) {
        for _ in 0..MOST_TURNS {
            if event.has_happened() {
                return;
            }
            yield_now();
        }
        self.is_over.store(true, Ordering::SeqCst);
    }

    /// Whether any wait met its limit.
    pub fn is_over(&self) -> bool {
        self.is_over.load(Ordering::SeqCst)
    }
}

/// Lets other threads run so often.
pub fn pause(turns: u32) {
    for _ in 0..turns {
        yield_now();
    }
}
