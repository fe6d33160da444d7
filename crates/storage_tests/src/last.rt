//! The smallest state, and who reads records into it.

ghost use Rattle.std.specs.Prelude.{◌≡◌};
ghost use Rattle.storage_tests.specs.Lasts.{LastSteps, first_last, last_once};

use bf_base::Memory;
use bf_journal::{Reader, State};
use std::alloc::Global;

/// How many bytes the last record has; an empty record is not legal.
#[derive(Debug, Drop)]
pub struct Last {
    pub len: u64,
}

impl State for Last {
    type View = u64;

    type Entry = u64;

    ghost first = { first_last };

    ghost Steps = { LastSteps };

    ghost view = { λ state. state.len };

    ghost run = { λ _ entry. entry };

    ghost once = { last_once };
}

/// Remembers what it has read last.
#[derive(Debug, Drop)]
pub struct LastReader {
    pub seen: u64,
}

impl Reader<Last> for LastReader {
    type Kept = Last;

    ghost kept = { λ state. state };

    ghost fits = { λ reader state. reader.seen ≡ state.len };

    fn read(&mut self, _alloc: Global, state: &mut Last, payload: &[u8]) -> Result<bool, Memory> {
        if payload.is_empty() {
            return Ok(false);
        }
        state.len = payload.len() as u64;
        self.seen = state.len;
        Ok(true)
    }
}
