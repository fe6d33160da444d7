//! A journal that refuses a change.

ghost use Rattle.std.specs.Prelude.{true, ⊤};

use bf_base::Granule;
use bf_machine::{Journal, KeepError, Pending};
use bf_store::Store;
use bf_tree::Cause;

/// A journal that refuses one of the changes that come to it, by a cause with its number, and keeps each other
/// one. Changes are counted from 1.
#[derive(Clone, Copy)]
pub struct Refusing {
    count: u64,
    refused: u64,
}

impl Refusing {
    /// One that refuses the change of a number, and none where that is 0.
    pub fn of(refused: u64) -> Refusing {
        Refusing { count: 0, refused }
    }

    /// The number of the change that comes now, if it is the one that is to be refused.
    fn next_refused(&mut self) -> Option<u64> {
        self.count = self.count.saturating_add(1);
        (self.count == self.refused).then_some(self.count)
    }
}

impl Journal for Refusing {
    ghost ends = { true };

    ghost Answers = { λ lazy next old new answer. ⊤ };

    ghost Says = { λ statement. ⊤ };

    fn keep_group(&mut self, store: &Store, pending: &Pending) -> Result<(), KeepError> {
        let (_, _) = (store, pending);
        match self.next_refused() {
            Some(number) => Err(KeepError::Ended(Cause::TooLarge(number))),
            None => Ok(()),
        }
    }

    // No move is too large.
    fn keep_moves(&mut self, store: &Store, granules: &[Granule]) -> Result<(), KeepError> {
        let (_, _) = (store, granules);
        match self.next_refused() {
            Some(number) => Err(KeepError::Ended(Cause::Halted(number))),
            None => Ok(()),
        }
    }

    fn give_up(&mut self) {}
}
