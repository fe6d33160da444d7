//! A state that is changed in place, with the log that keeps it.

ghost use Rattle.std.specs.Prelude.{◌<◌, ◌≤◌, length};
ghost use Rattle.bf_journal.specs.States.{StandsOn};
ghost use Rattle.bf_log.specs.Format.{longest_payload};
ghost use Rattle.storage_tests.specs.declared.last.Last.{Last as LastOf};
ghost use Rattle.storage_tests.specs.Lasts.{LastSteps, first_last};

use crate::last::{Last, LastReader};
use bf_disk::Disk;
use bf_journal::{append_change, give_up, reopen};
use bf_log::{AppendError, Log, OpenError};
use std::alloc::Global;
use std::marker::PhantomData;

/// The state, which stands on its log.
#[derive(Drop)]
pub struct Keeper<D: Disk> {
    pub state: Last,
    pub log: Log<D>,
    ghost stands: { ∥ StandsOn first_last LastSteps state log ∥₁ },
}

impl<D: Disk> Keeper<D> {
    ghost use Rattle.bf_journal.specs.Answered.{IsAnsweredBy};

    /// The state that the records of a file give in turn.
    pub fn open(alloc: Global, disk: D) -> Result<Keeper<D>, (D, OpenError)> {
        let mut reader = LastReader { seen: 0 };
        match reopen(alloc, &mut reader, Last { len: 0 }, disk) {
            Ok((state, log)) => Ok(Keeper { state, log }),
            Err(back) => Err(back),
        }
    }

    /// Appends a record and makes its change, for which there is no room where it has more than 9
    /// bytes: then the log is given up.
    pub fn change(&mut self, payload: &[u8], largest: u32, limit: u64) -> Result<u64, AppendError>
        requires largest { largest ≤ longest_payload }
        requires some { 0 < length payload.now }
        ensures { (next : LastOf) → LastSteps self.old.state payload.now next
            → ∥ IsAnsweredBy first_last LastSteps self.old.state next self.old.log self.new.log
            result ∥₁ }
    {
        match append_change(&mut self.log, payload, largest, limit, PhantomData::<Last>) {
            Ok(number) => {
                if payload.len() > 9 {
                    give_up(&mut self.log, PhantomData::<Last>);
                    return Err(AppendError::Memory);
                }
                self.state = Last {
                    len: payload.len() as u64,
                };
                Ok(number)
            }
            Err(e) => Err(e),
        }
    }
}
