//! A place of a shelf in memory.

ghost use Rattle.std.specs.Prelude.{◌≡◌, [], None, Some, unwrap_or};
ghost use Rattle.bf_disk.specs.Shelves.{rises_since};
ghost use Rattle.bf_disk.specs.Tape.{faults_of, new_tape};

use crate::disk::Disk;
use crate::tape_disk::TapeDisk;
use bf_base::Sequence;
use std::alloc::Global;

/// A path with the disk that is held under it, or with the count of faults of the one that was taken.
#[derive(Debug, Drop)]
pub struct Slot {
    pub path: Sequence<u8>,
    pub disk: Option<TapeDisk>,
    pub lent: Option<u64>,
}

impl Slot {
    // Holds a disk in the place of the one that is held, if any.
    pub(crate) fn hold(&mut self, disk: TapeDisk)
        ensures { self.new ≡ record {
          path = self.old.path;
          disk = Some disk;
          lent = self.old.lent;
        } }
    {
        self.disk = Some(disk);
    }

    // Gives the disk away, or an empty one where none is held.
    pub(crate) fn lend(&mut self, alloc: Global) -> TapeDisk
        ensures disk { result ≡ unwrap_or self.old.disk (new_tape [] [] None) }
        ensures slot { self.new ≡ record {
          path = self.old.path;
          disk = None;
          lent = Some (faults_of result);
        } }
    {
        let disk = match self.disk.take() {
            Some(disk) => disk,
            None => TapeDisk::new(alloc, Vec::new(alloc), Vec::new(alloc), None),
        };
        self.lent = Some(disk.faults());
        disk
    }

    // Takes a disk back, and answers how many faults it met since it was given away, or 2^64 - 1
    // where its count does not tell.
    pub(crate) fn take_back(&mut self, disk: TapeDisk) -> u64
        ensures rises { result ≡ rises_since (unwrap_or self.old.lent 0) (faults_of disk) }
        ensures slot { self.new ≡ record { path = self.old.path; disk = Some disk; lent = None } }
    {
        let lent = self.lent.take().unwrap_or(0);
        let rises = rises_since(lent, disk.faults());
        self.disk = Some(disk);
        rises
    }
}

// How far a count of faults rose. One that stands at its last value does not tell.
fn rises_since(lent: u64, now: u64) -> u64
    ensures { result ≡ rises_since lent now }
{
    if now == u64::MAX {
        return u64::MAX;
    }
    now.saturating_sub(lent)
}
