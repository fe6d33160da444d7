//! A shelf of tapes in memory.

ghost use Rattle.std.specs.Prelude.{◌≡◌, ◌≤◌, [], None, Some, Err, nat_eq, position, IfOk, IfErr, OnOk, OnErr};
ghost use Rattle.std.specs.Cmp.Lexicographic.{pointwise};
ghost use Rattle.std.specs.Option.{option_copied};
ghost use Rattle.bf_io.specs.Causes.{last_count};
ghost use Rattle.bf_disk.specs.MemoryShelves.{disk_at, taken_at, held_or_empty};
ghost use Rattle.bf_disk.specs.Shelves.{Puts};
ghost use Rattle.bf_disk.specs.Tape.{faults_of};

use crate::disk::Disk;
use crate::error::DiskError;
use crate::shelf::Shelf;
use crate::slot::Slot;
use crate::tape_disk::TapeDisk;
use bf_base::{Memory, Sequence};
use std::alloc::{AllocError, Global};
use std::marker::Model;

/// Tapes by path. It never answers `Fault` itself, and counts the faults of the disks that come back.
#[derive(Debug, Drop)]
pub struct MemoryShelf {
    slots: Vec<Slot>,
    faults: u64,
}

impl Model for MemoryShelf {
    ghost use Rattle.std.specs.Prelude.{◌≤◌};
    ghost use Rattle.bf_io.specs.Causes.{last_count};
    ghost use Rattle.bf_disk.specs.MemoryShelves.{Places};

    ghost Value = { Places };

    ghost view = { λ shelf. record { slots = shelf.slots.items; faults = shelf.faults } };

    ghost invariant = { λ shelf. shelf.faults ≤ last_count };
}

impl MemoryShelf {
    /// A shelf without disks.
    pub fn new(alloc: Global) -> MemoryShelf
        ensures { result ≡ record { slots = []; faults = 0 } }
    {
        MemoryShelf {
            slots: Vec::new(alloc),
            faults: 0,
        }
    }

    /// Puts a disk under a path, in the place of the one that is held there, if any. Where there is no
    /// memory it gives the disk back, and the shelf is as it was.
    pub fn set(&mut self, path: &str, disk: TapeDisk) -> Result<(), (TapeDisk, Memory)>
        ensures held { OnOk result (Puts path.now (Some disk) (disk_at self.old)
            (disk_at self.new)) }
        ensures taken { OnOk result (taken_at self.new ≡ taken_at self.old) }
        ensures faults { self.new.faults ≡ self.old.faults }
        ensures err { IfErr result (λ back. (back.0 ≡ disk) × (self.new ≡ self.old)) }
    {
        let alloc = *self.slots.allocator();
        let index = match self.slot_for(alloc, path) {
            Ok(index) => index,
            Err(e) => return Err((disk, e)),
        };
        self.slots[index].hold(disk);
        Ok(())
    }

    /// The disk that is held under a path.
    pub fn disk(&self, path: &str) -> Option<&TapeDisk>
        ensures { option_copied result ≡ disk_at self.now path.now }
    {
        match self.index_of(path) {
            Some(index) => self.slots[index].disk.as_ref(),
            None => None,
        }
    }

    /// How many faults the disks met that came back, or 2^64 - 1 if it was more.
    pub fn faults(&self) -> u64
        ensures { result ≡ self.now.faults }
    {
        self.faults
    }

    // The index of a path's place.
    fn index_of(&self, path: &str) -> Option<usize>
        ensures { result ≡ position (λ slot. pointwise nat_eq slot.path path.now) self.now.slots }
    {
        self.slots
            .iter()
            .position(|slot| slot.path.as_slice() == path.as_bytes())
    }

    // The index of a path's place, which is made where there is none.
    fn slot_for(&mut self, alloc: Global, path: &str) -> Result<usize, Memory>
        ensures found { IfOk result (λ index.
            position (λ slot. pointwise nat_eq slot.path path.now) self.new.slots ≡ Some index) }
        ensures held { disk_at self.new ≡ disk_at self.old }
        ensures taken { taken_at self.new ≡ taken_at self.old }
        ensures faults { self.new.faults ≡ self.old.faults }
        ensures err { OnErr result (self.new ≡ self.old) }
    {
        match self.index_of(path) {
            Some(index) => Ok(index),
            None => self.add(alloc, path),
        }
    }

    // Makes a place for a path that has none, and answers its index.
    fn add(&mut self, alloc: Global, path: &str) -> Result<usize, Memory>
        requires { position (λ slot. pointwise nat_eq slot.path path.now) self.old.slots ≡ None }
        ensures found { IfOk result (λ index.
            position (λ slot. pointwise nat_eq slot.path path.now) self.new.slots ≡ Some index) }
        ensures held { disk_at self.new ≡ disk_at self.old }
        ensures taken { taken_at self.new ≡ taken_at self.old }
        ensures faults { self.new.faults ≡ self.old.faults }
        ensures err { OnErr result (self.new ≡ self.old) }
    {
        let path = Sequence::of(path.as_bytes().to_vec(alloc)?);
        let index = self.slots.len();
        self.slots.push(Slot {
            path,
            disk: None,
            lent: None,
        })?;
        Ok(index)
    }
}

impl Shelf for MemoryShelf {
    type Disk = TapeDisk;

    ghost held = { λ shelf. Some (disk_at shelf) };

    ghost taken = { taken_at };

    ghost fault_count = { λ shelf. shelf.faults };

    /// The disk that is held under the path, or an empty tape of which no call fails. It answers
    /// `Memory` alone, and then the shelf is as it was.
    fn take(&mut self, path: &str) -> Result<TapeDisk, DiskError>
        requires { taken_at self.old path.now ≡ None }
        ensures disk { IfOk result (λ disk. disk ≡ held_or_empty self.old path.now) }
        ensures held { OnOk result (Puts path.now None (disk_at self.old) (disk_at self.new)) }
        ensures taken { IfOk result (λ disk.
            Puts path.now (Some (faults_of disk)) (taken_at self.old) (taken_at self.new)) }
        ensures faults { self.new.faults ≡ self.old.faults }
        ensures answer { OnErr result (result ≡ Err DiskError.Memory) }
        ensures err { OnErr result (self.new ≡ self.old) }
        ensures counted { self.new.faults ≤ last_count }
    {
        let alloc = *self.slots.allocator();
        let index = self.slot_for(alloc, path)?;
        Ok(self.slots[index].lend(alloc))
    }

    fn put_back(&mut self, path: &str, disk: TapeDisk) {
        match self.index_of(path) {
            Some(index) => {
                let rises = self.slots[index].take_back(disk);
                self.faults = self.faults.saturating_add(rises);
            }
            None => {}
        }
    }
}
