//! A shelf with one file, whose disk fails each call once a switch is set.

ghost use Rattle.std.specs.Prelude.{◌≡◌, ℕ, ◌+◌, ◌≤◌, None, true, false, List, IfOk, length};
ghost use Rattle.std.proofs.lemmas.Bool.{false≢true};
ghost use Rattle.bf_io.specs.Causes.{last_count};
ghost use Rattle.bf_disk.specs.Answers.{CountsFault};
ghost use Rattle.bf_disk.specs.MemoryShelves.{taken_at};
ghost use Rattle.bf_disk.specs.Tape.{file_of};

use crate::calls::LOG;
use bf_base::Memory;
use bf_disk::{Disk, DiskError, MemoryShelf, Shelf, TapeDisk};
use std::alloc::Global;
use std::marker::Model;
use std::sync::atomic::{AtomicBool, Ordering};

/// A tape that is reached as long as the switch is not set. Then a call is one of another tape, whose calls all fail and
/// which counts the faults. Contracts see their count alone.
#[derive(Drop)]
pub struct SwitchedDisk<'s> {
    tape: TapeDisk,
    broken: TapeDisk,
    switch: &'s AtomicBool,
}

impl<'s> Model for SwitchedDisk<'s> {
    ghost use Rattle.std.specs.Prelude.{ℕ, ◌≤◌};
    ghost use Rattle.bf_io.specs.Causes.{last_count};
    ghost use Rattle.bf_disk.specs.Tape.{faults_of};

    ghost Value = { ℕ };

    ghost view = { λ disk. faults_of disk.broken };

    ghost invariant = { λ disk. faults_of disk.broken ≤ last_count };
}

impl<'s> SwitchedDisk<'s> {
    // Fails where the switch is set.
    fn pass(&mut self) -> Result<(), DiskError>
        ensures faults { CountsFault result self.old self.new }
        ensures counted { self.new ≤ last_count }
    {
        if self.switch.load(Ordering::SeqCst) {
            self.broken.len()?;
        }
        Ok(())
    }
}

// Whether so many bytes stand behind an offset.
fn has(tape: &TapeDisk, at: u64, count: usize) -> bool
    ensures { result ≡ true → at + count ≤ length (file_of tape.now) }
{
    let there = tape.bytes().len() as u64;
    at <= there && count as u64 <= there - at
}

// The tape's own calls never fail, but for want of memory.
fn answer<T>(told: Result<T, DiskError>) -> Result<T, DiskError>
    ensures { (n : ℕ) → CountsFault result n n }
{
    match told {
        Ok(value) => Ok(value),
        Err(_) => Err(DiskError::Memory),
    }
}

impl<'s> Disk for SwitchedDisk<'s> {
    ghost seen = { λ _. None };

    ghost tells_images = { false };

    ghost may_leave = { λ _ _. ⊥ };

    ghost moment = { λ _. 0 };

    ghost left_since = { λ _ _ _. ⊥ };

    ghost fault_count = { λ count. count };

    ghost as_it_reads = { λ disk file tells told. absurd (false≢true tells) };

    ghost counts_now = { λ _ _ _ _ left. left };

    ghost earlier = { λ _ _ _ _ _ left. left };

    ghost only_now = { λ _ _ left. left };

    fn faults(&self) -> u64 {
        self.broken.faults()
    }

    fn len(&mut self) -> Result<u64, DiskError> {
        self.pass()?;
        answer(self.tape.len())
    }

    fn read(&mut self, at: u64, into: &mut [u8]) -> Result<(), DiskError> {
        self.pass()?;
        if !has(&self.tape, at, into.len()) {
            return Err(DiskError::Memory);
        }
        answer(self.tape.read(at, into))
    }

    fn write_at(&mut self, at: u64, bytes: &[u8]) -> Result<(), DiskError> {
        self.pass()?;
        if !has(&self.tape, at, 0) {
            return Err(DiskError::Memory);
        }
        answer(self.tape.write_at(at, bytes))
    }

    fn cut(&mut self, len: u64) -> Result<(), DiskError> {
        self.pass()?;
        if !has(&self.tape, len, 0) {
            return Err(DiskError::Memory);
        }
        answer(self.tape.cut(len))
    }

    fn sync(&mut self) -> Result<(), DiskError> {
        self.pass()?;
        answer(self.tape.sync())
    }
}

/// The file of the log as a tape, beside a shelf that has a tape under its path of which each call fails. Contracts see
/// that shelf alone.
#[derive(Drop)]
pub struct SwitchedShelf<'s> {
    alloc: Global,
    tape: Option<TapeDisk>,
    shelf: MemoryShelf,
    switch: &'s AtomicBool,
}

impl<'s> Model for SwitchedShelf<'s> {
    ghost use Rattle.std.specs.Prelude.{◌≤◌};
    ghost use Rattle.bf_io.specs.Causes.{last_count};
    ghost use Rattle.bf_disk.specs.MemoryShelves.{Places};

    ghost Value = { Places };

    ghost view = { λ one. one.shelf };

    ghost invariant = { λ one. one.shelf.faults ≤ last_count };
}

impl<'s> SwitchedShelf<'s> {
    /// One whose file has these bytes.
    pub fn new(
        alloc: Global,
        bytes: Vec<u8>,
        switch: &'s AtomicBool,
    ) -> Result<SwitchedShelf<'s>, Memory>
        ensures { IfOk result (λ shelf. (path : List ℕ) → taken_at shelf path ≡ None) }
    {
        let tape = Some(TapeDisk::new(alloc, bytes, Vec::new(alloc), None));
        let mut shelf = MemoryShelf::new(alloc);
        let broken = TapeDisk::new(alloc, Vec::new(alloc), Vec::new(alloc), Some(0));
        match shelf.set(LOG, broken) {
            Ok(()) => {}
            Err((_, memory)) => return Err(memory),
        }
        Ok(SwitchedShelf {
            alloc,
            tape,
            shelf,
            switch,
        })
    }

    /// The file, where it is not taken.
    pub fn tape(&self) -> Option<&TapeDisk> {
        self.tape.as_ref()
    }
}

impl<'s> Shelf for SwitchedShelf<'s> {
    type Disk = SwitchedDisk<'s>;

    ghost held = { λ _. None };

    ghost taken = { taken_at };

    ghost fault_count = { λ shelf. shelf.faults };

    fn take(&mut self, path: &str) -> Result<SwitchedDisk<'s>, DiskError> {
        let broken = self.shelf.take(path)?;
        let tape = match self.tape.take() {
            Some(tape) => tape,
            None => TapeDisk::new(self.alloc, Vec::new(self.alloc), Vec::new(self.alloc), None),
        };
        Ok(SwitchedDisk {
            tape,
            broken,
            switch: self.switch,
        })
    }

    fn put_back(&mut self, path: &str, disk: SwitchedDisk<'s>) {
        let SwitchedDisk {
            tape,
            broken,
            switch: _,
        } = disk;
        self.shelf.put_back(path, broken);
        self.tape = Some(tape);
    }
}
