//! Shelves in memory: which disk they hold, and which faults they count.

ghost use Rattle.std.specs.Prelude.{◌≡◌, ℕ, None, List, IfOk};
ghost use Rattle.bf_disk.specs.MemoryShelves.{taken_at};

use bf_base::Memory;
use bf_disk::{Disk, DiskError, MemoryShelf, Shelf, TapeDisk};
use std::alloc::Global;
use std::test::Fail;

// An empty file.
fn empty_tape(alloc: Global) -> TapeDisk {
    TapeDisk::new(alloc, Vec::new(alloc), Vec::new(alloc), None)
}

// A shelf with an empty disk under `a`, and one under `b` of which each call fails.
fn two_paths(alloc: Global) -> Result<MemoryShelf, Memory>
    ensures { IfOk result (λ shelf. (path : List ℕ) → taken_at shelf path ≡ None) }
{
    let mut shelf = MemoryShelf::new(alloc);
    match shelf.set("a", empty_tape(alloc)) {
        Ok(()) => {}
        Err((_, e)) => return Err(e),
    }
    let failing = TapeDisk::new(alloc, Vec::new(alloc), Vec::new(alloc), Some(0));
    match shelf.set("b", failing) {
        Ok(()) => Ok(shelf),
        Err((_, e)) => Err(e),
    }
}

#[test]
fn a_shelf_holds_what_comes_back(rt: HostRuntime) -> Result<(), Fail> {
    let mut shelf = MemoryShelf::new(rt.alloc());
    let mut disk = shelf.take("a")?;
    assert_eq!(rt; disk.len()?, 0);
    assert!(rt; shelf.disk("a").is_none());
    disk.write_at(0, b"xy")?;
    shelf.put_back("a", disk);
    let held = shelf.disk("a").ok_or("the disk that came back")?;
    assert_eq!(rt; held.bytes(), b"xy".as_slice());
    assert!(rt; shelf.disk("b").is_none());
    Ok(())
}

#[test]
fn a_shelf_counts_the_faults_of_a_loan(rt: HostRuntime) -> Result<(), Fail> {
    let mut shelf = two_paths(rt.alloc())?;
    let mut disk = shelf.take("b")?;
    assert_eq!(rt; disk.len().err(), Some(DiskError::Fault));
    assert_eq!(rt; shelf.faults(), 0);
    shelf.put_back("b", disk);
    assert_eq!(rt; shelf.faults(), 1);
    assert!(rt; shelf.disk("a").is_some());
    Ok(())
}
