//! Disks in memory that keep no calls: what they read.

use bf_disk::{Disk, DiskError, MemoryDisk};
use std::alloc::Global;
use std::test::Fail;

// The length of a file, once it is synced.
fn synced_len(disk: &mut MemoryDisk) -> Result<u64, DiskError> {
    disk.sync()?;
    disk.len()
}

// A disk in memory of two bytes.
fn in_memory(alloc: Global) -> Result<MemoryDisk, DiskError> {
    let mut memory = MemoryDisk::new(alloc);
    memory.write_at(0, b"pq")?;
    Ok(memory)
}

#[test]
fn reads_what_was_written_to_memory(rt: HostRuntime) -> Result<(), Fail> {
    let mut memory = in_memory(rt.alloc())?;
    assert_eq!(rt; synced_len(&mut memory)?, 2);
    assert_eq!(rt; memory.bytes(), b"pq".as_slice());
    Ok(())
}
