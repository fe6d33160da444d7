//! A disk in memory that never fails.

ghost use Rattle.std.specs.Prelude.{◌≡◌, ◌+◌, ◌≤◌, [], Some, Ok, Err, false, length, take, drop, OnOk, OnErr};
ghost use Rattle.std.proofs.lemmas.Bool.{false≢true};
ghost use Rattle.bf_disk.specs.Images.{overwritten};

use crate::disk::Disk;
use crate::error::DiskError;
use crate::file::{copy_range, overwrite};
use std::alloc::Global;
use std::marker::Model;

/// A file in memory. It never answers `Fault`, and tells nothing of crashes.
#[derive(Debug, Drop)]
pub struct MemoryDisk {
    bytes: Vec<u8>,
}

impl Model for MemoryDisk {
    ghost use Rattle.std.specs.Prelude.{List, ℕ};

    ghost Value = { List ℕ };

    ghost view = { λ disk. disk.bytes.items };
}

impl MemoryDisk {
    /// An empty file.
    pub fn new(alloc: Global) -> MemoryDisk
        ensures { result ≡ [] }
    {
        MemoryDisk {
            bytes: Vec::new(alloc),
        }
    }

    /// The bytes of the file.
    pub fn bytes(&self) -> &[u8]
        ensures { result.now ≡ self.now }
    {
        &self.bytes
    }
}

impl Disk for MemoryDisk {
    ghost seen = { λ disk. Some disk };

    ghost tells_images = { false };

    ghost may_leave = { λ _ _. ⊥ };

    ghost moment = { λ _. 0 };

    ghost left_since = { λ _ _ _. ⊥ };

    ghost fault_count = { λ _. 0 };

    ghost as_it_reads = { λ disk file tells told. absurd (false≢true tells) };

    ghost counts_now = { λ _ _ _ _ left. left };

    ghost earlier = { λ _ _ _ _ _ left. left };

    ghost only_now = { λ _ _ left. left };

    fn faults(&self) -> u64 {
        0
    }

    /// It takes no memory, as each call but a write.
    fn len(&mut self) -> Result<u64, DiskError>
        ensures answer { result ≡ Ok (length self.old) }
        ensures same { self.new ≡ self.old }
    {
        Ok(self.bytes.len() as u64)
    }

    fn read(&mut self, at: u64, into: &mut [u8]) -> Result<(), DiskError>
        requires { at + length into.old ≤ length self.old }
        ensures answer { result ≡ Ok tt }
        ensures bytes { into.new ≡ take (length into.old) (drop at self.old) }
        ensures same { self.new ≡ self.old }
    {
        copy_range(&self.bytes, at, into);
        Ok(())
    }

    fn write_at(&mut self, at: u64, bytes: &[u8]) -> Result<(), DiskError>
        requires { at ≤ length self.old }
        ensures ok { OnOk result (self.new ≡ overwritten self.old at bytes.now) }
        ensures answer { OnErr result (result ≡ Err DiskError.Memory) }
        ensures err { OnErr result (self.new ≡ self.old) }
    {
        Ok(overwrite(&mut self.bytes, at, bytes)?)
    }

    fn cut(&mut self, len: u64) -> Result<(), DiskError>
        requires { len ≤ length self.old }
        ensures answer { result ≡ Ok tt }
        ensures cut { self.new ≡ take len self.old }
    {
        self.bytes.truncate(len as usize);
        Ok(())
    }

    fn sync(&mut self) -> Result<(), DiskError>
        ensures answer { result ≡ Ok tt }
        ensures same { self.new ≡ self.old }
    {
        Ok(())
    }
}
