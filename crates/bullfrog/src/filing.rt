//! A file of the system as a disk.

ghost use Rattle.std.specs.Prelude.{◌≡◌, ◌≤◌, false, None};
ghost use Rattle.std.proofs.lemmas.Bool.{false≢true};
ghost use Rattle.bf_io.specs.Causes.{last_count};
ghost use Rattle.bf_disk.specs.Answers.{CountsFault};

use bf_disk::{Disk, DiskError};
use std::fs::File;
use std::io;
use std::marker::Model;
use std::os::unix::fs::FileExt;

/// An open file whose failures are counted, with what the system said of the last one. Contracts see the count; what is
/// in the file, and what a crash may leave of it, is not told.
///
/// A call that a signal interrupts is made again, and a read or a write of a part goes on behind it. Each other
/// error ends a call with `Fault`, and so does a read or a write of nothing before all is done.
#[derive(Drop)]
pub struct FileDisk {
    file: File,
    faults: u64,
    said: Option<io::Error>,
}

impl Model for FileDisk {
    ghost use Rattle.std.specs.Prelude.{ℕ, ◌≤◌};
    ghost use Rattle.bf_io.specs.Causes.{last_count};

    ghost Value = { ℕ };

    ghost view = { λ disk. disk.faults };

    ghost invariant = { λ disk. disk.faults ≤ last_count };
}

impl FileDisk {
    /// The disk of a file that is open for reading and writing.
    pub fn new(file: File) -> FileDisk
        ensures { result ≡ 0 }
    {
        FileDisk {
            file,
            faults: 0,
            said: None,
        }
    }

    /// What the system said of the last failure, where there was one.
    pub fn said(&self) -> Option<io::Error> {
        self.said
    }

    // An answer of the system, with a failure counted.
    fn counted<T>(&mut self, answer: io::Result<T>) -> Result<T, DiskError>
        ensures faults { CountsFault result self.old self.new }
        ensures counted { self.new ≤ last_count }
    {
        match answer {
            Ok(value) => Ok(value),
            Err(error) => {
                self.said = Some(error);
                self.faults = self.faults.saturating_add(1);
                Err(DiskError::Fault)
            }
        }
    }
}

impl Disk for FileDisk {
    ghost seen = { λ _. None };

    ghost tells_images = { false };

    ghost may_leave = { λ _ _. ⊥ };

    ghost moment = { λ _. 0 };

    ghost left_since = { λ _ _ _. ⊥ };

    ghost fault_count = { λ count. count };

    ghost as_it_reads = { λ disk file tells told. absurd (false≢true tells) };

    ghost counts_now = { λ _ _ _ _ left. left };

    ghost earlier = { λ _ _ _ _ _ left. left };

    ghost only_now = { λ _ _ left. left };

    fn faults(&self) -> u64 {
        self.faults
    }

    fn len(&mut self) -> Result<u64, DiskError> {
        let answer = self.file.metadata();
        Ok(self.counted(answer)?.len())
    }

    fn read(&mut self, at: u64, into: &mut [u8]) -> Result<(), DiskError> {
        let answer = self.file.read_exact_at(into, at);
        self.counted(answer)
    }

    fn write_at(&mut self, at: u64, bytes: &[u8]) -> Result<(), DiskError> {
        let answer = self.file.write_all_at(bytes, at);
        self.counted(answer)
    }

    fn cut(&mut self, len: u64) -> Result<(), DiskError> {
        let answer = self.file.set_len(len);
        self.counted(answer)
    }

    /// Asks for the bytes and the size of the file to be on the device.
    fn sync(&mut self) -> Result<(), DiskError> {
        let answer = self.file.sync_data();
        self.counted(answer)
    }
}

#[cfg(test)]
mod tests {
    use super::*;
    use std::env::temp_dir;
    use std::fs::{OpenOptions, remove_file};
    use std::process;
    use std::test::Fail;

    // The disk of a new file, whose path is free again.
    fn new_disk(rt: &HostRuntime, name: &str) -> Result<FileDisk, Fail> {
        let folder = temp_dir(rt)?;
        let id = process::id(rt.process());
        let path = format!(in rt.alloc(); "{}/bullfrog-{name}-{id}", folder.as_str())?;
        let file = OpenOptions::new()
            .read(true)
            .write(true)
            .create_new(true)
            .open(rt, path.as_str())?;
        remove_file(rt, path.as_str())?;
        Ok(FileDisk::new(file))
    }

    #[test]
    fn a_file_is_read_as_it_was_written(rt: HostRuntime) -> Result<(), Fail> {
        let mut disk = new_disk(&rt, "written")?;
        disk.write_at(0, b"abcd")?;
        disk.write_at(2, b"xyz")?;
        let mut piece = [0; 3];
        disk.read(1, &mut piece)?;
        assert_eq!(rt; piece, *b"bxy");
        assert_eq!(rt; disk.len(), Ok(5));
        disk.cut(2)?;
        disk.sync()?;
        assert_eq!(rt; (disk.len(), disk.faults()), (Ok(2), 0));
        Ok(())
    }

    // A read past the end finds no bytes, and an offset past 2^63 is refused by the system.
    #[test]
    fn a_file_counts_its_faults(rt: HostRuntime) -> Result<(), Fail> {
        let mut disk = new_disk(&rt, "faults")?;
        disk.write_at(0, b"ab")?;
        let mut piece = [0; 3];
        assert_eq!(rt; disk.read(0, &mut piece), Err(DiskError::Fault));
        assert_eq!(rt; disk.write_at(1 << 63, b"a"), Err(DiskError::Fault));
        assert_eq!(rt; (disk.len(), disk.faults()), (Ok(2), 2));
        Ok(())
    }
}
