//! Files of the system by path, as a shelf.

ghost use Rattle.std.specs.Prelude.{◌≡◌, [], None};
ghost use Rattle.bullfrog.specs.Lending.{taken_of};

use crate::filing::FileDisk;
use bf_disk::{Disk, DiskError, Shelf};
use std::collections::BTreeSet;
use std::fs::{File, Files, OpenOptions};
use std::io;
use std::marker::Model;
use std::path::Path;

/// The files of a runtime by path, with the paths of those that are lent, a count of faults, and what the system said of
/// the last one. Contracts see the paths and the count; what is in the files is not told.
#[derive(Drop)]
pub struct FileShelf<'a, R: Files<File = File> + AllocGlobal> {
    rt: &'a R,
    lent: BTreeSet<String>,
    faults: u64,
    said: Option<io::Error>,
}

impl<'a, R: Files<File = File> + AllocGlobal> Model for FileShelf<'a, R> {
    ghost use Rattle.std.specs.Prelude.{◌≤◌};
    ghost use Rattle.bf_io.specs.Causes.{last_count};
    ghost use Rattle.bullfrog.specs.Lending.{Lending};

    ghost Value = { Lending };

    ghost view = { λ shelf. record { lent = shelf.lent.keys; faults = shelf.faults } };

    ghost invariant = { λ shelf. shelf.faults ≤ last_count };
}

impl<'a, R: Files<File = File> + AllocGlobal> FileShelf<'a, R> {
    /// The shelf of all files, of which none is lent.
    pub fn new(rt: &'a R) -> FileShelf<'a, R>
        ensures { result ≡ record { lent = []; faults = 0 } }
    {
        FileShelf {
            rt,
            lent: BTreeSet::new(rt.alloc()),
            faults: 0,
            said: None,
        }
    }

    /// What the system said of the last fault, where there was one, of the disks that came back too.
    pub fn said(&self) -> Option<io::Error> {
        self.said
    }
}

// Opens the file for reading and writing, makes an empty one where none is, and takes its lock, so that no two
// programs write one log.
//
// Where the file is empty, the folder is synced: this call may have made the file, or one before that failed.
fn open_file<R: Files<File = File>>(rt: &R, path: &str) -> io::Result<File> {
    let file = OpenOptions::new()
        .read(true)
        .write(true)
        .create(true)
        .open(rt, path)?;
    file.try_lock()?;
    if file.metadata()?.len() == 0 {
        File::open(rt, folder_of(path))?.sync_all()?;
    }
    Ok(file)
}

// The path of the folder that a file stands in.
fn folder_of(path: &str) -> Path<'_> {
    match Path::new(path).parent() {
        Some(folder) if !folder.as_str().is_empty() => folder,
        _ => Path::new("."),
    }
}

impl<'a, R: Files<File = File> + AllocGlobal> Shelf for FileShelf<'a, R> {
    type Disk = FileDisk;

    ghost held = { λ _. None };

    ghost taken = { taken_of };

    ghost fault_count = { λ shelf. shelf.faults };

    /// A file that another open of it has locked is a fault, and so is a folder that can't be synced.
    fn take(&mut self, path: &str) -> Result<FileDisk, DiskError> {
        let name = String::from_str(self.rt.alloc(), path)?;
        match open_file(self.rt, path) {
            Ok(file) => {
                self.lent.insert(name)?;
                Ok(FileDisk::new(file))
            }
            Err(error) => {
                self.said = Some(error);
                self.faults = self.faults.saturating_add(1);
                Err(DiskError::Fault)
            }
        }
    }

    /// The file is closed, which frees its lock.
    fn put_back(&mut self, path: &str, disk: FileDisk) {
        self.lent.remove(path);
        self.faults = self.faults.saturating_add(disk.faults());
        self.said = disk.said().or(self.said);
    }
}

#[cfg(test)]
mod tests {
    use super::*;
    use std::env::temp_dir;
    use std::fs::remove_file;
    use std::io::ErrorKind;
    use std::process;
    use std::test::Fail;

    // How many bytes a new shelf finds in a file, how many faults it met, and of which kind the last one was.
    fn found(rt: &HostRuntime, path: &str) -> (Result<u64, DiskError>, u64, Option<ErrorKind>) {
        let mut shelf = FileShelf::new(rt);
        let len = match shelf.take(path) {
            Ok(mut disk) => {
                let len = disk.len();
                shelf.put_back(path, disk);
                len
            }
            Err(e) => Err(e),
        };
        (len, shelf.faults, shelf.said.map(|said| said.kind()))
    }

    // A file that is lent is locked, and keeps what was written.
    #[test]
    fn a_shelf_gives_a_file_to_one_at_a_time(rt: HostRuntime) -> Result<(), Fail> {
        let folder = temp_dir(&rt)?;
        let id = process::id(rt.process());
        let path = format!(in rt.alloc(); "{}/bullfrog-shelf-{id}", folder.as_str())?;
        let mut shelf = FileShelf::new(&rt);
        let mut disk = shelf.take(path.as_str())?;
        disk.write_at(0, b"abc")?;
        assert_eq!(rt;
            found(&rt, path.as_str()),
            (Err(DiskError::Fault), 1, Some(ErrorKind::WouldBlock))
        );
        shelf.put_back(path.as_str(), disk);
        assert_eq!(rt; found(&rt, path.as_str()), (Ok(3), 0, None));
        remove_file(&rt, path.as_str())?;
        Ok(())
    }

    #[test]
    fn a_folder_that_is_not_there_is_a_fault(rt: HostRuntime) {
        assert_eq!(rt;
            found(&rt, "/bullfrog/no/folder"),
            (Err(DiskError::Fault), 1, Some(ErrorKind::NotFound))
        );
    }
}
