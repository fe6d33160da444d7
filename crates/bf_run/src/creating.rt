//! Making a log in a file of a shelf.

ghost use Rattle.std.specs.Prelude.{◌≡◌, ℕ, List, None, Some, Err, IfOk, OnOk, ⊤};
ghost use Rattle.bf_run.specs.Creating.{CountsOne, Makes, Refuses, Spares, shelf_of};
ghost use Rattle.bf_run.specs.Outcome.{ComesOfFile, IsTextOf};
ghost use Rattle.bf_words.specs.Words.{creating};

use crate::status::{Status, disk_fault, not_empty_line};
use bf_base::Memory;
use bf_disk::Shelf;
use bf_log::{CreateError, create_log};
use std::alloc::Global;

/// Makes an empty log in the file under a path, and puts the file back whatever came of it.
fn make_log<S: Shelf>(path: &str, shelf: &mut S) -> Result<(), CreateError>
    requires { (path : List ℕ) → S.taken shelf.old path ≡ None }
    ensures ok { OnOk result (Makes
        (shelf_of S.Disk.seen S.Disk.may_leave S.Disk.moment S.Disk.left_since S.Disk.fault_count S.held S.fault_count
        shelf.old shelf.new) path.now) }
    ensures not_empty { (n : ℕ) → result ≡ Err (CreateError.NotEmpty n) → Refuses
        (shelf_of S.Disk.seen S.Disk.may_leave S.Disk.moment S.Disk.left_since S.Disk.fault_count S.held S.fault_count
        shelf.old shelf.new) path.now n }
    ensures fault { result ≡ Err CreateError.DiskFault → CountsOne
        (shelf_of S.Disk.seen S.Disk.may_leave S.Disk.moment S.Disk.left_since S.Disk.fault_count S.held S.fault_count
        shelf.old shelf.new) }
    ensures spares { Spares
        (shelf_of S.Disk.seen S.Disk.may_leave S.Disk.moment S.Disk.left_since S.Disk.fault_count S.held S.fault_count
        shelf.old shelf.new) path.now }
    ensures none_taken { (path : List ℕ) → S.taken shelf.new path ≡ None }
{
    let mut disk = shelf.take(path)?;
    let made = create_log(&mut disk);
    shelf.put_back(path, disk);
    made
}

/// The status of a path that is asked to be made a log, and its whole text.
pub(crate) fn create<S: Shelf>(
    alloc: Global,
    path: &str,
    shelf: &mut S,
) -> Result<(Status, Vec<u8>), Memory>
    requires { (path : List ℕ) → S.taken shelf.old path ≡ None }
    ensures causes { IfOk result (λ a. ComesOfFile path.now
        (shelf_of S.Disk.seen S.Disk.may_leave S.Disk.moment S.Disk.left_since S.Disk.fault_count S.held S.fault_count
        shelf.old shelf.new) a.0) }
    ensures text { IfOk result (λ a. (bytes : List ℕ) →
        IsTextOf (Some (creating path.now)) (λ status script start history ended last. ⊥) ⊤ bytes a.0 a.1.items) }
    ensures spares { Spares
        (shelf_of S.Disk.seen S.Disk.may_leave S.Disk.moment S.Disk.left_since S.Disk.fault_count S.held S.fault_count
        shelf.old shelf.new) path.now }
    ensures none_taken { (path : List ℕ) → S.taken shelf.new path ≡ None }
{
    match make_log(path, shelf) {
        Ok(()) => Ok((Status::Done, Vec::from_slice(alloc, b"created\n")?)),
        Err(CreateError::NotEmpty(bytes)) => {
            Ok((Status::NotEmpty(bytes), not_empty_line(alloc, bytes)?))
        }
        Err(CreateError::DiskFault) => disk_fault(alloc),
        Err(CreateError::Memory) => Err(Memory),
    }
}
