//! Making a log.

ghost use Rattle.std.specs.Prelude.{◌≡◌, ℕ, ◌<◌, List, [], None, Some, Err, length, OnOk};
ghost use Rattle.bf_io.specs.Whole.{IfTold};
ghost use Rattle.bf_disk.specs.Images.{LeavesOnly, Only, OnlyRead, Torn};
ghost use Rattle.bf_log.specs.Errors.{CountsFaults, is_create_fault};
ghost use Rattle.bf_log.specs.Format.{empty_log};

use crate::error::CreateError;
use crate::format::EMPTY_LOG;
use bf_disk::Disk;

/// Makes an empty log of an empty file: it asks for the length, writes the log's nine bytes at the
/// front, and syncs. A file with bytes is refused, and is not written to whatever the answer. Where
/// a crash leaves an empty file for certain, one at any moment of the call leaves at most nine bytes,
/// whatever they are.
pub fn create_log<D: Disk>(disk: &mut D) -> Result<(), CreateError>
    ensures made { (file : List ℕ) → D.seen disk.old ≡ Some file → OnOk result
        ((file ≡ []) × (D.seen disk.new ≡ Some empty_log) × Only empty_log (D.may_leave disk.new)) }
    ensures untold { D.seen disk.old ≡ None → D.seen disk.new ≡ None }
    ensures any_moment { Only [] (D.may_leave disk.old)
        → LeavesOnly D.moment D.left_since disk.old disk.new (Torn 0 (length empty_log) []) }
    ensures untouched { IfTold (D.seen disk.old) (λ file. 0 < length file
        → OnlyRead D.seen D.may_leave D.moment D.left_since disk.old disk.new) }
    ensures not_empty { (len : ℕ) → result ≡ Err (CreateError.NotEmpty len) → (0 < len)
        × IfTold (D.seen disk.old) (λ file. len ≡ length file)
        × OnlyRead D.seen D.may_leave D.moment D.left_since disk.old disk.new }
    ensures faults { CountsFaults is_create_fault result (D.fault_count disk.old)
        (D.fault_count disk.new) }
{
    let len = disk.len()?;
    if len > 0 {
        return Err(CreateError::NotEmpty(len));
    }
    disk.write_at(0, &EMPTY_LOG)?;
    disk.sync()?;
    Ok(())
}
