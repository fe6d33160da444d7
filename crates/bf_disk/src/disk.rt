//! One file as an engine sees it: what a read gives, and what a crash may leave.

ghost use Rattle.std.specs.Prelude.{◌≡◌, ℕ, ◌+◌, ◌≤◌, Bool, IsTrue, List, Option, Some, Err, length, take, drop, IfOk, OnOk};
ghost use Rattle.bf_io.specs.Causes.{last_count};
ghost use Rattle.bf_io.specs.Whole.{IfTold};
ghost use Rattle.bf_disk.specs.Answers.{CountsFault, IfTried, OnFault};
ghost use Rattle.bf_disk.specs.Images.{overwritten, Torn, CutShort, Becomes, SameImages, Only, Elapses};
ghost use Rattle.bf_disk.specs.Told.{WhereTold};

use crate::error::DiskError;

/// A file on a device that may fail, and that a crash may leave torn.
///
/// Between two syncs each written range, and the part past the old end, may hold any bytes after a
/// crash; all other bytes stay. A write or a cut that answered `Fault` counts as pending, and a sync
/// that answered `Fault` leaves pending what was. `Memory` is a disk in memory's alone, and then the
/// call changed nothing.
///
/// A disk need not tell what is in the file, as a real one does not, nor what a crash may leave:
/// then the clauses on these say nothing.
pub trait Disk {
    /// The bytes that a read gives, where the disk tells them.
    ghost seen: { Self → Option (List ℕ) };

    /// Whether it tells what a crash may leave. One that does not has no images.
    ghost tells_images: { Bool };

    /// What a crash now may leave.
    ghost may_leave: { Self → List ℕ → Type 0 };

    /// The moment, as a number that does not fall.
    ghost moment: { Self → ℕ };

    /// What a crash at some moment from that one on might have left, within a call or between two.
    ghost left_since: { Self → ℕ → List ℕ → Type 0 };

    /// How many calls have failed. It does not fall, and stands still at its last value, 2^64 - 1.
    ghost fault_count: { Self → ℕ };

    /// How many calls have failed, or 2^64 - 1 if it was more.
    fn faults(&self) -> u64
        ensures { result ≡ fault_count self.now };

    /// The length of the file in bytes.
    fn len(&mut self) -> Result<u64, DiskError>
        ensures len { IfOk result (λ len. IfTold (seen self.old) (λ file. len ≡ length file)) }
        ensures seen { seen self.new ≡ seen self.old }
        ensures images { SameImages (may_leave self.old) (may_leave self.new) }
        ensures time { Elapses (moment self.old) (moment self.new) (left_since self.old)
            (left_since self.new) (may_leave self.new) }
        ensures faults { CountsFault result (fault_count self.old) (fault_count self.new) }
        ensures counted { fault_count self.new ≤ last_count }
        ensures memory { result ≡ Err DiskError.Memory → self.new ≡ self.old };

    /// Fills `into` with the bytes from an offset on. At an error it may hold anything.
    fn read(&mut self, at: u64, into: &mut [u8]) -> Result<(), DiskError>
        requires { IfTold (seen self.old) (λ file. at + length into.old ≤ length file) }
        ensures bytes { OnOk result (IfTold (seen self.old)
            (λ file. into.new ≡ take (length into.old) (drop at file))) }
        ensures seen { seen self.new ≡ seen self.old }
        ensures images { SameImages (may_leave self.old) (may_leave self.new) }
        ensures time { Elapses (moment self.old) (moment self.new) (left_since self.old)
            (left_since self.new) (may_leave self.new) }
        ensures faults { CountsFault result (fault_count self.old) (fault_count self.new) }
        ensures counted { fault_count self.new ≤ last_count }
        ensures memory { result ≡ Err DiskError.Memory → self.new ≡ self.old };

    /// Writes over what is there, and past the end. After `Fault` a read may give a part of it.
    fn write_at(&mut self, at: u64, bytes: &[u8]) -> Result<(), DiskError>
        requires { IfTold (seen self.old) (λ file. at ≤ length file) }
        ensures written { OnOk result
            (WhereTold (λ old new. new ≡ overwritten old at bytes.now) (seen self.old)
            (seen self.new)) }
        ensures failed { OnFault result
            (WhereTold (Torn at (length bytes.now)) (seen self.old) (seen self.new)) }
        ensures images { IfTried result
            (Becomes (Torn at (length bytes.now)) (may_leave self.old) (may_leave self.new)) }
        ensures time { Elapses (moment self.old) (moment self.new) (left_since self.old)
            (left_since self.new) (may_leave self.new) }
        ensures faults { CountsFault result (fault_count self.old) (fault_count self.new) }
        ensures counted { fault_count self.new ≤ last_count }
        ensures memory { result ≡ Err DiskError.Memory → self.new ≡ self.old };

    /// Cuts the file to a length, at most its own. After `Fault` it may have any length between.
    fn cut(&mut self, len: u64) -> Result<(), DiskError>
        requires { IfTold (seen self.old) (λ file. len ≤ length file) }
        ensures cut { OnOk result (WhereTold (λ old new. new ≡ take len old) (seen self.old)
            (seen self.new)) }
        ensures failed { OnFault result (WhereTold (CutShort len) (seen self.old) (seen self.new)) }
        ensures images { IfTried result
            (Becomes (CutShort len) (may_leave self.old) (may_leave self.new)) }
        ensures time { Elapses (moment self.old) (moment self.new) (left_since self.old)
            (left_since self.new) (may_leave self.new) }
        ensures faults { CountsFault result (fault_count self.old) (fault_count self.new) }
        ensures counted { fault_count self.new ≤ last_count }
        ensures memory { result ≡ Err DiskError.Memory → self.new ≡ self.old };

    /// After `Ok` a crash leaves what a read gives. After `Fault` all that was pending is pending
    /// still.
    fn sync(&mut self) -> Result<(), DiskError>
        ensures durable { OnOk result
            (IfTold (seen self.old) (λ file. Only file (may_leave self.new))) }
        ensures seen { seen self.new ≡ seen self.old }
        ensures nothing_else { (image : List ℕ) → may_leave self.new image
            → may_leave self.old image }
        ensures failed { OnFault result (SameImages (may_leave self.old) (may_leave self.new)) }
        ensures time { Elapses (moment self.old) (moment self.new) (left_since self.old)
            (left_since self.new) (may_leave self.new) }
        ensures faults { CountsFault result (fault_count self.old) (fault_count self.new) }
        ensures counted { fault_count self.new ≤ last_count }
        ensures memory { result ≡ Err DiskError.Memory → self.new ≡ self.old };

    /// The file as it reads is one of those that a crash now may leave.
    ghost as_it_reads: { (disk : Self) (file : List ℕ) → IsTrue tells_images
        → seen disk ≡ Some file → may_leave disk file };

    /// This moment is one of those since an earlier one.
    ghost counts_now: { (disk : Self) (t : ℕ) (image : List ℕ) → t ≤ moment disk
        → may_leave disk image → left_since disk t image };

    /// What a crash since a moment might have left, one since an earlier moment might have left
    /// too.
    ghost earlier: { (disk : Self) (t u : ℕ) (image : List ℕ) → t ≤ u → left_since disk u image
        → left_since disk t image };

    /// Since this moment there is no other.
    ghost only_now: { (disk : Self) (image : List ℕ) → left_since disk (moment disk) image
        → may_leave disk image };
}
