//! Where disks are kept by path.

ghost use Rattle.std.specs.Prelude.{◌≡◌, ℕ, ◌≤◌, None, Some, Err, Option, IsSome, IfOk, OnErr};
ghost use Rattle.bf_io.specs.Causes.{last_count};
ghost use Rattle.bf_disk.specs.Answers.{CountsFault};
ghost use Rattle.bf_disk.specs.Shelves.{ByPath, GivesHeld, Puts, PutsWhereTold, with_rises};

use crate::disk::Disk;
use crate::error::DiskError;

/// Disks by path, where it tells them, and a count of faults.
///
/// A disk that was taken is the caller's until it is put back; until then its path is not taken
/// again.
pub trait Shelf {
    type Disk: Disk;

    /// The disk that it holds under each path, where it tells them.
    ghost held: { Self → Option (ByPath Self.Disk) };

    /// Under each path whose disk is taken, the count of faults that the disk had then.
    ghost taken: { Self → ByPath ℕ };

    /// How many faults it has met, with those of the disks that came back. It does not fall, and
    /// stands still at its last value, 2^64 - 1.
    ghost fault_count: { Self → ℕ };

    /// Opens the file for reading and writing, and makes an empty one where none is.
    fn take(&mut self, path: &str) -> Result<Self::Disk, DiskError>
        requires { taken self.old path.now ≡ None }
        ensures given { IfOk result (λ disk.
            GivesHeld Self.Disk.seen Self.Disk.may_leave (held self.old) path.now disk) }
        ensures away { IfOk result (λ disk.
            PutsWhereTold path.now None (held self.old) (held self.new)
            × Puts path.now (Some (Self.Disk.fault_count disk)) (taken self.old) (taken self.new)) }
        ensures refused { OnErr result ((held self.new ≡ held self.old)
            × (taken self.new ≡ taken self.old)) }
        ensures faults { CountsFault result (fault_count self.old) (fault_count self.new) }
        ensures counted { fault_count self.new ≤ last_count }
        ensures memory { result ≡ Err DiskError.Memory → self.new ≡ self.old };

    /// Puts a disk in the place of the one that was taken. It takes no memory.
    ///
    /// The faults that the disk met since it was taken are added to the shelf's count. Where the
    /// disk's count is the last value, it does not tell how many they were, and the shelf's becomes
    /// the last value too.
    fn put_back(&mut self, path: &str, disk: Self::Disk)
        requires { IsSome (taken self.old path.now) }
        ensures held { PutsWhereTold path.now (Some disk) (held self.old) (held self.new) }
        ensures taken { Puts path.now None (taken self.old) (taken self.new) }
        ensures faults { fault_count self.new
            ≡ with_rises (fault_count self.old) (taken self.old path.now)
            (Self.Disk.fault_count disk) }
        ensures counted { fault_count self.new ≤ last_count };
}
