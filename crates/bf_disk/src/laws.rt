//! Laws of counts of faults. They are the contract of a function that does nothing.

ghost use Rattle.std.specs.Prelude.{ℕ, ◌≤◌, Some, Option};
ghost use Rattle.bf_io.specs.Causes.{Rose, last_count};
ghost use Rattle.bf_disk.specs.Shelves.{with_rises};

/// A shelf hides no fault. Where a disk met one since it was lent, the shelf's count, with what the
/// disk tells when it comes back, rose too, or stands at its last value. The count never falls.
pub fn a_shelf_tells_each_fault()
    ensures rose { (count lent before now : ℕ) → lent ≤ before → Rose before now
        → Rose count (with_rises count (Some lent) now) }
    ensures later { (count now : ℕ) (lent : Option ℕ) → count ≤ last_count
        → count ≤ with_rises count lent now }
{}
