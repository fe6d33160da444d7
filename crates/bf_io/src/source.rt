//! What bytes are read from.

ghost use Rattle.std.specs.Prelude.{◌≡◌, ℕ, ◌≤◌, List, Option, OnOk, OnErr};
ghost use Rattle.std.specs.Io.{ReadsAtMost};
ghost use Rattle.std.specs.Io.KnownBytes.{ReadConsumes};
ghost use Rattle.bf_io.specs.Causes.{Rose, last_count};

use crate::error::IoError;

/// A source of bytes, by the bytes that are left, where it tells them, and a count of faults.
///
/// The count of faults never falls, and stands still at its last value, 2^64 - 1.
pub trait Source {
    ghost left: { Self → Option (List ℕ) };

    ghost faults: { Self → ℕ };

    /// Puts the next bytes at the front of `into`, and answers how many.
    ///
    /// 0 for a slice that is not empty means the end of the input.
    /// `Failed` comes only where the count of faults rose, and then no byte was taken. The count
    /// stays where the read succeeds.
    fn read(&mut self, into: &mut [u8]) -> Result<usize, IoError>
        ensures bound { ReadsAtMost result into.new }
        ensures bytes { ReadConsumes (left self.old) (left self.new) result into.new }
        ensures failed { OnErr result (Rose (faults self.old) (faults self.new)) }
        ensures calm { OnOk result (faults self.new ≡ faults self.old) }
        ensures later { faults self.old ≤ faults self.new }
        ensures counted { faults self.new ≤ last_count };
}
