//! What bytes are written to.

ghost use Rattle.std.specs.Prelude.{◌≡◌, ℕ, ◌<◌, ◌≤◌, List, Option, length, IfOk, OnOk, OnErr};
ghost use Rattle.std.specs.Io.{WritesAtMost};
ghost use Rattle.std.specs.Io.KnownBytes.{WriteAppends};
ghost use Rattle.bf_io.specs.Causes.{Rose, last_count};

use crate::error::IoError;

/// A sink of bytes, by the bytes that it took, where it tells them, and a count of faults.
///
/// The count of faults never falls, and stands still at its last value, 2^64 - 1.
pub trait Sink {
    ghost taken: { Self → Option (List ℕ) };

    ghost faults: { Self → ℕ };

    /// Takes bytes from the front of `bytes`, and answers how many: at least one, if there is one.
    ///
    /// `Failed` comes only where the count of faults rose, and then no byte was taken. The count
    /// stays where the write succeeds.
    fn write(&mut self, bytes: &[u8]) -> Result<usize, IoError>
        ensures bound { WritesAtMost result bytes.now }
        ensures some { IfOk result (λ count. 0 < length bytes.now → 0 < count) }
        ensures bytes { WriteAppends (taken self.old) (taken self.new) result bytes.now }
        ensures failed { OnErr result (Rose (faults self.old) (faults self.new)) }
        ensures calm { OnOk result (faults self.new ≡ faults self.old) }
        ensures later { faults self.old ≤ faults self.new }
        ensures counted { faults self.new ≤ last_count };
}
