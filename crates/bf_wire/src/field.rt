//! What can be written as bytes and read back.

ghost use Rattle.std.specs.Prelude.{◌≡◌, ◌++◌, ℕ, List, IfOk, OnErr, OnOk};
ghost use Rattle.bf_wire.specs.Taking.{AreApart, IsTakenFrom, KeepsFront};

use bf_base::Memory;
use std::alloc::Global;

/// A value with a spelling of its own in bytes, which is no proper prefix of another's. It has at
/// least one byte, so that the time to read a list is linear in its bytes, whatever count it tells.
pub trait Field: Drop {
    /// Which values have a spelling: those that the type can hold, in lists that aren't too long.
    ghost HasSpelling: { Self → Type 0 };

    /// The bytes of a value.
    ghost spelling: { Self → List ℕ };

    /// Writes the spelling behind what stands in `out`, in time linear in its length.
    ///
    /// # Errors
    /// Where memory runs out, or a list has 2^32 items or more. What stood in `out` is still its
    /// front then.
    fn put(&self, out: &mut Vec<u8>) -> Result<(), Memory>
        ensures spelled { OnOk result (HasSpelling self.now) }
        ensures ok { OnOk result (out.new.items ≡ out.old.items ++ spelling self.now) }
        ensures err { OnErr result (KeepsFront out.old.items out.new.items) };

    /// The value whose spelling the bytes begin with, and how many of them that takes; nothing,
    /// where they begin with no spelling. It takes time linear in the bytes that it reads.
    ///
    /// # Errors
    /// Where memory runs out.
    fn take(alloc: Global, bytes: &[u8]) -> Result<Option<(Self, usize)>, Memory>
        ensures { IfOk result (λ found. IsTakenFrom HasSpelling spelling bytes.now found) };

    /// So the bytes tell the value, whatever stands behind them.
    ghost apart: { AreApart HasSpelling spelling };
}
