//! The parts of records.

ghost use Rattle.std.specs.Prelude.{◌≡◌, ◌++◌, ℕ, List, IfOk, OnOk};
ghost use Rattle.bf_wire.specs.Taking.{AreApart, IsTakenFrom};

use bf_base::Memory;
use std::alloc::Global;

/// What stands in a record: a field, of which those that have expressions and conditions may be too
/// deep to have a spelling. The types are other crates', so the fields' own trait can't serve.
pub(crate) trait Part: Drop {
    ghost HasSpelling: { Self → Type 0 };

    ghost spelling: { Self → List ℕ };

    ghost IsShallow: { Self → Type 0 };

    /// Writes the spelling behind what stands in `out`, in time linear in its length.
    ///
    /// # Errors
    /// Where memory runs out, or a list has 2 ^ 32 items or more. `out` is of no use then.
    fn put(&self, out: &mut Vec<u8>) -> Result<(), Memory>
        ensures ok { OnOk result (out.new.items ≡ out.old.items ++ spelling self.now) }
        ensures spelled { OnOk result (IsShallow self.now → HasSpelling self.now) };

    /// The part whose spelling the bytes begin with, and how many of them that takes; nothing,
    /// where they begin with no spelling. It takes time linear in the bytes that it reads.
    ///
    /// # Errors
    /// Where memory runs out.
    fn take(alloc: Global, bytes: &[u8]) -> Result<Option<(Self, usize)>, Memory>
        ensures { IfOk result (λ found. IsTakenFrom HasSpelling spelling bytes.now found) };

    ghost apart: { AreApart HasSpelling spelling };
}
