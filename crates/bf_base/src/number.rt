//! Numbers that are counted from 1.

ghost use Rattle.std.specs.Prelude.{◌≡◌, ◌+◌, ◌^◌, ◌≤◌, ◌<◌, IfOk, OnErr, OnOk};

use crate::memory::Memory;

/// The number of the item behind so many: one more than the count. It takes no memory.
///
/// # Errors
/// Exactly where the number would be 2 ^ 32 or more, which counts as want of memory.
pub fn next_number(count: usize) -> Result<u32, Memory>
    ensures number { IfOk result (λ number. number ≡ count + 1) }
    ensures fits { OnOk result (count + 1 < 2 ^ 32) }
    ensures too_many { OnErr result (2 ^ 32 ≤ count + 1) }
{
    match u32::try_from(count) {
        Ok(number) => number.checked_add(1).ok_or(Memory),
        Err(_) => Err(Memory),
    }
}
