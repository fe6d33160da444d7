//! A source in memory that never fails.

ghost use Rattle.std.specs.Prelude.{◌≡◌, ◌<◌, ◌≤◌, Some, [], length, take, drop, OnErr};
ghost use Rattle.std.specs.Io.{ReadsAtMost};
ghost use Rattle.std.specs.Io.KnownBytes.{ReadConsumes};
ghost use Rattle.bf_io.specs.Causes.{Rose, last_count};
ghost use Rattle.bf_io.specs.SourceState.{fitting, filled};

use crate::error::IoError;
use crate::source::Source;
use std::marker::Model;

/// Bytes in memory, of which each read succeeds. Contracts see the bytes that are left.
#[derive(Debug, Drop)]
pub struct CalmSource {
    bytes: Vec<u8>,
    at: usize,
}

impl Model for CalmSource {
    ghost use Rattle.std.specs.Prelude.{ℕ, ◌≤◌, List, length, drop};

    ghost Value = { List ℕ };

    ghost view = { λ source. drop source.at source.bytes.items };

    ghost invariant = { λ source. source.at ≤ length source.bytes.items };
}

/// Copies as many bytes as fit to the front, and says how many.
fn copy_front(from: &[u8], into: &mut [u8]) -> usize
    ensures count { result ≡ fitting from.now (length into.old) }
    ensures copied { into.new ≡ filled from.now into.old }
    ensures front { take result into.new ≡ take result from.now }
    ensures some { result ≡ 0 → 0 < length into.new → from.now ≡ [] }
{
    let count = into.len().min(from.len());
    into[..count].copy_from_slice(&from[..count]);
    count
}

impl CalmSource {
    /// A source of these bytes, with none read so far.
    pub fn new(bytes: Vec<u8>) -> CalmSource
        ensures { result ≡ bytes.items }
    {
        CalmSource { bytes, at: 0 }
    }
}

impl Source for CalmSource {
    ghost left = { λ source. Some source };

    ghost faults = { λ _. 0 };

    /// Gives as many bytes as `into` has room for, or all that are left, in time linear in them.
    fn read(&mut self, into: &mut [u8]) -> Result<usize, IoError>
        ensures answer { result ≡ Ok (fitting self.old (length into.old)) }
        ensures rest { self.new ≡ drop (length into.old) self.old }
        ensures given { into.new ≡ filled self.old into.old }

        // What each source owes.
        ensures bound { ReadsAtMost result into.new }
        ensures bytes { ReadConsumes (Some self.old) (Some self.new) result into.new }
        ensures failed { OnErr result (Rose 0 0) }
    {
        let count = copy_front(&self.bytes[self.at..], into);
        self.at += count;
        Ok(count)
    }
}
