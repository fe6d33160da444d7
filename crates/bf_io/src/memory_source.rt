//! A source in memory of which chosen reads fail.

ghost use Rattle.std.specs.Prelude.{◌≡◌, ◌≤◌, Some, length, OnOk, OnErr, if◌then◌else◌};
ghost use Rattle.std.specs.Io.{ReadsAtMost};
ghost use Rattle.std.specs.Io.KnownBytes.{ReadConsumes};
ghost use Rattle.bf_io.specs.Causes.{Rose, last_count};
ghost use Rattle.bf_io.specs.SourceState.{new_source, read_fails, after_fault, after_read, fitting, filled};

use crate::calm_source::CalmSource;
use crate::error::IoError;
use crate::source::Source;
use std::marker::Model;

/// Bytes in memory, of which the reads with chosen numbers fail.
#[derive(Debug, Drop)]
pub struct MemorySource {
    rest: CalmSource,
    failing: Vec<u64>,
    calls: u64,
    faults: u64,
}

impl Model for MemorySource {
    ghost use Rattle.std.specs.Prelude.{◌≤◌};
    ghost use Rattle.bf_io.specs.Causes.{last_count};
    ghost use Rattle.bf_io.specs.SourceState.{SourceState};

    ghost Value = { SourceState };

    ghost view = { λ source. record {
      left = source.rest;
      failing = source.failing.items;
      calls = source.calls;
      faults = source.faults;
    } };

    ghost invariant = { λ source. source.faults ≤ last_count };
}

impl MemorySource {
    /// A source of these bytes, with no call and no fault so far.
    /// The reads whose numbers, counted from 1, stand in `failing` fail.
    pub fn new(bytes: Vec<u8>, failing: Vec<u64>) -> MemorySource
        ensures { result ≡ new_source bytes.items failing.items }
    {
        MemorySource {
            rest: CalmSource::new(bytes),
            failing,
            calls: 0,
            faults: 0,
        }
    }

    /// How many reads failed so far, or 2^64 - 1 if it was more.
    pub fn faults(&self) -> u64
        ensures { result ≡ self.now.faults }
    {
        self.faults
    }
}

impl Source for MemorySource {
    ghost left = { λ source. Some source.left };

    ghost faults = { λ source. source.faults };

    /// Gives as many bytes as `into` has room for, or all that are left.
    /// It fails, and counts the fault, exactly where this call's number is one of those that fail.
    /// The count of calls stands still at 2^64 - 1, as that of faults does.
    /// It takes time linear in the bytes that it gives and in the numbers of `failing`.
    fn read(&mut self, into: &mut [u8]) -> Result<usize, IoError>
        ensures answer { result ≡ (if read_fails self.old
            then Err IoError.Failed
            else Ok (fitting self.old.left (length into.old))) }
        ensures state { self.new ≡ (if read_fails self.old
            then after_fault self.old
            else after_read self.old (length into.old)) }
        ensures given { into.new ≡ (if read_fails self.old
            then into.old
            else filled self.old.left into.old) }

        // What each source owes.
        ensures bound { ReadsAtMost result into.new }
        ensures bytes { ReadConsumes (Some self.old.left) (Some self.new.left) result into.new }
        ensures failed { OnErr result (Rose self.old.faults self.new.faults) }
        ensures calm { OnOk result (self.new.faults ≡ self.old.faults) }
        ensures later { self.old.faults ≤ self.new.faults }
        ensures counted { self.new.faults ≤ last_count }
    {
        self.calls = self.calls.saturating_add(1);
        if self.failing.contains(&self.calls) {
            self.faults = self.faults.saturating_add(1);
            return Err(IoError::Failed);
        }
        self.rest.read(into)
    }
}
