//! A sink in memory of which chosen writes fail.

ghost use Rattle.std.specs.Prelude.{◌≡◌, ◌<◌, ◌≤◌, Some, length, IfOk, OnOk, OnErr, if◌then◌else◌};
ghost use Rattle.std.specs.Io.{WritesAtMost};
ghost use Rattle.std.specs.Io.KnownBytes.{WriteAppends};
ghost use Rattle.bf_io.specs.Causes.{Rose, last_count};
ghost use Rattle.bf_io.specs.SinkState.{new_sink, write_fails, after_fault, after_write};

use crate::error::IoError;
use crate::sink::Sink;
use bf_base::Memory;
use std::alloc::Global;
use std::marker::Model;

/// Bytes in memory up to a limit, of which the writes with chosen numbers fail.
#[derive(Debug, Drop)]
pub struct MemorySink {
    bytes: Vec<u8>,
    limit: usize,
    failing: Vec<u64>,
    calls: u64,
    faults: u64,
}

impl Model for MemorySink {
    ghost use Rattle.std.specs.Prelude.{◌≤◌, vec_len, vec_capacity};
    ghost use Rattle.bf_io.specs.Causes.{last_count};
    ghost use Rattle.bf_io.specs.SinkState.{SinkState};

    ghost Value = { SinkState };

    ghost view = { λ sink. record {
      taken = sink.bytes.items;
      limit = sink.limit;
      failing = sink.failing.items;
      calls = sink.calls;
      faults = sink.faults;
    } };

    ghost invariant = { λ sink.
        (vec_len sink.bytes ≤ sink.limit)
        × (sink.limit ≤ vec_capacity sink.bytes)
        × (sink.faults ≤ last_count) };
}

impl MemorySink {
    /// A sink with room for `limit` bytes, with no call and no fault so far.
    /// The room is reserved here, so that a write takes no memory. `Memory` means that there is none.
    /// The writes whose numbers, counted from 1, stand in `failing` fail.
    pub fn new(alloc: Global, limit: usize, failing: Vec<u64>) -> Result<MemorySink, Memory>
        ensures { IfOk result (λ sink. sink ≡ new_sink limit failing.items) }
    {
        let bytes = Vec::with_capacity(alloc, limit)?;
        Ok(MemorySink {
            bytes,
            limit,
            failing,
            calls: 0,
            faults: 0,
        })
    }

    /// The bytes that it took, in their order.
    pub fn bytes(&self) -> &[u8]
        ensures value { result.now ≡ self.now.taken }
        ensures limit { length self.now.taken ≤ self.now.limit }
    {
        self.bytes.as_slice()
    }

    /// How many writes failed so far, or 2^64 - 1 if it was more.
    pub fn faults(&self) -> u64
        ensures { result ≡ self.now.faults }
    {
        self.faults
    }
}

impl Sink for MemorySink {
    ghost taken = { λ sink. Some sink.taken };

    ghost faults = { λ sink. sink.faults };

    /// Takes all of the bytes.
    /// It fails, and counts the fault, exactly where this call's number is one of those that fail,
    /// or the bytes go past the limit.
    /// The count of calls stands still at 2^64 - 1, as that of faults does.
    /// It takes no memory, and time linear in the bytes and in the numbers of `failing`.
    fn write(&mut self, bytes: &[u8]) -> Result<usize, IoError>
        ensures answer { result ≡ (if write_fails self.old bytes.now
            then Err IoError.Failed
            else Ok (length bytes.now)) }
        ensures state { self.new ≡ (if write_fails self.old bytes.now
            then after_fault self.old
            else after_write self.old bytes.now) }

        // What each sink owes.
        ensures bound { WritesAtMost result bytes.now }
        ensures some { IfOk result (λ count. 0 < length bytes.now → 0 < count) }
        ensures bytes { WriteAppends (Some self.old.taken) (Some self.new.taken) result bytes.now }
        ensures failed { OnErr result (Rose self.old.faults self.new.faults) }
        ensures calm { OnOk result (self.new.faults ≡ self.old.faults) }
        ensures later { self.old.faults ≤ self.new.faults }
        ensures counted { self.new.faults ≤ last_count }
    {
        self.calls = self.calls.saturating_add(1);
        if self.failing.contains(&self.calls) || bytes.len() > self.limit - self.bytes.len() {
            self.faults = self.faults.saturating_add(1);
            return Err(IoError::Failed);
        }
        self.bytes.extend_from_slice(bytes).unwrap();
        Ok(bytes.len())
    }
}
