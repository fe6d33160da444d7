//! A log that is open for appending.

ghost use Rattle.std.specs.Prelude.{◌≡◌, ◌≢◌, ℕ, ◌<◌, ◌≤◌, ◌^◌, List, [], ◌∷◌, ◌++◌, Some, Ok, Err, length, IfOk, OnOk, IfSome, IfNone, ◌+◌};
ghost use Rattle.bf_io.specs.Whole.{IfTold};
ghost use Rattle.bf_disk.specs.Answers.{CountsFault};
ghost use Rattle.bf_disk.specs.Images.{LeavesOnly, Only, Torn, overwritten};
ghost use Rattle.bf_disk.specs.Told.{WhereTold};
ghost use Rattle.bf_log.specs.Format.{longest_payload};
ghost use Rattle.bf_log.specs.Storing.{record_of, opened, IsBeingStored};

use crate::error::AppendError;
use crate::format::{CLOSED_GATE, FRAME, LENGTH_BYTES, OPEN_GATE};
use bf_disk::{Disk, DiskError};
use byteorder::{ByteOrder, LittleEndian};
use std::alloc::{AllocError, Global};

/// Whether a log takes appends.
#[derive(Clone, Copy, Debug, PartialEq, Eq)]
pub enum Standing {
    /// It takes appends.
    Ready,
    /// A call of the device failed, after which the disk's count of faults was this.
    Halted(u64),
    /// There was no memory in a call of the device.
    Spent,
}

/// A log whose payloads are all read, at its closed gate.
#[derive(Debug, Drop)]
pub struct Log<D: Disk> {
    disk: D,
    alloc: Global,
    /// The offset of the closed gate. Once an append has failed on the device it may be open.
    end: u64,
    /// How many records it has.
    count: u64,
    standing: Standing,
    ghost counted: { count ≤ end },
    ghost within: { (file : List ℕ) → D.seen disk ≡ Some file → end < length file },
}

impl<D: Disk> Log<D> {
    ghost use Rattle.bf_log.specs.Append.{Holds, Outcome, BeforeOrAfter, StoppedAt, Stops, refusal, disk_of, end_of, count_of, standing_of, halted_of};
    ghost use Rattle.bf_log.specs.Errors.{CountsFaults, is_append_fault};
    ghost use Rattle.bf_log.specs.Format.{with_entry};

    // A log with its closed gate at an offset, and so many records before it.
    pub(crate) fn at_end(alloc: Global, disk: D, end: u64, count: u64) -> Log<D>
        requires counted { count ≤ end }
        requires within { (file : List ℕ) → D.seen disk ≡ Some file → end < length file }
        ensures disk { disk_of result ≡ disk }
        ensures end { end_of result ≡ end }
        ensures count { count_of result ≡ count }
        ensures ready { standing_of result ≡ Standing.Ready }
    {
        Log {
            disk,
            alloc,
            end,
            count,
            standing: Standing::Ready,
        }
    }

    /// Appends a record, and answers its number in the log. After `Ok` every crash leaves it.
    ///
    /// It copies the payload once and makes four calls of the device: length, payload and a closed
    /// gate are written behind the closed gate and synced, and then that gate is opened and synced.
    /// So a crash at any moment leaves the records from before, or those with the new one. After
    /// `DiskFault` either may be, and the log is halted: it answers `Halted` from then on. After
    /// `Memory` out of a call of the device either may be too, and the log is spent: it answers
    /// `Memory` from then on. Every other refusal leaves the log as it was.
    ///
    /// `largest` is at most 2^30 bytes. `limit` is the most bytes that the log may come to take, up
    /// to and with the gate behind the record. What the file has behind that gate does not count.
    pub fn append(&mut self, payload: &[u8], largest: u32, limit: u64) -> Result<u64, AppendError>
        requires { largest ≤ longest_payload }

        // Refusals before the device is asked: spent, halted, too large, full.
        ensures refused { IfSome (refusal (standing_of self.old) (end_of self.old)
            (length payload.now) largest limit)
            (λ error. (result ≡ Err error) × (self.new ≡ self.old)) }
        ensures outcome { IfNone (refusal (standing_of self.old) (end_of self.old)
            (length payload.now) largest limit)
            (Outcome (length payload.now) self.old self.new result) }

        ensures stored { (file : List ℕ) (payloads : List (List ℕ)) → Holds file payloads self.old
            → OnOk result (Holds (with_entry file (end_of self.old) payload.now)
            (payloads ++ payload.now ∷ []) self.new) }
        ensures any_moment { (file : List ℕ) (payloads : List (List ℕ))
            → Holds file payloads self.old
            → LeavesOnly D.moment D.left_since (disk_of self.old) (disk_of self.new)
            (BeforeOrAfter payloads (payloads ++ payload.now ∷ [])) }

        // A log that has stopped: a crash leaves either, then and after each later append.
        ensures stops { (file : List ℕ) (payloads : List (List ℕ)) → Holds file payloads self.old
            → standing_of self.new ≢ Standing.Ready
            → StoppedAt payloads (payloads ++ payload.now ∷ []) self.new }
        ensures stopped { (before after : List (List ℕ))
            → StoppedAt before after self.old
            → StoppedAt before after self.new
            × LeavesOnly D.moment D.left_since (disk_of self.old) (disk_of self.new)
            (BeforeOrAfter before after) }

        // Time does not go back, and a file is told as before, and is no shorter.
        ensures later { D.moment (disk_of self.old) ≤ D.moment (disk_of self.new) }
        ensures told { WhereTold (λ old new. length old ≤ length new)
            (D.seen (disk_of self.old)) (D.seen (disk_of self.new)) }
        ensures faults { CountsFaults is_append_fault result (D.fault_count (disk_of self.old))
            (D.fault_count (disk_of self.new)) }
    {
        if let Some(refusal) = self.refusal(payload.len() as u64, largest, limit) {
            return Err(refusal);
        }
        let record = spelled(self.alloc, payload)?;
        match store(&mut self.disk, self.end, &record) {
            Ok(()) => {
                self.end += payload.len() as u64 + FRAME;
                self.count += 1;
                Ok(self.count)
            }
            Err(DiskError::Fault) => {
                self.standing = Standing::Halted(self.disk.faults());
                Err(AppendError::DiskFault)
            }
            Err(DiskError::Memory) => {
                self.standing = Standing::Spent;
                Err(AppendError::Memory)
            }
        }
    }

    /// Why an append of a payload of so many bytes is refused before the device is asked, and `None`
    /// where the device is asked. The first reason is told of spent, halted, too large and full.
    ///
    /// `append` answers it with the same `largest` and `limit`, and leaves the log as it was. So one
    /// who has to change other things first, and can't take them back, can ask before. It takes no
    /// memory and asks nothing of the device.
    pub fn refusal(&self, size: u64, largest: u32, limit: u64) -> Option<AppendError>
        ensures { result ≡ refusal (standing_of self.now) (end_of self.now) size largest limit }
    {
        match self.standing {
            Standing::Spent => return Some(AppendError::Memory),
            Standing::Halted(faults) => return Some(AppendError::Halted(faults)),
            Standing::Ready => {}
        }
        if size > largest as u64 {
            return Some(AppendError::TooLarge(size));
        }
        let need = size + FRAME;
        if limit <= self.end || limit - self.end <= need {
            return Some(AppendError::LogFull(self.end, need));
        }
        None
    }

    /// Takes no more records: each later append answers `Memory`, as after want of memory in a call of
    /// the device. The records stay, and the disk is not touched.
    ///
    /// It is for one whose own work after an append has failed, and who must not go on as though the
    /// record had not been stored. It takes no memory.
    pub fn give_up(&mut self)
        ensures spent { Stops Standing.Spent self.old self.new }
        ensures disk { disk_of self.new ≡ disk_of self.old }
    {
        self.standing = Standing::Spent;
    }

    /// The disk's count of faults after an append met a fault, `None` where none did. It takes no
    /// memory.
    pub fn halted(&self) -> Option<u64>
        ensures { result ≡ halted_of self.now }
    {
        match self.standing {
            Standing::Halted(faults) => Some(faults),
            Standing::Ready | Standing::Spent => None,
        }
    }

    /// The disk.
    pub fn disk(&self) -> &D
        ensures { result.now ≡ disk_of self.now }
    {
        &self.disk
    }

    /// The disk, given back.
    pub fn into_disk(self) -> D
        ensures { result ≡ disk_of self }
    {
        self.disk
    }
}

// The length of a payload, the payload and a closed gate.
fn spelled(alloc: Global, payload: &[u8]) -> Result<Vec<u8>, AllocError>
    requires { length payload.now ≤ longest_payload }
    ensures { IfOk result (λ spelled. spelled.items ≡ record_of payload.now) }
{
    let mut length = [0u8; LENGTH_BYTES];
    LittleEndian::write_u32(&mut length, payload.len() as u32);
    let mut record = Vec::with_capacity(alloc, LENGTH_BYTES + payload.len() + 1)?;
    record.extend_from_slice(&length)?;
    record.extend_from_slice(payload)?;
    record.push(CLOSED_GATE)?;
    Ok(record)
}

// Writes bytes behind the closed gate, and opens that gate only when all of them are on the disk.
fn store<D: Disk>(disk: &mut D, gate: u64, bytes: &[u8]) -> Result<(), DiskError>
    requires fits { gate + 1 < 2 ^ 64 }
    requires within { IfTold (D.seen disk.old) (λ file. gate < length file) }
    ensures written { OnOk result
        (WhereTold (λ old new. new ≡ opened old gate bytes.now) (D.seen disk.old)
        (D.seen disk.new)) }
    ensures long { WhereTold (λ old new. length old ≤ length new) (D.seen disk.old)
        (D.seen disk.new) }
    ensures durable { OnOk result
        (IfTold (D.seen disk.new) (λ file. Only file (D.may_leave disk.new))) }
    ensures any_moment { (file : List ℕ) → D.seen disk.old ≡ Some file
        → Only file (D.may_leave disk.old)
        → LeavesOnly D.moment D.left_since disk.old disk.new (IsBeingStored file gate bytes.now) }
    ensures later { D.moment disk.old ≤ D.moment disk.new }
    ensures faults { CountsFault result (D.fault_count disk.old) (D.fault_count disk.new) }
{
    write_synced(disk, gate + 1, bytes)?;
    write_synced(disk, gate, &[OPEN_GATE])
}

// A write and a sync.
fn write_synced<D: Disk>(disk: &mut D, at: u64, bytes: &[u8]) -> Result<(), DiskError>
    requires { IfTold (D.seen disk.old) (λ file. at ≤ length file) }
    ensures written { OnOk result
        (WhereTold (λ old new. new ≡ overwritten old at bytes.now) (D.seen disk.old)
        (D.seen disk.new)) }
    ensures long { WhereTold (λ old new. length old ≤ length new) (D.seen disk.old)
        (D.seen disk.new) }
    ensures durable { OnOk result
        (IfTold (D.seen disk.new) (λ file. Only file (D.may_leave disk.new))) }
    ensures any_moment { (file : List ℕ) → Only file (D.may_leave disk.old)
        → LeavesOnly D.moment D.left_since disk.old disk.new (Torn at (length bytes.now) file) }
    ensures later { D.moment disk.old ≤ D.moment disk.new }
    ensures faults { CountsFault result (D.fault_count disk.old) (D.fault_count disk.new) }
{
    disk.write_at(at, bytes)?;
    disk.sync()
}
