//! Reading a log gate by gate.

ghost use Rattle.std.specs.Prelude.{◌≡◌, ◌↔◌, ℕ, ◌+◌, ◌<◌, ◌≤◌, IsTrue, List, ◌∷◌, Some, length, take, drop};
ghost use Rattle.byteorder.specs.Endian.{little_bytes, little_number};
ghost use Rattle.bf_disk.specs.Images.{OnlyRead};
ghost use Rattle.bf_log.specs.Format.{length_bytes};

use crate::error::OpenError;
use crate::format::{FRAME, LENGTH_BYTES, LONGEST_PAYLOAD, MAGIC, OPEN_GATE};
use crate::log::{Log, Standing};
use bf_base::Sequence;
use bf_disk::Disk;
use byteorder::{ByteOrder, LittleEndian};
use std::alloc::Global;

/// How far a log is read.
#[derive(Clone, Copy, Debug, PartialEq, Eq)]
pub enum Progress {
    /// A gate is to be read.
    Reading,
    /// The gate is closed.
    Ended,
    /// The gate is open, and what stands behind it breaks the chain.
    Broken,
}

/// What stands at the gate that was reached.
#[derive(Debug, Drop)]
pub enum Next {
    /// An open gate at this offset, with this payload behind it.
    Payload(u64, Sequence<u8>),
    /// A closed gate.
    End,
}

/// A log that is being read, at a gate behind the payloads so far.
#[derive(Debug, Drop)]
pub struct Opening<D: Disk> {
    disk: D,
    alloc: Global,
    /// The length of the file.
    len: u64,
    /// The offset of the gate at which it stands.
    gate: u64,
    /// How many payloads were read.
    count: u64,
    progress: Progress,
    ghost within: { gate < len },
    ghost counted: { count ≤ gate },
    ghost told: { (file : List ℕ) → D.seen disk ≡ Some file → len ≡ length file },
}

impl<D: Disk> Opening<D> {
    ghost use Rattle.bf_log.specs.Errors.{CountsFaults, is_open_fault};
    ghost use Rattle.bf_log.specs.Format.{frame, longest_payload, magic, open_gate};
    ghost use Rattle.bf_log.specs.Append.{Holds, end_of, standing_of, disk_of as log_disk, count_of as log_count};
    ghost use Rattle.bf_log.specs.Opening.{HasRead, ReadsNext, ProgressAfter, AnswersAgain, disk_of, gate_of, len_of, count_of, progress_of};

    /// The payload behind the next open gate, with that gate's offset, or `End` at a closed gate.
    ///
    /// `NotALog` tells the gate at which the chain breaks, and comes again at each later call, as
    /// `End` does. After `DiskFault` or `Memory` it stands where it stood, and may be called again.
    /// A call reads no byte twice, and makes room for one payload.
    pub fn next_payload(&mut self, alloc: Global) -> Result<Next, OpenError>
        ensures next { (file : List ℕ) (payloads : List (List ℕ)) → HasRead file payloads self.old
            → ReadsNext file payloads self.new result }
        ensures progress { ProgressAfter self.old self.new result }
        ensures len { len_of self.new ≡ len_of self.old }
        ensures again { AnswersAgain self.old self.new result }

        ensures disk { OnlyRead D.seen D.may_leave D.moment D.left_since (disk_of self.old)
            (disk_of self.new) }
        ensures faults { CountsFaults is_open_fault result (D.fault_count (disk_of self.old))
            (D.fault_count (disk_of self.new)) }
    {
        match self.progress {
            Progress::Reading => self.read_gate(alloc),
            Progress::Ended => Ok(Next::End),
            Progress::Broken => Err(OpenError::NotALog(self.gate)),
        }
    }

    // At the first gate of a file of so many bytes, behind its magic.
    pub(crate) fn at_first_gate(alloc: Global, disk: D, len: u64) -> Opening<D>
        requires room { length magic < len }
        requires told { (file : List ℕ) → D.seen disk ≡ Some file → len ≡ length file }
        ensures disk { disk_of result ≡ disk }
        ensures gate { gate_of result ≡ length magic }
        ensures count { count_of result ≡ 0 }
        ensures progress { progress_of result ≡ Progress.Reading }
    {
        Opening {
            disk,
            alloc,
            len,
            gate: MAGIC.len() as u64,
            count: 0,
            progress: Progress::Reading,
        }
    }

    // Reads the gate with the length behind it.
    fn read_gate(&mut self, alloc: Global) -> Result<Next, OpenError>
        requires { progress_of self.old ≡ Progress.Reading }
        ensures next { (file : List ℕ) (payloads : List (List ℕ)) → HasRead file payloads self.old
            → ReadsNext file payloads self.new result }
        ensures progress { ProgressAfter self.old self.new result }
        ensures len { len_of self.new ≡ len_of self.old }
        ensures disk { OnlyRead D.seen D.may_leave D.moment D.left_since (disk_of self.old)
            (disk_of self.new) }
        ensures faults { CountsFaults is_open_fault result (D.fault_count (disk_of self.old))
            (D.fault_count (disk_of self.new)) }
    {
        let mut frame = [0u8; 1 + LENGTH_BYTES];
        let known = (self.len - self.gate).min(FRAME) as usize;
        self.disk.read(self.gate, &mut frame[..known])?;
        if frame[0] != OPEN_GATE {
            self.progress = Progress::Ended;
            return Ok(Next::End);
        }
        // Where bytes of the length are missing there is no room, whatever it reads as.
        let size = read_length(&frame[1..]);
        if !self.has_room(size) {
            self.progress = Progress::Broken;
            return Err(OpenError::NotALog(self.gate));
        }
        self.read_payload(alloc, size)
    }

    // Whether a payload may have so many bytes, and fits behind a length, with a gate behind it.
    fn has_room(&self, size: u32) -> bool
        ensures { IsTrue result
            ↔ (size ≤ longest_payload) × (self.now.gate + frame + size < self.now.len) }
    {
        size <= LONGEST_PAYLOAD && size as u64 + FRAME < self.len - self.gate
    }

    // Reads the payload of so many bytes behind the open gate, and goes on to the next gate.
    fn read_payload(&mut self, alloc: Global, size: u32) -> Result<Next, OpenError>
        requires reading { progress_of self.old ≡ Progress.Reading }
        requires small { size ≤ longest_payload }
        requires room { self.old.gate + frame + size < self.old.len }
        requires opened { (file : List ℕ) → D.seen (disk_of self.old) ≡ Some file
            → take frame (drop (gate_of self.old) file)
            ≡ open_gate ∷ little_bytes length_bytes size }
        ensures next { (file : List ℕ) (payloads : List (List ℕ)) → HasRead file payloads self.old
            → ReadsNext file payloads self.new result }
        ensures progress { ProgressAfter self.old self.new result }
        ensures len { len_of self.new ≡ len_of self.old }
        ensures disk { OnlyRead D.seen D.may_leave D.moment D.left_since
            (disk_of self.old) (disk_of self.new) }
        ensures faults { CountsFaults is_open_fault result
            (D.fault_count (disk_of self.old)) (D.fault_count (disk_of self.new)) }
    {
        let mut payload = vec![in alloc; 0u8; size as usize]?;
        let gate = self.gate;
        self.disk.read(gate + FRAME, &mut payload)?;
        self.gate = gate + FRAME + size as u64;
        self.count += 1;
        Ok(Next::Payload(gate, Sequence::of(payload)))
    }

    /// The log, once `End` was read. It takes no memory.
    pub fn into_log(self) -> Log<D>
        requires { progress_of self ≡ Progress.Ended }
        ensures holds { (file : List ℕ) (payloads : List (List ℕ)) → HasRead file payloads self
            → Holds file payloads result }
        ensures disk { log_disk result ≡ disk_of self }
        ensures end { end_of result ≡ gate_of self }
        ensures count { log_count result ≡ count_of self }
        ensures ready { standing_of result ≡ Standing.Ready }
    {
        Log::at_end(self.alloc, self.disk, self.gate, self.count)
    }

    /// The disk, given back.
    pub fn into_disk(self) -> D
        ensures { result ≡ disk_of self }
    {
        self.disk
    }
}

// The length that four bytes spell.
fn read_length(bytes: &[u8]) -> u32
    requires { length bytes.now ≡ length_bytes }
    ensures number { result ≡ little_number length_bytes bytes.now }
    ensures spelled { little_bytes length_bytes result ≡ bytes.now }
{
    LittleEndian::read_u32(bytes)
}
