//! A disk in memory that keeps every call, fails as it is told, and can be crashed.

ghost use Rattle.std.specs.Prelude.{◌≡◌, ◌+◌, ◌-◌, ◌≤◌, [], ◌∷◌, ◌++◌, None, Some, true, length, take, drop, IfOk, OnOk, OnErr};
ghost use Rattle.bf_io.specs.Causes.{last_count};
ghost use Rattle.bf_disk.specs.Tape.{file_of, MayLeave, LeftSince, faults_of, file_after, file_after_act, Keeps, new_tape, torn_image, next_fails, at_call};
ghost use Rattle.bf_disk.specs.TapeLaws.{as_it_reads as tape_as_it_reads, counts_now as tape_counts_now, earlier as tape_earlier, only_now as tape_only_now};

use crate::call::{Act, Call};
use crate::disk::Disk;
use crate::error::DiskError;
use crate::file::copy_range;
use crate::replay::{certain_bytes, redo, tear};
use bf_base::{Memory, Sequence};
use std::alloc::Global;
use std::marker::Model;

/// A file in memory with every call that was made on it. It tells what a crash may leave, now and
/// at each moment so far; its moment is the number of its calls.
#[derive(Debug, Drop)]
pub struct TapeDisk {
    start: Vec<u8>,
    /// The file as it reads, from the first write or cut on.
    changed: Option<Vec<u8>>,
    calls: Vec<Call>,
    failing: Vec<u64>,
    last: Option<u64>,
}

impl Model for TapeDisk {
    ghost use Rattle.bf_disk.specs.Tape.{Tape};

    ghost Value = { Tape };

    ghost use Rattle.bf_disk.specs.TapeInside.{tape_of, IsReplayed};

    ghost view = { tape_of };

    ghost invariant = { IsReplayed };
}

impl TapeDisk {
    /// A disk that holds these bytes, with nothing pending, no call and no fault so far. The calls whose
    /// numbers, counted from 1, stand in `failing` fail, and where `last` is given each with a greater
    /// number fails too. It takes no memory.
    pub fn new(alloc: Global, bytes: Vec<u8>, failing: Vec<u64>, last: Option<u64>) -> TapeDisk
        ensures { result ≡ new_tape bytes.items failing.items last }
    {
        TapeDisk {
            start: bytes,
            changed: None,
            calls: Vec::new(alloc),
            failing,
            last,
        }
    }

    /// The bytes as a read gives them.
    pub fn bytes(&self) -> &[u8]
        ensures { result.now ≡ file_of self.now }
    {
        match &self.changed {
            Some(bytes) => bytes,
            None => &self.start,
        }
    }

    /// How many calls were made.
    pub fn calls(&self) -> u64
        ensures { result ≡ length self.now.calls }
    {
        self.calls.len() as u64
    }

    /// A disk that a crash now may leave: each byte that is pending is the next of `torn`, which begins
    /// again at its front where it is used up, and 0 where it is empty. It begins like a new one, without
    /// failing calls. It takes time linear in the bytes at the start and those of all calls.
    pub fn crash(&self, alloc: Global, torn: &[u8]) -> Result<TapeDisk, Memory>
        ensures disk { IfOk result (λ disk.
            disk ≡ new_tape (torn_image self.now torn.now) [] None) }
        ensures image { IfOk result (λ disk. MayLeave self.now disk.start) }
    {
        self.crash_after(alloc, self.calls() as usize, torn)
    }

    /// The disk that `crash` gives where the calls from number `call` on were never made.
    pub fn crash_at(&self, alloc: Global, call: u64, torn: &[u8]) -> Result<TapeDisk, Memory>
        ensures disk { IfOk result (λ disk.
            disk ≡ new_tape (torn_image (at_call self.now (call - 1)) torn.now) [] None) }
        ensures image { IfOk result (λ disk. MayLeave (at_call self.now (call - 1)) disk.start) }
    {
        let made = call.saturating_sub(1).min(self.calls()) as usize;
        self.crash_after(alloc, made, torn)
    }

    // The disk that a crash leaves after so many of the calls.
    fn crash_after(&self, alloc: Global, made: usize, torn: &[u8]) -> Result<TapeDisk, Memory>
        requires { made ≤ length self.now.calls }
        ensures { IfOk result (λ disk.
            disk ≡ new_tape (torn_image (at_call self.now made) torn.now) [] None) }
    {
        let certain = certain_bytes(alloc, &self.start, &self.calls[..made])?;
        let image = tear(alloc, &certain, torn)?;
        Ok(TapeDisk::new(alloc, image, Vec::new(alloc), None))
    }

    // Whether the next call is one of those that fail.
    fn next_fails(&self) -> bool
        ensures { result ≡ next_fails self.now }
    {
        let number = self.calls.len() as u64 + 1;
        self.failing.contains(&number) || self.last.is_some_and(|last| last < number)
    }

    // Keeps a call that changes nothing of the file as it reads, and answers whether it failed.
    fn keep(&mut self, act: Act) -> Result<(), DiskError>
        requires { file_after_act (file_of self.old) act ≡ file_of self.old }
        ensures kept { Keeps act self.old self.new result }
        ensures counted { faults_of self.new ≤ last_count }
    {
        let failed = self.next_fails();
        self.calls.push(Call { act, failed })?;
        if failed {
            return Err(DiskError::Fault);
        }
        Ok(())
    }

    // Keeps a call, and does to the file what it asks for, unless it fails. The first one makes a
    // copy of the file at the start.
    fn change(&mut self, act: Act) -> Result<(), DiskError>
        ensures kept { Keeps act self.old self.new result }
        ensures counted { faults_of self.new ≤ last_count }
    {
        let failed = self.next_fails();
        let mut file = match self.changed.take() {
            Some(file) => file,
            None => self.start.to_vec(*self.calls.allocator())?,
        };
        let kept = keep_call(&mut self.calls, &mut file, Call { act, failed });
        self.changed = Some(file);
        kept?;
        if failed {
            return Err(DiskError::Fault);
        }
        Ok(())
    }
}

// Keeps a call and does to the file what it did. Without memory both are as they were.
fn keep_call(calls: &mut Vec<Call>, file: &mut Vec<u8>, call: Call) -> Result<(), Memory>
    ensures calls { OnOk result (calls.new.items ≡ calls.old.items ++ call ∷ []) }
    ensures file { OnOk result (file.new.items ≡ file_after file.old.items call) }
    ensures err { OnErr result ((calls.new.items ≡ calls.old.items)
        × (file.new.items ≡ file.old.items)) }
{
    calls.reserve(1)?;
    redo(file, &call)?;
    calls.push(call).unwrap();
    Ok(())
}

impl Disk for TapeDisk {
    ghost seen = { λ tape. Some (file_of tape) };

    ghost tells_images = { true };

    ghost may_leave = { MayLeave };

    ghost moment = { λ tape. length tape.calls };

    ghost left_since = { LeftSince };

    ghost fault_count = { faults_of };

    ghost as_it_reads = { λ tape file _ told. tape_as_it_reads tape file told };

    ghost counts_now = { tape_counts_now };

    ghost earlier = { tape_earlier };

    ghost only_now = { tape_only_now };

    fn faults(&self) -> u64 {
        self.calls.iter().filter(|call| call.failed).count() as u64
    }

    fn len(&mut self) -> Result<u64, DiskError>
        ensures kept { Keeps Act.Look self.old self.new result }
        ensures len { IfOk result (λ len. len ≡ length (file_of self.old)) }
        ensures counted { faults_of self.new ≤ last_count }
    {
        self.keep(Act::Look)?;
        Ok(self.bytes().len() as u64)
    }

    fn read(&mut self, at: u64, into: &mut [u8]) -> Result<(), DiskError>
        requires { at + length into.old ≤ length (file_of self.old) }
        ensures kept { Keeps Act.Look self.old self.new result }
        ensures bytes { OnOk result (into.new
            ≡ take (length into.old) (drop at (file_of self.old))) }
        ensures counted { faults_of self.new ≤ last_count }
    {
        self.keep(Act::Look)?;
        copy_range(self.bytes(), at, into);
        Ok(())
    }

    /// It takes time and memory linear in the bytes. The first write or cut also copies the file,
    /// as it was at the start.
    fn write_at(&mut self, at: u64, bytes: &[u8]) -> Result<(), DiskError>
        requires { at ≤ length (file_of self.old) }
        ensures kept { Keeps (Act.Write at bytes.now) self.old self.new result }
        ensures counted { faults_of self.new ≤ last_count }
    {
        let kept = Sequence::of(bytes.to_vec(*self.calls.allocator())?);
        self.change(Act::Write(at, kept))
    }

    fn cut(&mut self, len: u64) -> Result<(), DiskError>
        requires { len ≤ length (file_of self.old) }
        ensures kept { Keeps (Act.Cut len) self.old self.new result }
        ensures counted { faults_of self.new ≤ last_count }
    {
        self.change(Act::Cut(len))
    }

    fn sync(&mut self) -> Result<(), DiskError>
        ensures kept { Keeps Act.Sync self.old self.new result }
        ensures counted { faults_of self.new ≤ last_count }
    {
        self.keep(Act::Sync)
    }
}
