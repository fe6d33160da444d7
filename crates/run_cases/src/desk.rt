//! Calls of the program over files in memory.

ghost use Rattle.std.specs.Prelude.{◌≡◌, ℕ, List, None};
ghost use Rattle.bf_disk.specs.MemoryShelves.{taken_at};

use crate::narrow::Narrow;
use anyhow::{Context, bail};
use bf_disk::{MemoryShelf, TapeDisk};
use bf_io::{MemorySink, MemorySource};
use bf_run::{OpenGate, Status, bullfrog};
use case_files::tell_bytes;
use std::alloc::{AllocError, Global};
use std::sync::Wait;
use std::thread::Threads;

/// The file of the log.
pub const LOG: &str = "log";

/// How many bytes a report may have.
const LONGEST_REPORT: usize = 1 << 16;

/// Which call of each device fails, by its number from 1 on.
#[derive(Clone, Copy)]
pub struct Failing {
    /// Of reading the script.
    pub read: Option<u64>,
    /// Of writing the report.
    pub write: Option<u64>,
    /// Of the disk of a file.
    pub disk: Option<u64>,
}

/// Adds a line that tells the bytes of a file.
pub fn tell_file(disk: &TapeDisk, told: &mut String) -> anyhow::Result<()> {
    told.push_str("bytes")?;
    tell_bytes(disk.bytes(), told)?;
    told.push_str("\n")?;
    Ok(())
}

/// The files, and what fails.
#[derive(Drop)]
pub struct Desk {
    shelf: MemoryShelf,
    pub failing: Failing,
    ghost untaken: { (path : List ℕ) → taken_at shelf path ≡ None },
}

impl Desk {
    /// One without files, of which nothing fails.
    pub fn new(alloc: Global) -> Desk {
        Desk {
            shelf: MemoryShelf::new(alloc),
            failing: Failing {
                read: None,
                write: None,
                disk: None,
            },
        }
    }

    /// Puts the log's file there, with these bytes.
    pub fn set(&mut self, alloc: Global, bytes: &[u8]) -> anyhow::Result<()> {
        let failing = numbers(alloc, self.failing.disk)?;
        let disk = TapeDisk::new(alloc, bytes.to_vec(alloc)?, failing, None);
        self.put(disk)
    }

    /// Puts the log's file there.
    fn put(&mut self, disk: TapeDisk) -> anyhow::Result<()> {
        if self.shelf.set(LOG, disk).is_err() {
            bail!("no memory for a file");
        }
        Ok(())
    }

    /// Adds what a call prints, and behind that the number of its status where it does not end well.
    pub fn call(
        &mut self,
        rt: &(impl Threads + Wait + Sync),
        alloc: Global,
        words: &[&str],
        script: &str,
        told: &mut String,
    ) -> anyhow::Result<()> {
        let failing = self.failing;
        let mut input = MemorySource::new(
            script.as_bytes().to_vec(alloc)?,
            numbers(alloc, failing.read)?,
        );
        let writes = numbers(alloc, failing.write)?;
        let inner = MemorySink::new(alloc, LONGEST_REPORT, writes)?;
        let mut output = Narrow { inner };
        let status = bullfrog(
            rt,
            alloc,
            words,
            &mut input,
            &mut output,
            &mut self.shelf,
            &OpenGate,
        );
        let printed = String::from_utf8_lossy(alloc, output.inner.bytes())?;
        tell_end(printed.as_str(), status, told)
    }

    /// The log's file.
    pub fn log(&self) -> anyhow::Result<&TapeDisk> {
        self.shelf.disk(LOG).context("no log")
    }

    /// Adds the bytes of a file.
    pub fn show(&self, path: &str, told: &mut String) -> anyhow::Result<()> {
        match self.shelf.disk(path) {
            Some(disk) => tell_file(disk, told),
            None => Ok(told.push_str("no file\n")?),
        }
    }

    /// Adds how many calls of the log's disk there were, and how many faults of the disks that were used.
    pub fn count(&self, told: &mut String) -> anyhow::Result<()> {
        let calls = self.log()?.calls();
        let faults = self.shelf.faults();
        Ok(writeln!(told, "calls {calls} faults {faults}")?)
    }

    /// Adds what is printed of a script over the log that is left where its calls from one on were never made.
    pub fn stop(
        &self,
        rt: &(impl Threads + Wait + Sync),
        alloc: Global,
        call: u64,
        torn: &[u8],
        script: &str,
        told: &mut String,
    ) -> anyhow::Result<()> {
        let mut left = Desk::new(alloc);
        left.put(self.log()?.crash_at(alloc, call, torn)?)?;
        left.call(rt, alloc, &["run", LOG, "--workers", "0"], script, told)
    }
}

/// The numbers of the calls that fail, of which there is at most one.
fn numbers(alloc: Global, number: Option<u64>) -> Result<Vec<u64>, AllocError> {
    match number {
        Some(number) => Ok(vec![in alloc; number]?),
        None => Ok(Vec::new(alloc)),
    }
}

/// Adds what is printed, and a backslash where it ends within a line. Behind that the number of a status but that of
/// what ends well.
fn tell_end(printed: &str, status: Status, told: &mut String) -> anyhow::Result<()> {
    told.push_str(printed)?;
    if !printed.is_empty() && !printed.ends_with("\n") {
        told.push_str("\\\n")?;
    }
    if status != Status::Done {
        writeln!(told, "status {}", status.number())?;
    }
    Ok(())
}
