//! Calls of the program over shelves in memory.

ghost use Rattle.std.specs.Prelude.{◌≡◌, ℕ, List, None};

use bf_disk::Shelf;
use bf_io::{CalmSource, MemorySink};
use bf_run::{Gate, OpenGate, Status, bullfrog};
use std::alloc::Global;
use std::sync::Wait;
use std::test::Fail;
use std::thread::Threads;

/// The file of the log.
pub const LOG: &str = "log";

/// How many bytes a report may have.
const LONGEST_REPORT: usize = 1 << 20;

/// What a call ends with: its status, and what it wrote.
#[derive(Drop)]
pub struct Told {
    pub status: Status,
    pub report: String,
}

/// Calls the program with these words, a gate and a script.
pub fn call<S: Shelf, G: Gate + Sync>(
    rt: &(impl AllocGlobal + Threads + Wait + Sync),
    shelf: &mut S,
    gate: &G,
    words: &[&str],
    script: &str,
) -> Result<Told, Fail>
where
    S::Disk: Send,
    requires { (path : List ℕ) → S.taken shelf.old path ≡ None }
    ensures { (path : List ℕ) → S.taken shelf.new path ≡ None }
{
    let alloc: Global = rt.alloc();
    let mut input = CalmSource::new(script.as_bytes().to_vec(alloc)?);
    let mut output = MemorySink::new(alloc, LONGEST_REPORT, Vec::new(alloc))?;
    let status = bullfrog(rt, alloc, words, &mut input, &mut output, shelf, gate);
    let report = String::from_utf8_lossy(alloc, output.bytes())?;
    Ok(Told { status, report })
}

/// Makes a log, and runs a script over it without workers.
pub fn prepare<S: Shelf>(
    rt: &(impl AllocGlobal + Threads + Wait + Sync),
    shelf: &mut S,
    script: &str,
) -> Result<(), Fail>
where
    S::Disk: Send,
    requires { (path : List ℕ) → S.taken shelf.old path ≡ None }
    ensures { (path : List ℕ) → S.taken shelf.new path ≡ None }
{
    let made = call(rt, shelf, &OpenGate, &["create", LOG], "")?;
    let run = call(
        rt,
        shelf,
        &OpenGate,
        &["run", LOG, "--workers", "0"],
        script,
    )?;
    if (made.status, run.status) != (Status::Done, Status::Done) {
        return Err("no log to begin with".into());
    }
    Ok(())
}
