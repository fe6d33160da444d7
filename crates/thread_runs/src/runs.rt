//! A script that is run in three calls, of which the second has its sessions on threads.

ghost use Rattle.std.specs.Prelude.{◌≡◌, ℕ, None, List};
ghost use Rattle.bf_disk.specs.MemoryShelves.{taken_at};

use crate::checking::check;
use anyhow::bail;
use bf_disk::MemoryShelf;
use bf_io::{CalmSource, MemorySink};
use bf_run::{OpenGate, Status, bullfrog};
use random_scripts::{Replay, Writer};
use std::alloc::Global;
use std::sync::Wait;
use std::thread::Threads;

/// How many bytes a report may have.
const LONGEST_REPORT: usize = 1 << 20;

/// The numbers of workers.
const WORKERS: [&str; 4] = ["0", "1", "2", "3"];

/// What a call tells that is to end well.
fn call(
    rt: &(impl AllocGlobal + Threads + Wait + Sync),
    shelf: &mut MemoryShelf,
    words: &[&str],
    script: &[u8],
) -> anyhow::Result<String>
    requires { (path : List ℕ) → taken_at shelf.old path ≡ None }
    ensures { (path : List ℕ) → taken_at shelf.new path ≡ None }
{
    let alloc: Global = rt.alloc();
    let mut input = CalmSource::new(script.to_vec(alloc)?);
    let mut output = MemorySink::new(alloc, LONGEST_REPORT, Vec::new(alloc))?;
    let status = bullfrog(rt, alloc, words, &mut input, &mut output, shelf, &OpenGate);
    let told = String::from_utf8_lossy(alloc, output.bytes())?;
    if status != Status::Done {
        bail!("status {}:\n{told}", status.number());
    }
    Ok(told)
}

/// Runs a script that is written from a seed, and fails where a report is not what its history tells: the old tables,
/// perhaps with a MIGRATE whose rows have not moved when the log is opened again; phases of sessions at the same time,
/// with workers; and a SELECT of all that is there.
pub fn run(rt: &(impl AllocGlobal + Threads + Wait + Sync), seed: u64) -> anyhow::Result<()> {
    let alloc: Global = rt.alloc();
    let mut writer = Writer::new(alloc, seed);
    let mut replay = Replay::new(alloc);
    let mut shelf = MemoryShelf::new(alloc);
    call(rt, &mut shelf, &["create", "log"], b"")?;
    let alone = ["run", "log", "--workers", "0"];
    writer.put_beginning()?;
    let text = writer.next_text();
    let told = call(rt, &mut shelf, &alone, text.as_slice())?;
    check(alloc, &mut replay, text.as_slice(), told.as_str())?;
    writer.put_phases()?;
    let text = writer.next_text();
    let drawn = writer.draw(WORKERS.len());
    let workers = WORKERS.get(drawn).copied().unwrap_or("0");
    let told = call(
        rt,
        &mut shelf,
        &["run", "log", "--workers", workers],
        text.as_slice(),
    )?;
    check(alloc, &mut replay, text.as_slice(), told.as_str())?;
    writer.put_ending()?;
    let text = writer.next_text();
    let told = call(rt, &mut shelf, &alone, text.as_slice())?;
    check(alloc, &mut replay, text.as_slice(), told.as_str())
}
