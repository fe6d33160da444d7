//! The demonstration: a log is made in a file of a shelf, and a script that shows what the program is for is run over it.

ghost use Rattle.std.specs.Prelude.{◌≡◌, ℕ, List, None, Some, IfOk, ⊤};
ghost use Rattle.bf_demo.specs.Script.{demonstration};
ghost use Rattle.bf_demo.specs.Shown.{shown_of};
ghost use Rattle.bf_machine.specs.interleaving.Kept.{IsWithinLimits};
ghost use Rattle.bf_run.specs.Creating.{Spares, shelf_of};
ghost use Rattle.bf_run.specs.Demonstrating.{demo_options};
ghost use Rattle.bf_run.specs.Outcome.{ComesOfDemonstration, HoldsAsked, IsTextOf};
ghost use Rattle.bf_run.specs.Running.{KeepsOthers};
ghost use Rattle.bf_run.specs.Sayable.{IsSayableScript};
ghost use Rattle.bf_run.specs.Top.{IsShownRun};
ghost use Rattle.bf_run.specs.Words.{asked_options};
ghost use Rattle.bf_words.specs.Words.{demonstrating};

use crate::creating::create;
use crate::host::Host;
use crate::keeping::{RunOptions, run};
use crate::status::{Status, disk_fault};
use bf_base::Memory;
use bf_bench::Gate;
use bf_demo::{demonstration, last_lines, shown};
use bf_disk::Shelf;
use bf_tree::Script;
use std::alloc::Global;
use std::sync::Wait;
use std::thread::Threads;

/// The usual options, and that all is moved at the end.
fn options() -> RunOptions
    ensures { asked_options result ≡ demo_options }
{
    RunOptions {
        workers: 2,
        retries: 15,
        finish: true,
        audit: false,
    }
}

/// What is shown of a report, which is to be these lines.
///
/// # Errors
/// Where memory runs out, and where something else would be shown.
fn show(alloc: Global, report: &[u8], lines: Vec<u8>) -> Result<(Status, Vec<u8>), Memory>
    ensures status { IfOk result (λ a. a.0 ≡ Status.Done) }
    ensures lines { IfOk result (λ a. a.1.items ≡ lines.items) }
    ensures shown { IfOk result (λ a. a.1.items ≡ shown_of report.now) }
{
    let told = shown(alloc, report)?;
    if told.as_slice() == lines.as_slice() {
        Ok((Status::Done, lines))
    } else {
        Err(Memory)
    }
}

/// The status of a script that is run over the log under a path, and these lines, where they are what is shown of its
/// report.
///
/// # Errors
/// Where memory runs out; where something else would be shown, as where the log had no room for a change of the script;
/// and where the file is no log any more, which no disk that tells its bytes comes to.
fn show_run<S: Shelf, R: Threads + Wait + Sync, G: Gate + Sync>(
    host: Host<'_, R, G>,
    path: &str,
    shelf: &mut S,
    script: Script,
    lines: Vec<u8>,
) -> Result<(Status, Vec<u8>), Memory>
where
    S::Disk: Send,
    requires none_taken { (path : List ℕ) → S.taken shelf.old path ≡ None }
    requires limits { IsWithinLimits script }
    requires sayable { IsSayableScript script }
    ensures shown { IfOk result (λ a. IsShownRun path.now
        (shelf_of S.Disk.seen S.Disk.may_leave S.Disk.moment S.Disk.left_since S.Disk.fault_count S.held S.fault_count
        shelf.old shelf.new) script lines.items a.0 a.1.items) }
    ensures others { KeepsOthers
        (shelf_of S.Disk.seen S.Disk.may_leave S.Disk.moment S.Disk.left_since S.Disk.fault_count S.held S.fault_count
        shelf.old shelf.new) path.now }
    ensures none_taken { (path : List ℕ) → S.taken shelf.new path ≡ None }
{
    let alloc = host.alloc;
    let (status, report) = run(host, path, shelf, script, options())?;
    match status {
        Status::Done => show(alloc, report.as_slice(), lines),
        Status::DiskFault => disk_fault(alloc),
        _ => Err(Memory),
    }
}

/// The status of a path that is asked to be made a log, over which the demonstration of a size is run, and its whole text.
/// It takes time and memory in proportion to the size.
pub(crate) fn demonstrate<S: Shelf, R: Threads + Wait + Sync, G: Gate + Sync>(
    host: Host<'_, R, G>,
    count: u16,
    path: &str,
    shelf: &mut S,
) -> Result<(Status, Vec<u8>), Memory>
where
    S::Disk: Send,
    requires { (path : List ℕ) → S.taken shelf.old path ≡ None }
    ensures causes { IfOk result (λ a. ComesOfDemonstration path.now
        (shelf_of S.Disk.seen S.Disk.may_leave S.Disk.moment S.Disk.left_since S.Disk.fault_count S.held S.fault_count
        shelf.old shelf.new) a.0) }
    ensures text { IfOk result (λ a. (bytes : List ℕ) → IsTextOf (Some (demonstrating count path.now))
        (HoldsAsked (Some (demonstrating count path.now))
        (shelf_of S.Disk.seen S.Disk.may_leave S.Disk.moment S.Disk.left_since S.Disk.fault_count S.held S.fault_count
        shelf.old shelf.new)) ⊤ bytes a.0 a.1.items) }
    ensures spares { Spares
        (shelf_of S.Disk.seen S.Disk.may_leave S.Disk.moment S.Disk.left_since S.Disk.fault_count S.held S.fault_count
        shelf.old shelf.new) path.now }
    ensures none_taken { (path : List ℕ) → S.taken shelf.new path ≡ None }
{
    let script = demonstration(host.alloc, count)?;
    let lines = last_lines(host.alloc, count)?;
    let (status, text) = create(host.alloc, path, shelf)?;
    match status {
        Status::Done => show_run(host, path, shelf, script, lines),
        _ => Ok((status, text)),
    }
}
