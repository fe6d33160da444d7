//! Running a script over the database that a log keeps.

ghost use Rattle.std.specs.Prelude.{◌≡◌, ◌<◌, ◌≤◌, ℕ, List, None, Some, IfOk, OnErr, true};
ghost use Rattle.bf_journal.specs.Leaving.{LeavesAlone};
ghost use Rattle.bf_journal.specs.States.{IsReady, StandsOn};
ghost use Rattle.bf_run.specs.Sayable.{IsSayableScript};
ghost use Rattle.bf_log.specs.Append.{disk_of, standing_of};
ghost use Rattle.bf_machine.specs.interleaving.Kept.{IsWithinLimits};
ghost use Rattle.bf_recover.specs.Legal.{first_state};
ghost use Rattle.bf_recover.specs.Steps.{StepsTo};
ghost use Rattle.bf_sql.specs.migrations.Lazy.{sweep_of, view_of};
ghost use Rattle.bf_store.specs.Stores.{IsOf};
ghost use Rattle.bf_run.specs.Creating.{shelf_of};
ghost use Rattle.bf_run.specs.Outcome.{ComesOfLog, HoldsAsked};
ghost use Rattle.bf_run.specs.Answers.{is_ready};
ghost use Rattle.bf_run.specs.Options.{audit_if};
ghost use Rattle.bf_run.specs.Running.{KeepsOthers};
ghost use Rattle.bf_text.specs.Report.{report_text};
ghost use Rattle.bf_run.specs.Top.{IsOpenErrorTold, IsRunOverDisk, IsServed, IsTextOfRun, ServedOn};
ghost use Rattle.bf_run.specs.Untold.{IsBrokenOffOn, IsUntold, LeavesUntold, ReadsLog};
ghost use Rattle.bf_run.specs.Words.{asked_options};
ghost use Rattle.bf_words.specs.Words.{running};

use crate::auditing::report_of;
use crate::death_laws::sessions_that_have_ended_ran_with_deaths;
use crate::host::Host;
use crate::journal_laws::{
    a_size_that_is_told_is_that_of_a_record, every_crash_leaves_a_prefix, what_ends_groups_is_told,
};
use crate::log_journal::LogJournal;
use crate::status::{Status, disk_fault, not_a_log_line};
use bf_base::Memory;
use bf_bench::Gate;
use bf_disk::{Disk, DiskError, Shelf};
use bf_image::Registry;
use bf_log::{Log, OpenError};
use bf_machine::Parts;
use bf_machine::interleaving_laws::events_keep_all;
use bf_recover::reopen;
use bf_serve::{Crew, serve_script};
use bf_store::Store;
use bf_tree::Script;
use std::alloc::Global;
use std::marker::PhantomData;
use std::mem::forget;
use std::sync::Wait;
use std::thread::Threads;

/// How a script is run over a log.
#[derive(Clone, Copy, Debug)]
pub(crate) struct RunOptions {
    /// How many workers move rows beside the sessions, 0 to 8.
    pub workers: u8,
    /// How often a group begins again after deaths, 0 to 1000.
    pub retries: u16,
    /// Whether all that is left of the last migration is moved at the end.
    pub finish: bool,
    /// Whether the rows of each table are counted at the end.
    pub audit: bool,
}

/// The status of a run of a script over a store, whose changes a journal keeps, and its whole report. The journal comes
/// back, whatever came of it.
fn tell_run<D: Disk + Send, R: Threads + Wait + Sync, G: Gate + Sync>(
    host: Host<'_, R, G>,
    registry: &Registry,
    store: Store,
    journal: LogJournal<D>,
    script: Script,
    options: RunOptions,
) -> (LogJournal<D>, Result<(Status, Vec<u8>), Memory>)
    requires migration { IsOf registry.now store.migration }
    requires limits { IsWithinLimits script }
    requires sayable { IsSayableScript script }
    requires stands { StandsOn first_state StepsTo store.lazy journal.log }
    requires ready { IsReady journal.log }
    requires alone { LeavesAlone first_state StepsTo store.lazy journal.log }
    ensures served { IfOk result.1 (λ a. IsServed (asked_options options)
        (ServedOn options.finish (view_of store.lazy) journal.log (disk_of result.0.log)) script
        (D.fault_count (disk_of journal.log)) (D.fault_count (disk_of result.0.log))
        a.0 a.1.items) }
    ensures broken_off { OnErr result.1
        (IsBrokenOffOn (view_of store.lazy) journal.log (disk_of result.0.log) script) }
{
    let faults = journal.faults();
    // Their contracts say that a new machine over the store keeps what machines do; and then laws of what comes of it
    // beside a log.
    let _ = store.live();
    let _ = store.migration();
    events_keep_all();
    sessions_that_have_ended_ran_with_deaths(PhantomData::<LogJournal<D>>);
    every_crash_leaves_a_prefix(PhantomData::<D>);
    what_ends_groups_is_told(PhantomData::<D>);
    a_size_that_is_told_is_that_of_a_record(PhantomData::<D>);
    let alloc = host.alloc;
    let crew = Crew {
        alloc,
        rt: host.rt,
        gate: host.gate,
        workers: options.workers,
        retries: options.retries,
        finish: options.finish,
    };
    let (journal, served) = serve_script(crew, registry, store, script, journal);
    let parts = match served {
        Ok(parts) => parts,
        Err(memory) => return (journal, Err(memory)),
    };
    if journal.is_given_up() {
        return (journal, Err(Memory));
    }
    let told = tell_parts(alloc, registry, parts, options.audit, &journal, faults);
    (journal, told)
}

/// What is told of a script that was served beside a journal, by the count of its device's faults from before, and with
/// how many rows each table has where that was asked for.
fn tell_parts<D: Disk>(
    alloc: Global,
    registry: &Registry,
    mut parts: Parts,
    audit: bool,
    journal: &LogJournal<D>,
    faults: u64,
) -> Result<(Status, Vec<u8>), Memory>
    requires migration { IsOf registry.now parts.store.migration }
    ensures text { IfOk result (λ a. a.1.items
        ≡ report_text parts.transcripts.sessions parts.history.entries
        (audit_if audit (view_of parts.store.lazy)) (sweep_of parts.store.lazy.last)) }
    ensures fault { IfOk result (λ a. faults < D.fault_count (disk_of journal.now.log)
        → a.0 ≡ Status.DiskFault) }
    ensures done { IfOk result (λ a. D.fault_count (disk_of journal.now.log) ≤ faults
        → (a.0 ≡ Status.Done) × (is_ready (standing_of journal.now.log) ≡ true)) }
{
    let text = report_of(alloc, registry, &mut parts, audit)?;
    // The program ends behind its report, and its memory goes with it.
    forget(parts);
    if journal.faults() > faults {
        Ok((Status::DiskFault, text))
    } else if journal.is_ready() {
        Ok((Status::Done, text))
    } else {
        Err(Memory)
    }
}

/// Serves a script over a store that was reopened, and gives back the disk of its log, whatever came of it.
fn serve_over<D: Disk + Send, R: Threads + Wait + Sync, G: Gate + Sync>(
    host: Host<'_, R, G>,
    registry: &Registry,
    store: Store,
    log: Log<D>,
    script: Script,
    options: RunOptions,
) -> (D, Result<(Status, Vec<u8>), Memory>)
    requires migration { IsOf registry.now store.migration }
    requires limits { IsWithinLimits script }
    requires sayable { IsSayableScript script }
    requires stands { StandsOn first_state StepsTo store.lazy log }
    requires ready { IsReady log }
    requires alone { LeavesAlone first_state StepsTo store.lazy log }
    ensures served { IfOk result.1 (λ a. IsServed (asked_options options)
        (ServedOn options.finish (view_of store.lazy) log result.0) script
        (D.fault_count (disk_of log)) (D.fault_count result.0) a.0 a.1.items) }
    ensures broken_off { OnErr result.1
        (IsBrokenOffOn (view_of store.lazy) log result.0 script) }
{
    let journal = LogJournal::of(host.alloc, log);
    let (journal, told) = tell_run(host, registry, store, journal, script, options);
    (journal.into_disk(), told)
}

/// The status of a log that could not be read, and its whole text.
fn tell_open_error(alloc: Global, error: OpenError) -> Result<(Status, Vec<u8>), Memory>
    ensures { IfOk result (λ a. IsOpenErrorTold error a.0 a.1.items) }
{
    match error {
        OpenError::NotALog(at) => Ok((Status::NotALog(at), not_a_log_line(alloc, at)?)),
        OpenError::DiskFault => disk_fault(alloc),
        OpenError::Memory => Err(Memory),
    }
}

/// Reopens the log of a disk with a registry for its migrations, and runs a script over the database that it keeps.
fn run_with<D: Disk + Send, R: Threads + Wait + Sync, G: Gate + Sync>(
    host: Host<'_, R, G>,
    registry: &Registry,
    disk: D,
    script: Script,
    options: RunOptions,
) -> (D, Result<(Status, Vec<u8>), Memory>)
    requires limits { IsWithinLimits script }
    requires sayable { IsSayableScript script }
    ensures told { IfOk result.1 (λ a. IsRunOverDisk D.seen D.may_leave D.moment D.left_since D.fault_count
        (asked_options options) script disk result.0 a.0 a.1.items) }
    ensures untold { OnErr result.1
        (IsUntold D.seen D.may_leave D.moment D.left_since script disk result.0) }
{
    let alloc = host.alloc;
    match reopen(alloc, host.rt, registry, disk) {
        Ok((store, log)) => serve_over(host, registry, store, log, script, options),
        Err((disk, error)) => (disk, tell_open_error(alloc, error)),
    }
}

/// Runs a script over the database that the log of a disk keeps.
fn run_over<D: Disk + Send, R: Threads + Wait + Sync, G: Gate + Sync>(
    host: Host<'_, R, G>,
    disk: D,
    script: Script,
    options: RunOptions,
) -> (D, Result<(Status, Vec<u8>), Memory>)
    requires limits { IsWithinLimits script }
    requires sayable { IsSayableScript script }
    ensures told { IfOk result.1 (λ a. IsRunOverDisk D.seen D.may_leave D.moment D.left_since D.fault_count
        (asked_options options) script disk result.0 a.0 a.1.items) }
    ensures untold { OnErr result.1
        (IsUntold D.seen D.may_leave D.moment D.left_since script disk result.0) }
{
    let Ok((registry, _empty)) = Registry::new(host.alloc, host.rt) else {
        return (disk, Err(Memory));
    };
    let ran = run_with(host, &registry, disk, script, options);
    // What a migration set aside goes with the program too.
    forget(registry);
    ran
}

/// The status of a script that is asked to be run over the log under a path, and its whole text. The file is put back whatever came of it.
pub(crate) fn run<S: Shelf, R: Threads + Wait + Sync, G: Gate + Sync>(
    host: Host<'_, R, G>,
    path: &str,
    shelf: &mut S,
    script: Script,
    options: RunOptions,
) -> Result<(Status, Vec<u8>), Memory>
where
    S::Disk: Send,
    requires none_taken { (path : List ℕ) → S.taken shelf.old path ≡ None }
    requires limits { IsWithinLimits script }
    requires sayable { IsSayableScript script }
    ensures causes { IfOk result (λ a. ComesOfLog path.now
        (shelf_of S.Disk.seen S.Disk.may_leave S.Disk.moment S.Disk.left_since S.Disk.fault_count S.held S.fault_count
        shelf.old shelf.new) a.0) }
    ensures text { IfOk result (λ a. IsTextOfRun (asked_options options)
        (HoldsAsked (Some (running path.now (asked_options options)))
        (shelf_of S.Disk.seen S.Disk.may_leave S.Disk.moment S.Disk.left_since S.Disk.fault_count S.held S.fault_count
        shelf.old shelf.new))
        (ReadsLog (shelf_of S.Disk.seen S.Disk.may_leave S.Disk.moment S.Disk.left_since S.Disk.fault_count S.held
        S.fault_count shelf.old shelf.new) path.now) script a.0 a.1.items) }
    ensures untold { OnErr result (LeavesUntold
        (shelf_of S.Disk.seen S.Disk.may_leave S.Disk.moment S.Disk.left_since S.Disk.fault_count S.held S.fault_count
        shelf.old shelf.new) path.now script) }
    ensures others { KeepsOthers
        (shelf_of S.Disk.seen S.Disk.may_leave S.Disk.moment S.Disk.left_since S.Disk.fault_count S.held S.fault_count
        shelf.old shelf.new) path.now }
    ensures none_taken { (path : List ℕ) → S.taken shelf.new path ≡ None }
{
    let disk = match shelf.take(path) {
        Ok(disk) => disk,
        Err(DiskError::Fault) => return disk_fault(host.alloc),
        Err(DiskError::Memory) => return Err(Memory),
    };
    let (disk, told) = run_over(host, disk, script, options);
    shelf.put_back(path, disk);
    told
}
