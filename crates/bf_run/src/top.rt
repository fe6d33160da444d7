//! The top call.

ghost use Rattle.std.specs.Prelude.{◌≡◌, ℕ, List, ◌++◌, None, Some, IfOk, OnErr, IsTrue, codes, false, map};
ghost use Rattle.bf_sql.specs.Database.{empty_database};
ghost use Rattle.bf_machine.specs.InOrder.{IsRunInOrder};
ghost use Rattle.bf_machine.specs.Runnable.{phases_rise_from};
ghost use Rattle.bf_machine.specs.interleaving.Kept.{IsWithinLimits};
ghost use Rattle.bf_text.specs.Replies.{newline};
ghost use Rattle.bf_run.specs.Creating.{Spares, shelf_of};
ghost use Rattle.bf_run.specs.Outcome.{Ends, IsAnswer, fault_text};
ghost use Rattle.bf_run.specs.Running.{KeepsOthers};
ghost use Rattle.bf_run.specs.Top.{HasRead, IsInputAnswer, IsScriptOf, Tells};
ghost use Rattle.bf_run.specs.Untold.{RunsOut};
ghost use Rattle.bf_run.specs.Words.{IfCreating, IfNoPath, IfRunning, asked_options};
ghost use Rattle.bf_words.specs.Words.{asked, running};

use crate::creating::create;
use crate::demonstrating::demonstrate;
use crate::host::Host;
use crate::keeping::{RunOptions, run};
use crate::status::{Status, fault_line};
use bf_base::{LONGEST_SCRIPT, Memory};
use bf_bench::Gate;
use bf_disk::Shelf;
use bf_image::Registry;
use bf_io::{ReadError, Sink, Source, read_all, write_whole};
use bf_lex::{ScriptError, ScriptFault, ScriptKind};
use bf_live::LiveTables;
use bf_machine::interleaving_laws::sessions_in_sequence_run_in_order;
use bf_machine::{Machine, Opened, Unkept, in_order};
use bf_parse::script;
use bf_store::Store;
use bf_text::report;
use bf_tree::Script;
use bf_words::{Words, WordsError, read_words};
use std::alloc::Global;
use std::marker::Brand;
use std::mem::forget;
use std::sync::{Arc, Wait};
use std::thread::Threads;

/// The status of words that ask for nothing, and what is written.
fn usage(alloc: Global) -> Result<(Status, Vec<u8>), Memory>
    ensures status { IfOk result (λ a. a.0 ≡ Status.Usage) }
    ensures text { IfOk result (λ a. a.1.items ≡ codes "usage error" ++ newline) }
{
    Ok((Status::Usage, Vec::from_slice(alloc, b"usage error\n")?))
}

/// The status of a text that is no script, and what is written of its first fault.
fn answer_fault(alloc: Global, fault: ScriptFault) -> Result<(Status, Vec<u8>), Memory>
    ensures status { IfOk result (λ a. a.0 ≡ Status.Script fault) }
    ensures text { IfOk result (λ a. a.1.items ≡ fault_text fault) }
{
    Ok((Status::Script(fault), fault_line(alloc, fault)?))
}

/// How often a group begins again after a death in a run over a database that is not kept. None dies there, since
/// sessions run one after the other.
const NO_RETRIES: u16 = 0;

/// The report of a run of a script over the empty database, by a machine whose type names both and the registry
/// of its migrations. The sessions are served one after the other.
fn serve<N: Opened, R: Wait>(
    alloc: Global,
    rt: &R,
    registry: &Registry,
    script: Script,
) -> Result<Vec<u8>, Memory>
    requires opening { N.opening ≡ empty_database }
    requires registry { registry.now ≡ N.registry }
    requires script { script ≡ N.script }
    requires unlogged { N.logged ≡ false }
    requires limits { IsWithinLimits script }
    requires phases { IsTrue (phases_rise_from 0 script.sessions) }
    ensures { IfOk result (λ text. Tells (IsRunInOrder script) text.items) }
{
    let store = Store::of(alloc, LiveTables::new(alloc));
    let script = Arc::new(alloc, script)?;
    let mut machine: Machine<N> = Machine::new(alloc, store, script, NO_RETRIES)?;
    in_order(alloc, rt, registry, &mut Unkept, &mut machine, &[])?;
    // Their contracts say that the script is the one that was given, and that it ran in order.
    let _ = machine.script();
    sessions_in_sequence_run_in_order();
    let sweep = machine.sweep();
    let parts = machine.into_parts();
    let text = report(alloc, &parts.transcripts, &parts.history, None, &sweep);
    // The program ends behind its report, and its memory goes with it.
    forget(parts);
    text
}

/// The report of a run of a script over the empty database.
fn run_report<R: Wait>(alloc: Global, rt: &R, script: Script) -> Result<Vec<u8>, Memory>
    requires limits { IsWithinLimits script }
    requires phases { IsTrue (phases_rise_from 0 script.sessions) }
    ensures { IfOk result (λ text. Tells (IsRunInOrder script) text.items) }
{
    let (registry, _empty) = Registry::new(alloc, rt)?;
    let text = serve::<Brand, R>(alloc, rt, &registry, script);
    // What a migration set aside goes with the program too.
    forget(registry);
    text
}

/// A script, or why there is none: a status, and its whole text.
type ScriptRead = Result<Script, (Status, Vec<u8>)>;

/// The script that a text is which was read whole.
fn script_of(alloc: Global, text: &[u8]) -> Result<ScriptRead, Memory>
    ensures { IfOk result (IsScriptOf text.now) }
{
    match script(alloc, text) {
        Ok(script) => Ok(Ok(script)),
        Err(ScriptError::Fault(fault)) => Ok(Err(answer_fault(alloc, fault)?)),
        Err(ScriptError::Memory) => Err(Memory),
    }
}

/// The script that the input is, which is read to its end.
fn read_script<I: Source>(alloc: Global, input: &mut I) -> Result<ScriptRead, Memory>
    ensures { IfOk result (HasRead
        (record {
          bytes = I.left input.old;
          bytes_after = I.left input.new;
          faults = I.faults input.old;
          faults_after = I.faults input.new;
        })) }
{
    match read_all(alloc, input, LONGEST_SCRIPT) {
        Ok(bytes) => script_of(alloc, bytes.as_slice()),
        Err(ReadError::TooLong) => Ok(Err(answer_fault(
            alloc,
            ScriptFault {
                at: LONGEST_SCRIPT,
                kind: ScriptKind::ScriptTooLong,
            },
        )?)),
        Err(ReadError::Fault) => Ok(Err((
            Status::ReadFault,
            Vec::from_slice(alloc, b"read fault\n")?,
        ))),
        Err(ReadError::Memory) => Err(Memory),
    }
}

/// The status of an input that is asked to be run, and its whole text.
fn try_input<I: Source, R: Wait, G: Gate>(
    host: Host<'_, R, G>,
    input: &mut I,
) -> Result<(Status, Vec<u8>), Memory>
    ensures { IfOk result (λ a. IsInputAnswer
        (record {
          bytes = I.left input.old;
          bytes_after = I.left input.new;
          faults = I.faults input.old;
          faults_after = I.faults input.new;
        }) a.0 a.1.items) }
{
    match read_script(host.alloc, input)? {
        Ok(script) => Ok((Status::Done, run_report(host.alloc, host.rt, script)?)),
        Err(told) => Ok(told),
    }
}

/// The status of an input that is asked to be run over a log, and its whole text.
fn run_input<I: Source, S: Shelf, R: Threads + Wait + Sync, G: Gate + Sync>(
    host: Host<'_, R, G>,
    path: &str,
    options: RunOptions,
    input: &mut I,
    shelf: &mut S,
) -> Result<(Status, Vec<u8>), Memory>
where
    S::Disk: Send,
    requires { (path : List ℕ) → S.taken shelf.old path ≡ None }
    ensures answer { IfOk result (λ a. IsAnswer (Some (running path.now (asked_options options)))
        (record {
          bytes = I.left input.old;
          bytes_after = I.left input.new;
          faults = I.faults input.old;
          faults_after = I.faults input.new;
        })
        (shelf_of S.Disk.seen S.Disk.may_leave S.Disk.moment S.Disk.left_since S.Disk.fault_count S.held S.fault_count
        shelf.old shelf.new) a.0 a.1.items) }
    ensures out_of_memory { OnErr result (RunsOut (I.left input.old)
        (shelf_of S.Disk.seen S.Disk.may_leave S.Disk.moment S.Disk.left_since S.Disk.fault_count S.held S.fault_count
        shelf.old shelf.new) path.now) }
    ensures others { KeepsOthers
        (shelf_of S.Disk.seen S.Disk.may_leave S.Disk.moment S.Disk.left_since S.Disk.fault_count S.held S.fault_count
        shelf.old shelf.new) path.now }
    ensures none_taken { (path : List ℕ) → S.taken shelf.new path ≡ None }
{
    match read_script(host.alloc, input)? {
        Ok(script) => run(host, path, shelf, script, options),
        Err(told) => Ok(told),
    }
}

/// The status and its whole text, before a byte is written.
fn answer<I: Source, S: Shelf, R: Threads + Wait + Sync, G: Gate + Sync>(
    host: Host<'_, R, G>,
    words: &[&str],
    input: &mut I,
    shelf: &mut S,
) -> Result<(Status, Vec<u8>), Memory>
where
    S::Disk: Send,
    requires { (path : List ℕ) → S.taken shelf.old path ≡ None }
    ensures answer { IfOk result (λ a. IsAnswer (asked (map (λ word. word.now) words.now))
        (record {
          bytes = I.left input.old;
          bytes_after = I.left input.new;
          faults = I.faults input.old;
          faults_after = I.faults input.new;
        })
        (shelf_of S.Disk.seen S.Disk.may_leave S.Disk.moment S.Disk.left_since S.Disk.fault_count S.held S.fault_count
        shelf.old shelf.new) a.0 a.1.items) }
    ensures spares { IfCreating (asked (map (λ word. word.now) words.now)) (λ path. Spares
        (shelf_of S.Disk.seen S.Disk.may_leave S.Disk.moment S.Disk.left_since S.Disk.fault_count S.held S.fault_count
        shelf.old shelf.new) path) }
    ensures out_of_memory { OnErr result
        (IfRunning (asked (map (λ word. word.now) words.now)) (λ path. RunsOut (I.left input.old)
        (shelf_of S.Disk.seen S.Disk.may_leave S.Disk.moment S.Disk.left_since S.Disk.fault_count S.held S.fault_count
        shelf.old shelf.new) path)) }
    ensures others { IfRunning (asked (map (λ word. word.now) words.now)) (λ path. KeepsOthers
        (shelf_of S.Disk.seen S.Disk.may_leave S.Disk.moment S.Disk.left_since S.Disk.fault_count S.held S.fault_count
        shelf.old shelf.new) path) }
    ensures untouched { IfNoPath (asked (map (λ word. word.now) words.now))
        (shelf.new ≡ shelf.old) }
    ensures none_taken { (path : List ℕ) → S.taken shelf.new path ≡ None }
{
    match read_words(words) {
        Ok(Words::Try) => try_input(host, input),
        Ok(
            Words::Run {
                path,
                workers,
                retries,
                finish,
                audit,
            },
        ) => {
            let options = RunOptions {
                workers,
                retries,
                finish,
                audit,
            };
            run_input(host, path, options, input, shelf)
        }
        Ok(Words::Create(path)) => create(host.alloc, path, shelf),
        Ok(Words::Demo { count, path }) => demonstrate(host, count, path, shelf),
        Err(WordsError::Usage) => usage(host.alloc),
    }
}

/// Serves the words behind the program's name: `try` runs the script that the input is over a database that is
/// empty and is not kept, and writes its report; `create` makes an empty log in the file under a path of the shelf,
/// if it is new or empty, and reads nothing of the input; `run` runs the script over the database that the log under
/// a path keeps, which it reads first, and adds to the log what the script changes; `demo` makes a log as `create` does,
/// runs the demonstration of a size over it, and writes the replies to its last session and the last line of the report.
/// Each session and worker of `run` and `demo` asks the gate before it moves rows, and tells it of each reply.
///
/// The whole text is made before its first byte is written, so want of memory is answered with
/// nothing written. The time of a run is linear in the input and in the report; beside that each statement
/// compares about log n names, costs what it reads and writes of its table, and on a table that a migration made
/// what it costs to find and move the rows that it needs. `run` reads the log once before that, and adds a record for
/// each change, which is synced twice before its reply. Script and tables are not freed:
/// the call is a program's last, and their memory goes with the program.
pub fn bullfrog<I: Source, O: Sink, S: Shelf, R: Threads + Wait + Sync, G: Gate + Sync>(
    rt: &R,
    alloc: Global,
    words: &[&str],
    input: &mut I,
    output: &mut O,
    shelf: &mut S,
    gate: &G,
) -> Status
where
    S::Disk: Send,
    requires { (path : List ℕ) → S.taken shelf.old path ≡ None }
    ensures ends { Ends (map (λ word. word.now) words.now)
        (record {
          bytes = I.left input.old;
          bytes_after = I.left input.new;
          faults = I.faults input.old;
          faults_after = I.faults input.new;
        })
        (record {
          bytes = O.taken output.old;
          bytes_after = O.taken output.new;
          faults = O.faults output.old;
          faults_after = O.faults output.new;
        })
        (shelf_of S.Disk.seen S.Disk.may_leave S.Disk.moment S.Disk.left_since S.Disk.fault_count S.held S.fault_count
        shelf.old shelf.new) result }
    ensures untouched { IfNoPath (asked (map (λ word. word.now) words.now))
        (shelf.new ≡ shelf.old) }
    ensures none_taken { (path : List ℕ) → S.taken shelf.new path ≡ None }
{
    let host = Host { alloc, rt, gate };
    let Ok((status, text)) = answer(host, words, input, shelf) else {
        return Status::Memory;
    };
    match write_whole(output, text.as_slice()) {
        Ok(()) => status,
        Err(_) => Status::WriteFault,
    }
}
