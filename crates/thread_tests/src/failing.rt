//! A device that fails while sessions and workers run.

ghost use Rattle.std.specs.Prelude.{◌≡◌, ℕ, None, List, IfOk};
ghost use Rattle.bf_disk.specs.MemoryShelves.{taken_at};

use crate::calls::{LOG, Told, call, prepare};
use crate::gates::Trigger;
use crate::scripts::split_people;
use crate::switched::SwitchedShelf;
use crate::told::{count_ending, has_line};
use bf_disk::{MemoryShelf, TapeDisk};
use bf_run::{OpenGate, Status};
use std::alloc::Global;
use std::sync::Wait;
use std::sync::atomic::AtomicBool;
use std::test::Fail;
use std::thread::Threads;

/// What the pending bytes of a crash may be.
const TORN: [&[u8]; 2] = [b"", b"\x01\xa5\xa5"];

/// How many sessions insert rows, and how many statements each of them has.
const SESSIONS: u32 = 3;

const STATEMENTS: u32 = 8;

/// The statement of a session that needs rows to be moved.
const UPDATE: u32 = 4;

/// The most calls of a device at which a run is let fail, and how far these stand apart.
const MOST_CALLS: u64 = 160;

const APART: usize = 5;

/// The shelf of one file.
fn shelf_with(alloc: Global, disk: TapeDisk) -> Result<MemoryShelf, Fail>
    ensures { IfOk result (λ shelf. (path : List ℕ) → taken_at shelf path ≡ None) }
{
    let mut shelf = MemoryShelf::new(alloc);
    match shelf.set(LOG, disk) {
        Ok(()) => Ok(shelf),
        Err((_, memory)) => Err(memory.into()),
    }
}

/// The bytes of a log over which a script was run.
fn log_of(rt: &(impl AllocGlobal + Threads + Wait + Sync), script: &str) -> Result<Vec<u8>, Fail> {
    let mut shelf = MemoryShelf::new(rt.alloc());
    prepare(rt, &mut shelf, script)?;
    let disk = shelf.disk(LOG).ok_or("no log")?;
    Ok(disk.bytes().to_vec(rt.alloc())?)
}

/// What a script tells of a log that a crash leaves.
fn reopened(
    rt: &(impl AllocGlobal + Threads + Wait + Sync),
    tape: &TapeDisk,
    torn: &[u8],
    script: &str,
) -> Result<String, Fail> {
    let left = tape.crash(rt.alloc(), torn)?;
    let mut shelf = shelf_with(rt.alloc(), left)?;
    let told = call(
        rt,
        &mut shelf,
        &OpenGate,
        &["run", LOG, "--workers", "0"],
        script,
    )?;
    if told.status != Status::Done {
        return Err("a log that does not reopen".into());
    }
    Ok(told.report)
}

// The device fails from the reply to the first COMMIT on: the log has that commit, and not the one behind it.
#[test]
fn what_was_told_before_the_device_failed_is_kept(rt: HostRuntime) -> Result<(), Fail> {
    let people = split_people(rt.alloc(), 200)?;
    let log = log_of(&rt, people.as_str())?;
    let script = "PHASE; SESSION; BEGIN; UPDATE pub SET name = 'Z' WHERE id = 200; COMMIT;
        BEGIN; UPDATE pub SET name = 'Y' WHERE id = 199; COMMIT;";
    for workers in ["0", "2"] {
        let switch = AtomicBool::new(false);
        let mut shelf = SwitchedShelf::new(
            rt.alloc(),
            log.as_slice().to_vec(rt.alloc())?,
            &switch,
        )?;
        let gate = Trigger {
            statement: 3,
            switch: &switch,
        };
        let told = call(
            &rt,
            &mut shelf,
            &gate,
            &["run", LOG, "--workers", workers],
            script,
        )?;
        assert_eq!(rt; told.status, Status::DiskFault, "{workers} workers");
        assert!(rt;
            has_line(told.report.as_str(), "1.3 committed 1"),
            "{workers} workers"
        );
        let tape = shelf.tape().ok_or("the disk was not put back")?;
        for torn in TORN {
            let again = reopened(
                &rt,
                tape,
                torn,
                "PHASE; SESSION; SELECT * FROM pub WHERE id > 198;",
            )?;
            for line in ["1.1 rows 2", "1.1 | 199, 'row 199'", "1.1 | 200, 'Z'"] {
                assert!(rt; has_line(again.as_str(), line), "{line}");
            }
        }
    }
    Ok(())
}

/// The key that a session's statement inserts.
fn key_of(session: u32, statement: u32) -> u32 {
    session.saturating_mul(100).saturating_add(statement)
}

/// Sessions of one phase, each of which inserts rows of its own and changes one that has not moved.
fn inserting(alloc: Global) -> Result<String, Fail> {
    let mut script = String::new(alloc);
    script.push_str("PHASE;")?;
    for session in 1..=SESSIONS {
        script.push_str("\nSESSION;")?;
        for statement in 1..=STATEMENTS {
            if statement == UPDATE {
                write!(
                    script,
                    " UPDATE priv SET pin = 0 WHERE id = {};",
                    session.saturating_mul(60)
                )?;
            } else {
                write!(
                    script,
                    " INSERT INTO t VALUES ({});",
                    key_of(session, statement)
                )?;
            }
        }
    }
    Ok(script)
}

/// Whether a row is there behind a crash, or not, as the reply to its INSERT says. One that was told `disk fault` may
/// be there.
fn is_kept_as_told(
    alloc: Global,
    report: &str,
    again: &str,
    session: u32,
    statement: u32,
) -> Result<bool, Fail> {
    let row = format!(in alloc; "1.1 | {}", key_of(session, statement))?;
    let inserted = format!(in alloc; "{session}.{statement} inserted 1")?;
    let halted = format!(in alloc; "{session}.{statement} halted 1")?;
    let fault = format!(in alloc; "{session}.{statement} disk fault")?;
    let is_there = has_line(again, row.as_str());
    if has_line(report, inserted.as_str()) {
        return Ok(is_there);
    }
    if has_line(report, halted.as_str()) {
        return Ok(!is_there);
    }
    Ok(has_line(report, fault.as_str()))
}

/// Whether what a crash leaves is what a report says, where the run began.
fn is_prefix(
    rt: &(impl AllocGlobal + Threads + Wait + Sync),
    tape: &TapeDisk,
    torn: &[u8],
    report: &str,
) -> Result<bool, Fail> {
    let script =
        "PHASE; SESSION; SELECT * FROM t; SELECT COUNT(*) FROM pub; SELECT COUNT(*) FROM priv;";
    let again = reopened(rt, tape, torn, script)?;
    let again = again.as_str();
    if !has_line(again, "1.2 | 200") || !has_line(again, "1.3 | 200") {
        return Ok(false);
    }
    if report == "disk fault\n" {
        return Ok(has_line(again, "1.1 rows 0"));
    }
    for session in 1..=SESSIONS {
        for statement in 1..=STATEMENTS {
            if statement != UPDATE
                && !is_kept_as_told(rt.alloc(), report, again, session, statement)?
            {
                return Ok(false);
            }
        }
    }
    Ok(true)
}

/// Runs the sessions beside two workers over a device of which one call fails, and answers what is told, and the
/// device.
fn run_failing(
    rt: &(impl AllocGlobal + Threads + Wait + Sync),
    log: &[u8],
    number: u64,
    script: &str,
) -> Result<(Told, MemoryShelf), Fail> {
    let alloc = rt.alloc();
    let tape = TapeDisk::new(alloc, log.to_vec(alloc)?, vec![in alloc; number]?, None);
    let mut shelf = shelf_with(alloc, tape)?;
    let told = call(
        rt,
        &mut shelf,
        &OpenGate,
        &["run", LOG, "--workers", "2"],
        script,
    )?;
    Ok((told, shelf))
}

// At whatever call the device fails: the causes are those of one thread, the disk is put back, and the log reopens with
// what was told.
#[test]
fn a_device_that_fails_leaves_what_was_told(rt: HostRuntime) -> Result<(), Fail> {
    let mut people = split_people(rt.alloc(), 200)?;
    people.push_str("CREATE TABLE t (id INT, PRIMARY KEY (id));\n")?;
    let log = log_of(&rt, people.as_str())?;
    let script = inserting(rt.alloc())?;
    let mut failed = 0u32;
    for number in (1..MOST_CALLS).step_by(APART) {
        let (told, shelf) = run_failing(&rt, log.as_slice(), number, script.as_str())?;
        let report = told.report.as_str();
        let is_failed = shelf.faults() > 0;
        assert_eq!(rt;
            told.status == Status::DiskFault,
            is_failed,
            "call {number}"
        );
        failed = failed.saturating_add(u32::from(is_failed));
        assert!(rt; count_ending(report, " disk fault") <= 1, "call {number}");
        let tape = shelf.disk(LOG).ok_or("the disk was not put back")?;
        for torn in TORN {
            assert!(rt;
                is_prefix(&rt, tape, torn, report)?,
                "call {number}: {report}"
            );
        }
    }
    assert!(rt; failed > 10, "{failed} runs whose device failed");
    Ok(())
}
