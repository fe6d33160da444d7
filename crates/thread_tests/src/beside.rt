//! Sessions and workers at the same time: none of these tests passes where actors are served one after the other.

use crate::calls::{LOG, call, prepare};
use crate::gates::{Crossing, Meeting};
use crate::scripts::split_people;
use crate::told::{has_line, last_line, moved};
use bf_disk::MemoryShelf;
use bf_run::Status;
use std::sync::atomic::Ordering;
use std::test::Fail;

#[test]
fn two_sessions_of_a_phase_run_at_the_same_time(rt: HostRuntime) -> Result<(), Fail> {
    let mut shelf = MemoryShelf::new(rt.alloc());
    let table =
        "PHASE; SESSION; CREATE TABLE t (id INT, PRIMARY KEY (id)); INSERT INTO t VALUES (1), (2);";
    prepare(&rt, &mut shelf, table)?;
    let gate = Meeting::new();
    let script =
        "PHASE; SESSION; BEGIN; SELECT * FROM t; COMMIT; SESSION; BEGIN; SELECT * FROM t; COMMIT;";
    let told = call(
        &rt,
        &mut shelf,
        &gate,
        &["run", LOG, "--workers", "0"],
        script,
    )?;
    assert!(rt; !gate.patience.is_over(), "each waited for the other");
    assert_eq!(rt; told.status, Status::Done);
    let report = told.report.as_str();
    for line in [
        "1.1 begun",
        "1.2 rows 2",
        "1.2 | 2",
        "2.1 begun",
        "2.2 rows 2",
        "2.2 | 2",
    ] {
        assert!(rt; has_line(report, line), "{line}");
    }
    assert_eq!(rt; last_line(report), "end commits 2 migration none");
    Ok(())
}

// The worker holds the first 64 rows while the session moves its own and commits: claims are made outside the lock.
#[test]
fn a_worker_holds_claims_while_a_session_moves_its_own(rt: HostRuntime) -> Result<(), Fail> {
    let mut shelf = MemoryShelf::new(rt.alloc());
    let people = split_people(rt.alloc(), 100)?;
    prepare(&rt, &mut shelf, people.as_str())?;
    let gate = Crossing::new(3);
    let script = "PHASE; SESSION; BEGIN; UPDATE pub SET name = 'Z' WHERE id = 100; COMMIT;";
    let told = call(
        &rt,
        &mut shelf,
        &gate,
        &["run", LOG, "--workers", "1"],
        script,
    )?;
    assert!(rt;
        !gate.patience.is_over(),
        "the worker and the session waited for each other"
    );
    assert_eq!(rt; told.status, Status::Done);
    assert_eq!(rt; gate.of_worker.load(Ordering::SeqCst), 64);
    assert_eq!(rt; gate.of_session.load(Ordering::SeqCst), 1);
    let report = told.report.as_str();
    for line in ["1.1 begun", "1.2 updated 1", "1.3 committed 1"] {
        assert!(rt; has_line(report, line), "{line}");
    }
    assert!(rt; last_line(report).starts_with("end commits 1 migration 1 "));
    assert!(rt; moved(report).is_some_and(|moved| moved >= 2), "{report}");
    Ok(())
}
