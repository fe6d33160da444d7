//! Rows that sessions need: claimed once, given back where the gate says so, and moved.

use crate::calls::{LOG, call, prepare};
use crate::gates::{Slow, Turnstile};
use crate::scripts::split_people;
use crate::told::{has_line, last_line};
use bf_disk::MemoryShelf;
use bf_run::{OpenGate, Status};
use std::sync::atomic::Ordering;
use std::test::Fail;

/// Three people, split into two tables; then one statement that needs one of them.
const SPLIT: &str = "PHASE; SESSION;
CREATE TABLE cust (id INT, name VARCHAR(20), pin INT, PRIMARY KEY (id));
INSERT INTO cust VALUES (1, 'Ann', 11), (2, 'Bob', 22), (3, 'Cy', 33);
MIGRATE (CREATE TABLE pub AS SELECT id, name FROM cust; CREATE TABLE priv AS SELECT id, pin FROM cust);
";

const SELECT: &str = "SELECT * FROM pub WHERE id = 2;";

/// What is told of both.
const REPORT: &str = "1.1 created
1.2 inserted 3
1.3 migrated 2
1.4 rows 1
1.4 | 2, 'Bob'
entry 1 session 1 from 1 to 1 committed 1
entry 2 session 1 from 2 to 2 committed 2
entry 3 session 1 from 3 to 3 committed 3
entry 4 session 1 from 4 to 4 committed 4
end commits 4 migration 1 moved 1 next unit 0 position 0
";

// Whoever comes first holds the row's claim for long; the other waits for it, and nothing moves twice.
#[test]
fn two_sessions_that_need_one_row_move_it_once(rt: HostRuntime) -> Result<(), Fail> {
    let mut shelf = MemoryShelf::new(rt.alloc());
    prepare(&rt, &mut shelf, SPLIT)?;
    let gate = Slow::new(10_000);
    let script =
        "PHASE; SESSION; UPDATE pub SET name = 'x' WHERE id = 1; SESSION; UPDATE priv SET pin = 0 WHERE id = 1;";
    let told = call(
        &rt,
        &mut shelf,
        &gate,
        &["run", LOG, "--workers", "0"],
        script,
    )?;
    assert_eq!(rt; told.status, Status::Done);
    let report = told.report.as_str();
    assert!(rt; has_line(report, "1.1 updated 1"));
    assert!(rt; has_line(report, "2.1 updated 1"));
    assert_eq!(rt;
        last_line(report),
        "end commits 2 migration 1 moved 1 next unit 0 position 1"
    );
    assert_eq!(rt; gate.granules.load(Ordering::SeqCst), 1);
    Ok(())
}

// What is turned back is claimed again, at most eight times; then it moves without asking.
#[test]
fn a_gate_that_turns_back_changes_no_report(rt: HostRuntime) -> Result<(), Fail> {
    let mut script = String::new(rt.alloc());
    write!(script, "{SPLIT}{SELECT}")?;
    for (aborts, asked) in [(0, 1), (3, 4), (u32::MAX, 8)] {
        let mut shelf = MemoryShelf::new(rt.alloc());
        call(&rt, &mut shelf, &OpenGate, &["create", LOG], "")?;
        let gate = Turnstile::new(aborts);
        let told = call(
            &rt,
            &mut shelf,
            &gate,
            &["run", LOG, "--workers", "0"],
            script.as_str(),
        )?;
        assert_eq!(rt; told.status, Status::Done);
        assert_eq!(rt; told.report.as_str(), REPORT, "{aborts} times");
        assert_eq!(rt; gate.asked.load(Ordering::SeqCst), asked);
    }
    Ok(())
}

// Sessions and workers that are turned back all the time end too, and all rows move.
#[test]
fn workers_that_are_turned_back_move_all_rows(rt: HostRuntime) -> Result<(), Fail> {
    let mut shelf = MemoryShelf::new(rt.alloc());
    let people = split_people(rt.alloc(), 200)?;
    prepare(&rt, &mut shelf, people.as_str())?;
    let gate = Turnstile::new(u32::MAX);
    let words = ["run", LOG, "--workers", "2", "--finish", "--audit"];
    let script =
        "PHASE; SESSION; UPDATE pub SET name = 'x' WHERE id > 150; SESSION; UPDATE priv SET pin = 0 WHERE id < 50;";
    let told = call(&rt, &mut shelf, &gate, &words, script)?;
    assert_eq!(rt; told.status, Status::Done);
    let report = told.report.as_str();
    for line in [
        "1.1 updated 50",
        "2.1 updated 49",
        "audit table priv rows 200",
        "audit table pub rows 200",
    ] {
        assert!(rt; has_line(report, line), "{line}");
    }
    assert_eq!(rt; last_line(report), "end commits 2 migration 1 complete 200");
    Ok(())
}
