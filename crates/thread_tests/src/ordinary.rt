//! A run of ordinary size, with each number of workers.

use crate::calls::{LOG, call};
use crate::scripts::ordinary_run;
use crate::told::{count_ending, has_line, last_line};
use bf_disk::MemoryShelf;
use bf_run::{OpenGate, Status};
use std::test::Fail;

const WORKERS: [&str; 9] = ["0", "1", "2", "3", "4", "5", "6", "7", "8"];

// Four sessions change 200 orders of a thousand, while workers move them all.
#[test]
fn orders_change_while_workers_move_them(rt: HostRuntime) -> Result<(), Fail> {
    let script = ordinary_run(rt.alloc())?;
    for workers in WORKERS {
        let mut shelf = MemoryShelf::new(rt.alloc());
        call(&rt, &mut shelf, &OpenGate, &["create", LOG], "")?;
        let words = ["run", LOG, "--workers", workers, "--finish", "--audit"];
        let told = call(&rt, &mut shelf, &OpenGate, &words, script.as_str())?;
        assert_eq!(rt; told.status, Status::Done, "{workers} workers");
        let report = told.report.as_str();
        assert_eq!(rt;
            count_ending(report, " updated 1"),
            200,
            "{workers} workers"
        );
        assert!(rt;
            has_line(report, "audit table orders rows 1000"),
            "{workers} workers"
        );
        assert_eq!(rt;
            last_line(report),
            "end commits 214 migration 1 complete 1000",
            "{workers} workers"
        );
    }
    Ok(())
}
