//! Reopens the logs of the cases of the files that its words name, and tells how many each has.
//!
//! The text of a case is a file's bytes in hexadecimal. What is told is where it is no log, or how far the migration of
//! its store has come, and how many rows the tables `t` and `u` have. The first case of which something else is told
//! ends the program with status 1.
#![tactic(auto)]

mod reopening;

use case_files::compare_files;
use reopening::Reopening;

fn main(rt: HostRuntime) -> anyhow::Result<()> {
    let reopening = Reopening { rt: &rt };
    compare_files(&rt, &reopening)
}
