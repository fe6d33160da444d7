//! Runs the cases of the files that its words name, and tells how many each has.
//!
//! A case is a script and the report that `bullfrog try` prints of it, with the number of the status behind it where
//! that is not 0. Each script is run over an empty database and again over an empty log, which is to print the same; there
//! the sessions of one phase stand in phases of their own, since over a log they would run at the same time.
//! A text that begins with `$ ` is no script: it has steps, each behind such a mark, and what they tell. The first case
//! that tells something else is told with that, and ends the program with status 1.
#![tactic(auto)]

mod cases;
mod desk;
mod narrow;
mod running;
mod scripts;
mod steps;

use cases::compare_files;

fn main(rt: HostRuntime) -> anyhow::Result<()> {
    compare_files(&rt)
}
