//! Runs the cases of the files that its words name, and tells how many each has.
//!
//! A case is a script whose sessions take turns, behind lines of settings, and the report of its run; or a script of
//! which random orders are served, and how many. The first case of which something else is told is told with that,
//! and ends the program with status 1.
#![tactic(auto)]

mod lines;
mod random;
mod refusing;
mod runs;
mod scripts;
mod settings;
mod turns;

use case_files::compare_files;
use turns::Turns;

fn main(rt: HostRuntime) -> anyhow::Result<()> {
    let turns = Turns { rt: &rt };
    compare_files(&rt, &turns)
}
