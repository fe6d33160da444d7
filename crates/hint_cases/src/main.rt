//! Tells of the cases of files what people are told beside a status, and how many cases each file has.
//!
//! The name of a file says what its texts are: scripts; texts with a place of a fault in front; or faults, one a line. In
//! scripts and texts `\x` and two digits stand for a byte, and a tab that is told is written so. The first case of which
//! something else is told is told with that, and ends the program with status 1.
#![tactic(auto)]

mod hints;
mod tabs;

use anyhow::Context;
use case_files::compare_file;
use hints::Subject;
use std::env;

fn main(rt: HostRuntime) -> anyhow::Result<()> {
    for name in env::args(&rt)?.skip(1) {
        let subject = Subject::of_file(name.as_str()).context("no such subject")?;
        compare_file(&rt, name.as_str(), &subject)?;
    }
    Ok(())
}
