//! Tells of the texts of cases what the language's layer makes of them, and how many cases each file has.
//!
//! The name of a file says what is told of its texts: of each line, or of all lines together. In lines that are read
//! as bytes `\x` and two digits stand for a byte. The first case of which something else is told is told with that,
//! and ends the program with status 1.
#![tactic(auto)]

mod bytes;
mod orders;
mod phrases;
mod reports;
mod scripts;
mod subjects;
mod tables;
mod trees;
mod values;
mod words;
mod writing;

use anyhow::Context;
use case_files::compare_file;
use std::env;
use subjects::Subject;

fn main(rt: HostRuntime) -> anyhow::Result<()> {
    for name in env::args(&rt)?.skip(1) {
        let subject = Subject::of_file(name.as_str()).context("no such subject")?;
        compare_file(&rt, name.as_str(), &subject)?;
    }
    Ok(())
}
