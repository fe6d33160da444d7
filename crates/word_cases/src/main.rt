//! Reads the words of the cases of the files that its words name, and tells how many each has.
//!
//! Each line of a case is words with blanks between, `""` for an empty one, and what is told of it is a line: what the
//! words ask for, or the error.
#![tactic(auto)]

mod lines;

use case_files::compare_files;
use lines::Lines;

fn main(rt: HostRuntime) -> anyhow::Result<()> {
    compare_files(&rt, &Lines)
}
