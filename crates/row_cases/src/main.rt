//! Runs the cases of the files that its words name, and tells how many each has.
//!
//! The text of a case is a line that names a structure, `heap`, `index COLUMNS` or `workspace`, and behind it calls, one
//! a line. Of each call a line is told: its name and what it answers. Keys and rows are values with commas between them,
//! numbers or texts in quotes, and `()` where there are none. Of one key a call answers a number, `-` where there is
//! nothing, and `+` where there is something that is not one number. A list of numbers stands behind `|`, and its runs
//! of even steps are told by their first two numbers and their last, as `1,3..9`. The calls of each structure stand at
//! the head of its module.
//!
//! `each CALL COUNT FIRST APART OVER` makes a call `CALL N=N` for each of `COUNT` numbers N, which are `APART` from one
//! another, from `FIRST` on. They are taken `OVER` places on each time, and round again. Told is how many of the answers
//! are the number itself, how many are others, and how many are nothing.
//!
//! The first case of which something else is told than is wanted ends the program with status 1.
#![tactic(auto)]

mod answers;
mod calls;
mod cells;
mod frozen;
mod heaps;
mod indexes;
mod workspaces;

use anyhow::{Context, bail};
use case_files::{Teller, compare_files, first_word};
use std::alloc::Global;

/// Tells what the calls of a case answer.
#[derive(Clone, Copy)]
struct RowCalls;

impl Teller for RowCalls {
    fn tell(&self, alloc: Global, text: &str, told: &mut String) -> anyhow::Result<()> {
        let (structure, lines) = text.split_once("\n").context("a case without calls")?;
        let (kind, columns) = first_word(structure);
        match kind {
            "heap" => heaps::tell(alloc, lines, told),
            "index" => indexes::tell(alloc, columns, lines, told),
            "workspace" => workspaces::tell(alloc, lines, told),
            _ => bail!("no structure {structure}"),
        }
    }
}

fn main(rt: HostRuntime) -> anyhow::Result<()> {
    compare_files(&rt, &RowCalls)
}
