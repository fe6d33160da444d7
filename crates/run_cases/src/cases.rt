//! Cases, and what is told of them. `case_files` has the same for a `Teller`, whose calls know of no runtime that threads share.

use crate::running::tell;
use anyhow::{Context, bail};
use std::alloc::Global;
use std::io::{Eprint, Print};
use std::rt::{Env, Files};
use std::sync::Wait;
use std::thread::Threads;
use std::{env, fs};

/// A text, and what is to be told of it.
#[derive(Clone, Copy)]
struct Case<'a> {
    title: &'a str,
    text: &'a str,
    /// Without the last line's end.
    told: &'a str,
}

impl<'a> Case<'a> {
    /// The case of a part of a file, whose `=== ` need not stand in front. `None` where it has no line `---`.
    fn of(part: &'a str) -> Option<Case<'a>> {
        let part = part.strip_prefix("=== ").unwrap_or(part);
        let part = part.strip_suffix("\n").unwrap_or(part);
        let (title, rest) = part.split_once("\n")?;
        let (text, told) = apart(rest)?;
        Some(Case { title, text, told })
    }
}

/// What stands in front of a line `---`, and what behind it.
fn apart(rest: &str) -> Option<(&str, &str)> {
    if let Some(told) = rest.strip_prefix("---\n") {
        return Some(("", told));
    }
    if let Some(parts) = rest.split_once("\n---\n") {
        return Some(parts);
    }
    Some((rest.strip_suffix("\n---")?, ""))
}

/// What is told of a case, where that is something else than is to be told.
fn told_otherwise(
    rt: &(impl Threads + Wait + Sync),
    alloc: Global,
    case: &Case,
) -> anyhow::Result<Option<String>> {
    let mut told = String::new(alloc);
    tell(rt, alloc, case.text, &mut told).context(case.title)?;
    if told.as_str().strip_suffix("\n").unwrap_or(told.as_str()) == case.told {
        return Ok(None);
    }
    Ok(Some(told))
}

/// Compares what is told of the cases of a file with what is to be told of them, and prints how many there are.
/// Fails at the first of which something else is told; its title and that are printed to standard error.
fn compare_file<R: Files + Print + Eprint + AllocGlobal + Threads + Wait + Sync>(
    rt: &R,
    name: &str,
) -> anyhow::Result<()> {
    let file = fs::read_to_string(rt, name)?;
    let mut count = 0usize;
    for part in file.as_str().split("\n=== ") {
        let case = Case::of(part).context("a case without a line ---")?;
        if let Some(told) = told_otherwise(rt, rt.alloc(), &case)? {
            eprintln!(rt; "{}\n{told}", case.title)?;
            bail!("{name}: something else is told");
        }
        count = count.saturating_add(1);
    }
    println!(rt; "{name}: {count} cases")?;
    Ok(())
}

/// Compares the cases of each file that the program's words name, as [`compare_file`] does.
pub fn compare_files<R: Env + Files + Print + Eprint + AllocGlobal + Threads + Wait + Sync>(
    rt: &R,
) -> anyhow::Result<()> {
    for name in env::args(rt)?.skip(1) {
        compare_file(rt, name.as_str())?;
    }
    Ok(())
}
