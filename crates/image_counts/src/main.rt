//! Finds the owners of keys, and the rows of their granules, in a migration of two tables: what
//! `bench/images.py` counts.
//!
//! usage: image_counts KIND ROWS CALLS, where KIND is one of split, totals, joined and pairs
#![tactic(auto)]

mod beginning;
mod counting;
mod filling;
mod kinds;

use anyhow::{Context, bail};
use beginning::migration_of;
use counting::count;
use kinds::{Kind, kind_named};
use std::alloc::Global;
use std::env;

fn run(alloc: Global, kind: Kind, rows: u32, calls: u32) -> anyhow::Result<usize> {
    let migration = migration_of(alloc, kind, rows)?;
    count(alloc, kind, &migration, rows, calls)?.context("a key has no owner")
}

/// What is found as the words ask for it.
fn found(alloc: Global, words: &[String]) -> anyhow::Result<usize> {
    let [kind, rows, calls] = words else {
        bail!("usage: image_counts KIND ROWS CALLS");
    };
    let kind = kind_named(kind.as_str()).context("no such kind")?;
    let rows = rows.as_str().parse()?;
    let calls = calls.as_str().parse()?;
    run(alloc, kind, rows, calls)
}

fn main(rt: HostRuntime) -> anyhow::Result<()> {
    let alloc = rt.alloc();
    let mut words = Vec::new(alloc);
    for word in env::args(&rt)?.skip(1) {
        words.push(word)?;
    }
    let found = found(alloc, words.as_slice())?;
    println!(&rt; "{found}")?;
    Ok(())
}
