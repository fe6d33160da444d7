//! Random scripts whose sessions run at the same time, with workers beside them, over a log: each report is what the
//! one-thread database tells where it runs the transactions in the order that the report itself gives.
//!
//! The words are how many scripts there are, and the seed of the first one; the others have the numbers behind it. The
//! first that goes otherwise is told with its seed and its report, and ends the program with status 1.
#![tactic(auto)]

mod checking;
mod entries;
mod runs;

use anyhow::Context;
use std::env;
use std::env::Env;
use std::io::Print;
use std::sync::Wait;
use std::thread::Threads;

/// Runs as many scripts as the words ask for, and prints how many there were.
fn run_all<R: Env + Print + AllocGlobal + Threads + Wait + Sync>(rt: &R) -> anyhow::Result<()> {
    let mut words = env::args(rt)?.skip(1);
    let count = words
        .next()
        .context("how many scripts")?
        .as_str()
        .parse::<u64>()?;
    let first = words
        .next()
        .context("the seed of the first")?
        .as_str()
        .parse::<u64>()?;
    for number in 0..count {
        let seed = first.saturating_add(number);
        runs::run(rt, seed).with_context(|| format!(in rt.alloc(); "the script of seed {seed}"))?;
    }
    println!(rt; "{count} scripts")?;
    Ok(())
}

fn main(rt: HostRuntime) -> anyhow::Result<()> {
    run_all(&rt)
}
