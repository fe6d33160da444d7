//! Running the script of a case over an empty database and over an empty log.

use crate::desk::{Desk, LOG};
use crate::steps::take_steps;
use anyhow::bail;
use std::alloc::Global;
use std::sync::Wait;
use std::thread::Threads;

/// Whether a phase of a script has several sessions.
fn has_sessions_beside(script: &str) -> bool {
    script
        .split("PHASE;")
        .any(|phase| phase.split("SESSION;").count() > 2)
}

/// The script with each session in a phase of its own, where a phase has several: over a log these run at the same time,
/// in an order that is not told before.
fn one_after_the_other(alloc: Global, script: &str) -> anyhow::Result<String> {
    let mut apart = String::new(alloc);
    let mut sessions = script.split("SESSION;");
    if !has_sessions_beside(script) {
        apart.push_str(script)?;
        return Ok(apart);
    }
    if let Some(front) = sessions.next() {
        apart.push_str(front)?;
    }
    for session in sessions {
        write!(apart, "PHASE; SESSION;{session}")?;
    }
    Ok(apart)
}

/// Adds what is told of a script over an empty log that is made first.
fn call_over_log(
    rt: &(impl Threads + Wait + Sync),
    alloc: Global,
    script: &str,
    told: &mut String,
) -> anyhow::Result<()> {
    let mut desk = Desk::new(alloc);
    let mut made = String::new(alloc);
    desk.call(rt, alloc, &["create", LOG], "", &mut made)?;
    let apart = one_after_the_other(alloc, script)?;
    desk.call(
        rt,
        alloc,
        &["run", LOG, "--workers", "0"],
        apart.as_str(),
        told,
    )
}

/// Adds what is printed of a script, or what steps tell. Fails where over a log something else is printed.
pub fn tell(
    rt: &(impl Threads + Wait + Sync),
    alloc: Global,
    text: &str,
    told: &mut String,
) -> anyhow::Result<()> {
    if let Some(steps) = text.strip_prefix("$ ") {
        return take_steps(rt, alloc, steps, told);
    }
    Desk::new(alloc).call(rt, alloc, &["try"], text, told)?;
    let mut kept = String::new(alloc);
    call_over_log(rt, alloc, text, &mut kept)?;
    if kept != *told {
        bail!("over a log:\n{kept}");
    }
    Ok(())
}
