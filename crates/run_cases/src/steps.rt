//! The steps of a case that is no script.
//!
//! - `call WORDS` calls the program with these words, of which `''` is the empty one, and with the script of the lines
//!   below. It tells what is printed, and the status.
//! - `only S WORDS` calls it so too, and tells of what is printed the replies of session S, the audit and the last line: what
//!   the order of sessions that run at the same time leaves as it is.
//! - `set BYTES` puts a file with these bytes under `log`.
//! - `fail DEVICE N` lets the N-th call of a device fail: `read` or `write` of the calls to come, or `disk` of the file
//!   to be set.
//! - `show PATH` tells the bytes of a file.
//! - `count` tells how many calls of the log's disk there were, and how many faults.
//! - `crash TORN` tells the bytes that a crash leaves of the log, where those that are pending are these in turn, from
//!   the front again where there are more, and 0 where there are none.
//! - `stops TORN` runs the script of the lines below over the log that is left where the calls of its disk from the
//!   first on were never made, from the second on, and so forth. It tells what is printed where it is not what was
//!   printed before, behind the number of the call.

use crate::desk::{Desk, tell_file};
use crate::scripts::read_script;
use anyhow::bail;
use case_files::{bytes_of, first_word};
use std::alloc::{AllocError, Global};
use std::sync::Wait;
use std::thread::Threads;

/// Adds what steps tell, which follow one another behind marks.
pub fn take_steps(
    rt: &(impl Threads + Wait + Sync),
    alloc: Global,
    steps: &str,
    told: &mut String,
) -> anyhow::Result<()> {
    let mut desk = Desk::new(alloc);
    for step in steps.split("\n$ ") {
        take_step(rt, alloc, step, &mut desk, told)?;
    }
    Ok(())
}

/// Adds what a step tells: a line, and the lines of its script.
fn take_step(
    rt: &(impl Threads + Wait + Sync),
    alloc: Global,
    step: &str,
    desk: &mut Desk,
    told: &mut String,
) -> anyhow::Result<()> {
    let Some((line, lines)) = step.split_once("\n") else {
        return take(rt, alloc, step, "", desk, told);
    };
    let mut script = String::new(alloc);
    read_script(lines, &mut script)?;
    take(rt, alloc, line, script.as_str(), desk, told)
}

/// Adds what a line tells with a script behind it.
fn take(
    rt: &(impl Threads + Wait + Sync),
    alloc: Global,
    line: &str,
    script: &str,
    desk: &mut Desk,
    told: &mut String,
) -> anyhow::Result<()> {
    let (verb, rest) = first_word(line);
    match verb {
        "call" => desk.call(rt, alloc, &words_of(alloc, line)?, script, told),
        "only" => call_of(rt, alloc, rest, script, desk, told),
        "fail" => fail(rest, desk),
        "show" => desk.show(word_of(rest), told),
        "count" => desk.count(told),
        _ => {
            let bytes = bytes_of(alloc, rest)?;
            take_with(rt, alloc, verb, &bytes, script, desk, told)
        }
    }
}

/// Adds what a call prints of one session, whose number stands before the words, the audit and the last line.
fn call_of(
    rt: &(impl Threads + Wait + Sync),
    alloc: Global,
    line: &str,
    script: &str,
    desk: &mut Desk,
    told: &mut String,
) -> anyhow::Result<()> {
    let mut printed = String::new(alloc);
    desk.call(rt, alloc, &words_of(alloc, line)?, script, &mut printed)?;
    let (session, _) = first_word(line);
    let mut own = String::new(alloc);
    write!(own, "{session}.")?;
    for line in printed.as_str().split("\n") {
        let is_told = [own.as_str(), "audit ", "end "]
            .iter()
            .any(|front| line.starts_with(*front));
        if is_told {
            writeln!(told, "{line}")?;
        }
    }
    Ok(())
}

/// The words behind the first one of a line.
fn words_of(alloc: Global, line: &str) -> Result<Vec<&str>, AllocError> {
    let mut words = Vec::new(alloc);
    for word in line.split(" ").skip(1) {
        words.push(word_of(word))?;
    }
    Ok(words)
}

/// A word that is written, of which `''` is the empty one.
fn word_of(written: &str) -> &str {
    if written == "''" { "" } else { written }
}

/// Lets a call of a device fail.
fn fail(which: &str, desk: &mut Desk) -> anyhow::Result<()> {
    match which.split_once(" ") {
        Some(("read", number)) => desk.failing.read = Some(number.parse()?),
        Some(("write", number)) => desk.failing.write = Some(number.parse()?),
        Some(("disk", number)) => desk.failing.disk = Some(number.parse()?),
        _ => bail!("no device: {which}"),
    }
    Ok(())
}

/// Adds what a step with bytes tells.
fn take_with(
    rt: &(impl Threads + Wait + Sync),
    alloc: Global,
    verb: &str,
    bytes: &[u8],
    script: &str,
    desk: &mut Desk,
    told: &mut String,
) -> anyhow::Result<()> {
    match verb {
        "set" => desk.set(alloc, bytes),
        "crash" => tell_file(&desk.log()?.crash(alloc, bytes)?, told),
        "stops" => stop_at_each(rt, alloc, bytes, script, desk, told),
        _ => bail!("no step: {verb}"),
    }
}

/// Adds what is printed of a script over what each stop leaves of the log, with the number of the first call that is
/// not made, where it is not what was printed before.
fn stop_at_each(
    rt: &(impl Threads + Wait + Sync),
    alloc: Global,
    torn: &[u8],
    script: &str,
    desk: &Desk,
    told: &mut String,
) -> anyhow::Result<()> {
    let mut last = String::new(alloc);
    for call in 1..=desk.log()?.calls().saturating_add(1) {
        let mut printed = String::new(alloc);
        desk.stop(rt, alloc, call, torn, script, &mut printed)?;
        if printed != last {
            write!(told, "call {call}\n{printed}")?;
            last = printed;
        }
    }
    Ok(())
}
