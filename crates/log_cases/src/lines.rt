//! What is told of the lines of a case.

use crate::disks::{crashed, crashed_at, file_of, tell_disk};
use crate::logs::{create, log_of, open, read};
use crate::state::State;
use crate::{disks, logs};
use anyhow::Context;
use bf_disk::TapeDisk;
use case_files::{Teller, first_word};
use std::alloc::Global;

/// Makes a call of a file, and adds its answer.
fn call_disk(
    alloc: Global,
    state: State,
    verb: &str,
    words: &str,
    told: &mut String,
) -> anyhow::Result<State> {
    let mut disk = state.into_disk();
    if verb == "create" {
        create(&mut disk, told)?;
    } else {
        disks::tell_call(alloc, &mut disk, verb, words, told)?;
    }
    Ok(State::File(disk))
}

/// Makes a call of a log, and adds its answer.
fn call_log(
    alloc: Global,
    state: State,
    verb: &str,
    words: &str,
    told: &mut String,
) -> anyhow::Result<State> {
    let mut log = log_of(alloc, state)?;
    logs::tell_call(alloc, &mut log, verb, words, told)?;
    Ok(State::Log(log))
}

/// The file that another one stands for: one of the same bytes, or what a crash leaves of it.
fn other_file(alloc: Global, state: &State, verb: &str, words: &str) -> anyhow::Result<TapeDisk> {
    let disk = state.disk().context("a log that is being read")?;
    match verb {
        "crash" => crashed(alloc, disk, words),
        "crash-at" => crashed_at(alloc, disk, words),
        _ => {
            let bytes = disk.bytes().to_vec(alloc)?;
            Ok(TapeDisk::new(alloc, bytes, Vec::new(alloc), None))
        }
    }
}

/// Does what a line says, and adds its first word and the answer. The state behind it.
fn step(alloc: Global, state: State, line: &str, told: &mut String) -> anyhow::Result<State> {
    let (verb, words) = first_word(line);
    told.push_str(verb)?;
    match verb {
        "file" => Ok(State::File(file_of(alloc, words)?)),
        "close" => Ok(State::File(state.into_disk())),
        "copy" | "crash" | "crash-at" => Ok(State::File(other_file(alloc, &state, verb, words)?)),
        "open" => open(alloc, state.into_disk(), told),
        "read" => read(alloc, state, told),
        "append" | "halted" => call_log(alloc, state, verb, words, told),
        "bytes" | "calls" | "faults" | "image" | "left" => {
            let disk = state.disk().context("a log that is being read")?;
            tell_disk(alloc, disk, verb, words, told)?;
            Ok(state)
        }
        _ => call_disk(alloc, state, verb, words, told),
    }
}

/// Tells of files and logs.
#[derive(Clone, Copy)]
pub struct Lines;

impl Teller for Lines {
    fn tell(&self, alloc: Global, text: &str, told: &mut String) -> anyhow::Result<()> {
        let mut state = State::File(file_of(alloc, "-")?);
        for line in text.lines() {
            state = step(alloc, state, line, told)?;
            told.push_str("\n")?;
        }
        Ok(())
    }
}
