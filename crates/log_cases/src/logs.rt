//! Calls of a log.

use crate::state::State;
use anyhow::bail;
use bf_disk::TapeDisk;
use bf_log::{AppendError, Log, Next, Opening, create_log, open_log};
use case_files::{bytes_of, first_word, tell_bytes};
use std::alloc::Global;

/// The most payloads that a case reads.
const MOST: u32 = 100;

/// Adds each payload from there on with a bar behind it, and `end` or why no more is read.
fn tell_rest(
    alloc: Global,
    opening: &mut Opening<TapeDisk>,
    told: &mut String,
) -> anyhow::Result<()> {
    for _ in 0..MOST {
        match opening.next_payload(alloc) {
            Ok(Next::Payload(_, payload)) => {
                tell_bytes(payload.as_slice(), told)?;
                told.push_str(" |")?;
            }
            Ok(Next::End) => {
                told.push_str(" end")?;
                return Ok(());
            }
            Err(error) => {
                write!(told, " {error}")?;
                return Ok(());
            }
        }
    }
    bail!("more than {MOST} payloads")
}

/// Adds the same of a whole file.
pub fn tell_log(alloc: Global, disk: TapeDisk, told: &mut String) -> anyhow::Result<()> {
    match open_log(alloc, disk) {
        Ok(opening) => {
            let mut opening = opening;
            tell_rest(alloc, &mut opening, told)
        }
        Err((_, error)) => {
            write!(told, " {error}")?;
            Ok(())
        }
    }
}

/// Makes a log of a file, and adds the answer.
pub fn create(disk: &mut TapeDisk, told: &mut String) -> anyhow::Result<()> {
    match create_log(disk) {
        Ok(()) => told.push_str(" ok")?,
        Err(error) => write!(told, " {error}")?,
    }
    Ok(())
}

/// Opens a log, and adds the answer.
pub fn open(alloc: Global, disk: TapeDisk, told: &mut String) -> anyhow::Result<State> {
    match open_log(alloc, disk) {
        Ok(opening) => {
            told.push_str(" ok")?;
            Ok(State::Reading(opening))
        }
        Err((disk, error)) => {
            write!(told, " {error}")?;
            Ok(State::File(disk))
        }
    }
}

/// Reads on in an open log.
pub fn read(alloc: Global, state: State, told: &mut String) -> anyhow::Result<State> {
    let State::Reading(mut opening) = state else {
        bail!("a log that is not being read");
    };
    tell_rest(alloc, &mut opening, told)?;
    Ok(State::Reading(opening))
}

/// The log that was read to its end.
pub fn log_of(alloc: Global, state: State) -> anyhow::Result<Log<TapeDisk>> {
    let mut opening = match state {
        State::File(_) => bail!("a log that was not opened"),
        State::Reading(opening) => opening,
        State::Log(log) => return Ok(log),
    };
    match opening.next_payload(alloc) {
        Ok(Next::End) => Ok(opening.into_log()),
        _ => bail!("a log that was not read to its end"),
    }
}

/// Adds an error, where there is one.
fn tell_error(error: Option<AppendError>, told: &mut String) -> anyhow::Result<()> {
    match error {
        Some(error) => write!(told, " {error}")?,
        None => told.push_str(" none")?,
    }
    Ok(())
}

/// The largest payload and the limit of an append.
fn bounds_of(words: &str) -> anyhow::Result<(u32, u64)> {
    let (largest, limit) = first_word(words);
    Ok((largest.parse()?, limit.parse()?))
}

/// Adds the answer of an append, and in front of it what refuses it.
fn append(
    alloc: Global,
    log: &mut Log<TapeDisk>,
    words: &str,
    told: &mut String,
) -> anyhow::Result<()> {
    let (bounds, words) = words.split_once(":").unwrap_or((words, ""));
    let (largest, limit) = bounds_of(bounds)?;
    let payload = bytes_of(alloc, words)?;
    if largest > 1 << 30 {
        bail!("a largest payload above 2^30");
    }
    tell_error(log.refusal(payload.len() as u64, largest, limit), told)?;
    match log.append(payload.as_slice(), largest, limit) {
        Ok(number) => write!(told, ", {number}")?,
        Err(error) => write!(told, ", {error}")?,
    }
    Ok(())
}

/// Makes a call of a log, and adds its answer.
pub fn tell_call(
    alloc: Global,
    log: &mut Log<TapeDisk>,
    verb: &str,
    words: &str,
    told: &mut String,
) -> anyhow::Result<()> {
    match verb {
        "append" => append(alloc, log, words, told)?,
        _ => match log.halted() {
            Some(faults) => write!(told, " {faults}")?,
            None => told.push_str(" none")?,
        },
    }
    Ok(())
}
