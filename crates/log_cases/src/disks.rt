//! Calls of a disk.

use crate::logs::tell_log;
use anyhow::bail;
use bf_disk::{Disk, DiskError, TapeDisk};
use case_files::{bytes_of, first_word, tell_bytes};
use std::alloc::Global;

/// The numbers of the calls that fail, with commas between them.
fn failing_calls(alloc: Global, numbers: &str) -> anyhow::Result<Vec<u64>> {
    let mut failing = Vec::new(alloc);
    for number in numbers.split(",") {
        failing.push(number.parse()?)?;
    }
    Ok(failing)
}

/// A file of bytes. In front of them stands which calls fail: `-` for none, numbers, or `>` and a number behind which all
/// do.
pub fn file_of(alloc: Global, words: &str) -> anyhow::Result<TapeDisk> {
    let (fails, words) = first_word(words);
    let bytes = bytes_of(alloc, words)?;
    if fails == "-" {
        return Ok(TapeDisk::new(alloc, bytes, Vec::new(alloc), None));
    }
    match fails.strip_prefix(">") {
        Some(last) => {
            let last = last.parse()?;
            Ok(TapeDisk::new(alloc, bytes, Vec::new(alloc), Some(last)))
        }
        None => {
            let failing = failing_calls(alloc, fails)?;
            Ok(TapeDisk::new(alloc, bytes, failing, None))
        }
    }
}

/// Writes bytes at an offset.
fn write_at(
    alloc: Global,
    disk: &mut TapeDisk,
    words: &str,
) -> anyhow::Result<Result<(), DiskError>> {
    let (at, words) = first_word(words);
    let at: u64 = at.parse()?;
    let bytes = bytes_of(alloc, words)?;
    if at > disk.bytes().len() as u64 {
        bail!("a write behind the end");
    }
    Ok(disk.write_at(at, bytes.as_slice()))
}

/// Adds `ok`, or why a call failed.
fn tell_answer(answer: Result<(), DiskError>, told: &mut String) -> anyhow::Result<()> {
    match answer {
        Ok(()) => told.push_str(" ok")?,
        Err(error) => write!(told, " {error}")?,
    }
    Ok(())
}

/// Adds the length of a file, or why the call failed.
fn tell_len(disk: &mut TapeDisk, told: &mut String) -> anyhow::Result<()> {
    match disk.len() {
        Ok(len) => write!(told, " {len}")?,
        Err(error) => write!(told, " {error}")?,
    }
    Ok(())
}

/// Makes a call of a disk, and adds its answer.
pub fn tell_call(
    alloc: Global,
    disk: &mut TapeDisk,
    verb: &str,
    words: &str,
    told: &mut String,
) -> anyhow::Result<()> {
    match verb {
        "write" => tell_answer(write_at(alloc, disk, words)?, told),
        "len" => tell_len(disk, told),
        "read-nothing" => tell_answer(disk.read(0, &mut []), told),
        "cut-all" => tell_answer(disk.cut(0), told),
        "sync" => tell_answer(disk.sync(), told),
        _ => bail!("no call {verb}"),
    }
}

/// What a crash before a call leaves, with these bytes in the place of pending ones.
pub fn crashed_at(alloc: Global, disk: &TapeDisk, words: &str) -> anyhow::Result<TapeDisk> {
    let (call, words) = first_word(words);
    let call = if call == "end" {
        u64::MAX
    } else {
        call.parse()?
    };
    let torn = bytes_of(alloc, words)?;
    Ok(disk.crash_at(alloc, call, torn.as_slice())?)
}

/// The same of a crash behind all calls.
pub fn crashed(alloc: Global, disk: &TapeDisk, words: &str) -> anyhow::Result<TapeDisk> {
    let torn = bytes_of(alloc, words)?;
    Ok(disk.crash(alloc, torn.as_slice())?)
}

/// Adds what is told of a disk that is left as it is.
pub fn tell_disk(
    alloc: Global,
    disk: &TapeDisk,
    verb: &str,
    words: &str,
    told: &mut String,
) -> anyhow::Result<()> {
    match verb {
        "bytes" => tell_bytes(disk.bytes(), told)?,
        "calls" => write!(told, " {}", disk.calls())?,
        "faults" => write!(told, " {}", disk.faults())?,
        "image" => tell_bytes(crashed_at(alloc, disk, words)?.bytes(), told)?,
        "left" => tell_log(alloc, crashed_at(alloc, disk, words)?, told)?,
        _ => bail!("no call {verb}"),
    }
    Ok(())
}
