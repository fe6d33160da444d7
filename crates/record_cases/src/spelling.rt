//! What is told of the lines of a case.

use crate::reading::{again, has_front};
use crate::writing::put;
use case_files::{Teller, bytes_of, first_word, tell_bytes};
use std::alloc::Global;

/// Adds what is told of bytes that are read.
fn tell_read(alloc: Global, kind: &str, bytes: &[u8], told: &mut String) -> anyhow::Result<()> {
    let mut spelled = Vec::new(alloc);
    match again(alloc, kind, bytes, &mut spelled)? {
        Some(taken) if taken < bytes.len() => write!(told, "{taken}")?,
        Some(_) if has_front(alloc, kind, bytes)? => told.push_str("not whole")?,
        Some(_) => told.push_str("whole")?,
        None => told.push_str("none")?,
    }
    tell_bytes(spelled.as_slice(), told)
}

/// Adds what is told of a line of a case that has written some bytes.
fn tell_line(
    alloc: Global,
    line: &str,
    written: &mut Vec<u8>,
    told: &mut String,
) -> anyhow::Result<()> {
    let (word, rest) = first_word(line);
    if word == "write" {
        put(alloc, rest, written)?;
        told.push_str("wrote")?;
        tell_bytes(written.as_slice(), told)?;
    } else {
        tell_read(alloc, word, bytes_of(alloc, rest)?.as_slice(), told)?;
    }
    told.push_str("\n")?;
    Ok(())
}

/// Tells how bytes are read and written.
#[derive(Clone, Copy)]
pub struct Spelling;

impl Teller for Spelling {
    fn tell(&self, alloc: Global, text: &str, told: &mut String) -> anyhow::Result<()> {
        let mut written = Vec::new(alloc);
        for line in text.lines() {
            tell_line(alloc, line, &mut written, told)?;
        }
        Ok(())
    }
}
