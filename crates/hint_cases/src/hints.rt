//! What is told of the texts of a file.

use crate::tabs::tell_text;
use anyhow::{Context, bail};
use bf_hints::{KeptText, file_hint, script_hint, usage_hint};
use bf_lex::{ScriptError, ScriptFault, ScriptKind};
use bf_parse::script;
use case_files::{Teller, unescaped};
use std::alloc::Global;
use std::io;

/// What the cases of a file are about.
#[derive(Clone, Copy)]
pub enum Subject {
    /// Faults, one a line.
    Faults,
    /// Texts, each behind the place of a fault.
    Places,
    /// Scripts.
    Scripts,
}

impl Subject {
    /// The subject of a file, which may stand behind its folder.
    pub fn of_file(file: &str) -> Option<Subject> {
        let (_, name) = file.rsplit_once("/").unwrap_or(("", file));
        match name {
            "faults.cases" => Some(Subject::Faults),
            "places.cases" => Some(Subject::Places),
            "scripts.cases" => Some(Subject::Scripts),
            _ => None,
        }
    }
}

/// Adds the hint of a line's fault: `usage`, `locked`, or `system` and the number of the system's error.
fn tell_fault(alloc: Global, line: &str, told: &mut String) -> anyhow::Result<()> {
    let (what, number) = line.split_once(" ").unwrap_or((line, ""));
    let hint = match what {
        "usage" => usage_hint(alloc)?,
        "locked" => file_hint(alloc, io::Error::from(io::ErrorKind::WouldBlock))?,
        "system" => file_hint(alloc, io::Error::from_raw_os_error(number.parse::<i32>()?))?,
        _ => bail!("no such fault"),
    };
    tell_text(hint.as_str(), told)
}

/// Adds the hint of a fault at a place of a text, whose number is the first line.
fn tell_place(alloc: Global, text: &str, told: &mut String) -> anyhow::Result<()> {
    let (at, text) = text.split_once("\n").context("no text")?;
    let fault = ScriptFault {
        at: at.parse::<u32>()?,
        kind: ScriptKind::BadByte,
    };
    let bytes = unescaped(alloc, text)?;
    let hint = script_hint(alloc, bytes.as_slice(), fault)?;
    tell_text(hint.as_str(), told)
}

/// Adds the hint of a text's first fault, or that it is a script. The text is kept as it is when read in pieces.
fn tell_script(alloc: Global, text: &str, told: &mut String) -> anyhow::Result<()> {
    let bytes = unescaped(alloc, text)?;
    let mut kept = KeptText::new(alloc);
    for piece in bytes.as_slice().chunks(7) {
        kept.add(piece);
    }
    match script(alloc, bytes.as_slice()) {
        Ok(_) => told.push_str("a script\n")?,
        Err(ScriptError::Fault(fault)) => {
            let text = kept.as_slice().context("the text is not kept")?;
            tell_text(script_hint(alloc, text, fault)?.as_str(), told)?;
        }
        Err(ScriptError::Memory) => bail!("out of memory"),
    }
    Ok(())
}

impl Teller for Subject {
    fn tell(&self, alloc: Global, text: &str, told: &mut String) -> anyhow::Result<()> {
        match self {
            Subject::Faults => {
                for line in text.split("\n") {
                    tell_fault(alloc, line, told)?;
                }
                Ok(())
            }
            Subject::Places => tell_place(alloc, text, told),
            Subject::Scripts => tell_script(alloc, text, told),
        }
    }
}
