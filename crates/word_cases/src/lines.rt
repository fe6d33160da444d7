//! What is told of the lines of a case.

use bf_words::{Words, read_words};
use case_files::Teller;
use std::alloc::Global;

/// Adds what words ask for.
fn tell_words(words: Words, told: &mut String) -> anyhow::Result<()> {
    match words {
        Words::Create(path) => write!(told, "create {path}")?,
        Words::Run {
            path,
            workers,
            retries,
            finish,
            audit,
        } => write!(
            told,
            "run {path} workers {workers} retries {retries} finish {finish} audit {audit}"
        )?,
        Words::Try => write!(told, "try")?,
        Words::Demo { count, path } => write!(told, "demo {count} {path}")?,
    }
    Ok(())
}

/// Adds a line on the words of a line.
fn tell_line(alloc: Global, line: &str, told: &mut String) -> anyhow::Result<()> {
    let mut words = Vec::new(alloc);
    for word in line.split(" ").filter(|word| !word.is_empty()) {
        words.push(if word == "\"\"" { "" } else { word })?;
    }
    match read_words(words.as_slice()) {
        Ok(words) => tell_words(words, told)?,
        Err(error) => write!(told, "{error}")?,
    }
    told.push_str("\n")?;
    Ok(())
}

/// Tells of lines of words.
#[derive(Clone, Copy)]
pub struct Lines;

impl Teller for Lines {
    fn tell(&self, alloc: Global, text: &str, told: &mut String) -> anyhow::Result<()> {
        for line in text.split("\n") {
            tell_line(alloc, line, told)?;
        }
        Ok(())
    }
}
