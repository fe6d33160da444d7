//! The script of a call, as the lines behind it write it.

use anyhow::Context;
use case_files::first_word;
use std::alloc::AllocError;

/// Adds the script that lines write, each with a line feed. A line `& N` stands for the character with this number and
/// no line feed, and a line `% FIRST LAST TEXT` for as many lines as there are numbers from FIRST to LAST, each the
/// text with the number in the place of its `#`.
pub fn read_script(lines: &str, script: &mut String) -> anyhow::Result<()> {
    for line in lines.split("\n") {
        if let Some(number) = line.strip_prefix("& ") {
            script.push(char::from(number.parse::<u8>()?))?;
        } else if let Some(rule) = line.strip_prefix("% ") {
            repeat(rule, script)?;
        } else {
            writeln!(script, "{line}")?;
        }
    }
    Ok(())
}

/// Adds the lines for which a line stands that has two numbers and a text.
fn repeat(rule: &str, script: &mut String) -> anyhow::Result<()> {
    let (first, rest) = rule.split_once(" ").context("a line % without numbers")?;
    let (last, text) = first_word(rest);
    for number in first.parse::<u32>()?..=last.parse::<u32>()? {
        add_line(number, text, script)?;
    }
    Ok(())
}

/// Adds a text as a line, with a number in the place of its `#`.
fn add_line(number: u32, text: &str, script: &mut String) -> Result<(), AllocError> {
    match text.split_once("#") {
        Some((front, behind)) => writeln!(script, "{front}{number}{behind}"),
        None => writeln!(script, "{text}"),
    }
}
