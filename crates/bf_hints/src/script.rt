//! Faults of a script.

ghost use Rattle.std.specs.Prelude.{◌≤◌, length};

use crate::keyword::keyword_for_name;
use crate::line::put_marked;
use bf_base::{LONGEST_SCRIPT, Memory};
use bf_lex::{ScriptError, ScriptFault, ScriptKind, Token, tokens};
use std::alloc::Global;

/// What people are told of the first fault of a text: its line and column, both counted from 1, and the line with a mark
/// under the fault. Of `Syntax` also which keyword stands in a name's place; and where the text ends too early that, with
/// the mark behind the last token.
///
/// A fault behind the text is told as one at its end. In time and memory linear in the text.
///
/// # Errors
/// Want of memory.
pub fn script_hint(alloc: Global, text: &[u8], fault: ScriptFault) -> Result<String, Memory> {
    let mut told = String::new(alloc);
    let at = fault.at as usize;
    if fault.kind != ScriptKind::Syntax {
        put_marked(alloc, text, at, &mut told)?;
        return Ok(told);
    }
    let tokens = tokens_of(alloc, text)?;
    let before = tokens_before(tokens.as_slice(), fault.at);
    let (before, from) = tokens.as_slice().split_at(before);
    if at >= text.len() {
        put_end(alloc, text, before.last(), &mut told)?;
        return Ok(told);
    }
    put_marked(alloc, text, at, &mut told)?;
    if let Some(keyword) = keyword_for_name(alloc, text, before, from)? {
        put_keyword(text, &keyword, &mut told)?;
    }
    Ok(told)
}

/// The tokens of a text, and none where they have a fault.
fn tokens_of(alloc: Global, text: &[u8]) -> Result<Vec<Token>, Memory> {
    if text.len() > LONGEST_SCRIPT as usize {
        return Ok(Vec::new(alloc));
    }
    match tokens(alloc, text) {
        Ok(found) => Ok(found),
        Err(ScriptError::Fault(_)) => Ok(Vec::new(alloc)),
        Err(ScriptError::Memory) => Err(Memory),
    }
}

/// How many tokens begin before a byte.
fn tokens_before(tokens: &[Token], at: u32) -> usize
    ensures { result ≤ length tokens.now }
{
    tokens
        .iter()
        .position(|token| token.at >= at)
        .unwrap_or(tokens.len())
}

/// Adds that a text ends too early behind its last token.
fn put_end(
    alloc: Global,
    text: &[u8],
    last: Option<&Token>,
    told: &mut String,
) -> Result<(), Memory> {
    let end = match last {
        Some(token) => token.end as usize,
        None => text.len(),
    };
    put_marked(alloc, text, end, told)?;
    told.push_str("the script ends too early: a \";\" or a \")\" may be missing\n")?;
    Ok(())
}

/// Adds that a token is a keyword. Its bytes are letters.
fn put_keyword(text: &[u8], keyword: &Token, told: &mut String) -> Result<(), Memory> {
    let bytes = text.get(keyword.at as usize..keyword.end as usize);
    if let Ok(word) = str::from_utf8(bytes.unwrap_or(b"")) {
        writeln!(told, "\"{word}\" is a keyword: take another name")?;
    }
    Ok(())
}
