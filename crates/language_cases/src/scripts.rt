//! Tokens of texts, and scripts.

use anyhow::bail;
use bf_lex::{ScriptError, ScriptFault, Token, tokens};
use bf_parse::script;
use bf_tree::{Script, Session, Statement};
use std::alloc::Global;

/// Adds why a text is no script.
fn tell_error(error: ScriptError, told: &mut String) -> anyhow::Result<()> {
    match error {
        ScriptError::Fault(ScriptFault { at, kind }) => write!(told, "{kind:?} at {at}")?,
        ScriptError::Memory => bail!("out of memory"),
    }
    Ok(())
}

/// Adds each token with its bytes, and blanks between.
fn tell_all(tokens: &[Token], told: &mut String) -> anyhow::Result<()> {
    for (place, token) in tokens.iter().enumerate() {
        if place > 0 {
            told.push(' ')?;
        }
        write!(told, "{:?}@{}-{}", token.kind, token.at, token.end)?;
    }
    Ok(())
}

/// Adds the tokens of a text, or its first fault.
pub fn tell_tokens(alloc: Global, text: &[u8], told: &mut String) -> anyhow::Result<()> {
    if text.len() > 1000 {
        bail!("a long text");
    }
    match tokens(alloc, text) {
        Ok(tokens) => tell_all(tokens.as_slice(), told),
        Err(error) => tell_error(error, told),
    }
}

/// Adds the phase of a session, and behind it `!` for each COMMIT and a point for each other statement.
fn tell_session(session: &Session, told: &mut String) -> anyhow::Result<()> {
    write!(told, " {}", session.phase)?;
    for statement in session.statements.as_slice() {
        let sign = match statement {
            Statement::Commit => '!',
            _ => '.',
        };
        told.push(sign)?;
    }
    Ok(())
}

/// Adds how many phases a script has, and its sessions.
fn tell_sessions(script: &Script, told: &mut String) -> anyhow::Result<()> {
    write!(told, "{} phases", script.phases)?;
    for session in script.sessions.as_slice() {
        tell_session(session, told)?;
    }
    Ok(())
}

/// Adds the sessions of the script that a text is, or the text's first fault.
pub fn tell_script(alloc: Global, text: &[u8], told: &mut String) -> anyhow::Result<()> {
    match script(alloc, text) {
        Ok(script) => tell_sessions(&script, told),
        Err(error) => tell_error(error, told),
    }
}

/// Adds what is told of a script of a line's number of blanks.
pub fn tell_blanks(alloc: Global, line: &str, told: &mut String) -> anyhow::Result<()> {
    let blanks = vec![in alloc; b' '; line.parse::<usize>()?]?;
    tell_script(alloc, blanks.as_slice(), told)
}
