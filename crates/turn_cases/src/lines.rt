//! Scripts with a line for each statement and each mark.

/// What stands in front of the statements of a session.
const SESSION: &str = "SESSION;\n";

/// What stands in front of the sessions of a phase.
const PHASE: &str = "PHASE;\n";

/// How many sessions a script has.
pub fn session_count(script: &str) -> usize {
    script.split(SESSION).skip(1).count()
}

/// The statements of a session, counted from 1.
pub fn session_at(script: &str, number: usize) -> Option<&str> {
    let session = script.split(SESSION).nth(number)?;
    Some(session.strip_suffix(PHASE).unwrap_or(session))
}

/// How many statements a session has.
pub fn statement_count(script: &str, number: usize) -> usize {
    session_at(script, number).map_or(0, |session| session.lines().count())
}

/// Adds some statements of a session, from one to another one, as a session and a phase of its own.
pub fn put_group(
    script: &str,
    number: usize,
    first: usize,
    last: usize,
    text: &mut String,
) -> anyhow::Result<()> {
    let session = session_at(script, number).unwrap_or("");
    text.push_str(PHASE)?;
    text.push_str(SESSION)?;
    for line in session.lines().take(last).skip(first.saturating_sub(1)) {
        text.push_str(line)?;
        text.push_str("\n")?;
    }
    Ok(())
}
