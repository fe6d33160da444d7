//! Reports of replies, transactions, tables and migrations that a name stands for.

use crate::bytes::tell_bytes;
use anyhow::bail;
use bf_base::{Name, Sequence, Text, Value};
use bf_text::report;
use bf_tree::{Cause, Cell, Entry, History, Outcome, Refusal, Reply, Sweep, Transcripts};
use std::alloc::Global;

/// A row of a number and NULL, and one of a text and NULL.
fn rows(alloc: Global) -> anyhow::Result<Reply> {
    let text = Value::Text(Text::of(alloc, b"O'Neil")?);
    let numbers = vec![in alloc; Cell::Value(Value::Int(-7)), Cell::Null]?;
    let texts = vec![in alloc; Cell::Value(text), Cell::Null]?;
    let rows = vec![in alloc; Sequence::of(numbers), Sequence::of(texts)]?;
    Ok(Reply::Rows(Sequence::of(rows)))
}

/// The reply to the statement of a number.
fn reply(alloc: Global, number: u32) -> anyhow::Result<Reply> {
    Ok(match number {
        1 => Reply::Created,
        2 => Reply::Inserted(u32::MAX),
        3 => Reply::Updated(2),
        4 => Reply::Deleted(0),
        5 => rows(alloc)?,
        6 => Reply::Rows(Sequence::of(Vec::new(alloc))),
        7 => Reply::Migrated(2),
        8 => Reply::Begun,
        9 => Reply::Committed(u64::MAX),
        10 => Reply::RolledBack,
        11 => Reply::Refused(Refusal::TooLong),
        12 => Reply::Ended(Cause::Died(3)),
        13 => Reply::Ended(Cause::DiskFault),
        14 => Reply::Ended(Cause::Halted(2)),
        15 => Reply::Ended(Cause::LogFull(1024, 37)),
        16 => Reply::Ended(Cause::TooLarge(70_000)),
        _ => bail!("no reply {number}"),
    })
}

/// Adds a session of the replies to the statements of some numbers.
fn put_session(
    alloc: Global,
    numbers: &[u32],
    sessions: &mut Vec<Sequence<Reply>>,
) -> anyhow::Result<()> {
    let mut replies = Vec::new(alloc);
    for number in numbers {
        replies.push(reply(alloc, *number)?)?;
    }
    sessions.push(Sequence::of(replies))?;
    Ok(())
}

/// Adds the sessions of a report.
fn put_sessions(
    alloc: Global,
    name: &str,
    sessions: &mut Vec<Sequence<Reply>>,
) -> anyhow::Result<()> {
    match name {
        "replies" => {
            let numbers = [1, 2, 3, 4, 5, 6, 7, 8, 9, 10, 11, 12, 13, 14, 15, 16];
            put_session(alloc, &numbers, sessions)
        }
        "sessions" => {
            put_session(alloc, &[8, 10], sessions)?;
            put_session(alloc, &[], sessions)?;
            put_session(alloc, &[1], sessions)
        }
        _ => put_session(alloc, &[], sessions),
    }
}

/// A transaction of a session.
fn entry(session: u32, first: u32, last: u32, outcome: Outcome) -> Entry {
    Entry {
        session,
        first,
        last,
        outcome,
    }
}

/// The transactions of a report.
fn history(alloc: Global, name: &str) -> anyhow::Result<History> {
    let mut entries = Vec::new(alloc);
    if name == "sessions" {
        entries.push(entry(3, 1, 1, Outcome::Committed(1)))?;
        entries.push(entry(1, 1, 2, Outcome::RolledBack))?;
        entries.push(entry(3, 2, 4, Outcome::Committed(2)))?;
    }
    let entries = Sequence::of(entries);
    Ok(History { entries })
}

/// Adds the tables of a report, each with the number of its rows.
fn put_tables(alloc: Global, name: &str, tables: &mut Vec<(Name, u32)>) -> anyhow::Result<()> {
    if name == "audit" {
        tables.push((Name::of(alloc, b"cust")?, 0))?;
        tables.push((Name::of(alloc, b"pub")?, 1_048_576))?;
    }
    Ok(())
}

/// How far the last migration of a report has come.
fn sweep(name: &str) -> Sweep {
    match name {
        "complete" => Sweep::Complete {
            migration: 2,
            moved: 1000,
        },
        "running" => Sweep::Running {
            migration: 1,
            moved: 2,
            unit: 0,
            position: 3,
        },
        _ => Sweep::Never,
    }
}

/// Adds the report that a name stands for.
pub fn tell_report(alloc: Global, name: &str, told: &mut String) -> anyhow::Result<()> {
    let mut sessions = Vec::new(alloc);
    put_sessions(alloc, name, &mut sessions)?;
    let sessions = Sequence::of(sessions);
    let mut tables = Vec::new(alloc);
    put_tables(alloc, name, &mut tables)?;
    let audit = name.ends_with("audit").then_some(tables.as_slice());
    let history = history(alloc, name)?;
    let text = report(
        alloc,
        &Transcripts { sessions },
        &history,
        audit,
        &sweep(name),
    )?;
    tell_bytes(text.as_slice(), told)
}
