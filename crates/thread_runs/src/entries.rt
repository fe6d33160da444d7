//! The transactions that a report tells.

use bf_tree::{Entry, Outcome};

/// The transaction of a line of a report, where it tells one.
pub fn entry_of(line: &str) -> Option<Entry> {
    let (_, rest) = line.strip_prefix("entry ")?.split_once(" session ")?;
    let (session, rest) = rest.split_once(" from ")?;
    let (first, rest) = rest.split_once(" to ")?;
    let (last, outcome) = rest.split_once(" ")?;
    Some(Entry {
        session: session.parse::<u32>().ok()?,
        first: first.parse::<u32>().ok()?,
        last: last.parse::<u32>().ok()?,
        outcome: outcome_of(outcome)?,
    })
}

fn outcome_of(words: &str) -> Option<Outcome> {
    if words == "rolled back" {
        return Some(Outcome::RolledBack);
    }
    let number = words.strip_prefix("committed ")?;
    Some(Outcome::Committed(number.parse::<u64>().ok()?))
}
