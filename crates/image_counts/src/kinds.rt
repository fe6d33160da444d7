//! What a new table is made of, and its keys.

use bf_base::{Key, Memory, Value};
use std::alloc::Global;

/// What a new table is made of.
#[derive(Clone, Copy, PartialEq, Eq)]
pub enum Kind {
    /// Each row of a.
    Split,
    /// The rows of a by x.
    Totals,
    /// Each row of a with the row of b of its key.
    Joined,
    /// Pairs of rows of a and b with one x.
    Pairs,
}

pub fn kind_named(word: &str) -> Option<Kind> {
    match word {
        "split" => Some(Kind::Split),
        "totals" => Some(Kind::Totals),
        "joined" => Some(Kind::Joined),
        "pairs" => Some(Kind::Pairs),
        _ => None,
    }
}

/// The query of the new table.
pub fn query(kind: Kind) -> &'static str {
    match kind {
        Kind::Split => "SELECT id, y FROM a",
        Kind::Totals => "SELECT x, COUNT(*) AS n, SUM(y) AS s FROM a GROUP BY x",
        Kind::Joined => "SELECT a.id, a.y, b.x FROM a JOIN b ON a.id = b.id",
        Kind::Pairs => "SELECT a.id AS p, b.id AS q, b.y FROM a JOIN b ON a.x = b.x",
    }
}

/// The key of the new row that comes from a row of a.
pub fn key(alloc: Global, kind: Kind, id: u32) -> Result<Key, Memory> {
    let first = if kind == Kind::Totals { id / 4 } else { id };
    let mut values = vec![in alloc; Value::Int(i64::from(first))]?;
    if kind == Kind::Pairs {
        values.push(Value::Int(i64::from(id)))?;
    }
    Ok(Key::of(values))
}
