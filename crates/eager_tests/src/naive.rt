//! New tables, computed from old rows by plain loops over numbers.

use std::alloc::Global;
use std::test::Fail;

/// A row of an old table: its key and two numbers. Of a new table as many as it has columns count.
pub type Numbers = [u64; 3];

/// The rows of two old tables, `a (id, x, y)` and `b (id, x, z)`, in the order of their keys.
#[derive(Clone, Copy)]
pub struct Old<'a> {
    pub a: &'a [Numbers],
    pub b: &'a [Numbers],
}

/// What a new table is made of; what WHERE compares is below a limit.
#[derive(Clone, Copy)]
pub enum Kind {
    /// Rows of `a`, by x.
    Split,
    /// Rows of `a` with the row of `b` of the same key, by z.
    Matched,
    /// Rows of `b` with the row of `a` whose key is their x, by y.
    MatchedBack,
    /// The count and the sum of y of the rows of `a`, by y, for each x.
    Totals,
    /// Pairs of rows of `a` and `b` with equal x, by z.
    Pairs,
    /// Rows of `a`, by x, with tag 1, and those of `b` with tag 2.
    Tagged,
}

/// The rows of a new table, in the order of its key.
pub fn made(alloc: Global, kind: Kind, below: u64, old: &Old<'_>) -> Result<Vec<Numbers>, Fail> {
    match kind {
        Kind::Split => split(alloc, below, old.a),
        Kind::Matched => matched(alloc, below, old),
        Kind::MatchedBack => matched_back(alloc, below, old),
        Kind::Totals => totals(alloc, below, old.a),
        Kind::Pairs => pairs(alloc, below, old),
        Kind::Tagged => tagged(alloc, below, old),
    }
}

fn split(alloc: Global, below: u64, a: &[Numbers]) -> Result<Vec<Numbers>, Fail> {
    let mut rows = Vec::new(alloc);
    for [id, x, y] in a {
        if *x < below {
            rows.push([*y, *id, 0])?;
        }
    }
    Ok(rows)
}

fn matched(alloc: Global, below: u64, old: &Old<'_>) -> Result<Vec<Numbers>, Fail> {
    let mut rows = Vec::new(alloc);
    for [id, _, y] in old.a {
        for [other, _, z] in old.b {
            if id == other && *z < below {
                rows.push([*id, *y, *z])?;
            }
        }
    }
    Ok(rows)
}

fn matched_back(alloc: Global, below: u64, old: &Old<'_>) -> Result<Vec<Numbers>, Fail> {
    let mut rows = Vec::new(alloc);
    for [id, x, z] in old.b {
        for [other, _, y] in old.a {
            if x == other && *y < below {
                rows.push([*id, *y, *z])?;
            }
        }
    }
    Ok(rows)
}

/// The count and the sum of one x.
fn total(x: u64, below: u64, a: &[Numbers]) -> Numbers {
    let mut count = 0u64;
    let mut sum = 0u64;
    for [_, other, y] in a {
        if x == *other && *y < below {
            count = count.saturating_add(1);
            sum = sum.saturating_add(*y);
        }
    }
    [x, count, sum]
}

fn totals(alloc: Global, below: u64, a: &[Numbers]) -> Result<Vec<Numbers>, Fail> {
    let mut rows = Vec::new(alloc);
    for x in 0..4 {
        let row = total(x, below, a);
        if row[1] > 0 {
            rows.push(row)?;
        }
    }
    Ok(rows)
}

fn pairs(alloc: Global, below: u64, old: &Old<'_>) -> Result<Vec<Numbers>, Fail> {
    let mut rows = Vec::new(alloc);
    for [id, x, _] in old.a {
        for [other, found, z] in old.b {
            if x == found && *z < below {
                rows.push([*id, *other, *z])?;
            }
        }
    }
    Ok(rows)
}

fn tagged(alloc: Global, below: u64, old: &Old<'_>) -> Result<Vec<Numbers>, Fail> {
    let mut rows = Vec::new(alloc);
    for [id, x, _] in old.a {
        if *x < below {
            rows.push([1, *id, *x])?;
        }
    }
    for [id, _, z] in old.b {
        rows.push([2, *id, *z])?;
    }
    Ok(rows)
}
