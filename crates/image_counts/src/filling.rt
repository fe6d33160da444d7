//! Tables that are filled with rows.

use anyhow::bail;
use bf_base::{Memory, Name, Row, Sequence, Value};
use bf_eager::{Eager, is_alone};
use bf_tree::Statement;
use std::alloc::Global;
use std::slice;

/// How many rows an INSERT has.
const ROWS_AT_ONCE: u32 = 1_000;

/// Runs a statement as an entry of its own.
fn run_alone(eager: &mut Eager, statement: &Statement) -> anyhow::Result<()> {
    if !is_alone(statement) {
        bail!("no entry of its own");
    }
    eager.run_entry(slice::from_ref(statement), true)?;
    Ok(())
}

/// A row whose x it has with three others.
fn row(alloc: Global, id: u32) -> Result<Row, Memory> {
    let values = vec![in alloc;
        Value::Int(i64::from(id)),
        Value::Int(i64::from(id / 4)),
        Value::Int(i64::from(id % 10)),
    ]?;
    Ok(Row::of(values))
}

/// Rows of the keys from one up to another.
fn rows(alloc: Global, from: u32, to: u32) -> Result<Vec<Row>, Memory> {
    let mut rows = Vec::new(alloc);
    for id in from..to {
        rows.push(row(alloc, id)?)?;
    }
    Ok(rows)
}

fn insert(alloc: Global, table: &Name, from: u32, to: u32) -> Result<Statement, Memory> {
    let table = table.copy(alloc)?;
    let tuples = Sequence::of(rows(alloc, from, to)?);
    Ok(Statement::Insert { table, tuples })
}

/// Puts rows of the keys from one up to another into a table.
fn put(alloc: Global, eager: &mut Eager, table: &Name, from: u32, to: u32) -> anyhow::Result<()> {
    let insert = insert(alloc, table, from, to)?;
    run_alone(eager, &insert)
}

/// Puts rows into a table, whose keys are the numbers below theirs.
fn fill(alloc: Global, eager: &mut Eager, table: &Name, rows: u32) -> anyhow::Result<()> {
    for batch in 0..rows.div_ceil(ROWS_AT_ONCE) {
        let from = batch.saturating_mul(ROWS_AT_ONCE);
        let to = rows.min(from.saturating_add(ROWS_AT_ONCE));
        put(alloc, eager, table, from, to)?;
    }
    Ok(())
}

/// The database behind statements.
fn eager_behind(alloc: Global, statements: &[Statement]) -> anyhow::Result<Eager> {
    let mut eager = Eager::new(alloc);
    for statement in statements {
        run_alone(&mut eager, statement)?;
    }
    Ok(eager)
}

fn fill_named(alloc: Global, eager: &mut Eager, table: &[u8], rows: u32) -> anyhow::Result<()> {
    let table = Name::of(alloc, table)?;
    fill(alloc, eager, &table, rows)
}

fn fill_both(alloc: Global, eager: &mut Eager, rows: u32) -> anyhow::Result<()> {
    fill_named(alloc, eager, b"a", rows)?;
    fill_named(alloc, eager, b"b", rows)
}

/// The database behind the statements of two tables, a and b, each filled with rows.
pub fn filled(alloc: Global, tables: &[Statement], rows: u32) -> anyhow::Result<Eager> {
    let mut eager = eager_behind(alloc, tables)?;
    fill_both(alloc, &mut eager, rows)?;
    Ok(eager)
}
