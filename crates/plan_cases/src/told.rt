//! Bound statements as texts.

use crate::plans::put_plan;
use bf_base::{Admit, Column, Key, Name, Table};
use bf_text::{put_refusal, put_values};
use bf_tree::{Action, Bound, Expr, IndexRule, Refusal};
use std::alloc::Global;

/// The letters of a name.
pub fn word(name: &Name) -> anyhow::Result<&str> {
    Ok(str::from_utf8(name.as_bytes())?)
}

/// Adds places, each behind a space.
pub fn put_places(told: &mut String, places: &[u8]) -> anyhow::Result<()> {
    for place in places {
        write!(told, " {place}")?;
    }
    Ok(())
}

/// Adds a column's name, and what it admits.
fn put_column(told: &mut String, column: &Column) -> anyhow::Result<()> {
    told.push_str(word(&column.name)?)?;
    match column.admits {
        Admit::Int => told.push_str(" INT")?,
        Admit::Checked(low, high) => write!(told, " INT {low} to {high}")?,
        Admit::Varchar(most) => write!(told, " VARCHAR({most})")?,
    }
    Ok(())
}

/// Adds a table's name, its columns and the places of its key.
pub fn put_table(told: &mut String, table: &Table) -> anyhow::Result<()> {
    write!(told, "{} (", word(&table.name)?)?;
    let mut between = "";
    for column in table.columns.as_slice() {
        told.push_str(between)?;
        put_column(told, column)?;
        between = ", ";
    }
    told.push_str(") key")?;
    put_places(told, table.key.as_slice())
}

fn put_index(told: &mut String, index: &IndexRule) -> anyhow::Result<()> {
    write!(told, "{} on {}", word(&index.name)?, word(&index.table)?)?;
    put_places(told, index.columns.as_slice())
}

/// Adds the values of a key behind a name and `at`.
pub fn put_key(alloc: Global, told: &mut String, key: &Key) -> anyhow::Result<()> {
    let mut values = Vec::new(alloc);
    put_values(&mut values, key.as_slice())?;
    write!(told, " at {}", str::from_utf8(values.as_slice())?)?;
    Ok(())
}

/// Adds a table's name, and the key that is fixed.
fn put_rows(
    alloc: Global,
    told: &mut String,
    table: &Table,
    fixed: &Option<Key>,
) -> anyhow::Result<()> {
    told.push_str(word(&table.name)?)?;
    match fixed {
        Some(key) => put_key(alloc, told, key),
        None => Ok(()),
    }
}

fn put_sets(told: &mut String, sets: &[(u8, Expr)]) -> anyhow::Result<()> {
    told.push_str(" sets")?;
    for (place, _) in sets {
        write!(told, " {place}")?;
    }
    Ok(())
}

fn put_refused(alloc: Global, told: &mut String, refusal: &Refusal) -> anyhow::Result<()> {
    let mut text = Vec::new(alloc);
    put_refusal(&mut text, refusal)?;
    told.push_str(str::from_utf8(text.as_slice())?)?;
    Ok(())
}

fn put_action(alloc: Global, told: &mut String, action: &Action) -> anyhow::Result<()> {
    match action {
        Action::Refused(refusal) => put_refused(alloc, told, refusal),
        Action::CreateTable(table) => put_table(told, table),
        Action::CreateIndex(index) => put_index(told, index),
        Action::Insert { table, rows } => {
            let count = rows.as_slice().len();
            Ok(write!(told, "insert {count} into {}", word(&table.name)?)?)
        }
        Action::Select { table, fixed, .. } => {
            told.push_str("select from ")?;
            put_rows(alloc, told, table, fixed)
        }
        Action::Update {
            table,
            sets,
            fixed,
            ..
        } => {
            told.push_str("update ")?;
            put_rows(alloc, told, table, fixed)?;
            put_sets(told, sets.as_slice())
        }
        Action::Delete { table, fixed, .. } => {
            told.push_str("delete from ")?;
            put_rows(alloc, told, table, fixed)
        }
        Action::Migrate(plan) => put_plan(told, plan),
        Action::Begin => Ok(told.push_str("begin")?),
        Action::Commit => Ok(told.push_str("commit")?),
        Action::Rollback => Ok(told.push_str("rollback")?),
    }
}

/// Adds the catalog's number, `change` where the schema changes, and what is to be done.
pub fn put_bound(alloc: Global, told: &mut String, bound: &Bound) -> anyhow::Result<()> {
    let change = if bound.schema_change { " change" } else { "" };
    write!(told, "{}{change}: ", bound.catalog)?;
    put_action(alloc, told, &bound.action)
}
