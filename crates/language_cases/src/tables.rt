//! What columns admit, and the keys of rows.

ghost use Rattle.std.specs.Prelude.{◌≡◌, length, nat_lt};
ghost use Rattle.std.specs.List.{list_all};

use crate::bytes::tell_bytes;
use crate::values::{row_of, value_of};
use anyhow::{Context, ensure};
use bf_base::{Admit, Column, Name, Row, Sequence, Table, admits, key_of};
use bf_text::put_values;
use std::alloc::Global;

/// What a column admits, and what stands behind that in a line.
fn admit_of(line: &str) -> anyhow::Result<(Admit, &str)> {
    let (kind, rest) = line.split_once(" ").context("a kind alone")?;
    if kind == "int" {
        return Ok((Admit::Int, rest));
    }
    let (first, rest) = rest.split_once(" ").context("one number")?;
    if kind == "varchar" {
        return Ok((Admit::Varchar(first.parse::<u8>()?), rest));
    }
    let (last, rest) = rest.split_once(" ").context("two numbers")?;
    let (first, last) = (first.parse::<i64>()?, last.parse::<i64>()?);
    Ok((Admit::Checked(first, last), rest))
}

fn column(alloc: Global, name: &str, admits: Admit) -> anyhow::Result<Column> {
    let name = Name::of(alloc, name.as_bytes())?;
    Ok(Column { name, admits })
}

/// Adds how a value fits a column, and of which kind it is.
pub fn tell_fit(alloc: Global, line: &str, told: &mut String) -> anyhow::Result<()> {
    let (admit, word) = admit_of(line)?;
    let value = value_of(alloc, word)?;
    let fit = admits(&column(alloc, "amount", admit)?, &value);
    write!(told, "{fit:?} {:?}", value.kind())?;
    Ok(())
}

/// A table of three columns whose key is the third and then the second.
fn orders(alloc: Global) -> anyhow::Result<Table> {
    let mut columns = Vec::new(alloc);
    columns.push(column(alloc, "amount", Admit::Checked(0, 9))?)?;
    columns.push(column(alloc, "region", Admit::Varchar(8))?)?;
    columns.push(column(alloc, "id", Admit::Int)?)?;
    let columns = Sequence::of(columns);
    let key = Sequence::of(vec![in alloc; 2, 1]?);
    let name = Name::of(alloc, b"orders")?;
    Ok(Table { name, columns, key })
}

/// Whether a row has a value at each place of the table's key.
fn has_key(table: &Table, row: &Row) -> bool
    ensures { result ≡ list_all (λ place. nat_lt place (length row.now)) table.now.key }
{
    let width = row.as_slice().len();
    table
        .key
        .as_slice()
        .iter()
        .all(|place| (*place as usize) < width)
}

/// Adds the key of a row in a table's copy.
pub fn tell_key(alloc: Global, line: &str, told: &mut String) -> anyhow::Result<()> {
    let table = orders(alloc)?;
    let copy = table.copy(alloc)?;
    ensure!(copy == table, "another table");
    let row = row_of(alloc, line)?;
    ensure!(has_key(&copy, &row), "a row without a key");
    let mut out = Vec::new(alloc);
    put_values(&mut out, key_of(alloc, &copy, &row)?.as_slice())?;
    tell_bytes(out.as_slice(), told)
}
