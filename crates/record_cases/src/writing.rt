//! Writing fields and records.

use anyhow::{Context, bail};
use bf_base::{Admit, Column, Key, Memory, Name, Row, Sequence, Table, Text, TextError, Value};
use bf_record::{Change, RowChange, SchemaChange, TableWrite, encode};
use bf_wire::{put_i64, put_key, put_name, put_row, put_u8, put_u32, put_value, put_whole};
use case_files::{bytes_of, first_word};
use std::alloc::Global;

/// The INT of a number, and else the text of a word.
fn value_of(alloc: Global, word: &str) -> Result<Value, TextError> {
    match word.parse::<i64>() {
        Ok(number) => Ok(Value::Int(number)),
        Err(_) => Ok(Value::Text(Text::of(alloc, word.as_bytes())?)),
    }
}

/// The values of words.
fn values_of(alloc: Global, words: &str) -> anyhow::Result<Vec<Value>> {
    let mut values = Vec::new(alloc);
    for word in words.split_whitespace() {
        values.push(value_of(alloc, word)?)?;
    }
    Ok(values)
}

/// `CREATE TABLE t (id INT, PRIMARY KEY (id))`.
fn created_table(alloc: Global) -> anyhow::Result<Change> {
    let id = Column {
        name: Name::of(alloc, b"id")?,
        admits: Admit::Int,
    };
    let table = Table {
        name: Name::of(alloc, b"t")?,
        columns: Sequence::of(vec![in alloc; id]?),
        key: Sequence::of(vec![in alloc; 0u8]?),
    };
    Ok(Change::Schema(SchemaChange::Table(table)))
}

/// `INSERT INTO t VALUES (3)`.
fn inserted_row(alloc: Global) -> anyhow::Result<Change> {
    let write = TableWrite {
        table: Name::of(alloc, b"t")?,
        change: RowChange::Put(Row::of(vec![in alloc; Value::Int(3)]?)),
    };
    Ok(Change::Commit(Sequence::of(vec![in alloc; write]?)))
}

/// Writes a list of all bytes but the last one, and that one behind the list.
fn put_list_and_byte(bytes: Vec<u8>, out: &mut Vec<u8>) -> anyhow::Result<()> {
    let mut bytes = bytes;
    let last = bytes.pop().context("no byte")?;
    put_whole(out, &(Sequence::of(bytes), last))?;
    Ok(())
}

/// Writes a record.
fn put_record(alloc: Global, change: &Change, out: &mut Vec<u8>) -> Result<(), Memory> {
    out.extend_from_slice(encode(alloc, change)?.as_slice())?;
    Ok(())
}

/// Writes what a kind and words tell behind what stands in `out`.
pub fn put(alloc: Global, line: &str, out: &mut Vec<u8>) -> anyhow::Result<()> {
    let (kind, words) = first_word(line);
    match kind {
        "bytes" => out.extend_from_slice(bytes_of(alloc, words)?.as_slice())?,
        "u8" => put_u8(out, words.parse()?)?,
        "u32" => put_u32(out, words.parse()?)?,
        "i64" => put_i64(out, words.parse()?)?,
        "name" => put_name(out, &Name::of(alloc, words.as_bytes())?)?,
        "value" => put_value(out, &value_of(alloc, words)?)?,
        "key" => put_key(out, &Key::of(values_of(alloc, words)?))?,
        "row" => put_row(out, &Row::of(values_of(alloc, words)?))?,
        "list-and-byte" => put_list_and_byte(bytes_of(alloc, words)?, out)?,
        "created-table" => put_record(alloc, &created_table(alloc)?, out)?,
        "inserted-row" => put_record(alloc, &inserted_row(alloc)?, out)?,
        _ => bail!("no kind {kind}"),
    }
    Ok(())
}
