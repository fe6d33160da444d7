//! Keys, rows and ranges, as the words of a call write them.

use anyhow::{Context, bail};
use bf_base::{Key, Row, Text, Value};
use bf_heap::KeyRange;
use std::alloc::Global;
use std::ops::Bound;

/// A number, or a text in quotes.
fn value(alloc: Global, word: &str) -> anyhow::Result<Value> {
    if let Some(rest) = word.strip_prefix("'") {
        let letters = rest.strip_suffix("'").context("a text without an end")?;
        return Ok(Value::Text(Text::of(alloc, letters.as_bytes())?));
    }
    Ok(Value::Int(word.parse::<i64>().context("no number")?))
}

/// Adds values that have commas between them.
fn add_values(alloc: Global, word: &str, values: &mut Vec<Value>) -> anyhow::Result<()> {
    for part in word.split(",") {
        values.push(value(alloc, part)?)?;
    }
    Ok(())
}

/// The key of a word.
pub fn key(alloc: Global, word: &str) -> anyhow::Result<Key> {
    let mut values = Vec::new(alloc);
    if word != "()" {
        add_values(alloc, word, &mut values)?;
    }
    Ok(Key::of(values))
}

/// The row of a word, and none of `-`.
pub fn row(alloc: Global, word: &str) -> anyhow::Result<Option<Row>> {
    if word == "-" {
        return Ok(None);
    }
    Ok(Some(Row::of(key(alloc, word)?.into_vec())))
}

/// The places of columns, with commas between them.
pub fn columns(alloc: Global, word: &str) -> anyhow::Result<Vec<u8>> {
    let mut columns = Vec::new(alloc);
    for part in word.split(",") {
        columns.push(part.parse::<u8>().context("no column")?)?;
    }
    Ok(columns)
}

/// The end that one of two words has: the first one is of the range, and the second one is not, or leaves it open
/// where it is empty.
fn bound(alloc: Global, with: Option<&str>, without: Option<&str>) -> anyhow::Result<Bound<Key>> {
    match (with, without) {
        (Some(word), _) => Ok(Bound::Included(key(alloc, word)?)),
        (None, Some("")) => Ok(Bound::Unbounded),
        (None, Some(word)) => Ok(Bound::Excluded(key(alloc, word)?)),
        (None, None) => bail!("an end without a bracket"),
    }
}

/// The range of a word: `[LOW..HIGH]`, with a round bracket at an end that is not of it, or is open.
pub fn range(alloc: Global, word: &str) -> anyhow::Result<KeyRange> {
    let (low, high) = word.split_once("..").context("a range without two ends")?;
    let low = bound(alloc, low.strip_prefix("["), low.strip_prefix("("))?;
    let high = bound(alloc, high.strip_suffix("]"), high.strip_suffix(")"))?;
    Ok(KeyRange { low, high })
}
