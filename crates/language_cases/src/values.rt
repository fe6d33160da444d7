//! Values that words write: a number, or a text that stands between quotes as it is.

use crate::bytes::tell_bytes;
use bf_base::{Row, Text, Value};
use std::alloc::Global;

/// The value that a word writes.
pub fn value_of(alloc: Global, word: &str) -> anyhow::Result<Value> {
    match word.strip_prefix("'") {
        Some(rest) => {
            let letters = rest.strip_suffix("'").unwrap_or(rest);
            Ok(Value::Text(Text::of(alloc, letters.as_bytes())?))
        }
        None => Ok(Value::Int(word.parse::<i64>()?)),
    }
}

/// Adds the values that words write.
pub fn put_values_of(alloc: Global, words: &str, values: &mut Vec<Value>) -> anyhow::Result<()> {
    for word in words.split_whitespace() {
        values.push(value_of(alloc, word)?)?;
    }
    Ok(())
}

/// The row of the values that words write.
pub fn row_of(alloc: Global, words: &str) -> anyhow::Result<Row> {
    let mut values = Vec::new(alloc);
    put_values_of(alloc, words, &mut values)?;
    Ok(Row::of(values))
}

/// Adds a value as a word writes it.
pub fn tell_value(value: &Value, told: &mut String) -> anyhow::Result<()> {
    match value {
        Value::Int(number) => write!(told, "{number}")?,
        Value::Text(text) => {
            told.push('\'')?;
            tell_bytes(text.as_bytes(), told)?;
            told.push('\'')?;
        }
    }
    Ok(())
}
