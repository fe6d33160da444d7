//! Texts in which bytes are escaped.

use anyhow::Context;
use std::alloc::Global;

/// Adds the byte of two digits, and the bytes behind them.
fn put_escaped(part: &str, bytes: &mut Vec<u8>) -> anyhow::Result<()> {
    let (digits, rest) = part.split_at_checked(2).context("a byte of one digit")?;
    bytes.push(u8::from_str_radix(digits, 16)?)?;
    bytes.extend_from_slice(rest.as_bytes())?;
    Ok(())
}

/// The bytes of a text in which `\x` and two digits stand for a byte.
pub fn unescaped(alloc: Global, text: &str) -> anyhow::Result<Vec<u8>> {
    let mut bytes = Vec::new(alloc);
    let (front, _) = text.split_once("\\x").unwrap_or((text, ""));
    bytes.extend_from_slice(front.as_bytes())?;
    for part in text.split("\\x").skip(1) {
        put_escaped(part, &mut bytes)?;
    }
    Ok(bytes)
}
