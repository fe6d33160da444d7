//! Reading fields and records, each of which is written again.

use anyhow::bail;
use bf_base::{Memory, Sequence};
use bf_record::{decode, encode};
use bf_wire::{
    Field, put_whole, take_i64, take_key, take_name, take_row, take_u8, take_u32, take_value,
};
use std::alloc::Global;

/// Writes a field that was taken, and answers how many bytes it took.
fn spelled<T: Field>(
    found: Option<(T, usize)>,
    out: &mut Vec<u8>,
) -> Result<Option<usize>, Memory> {
    match found {
        Some((field, taken)) => {
            put_whole(out, &field)?;
            Ok(Some(taken))
        }
        None => Ok(None),
    }
}

/// Reads a record and writes it again.
fn record_again(alloc: Global, bytes: &[u8], out: &mut Vec<u8>) -> Result<Option<usize>, Memory> {
    match decode(alloc, bytes)? {
        Some(change) => {
            out.extend_from_slice(encode(alloc, &change)?.as_slice())?;
            Ok(Some(bytes.len()))
        }
        None => Ok(None),
    }
}

/// Reads what bytes begin with, writes it again behind what stands in `out`, and answers how many bytes it took.
pub fn again(
    alloc: Global,
    kind: &str,
    bytes: &[u8],
    out: &mut Vec<u8>,
) -> anyhow::Result<Option<usize>> {
    Ok(match kind {
        "u8" => spelled(take_u8(alloc, bytes)?, out)?,
        "u32" => spelled(take_u32(alloc, bytes)?, out)?,
        "i64" => spelled(take_i64(alloc, bytes)?, out)?,
        "name" => spelled(take_name(alloc, bytes)?, out)?,
        "value" => spelled(take_value(alloc, bytes)?, out)?,
        "key" => spelled(take_key(alloc, bytes)?, out)?,
        "row" => spelled(take_row(alloc, bytes)?, out)?,
        "list-and-byte" => spelled(<(Sequence<u8>, u8)>::take(alloc, bytes)?, out)?,
        "record" => record_again(alloc, bytes, out)?,
        _ => bail!("no kind {kind}"),
    })
}

/// Whether a proper front of bytes begins with what can be read.
pub fn has_front(alloc: Global, kind: &str, bytes: &[u8]) -> anyhow::Result<bool> {
    let mut out = Vec::new(alloc);
    for len in 0..bytes.len() {
        if again(alloc, kind, &bytes[..len], &mut out)?.is_some() {
            return Ok(true);
        }
    }
    Ok(false)
}
