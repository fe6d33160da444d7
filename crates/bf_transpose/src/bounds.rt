//! Where in a table the rows stand whose keys are in a range, or are listed, and which values are in a
//! range.

ghost use Rattle.std.specs.Prelude.{◌≡◌, ◌≤◌, IfOk, IsTrue, drop, length, slice_get, take};
ghost use Rattle.std.specs.List.{list_all};
ghost use Rattle.bf_heap.specs.KeyRanges.{is_before, is_behind};
ghost use Rattle.bf_access.specs.Ranges.{key_range_of};
ghost use Rattle.bf_index.specs.ByValues.{value_of};
ghost use Rattle.bf_transpose.specs.KeysBehind.{passes_at, with_key, with_key_behind};
ghost use Rattle.bf_transpose.specs.Positions.{positions_under};

use bf_access::key_range;
use bf_base::{Key, Memory, Sequence, Table};
use bf_heap::{FrozenHeap, KeyRange};
use bf_index::ByValue;
use bf_tree::Cond;
use std::alloc::Global;

/// The places of a table's key, but for the tag of several arms.
fn places_behind(alloc: Global, table: &Table, is_tagged: bool) -> Result<Sequence<u8>, Memory>
    ensures { IfOk result (λ places. places ≡ (with_key_behind is_tagged table.now).key) }
{
    let places = table.key.as_slice();
    let first = if is_tagged && !places.is_empty() {
        1
    } else {
        0
    };
    let mut behind = Vec::with_capacity(alloc, places.len())?;
    behind.extend_from_slice(&places[first..])?;
    Ok(Sequence::of(behind))
}

/// A table as if its key stood at some places.
fn with_key(alloc: Global, table: &Table, key: Sequence<u8>) -> Result<Table, Memory>
    ensures { IfOk result (λ seen. seen ≡ with_key key table.now) }
{
    Ok(Table {
        name: table.name.copy(alloc)?,
        columns: table.columns.copy(alloc)?,
        key,
    })
}

/// The range of the keys of a driver's rows that a condition leaves, where they are the keys of a
/// new table behind the tag of several arms.
///
/// # Errors
/// Where memory runs out.
pub(crate) fn range_behind(
    alloc: Global,
    table: &Table,
    is_tagged: bool,
    cond: &Cond,
) -> Result<KeyRange, Memory>
    ensures { IfOk result (λ range.
        range ≡ key_range_of (with_key_behind is_tagged table.now) cond.now) }
{
    let places = places_behind(alloc, table, is_tagged)?;
    let behind = with_key(alloc, table, places)?;
    key_range(alloc, &behind, cond)
}

/// The range of the values at some columns of a table that a condition on it leaves.
///
/// # Errors
/// Where memory runs out.
pub(crate) fn range_at(
    alloc: Global,
    table: &Table,
    columns: Vec<u8>,
    cond: &Cond,
) -> Result<KeyRange, Memory>
    ensures { IfOk result (λ range.
        range ≡ key_range_of (with_key columns.items table.now) cond.now) }
{
    let seen = with_key(alloc, table, Sequence::of(columns))?;
    key_range(alloc, &seen, cond)
}

/// Whether the key at a position is before a range; not where there is none.
fn is_before_at(heap: &FrozenHeap, range: &KeyRange, position: u32) -> bool
    ensures { result ≡ passes_at (is_before range.now.low) (slice_get heap.now position) }
{
    match heap.at(position) {
        Some((key, _)) => range.is_before(key),
        None => false,
    }
}

/// Whether the key at a position is behind a range; not where there is none.
fn is_behind_at(heap: &FrozenHeap, range: &KeyRange, position: u32) -> bool
    ensures { result ≡ passes_at (is_behind range.now.high) (slice_get heap.now position) }
{
    match heap.at(position) {
        Some((key, _)) => range.is_behind(key),
        None => false,
    }
}

/// How many rows are before a range. It compares about log n keys, and takes no memory.
pub(crate) fn rows_before(heap: &FrozenHeap, range: &KeyRange) -> u32
    ensures bound { result ≤ length heap.now }
    ensures before { IsTrue (list_all (λ entry. is_before range.now.low entry.0)
        (take result heap.now)) }
{
    let mut low = 0;
    let mut high = heap.len();
    while low < high {
        let middle = low + (high - low) / 2;
        if is_before_at(heap, range, middle) {
            low = middle + 1;
        } else {
            high = middle;
        }
    }
    low
}

/// How many rows are before a range or in it. It compares about log n keys, and takes no memory.
pub(crate) fn rows_to_end(heap: &FrozenHeap, range: &KeyRange) -> u32
    ensures bound { result ≤ length heap.now }
    ensures behind { IsTrue (list_all (λ entry. is_behind range.now.high entry.0)
        (drop result heap.now)) }
{
    let mut low = 0;
    let mut high = heap.len();
    while low < high {
        let middle = low + (high - low) / 2;
        if is_behind_at(heap, range, middle) {
            high = middle;
        } else {
            low = middle + 1;
        }
    }
    high
}

/// Whether the value at a place is before a range; not where there is none.
fn is_value_before(values: &ByValue, range: &KeyRange, place: usize) -> bool
    ensures { result ≡ passes_at (is_before range.now.low) (slice_get values.now place) }
{
    match values.at(place) {
        Some((value, _)) => range.is_before(value),
        None => false,
    }
}

/// Whether the value at a place is behind a range; not where there is none.
fn is_value_behind(values: &ByValue, range: &KeyRange, place: usize) -> bool
    ensures { result ≡ passes_at (is_behind range.now.high) (slice_get values.now place) }
{
    match values.at(place) {
        Some((value, _)) => range.is_behind(value),
        None => false,
    }
}

/// How many values are before a range. It compares about log n values, and takes no memory.
pub(crate) fn values_before(values: &ByValue, range: &KeyRange) -> usize
    ensures bound { result ≤ length values.now }
    ensures before { IsTrue (list_all (λ entry. is_before range.now.low (value_of entry))
        (take result values.now)) }
{
    let mut low = 0;
    let mut high = values.len();
    while low < high {
        let middle = low + (high - low) / 2;
        if is_value_before(values, range, middle) {
            low = middle + 1;
        } else {
            high = middle;
        }
    }
    low
}

/// How many values are before a range or in it. It compares about log n values, and takes no memory.
pub(crate) fn values_to_end(values: &ByValue, range: &KeyRange) -> usize
    ensures bound { result ≤ length values.now }
    ensures behind { IsTrue (list_all (λ entry. is_behind range.now.high (value_of entry))
        (drop result values.now)) }
{
    let mut low = 0;
    let mut high = values.len();
    while low < high {
        let middle = low + (high - low) / 2;
        if is_value_behind(values, range, middle) {
            high = middle;
        } else {
            low = middle + 1;
        }
    }
    high
}

/// The positions of the rows under some keys, in the order of the keys. For each it compares about
/// log n keys.
///
/// # Errors
/// Where memory runs out.
pub(crate) fn positions_of(
    alloc: Global,
    heap: &FrozenHeap,
    keys: &[Key],
) -> Result<Vec<u32>, Memory>
    ensures { IfOk result (λ positions. positions.items ≡ positions_under heap.now keys.now) }
{
    let mut positions = Vec::new(alloc);
    for key in keys {
        if let Some(position) = heap.position(key) {
            positions.push(position)?;
        }
    }
    Ok(positions)
}
