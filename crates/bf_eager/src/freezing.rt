//! The old tables of a MIGRATE, as they are at the flip.

ghost use Rattle.std.specs.Prelude.{◌≡◌, IfOk, map};
ghost use Rattle.bf_base.specs.Lists.{has, same_name};
ghost use Rattle.bf_eager.specs.Freezing.{AreFrozen, CanFreeze};

use crate::filling::heap_of;
use bf_base::{Memory, Name, Row, Table};
use bf_heap::Heap;
use bf_image::Frozen;
use bf_index::{FrozenIndexedHeap, IndexedHeap};
use bf_live::LiveTables;
use std::alloc::Global;

/// Copies of the rows of a heap, in the order of their keys.
fn rows_in(alloc: Global, heap: &Heap) -> Result<Vec<Row>, Memory>
    ensures { IfOk result (λ rows. rows.items ≡ map (λ entry. entry.1) heap.now.entries) }
{
    let mut rows = Vec::with_capacity(alloc, heap.len() as usize)?;
    let mut ahead = heap.first();
    while let Some((_, row)) = ahead.get() {
        rows.push(row.copy(alloc)?)?;
        ahead.advance();
    }
    Ok(rows)
}

/// A copy of a table with copies of its rows, which no change reaches.
fn frozen(alloc: Global, table: &Table, heap: &Heap) -> Result<Frozen, Memory>
    requires { CanFreeze table.now heap.now.entries }
    ensures table { IfOk result (λ frozen. frozen.table ≡ table.now) }
    ensures rows { IfOk result (λ frozen. frozen.rows ≡ heap.now.entries) }
{
    let copy = table.copy(alloc)?;
    let rows = rows_in(alloc, heap)?;
    let heap = heap_of(alloc, table, rows)?;
    let indexed = IndexedHeap::of(alloc, heap);
    match FrozenIndexedHeap::of(alloc, indexed) {
        Ok(rows) => Ok(Frozen { table: copy, rows }),
        Err((_, memory)) => Err(memory),
    }
}

/// Whether a name is one of some names.
fn is_among(names: &[Name], name: &Name) -> bool
    ensures { result ≡ has same_name names.now name.now }
{
    names.iter().any(|other| *name == *other)
}

/// Copies of the old tables of a MIGRATE, in the order of their names. It compares each table's name
/// with theirs.
///
/// # Errors
/// Where memory runs out.
pub(crate) fn frozen_sources(
    alloc: Global,
    live: &LiveTables,
    sources: &[Name],
) -> Result<Vec<Frozen>, Memory>
    ensures { IfOk result (λ frozen. AreFrozen live.now sources.now frozen.items) }
{
    let mut all = Vec::new(alloc);
    for table in live.catalog().tables() {
        if is_among(sources, &table.name) {
            let Some(heap) = live.heap(&table.name) else {
                unreachable!();
            };
            let copy = frozen(alloc, table, heap)?;
            all.push(copy)?;
        }
    }
    Ok(all)
}
