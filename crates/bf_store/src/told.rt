//! What the record of a commit tells.

ghost use Rattle.std.specs.Prelude.{◌≡◌};
ghost use Rattle.std.specs.List.{list_any};
ghost use Rattle.bf_store.specs.Calls.{is_told};
ghost use Rattle.bf_store.specs.Told.{is_told_in};

use bf_base::{Key, Row};
use bf_heap::Heap;
use bf_live::LiveTables;
use bf_txn::{TableWrites, Workspace};

/// Whether a record tells a write to a table: it puts a row, or it removes one that is there.
fn tells_write(heap: &Heap, key: &Key, row: &Option<Row>) -> bool
    ensures { result ≡ is_told_in heap.now.entries (key.now, row.now) }
{
    row.is_some() || heap.get(key).is_some()
}

/// Whether a record tells any of the writes to a table.
fn tells_in(heap: &Heap, writes: &TableWrites) -> bool
    ensures { result ≡ list_any (is_told_in heap.now.entries) writes.now }
{
    for (key, row) in writes.iter() {
        if tells_write(heap, key, row) {
            return true;
        }
    }
    false
}

/// Whether a record tells any of some writes: a row that is put into a live table, or the removal
/// of one that stands there. It looks up each table and the row of each removal, up to the first
/// write that it tells. Takes no memory.
pub(crate) fn tells_any(live: &LiveTables, writes: &Workspace) -> bool
    ensures { result ≡ list_any (is_told live.now) writes.now }
{
    for (table, written) in writes.tables() {
        if let Some(heap) = live.heap(table) {
            if tells_in(heap, written) {
                return true;
            }
        }
    }
    false
}
