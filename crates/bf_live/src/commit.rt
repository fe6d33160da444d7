//! What a transaction has written, put into the heaps of tables.

ghost use Rattle.std.specs.Prelude.{◌≡◌, ◌≤◌, ◌+◌, OnOk, fold};
ghost use Rattle.std.specs.List.{All};
ghost use Rattle.bf_live.specs.Merged.{applied_to};
ghost use Rattle.bf_live.specs.Live.{rows_in};
ghost use Rattle.bf_live.specs.Commits.{HasRoomIn, HaveRoomFor, KeepRoom, LeaveRoom, key_puts, put_by, taken_by, with_writes, with_writes_to};

use bf_base::{Key, Memory, Name, Row};
use bf_index::IndexedHeap;
use bf_txn::{TableWrites, Workspace};
use std::collections::BTreeMap;

/// Makes room in a table's heap for this many rows, if the table is there.
pub(crate) fn make_room_in(
    heaps: &mut BTreeMap<Name, IndexedHeap>,
    table: &Name,
    count: usize,
) -> Result<(), Memory>
    ensures rows { rows_in heaps.new.entries ≡ rows_in heaps.old.entries }
    ensures kept { KeepRoom heaps.old.entries heaps.new.entries }
    ensures room { OnOk result (All (HasRoomIn table.now count) heaps.new.entries) }
{
    if let Some(heap) = heaps.get_mut(table) {
        let Ok(more) = u32::try_from(count) else {
            return Err(Memory);
        };
        return heap.reserve(more);
    }
    Ok(())
}

/// Makes room in each table's heap for the rows that a transaction has put there. It looks a table
/// up once, and is linear in the writes.
///
/// # Errors
/// Where memory runs out. The heaps have their rows then, and may have more room.
pub fn make_room(heaps: &mut BTreeMap<Name, IndexedHeap>, writes: &Workspace) -> Result<(), Memory>
    ensures rows { rows_in heaps.new.entries ≡ rows_in heaps.old.entries }
    ensures room { OnOk result (HaveRoomFor writes.now heaps.new.entries) }
{
    for (table, writes) in writes.tables() {
        make_room_in(heaps, table, writes.count_puts())?;
    }
    Ok(())
}

/// Puts a row under its key into a heap, or removes the one that is there. Takes no memory but for the
/// heap's indexes, of which one is given up where it runs out.
pub(crate) fn change(heap: &mut IndexedHeap, key: Key, row: Option<Row>)
    requires { put_by row ≤ heap.old.spare }
    ensures entries { heap.new.entries ≡ applied_to heap.old.entries (key, row) }
    ensures spare { heap.old.spare ≤ heap.new.spare + put_by row }
{
    match row {
        Some(row) => {
            heap.put(key, row);
        }
        None => {
            heap.remove(&key);
        }
    }
}

/// Makes each write to a table in its heap, in the order of the keys. Takes no memory but for the heap's
/// indexes.
fn change_all(heap: &mut IndexedHeap, writes: TableWrites)
    requires { key_puts writes ≤ heap.old.spare }
    ensures entries { heap.new.entries ≡ fold applied_to heap.old.entries writes }
    ensures spare { heap.old.spare ≤ heap.new.spare + key_puts writes }
{
    for (key, row) in writes.into_iter() {
        change(heap, key, row);
    }
}

/// Makes each write to a table in its heap, if the table is there. Takes no memory but for the heap's
/// indexes.
fn apply_in(heaps: &mut BTreeMap<Name, IndexedHeap>, table: &Name, writes: TableWrites)
    requires { All (HasRoomIn table.now (key_puts writes)) heaps.old.entries }
    ensures rows { rows_in heaps.new.entries
        ≡ with_writes_to table.now writes (rows_in heaps.old.entries) }
    ensures room { LeaveRoom (taken_by table.now writes) heaps.old.entries heaps.new.entries }
{
    if let Some(heap) = heaps.get_mut(table) {
        change_all(heap, writes);
    }
}

/// Makes each write in its table's heap, and passes over those to tables that are not there. It
/// looks a table up once. Takes no memory but for the heaps' indexes.
pub fn apply(heaps: &mut BTreeMap<Name, IndexedHeap>, writes: Workspace)
    requires { HaveRoomFor writes heaps.old.entries }
    ensures { rows_in heaps.new.entries ≡ with_writes writes (rows_in heaps.old.entries) }
{
    for (table, writes) in writes.into_tables() {
        apply_in(heaps, &table, writes);
    }
}
