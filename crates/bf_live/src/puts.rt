//! Rows put into the heaps of tables under their keys.

ghost use Rattle.std.specs.Prelude.{◌≡◌, ◌≤◌, ◌+◌, ◌++◌, ◌∷◌, [], OnErr, OnOk, fold, length};
ghost use Rattle.std.specs.List.{All};
ghost use Rattle.bf_live.specs.Merged.{applied_to};
ghost use Rattle.bf_live.specs.Live.{rows_in};
ghost use Rattle.bf_live.specs.Commits.{HasRoomIn, HaveRoomFor, LeaveRoom, taken_by, with_writes, with_writes_to};
ghost use Rattle.bf_live.specs.Puts.{AreOfDifferentTables, all_puts, put_writes};

use crate::commit::{change, make_room_in};
use bf_base::{Key, Memory, Name, Row};
use bf_index::IndexedHeap;
use std::alloc::Global;
use std::collections::BTreeMap;
use std::marker::Model;

/// Rows to be put into a table under their keys. Contracts see the name of the table, and the rows
/// in the order in which they are put.
#[derive(Drop)]
pub struct Puts {
    table: Name,
    rows: Vec<(Key, Row)>,
}

impl Model for Puts {
    ghost use Rattle.bf_live.specs.Live.{NamedRows};

    ghost Value = { NamedRows };

    ghost view = { λ puts. (puts.table, puts.rows.items) };
}

impl Puts {
    /// No rows for the table of a name. Takes no memory.
    pub fn new(alloc: Global, table: Name) -> Puts
        ensures { result ≡ (table, []) }
    {
        Puts {
            table,
            rows: Vec::new(alloc),
        }
    }

    /// Adds a row behind the others, in constant time on average.
    ///
    /// # Errors
    /// Where memory runs out. The rows are as they were then.
    pub fn push(&mut self, key: Key, row: Row) -> Result<(), Memory>
        ensures ok { OnOk result (self.new ≡ (self.old.0, self.old.1 ++ (key, row) ∷ [])) }
        ensures err { OnErr result (self.new ≡ self.old) }
    {
        self.rows.push((key, row))?;
        Ok(())
    }
}

/// Makes room in each table's heap for the rows that are put there. It looks each table up once.
///
/// # Errors
/// Where memory runs out. The heaps have their rows then, and may have more room.
pub(crate) fn make_room_for(
    heaps: &mut BTreeMap<Name, IndexedHeap>,
    puts: &[Puts],
) -> Result<(), Memory>
    requires { AreOfDifferentTables puts.now }
    ensures rows { rows_in heaps.new.entries ≡ rows_in heaps.old.entries }
    ensures room { OnOk result (HaveRoomFor (all_puts puts.now) heaps.new.entries) }
{
    for one in puts {
        make_room_in(heaps, &one.table, one.rows.len())?;
    }
    Ok(())
}

/// Puts each row under its key into a heap, one after the other. Takes no memory but for the heap's
/// indexes, of which one is given up where it runs out.
fn put_each(heap: &mut IndexedHeap, rows: Vec<(Key, Row)>)
    requires { length rows.items ≤ heap.old.spare }
    ensures entries { heap.new.entries ≡ fold applied_to heap.old.entries (put_writes rows.items) }
    ensures spare { heap.old.spare ≤ heap.new.spare + length rows.items }
{
    for (key, row) in rows {
        change(heap, key, Some(row));
    }
}

/// Puts rows into their table's heap, if the table is there. Takes no memory but for the heap's indexes.
fn put_in(heaps: &mut BTreeMap<Name, IndexedHeap>, puts: Puts)
    requires { All (HasRoomIn puts.0 (length puts.1)) heaps.old.entries }
    ensures rows { rows_in heaps.new.entries
        ≡ with_writes_to puts.0 (put_writes puts.1) (rows_in heaps.old.entries) }
    ensures room { LeaveRoom (taken_by puts.0 (put_writes puts.1))
        heaps.old.entries heaps.new.entries }
{
    let Puts { table, rows } = puts;
    if let Some(heap) = heaps.get_mut(&table) {
        put_each(heap, rows);
    }
}

/// Puts rows into their tables' heaps, and passes over those for tables that are not there. It looks
/// each table up once. Takes no memory but for the heaps' indexes.
pub(crate) fn put_all(heaps: &mut BTreeMap<Name, IndexedHeap>, puts: Vec<Puts>)
    requires { HaveRoomFor (all_puts puts.items) heaps.old.entries }
    ensures { rows_in heaps.new.entries
        ≡ with_writes (all_puts puts.items) (rows_in heaps.old.entries) }
{
    for one in puts {
        put_in(heaps, one);
    }
}
