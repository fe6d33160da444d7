//! The rows of a table as a transaction sees them: those of the heap, under what it has written.

ghost use Rattle.std.specs.Prelude.{◌≡◌, ◌<◌, IfOk, IsTrue, OnSome, map};
ghost use Rattle.std.specs.Option.{option_map, option_to_list};
ghost use Rattle.bf_base.specs.Maps.{is_map};
ghost use Rattle.bf_base.specs.Tables.{cell};
ghost use Rattle.bf_base.specs.Values.{key_cmp};
ghost use Rattle.bf_heap.specs.Heaps.{key_of_entry, row_under};
ghost use Rattle.bf_index.specs.Edits.{AreIndexesOf};
ghost use Rattle.bf_sql.specs.Conditions.{fixed_key};
ghost use Rattle.bf_sql.specs.Queries.{selected};
ghost use Rattle.bf_query.specs.RowsAhead.{entries_ahead};
ghost use Rattle.bf_live.specs.Merged.{AreByKey, StandUnderOwnKeys, entries_under, rows_ahead, rows_stepped, rows_under, steps_ahead};

use crate::rows_ahead::{Listed, RowsAhead};
use bf_access::{index_for, key_range, rows_by_index};
use bf_base::{Key, Memory, Name, Row, Table};
use bf_heap::Heap;
use bf_index::Index;
use bf_tree::{Cond, holds};
use bf_txn::{Workspace, WritesAhead};
use std::alloc::Global;
use std::cmp::Ordering;

/// The row of a table under a key, and `None` exactly where there is none. It compares about
/// log n keys in the heap and in the workspace, and takes no memory.
pub fn row_at<'a>(
    heap: &'a Heap,
    workspace: &'a Workspace,
    table: &Name,
    key: &Key,
) -> Option<&'a Row>
    ensures { option_map (λ row. row.now) result
        ≡ row_under (entries_under heap.now.entries workspace.now table.now) key.now }
{
    match workspace.read(table, key) {
        Some(written) => written,
        None => heap.get(key),
    }
}

/// A pass over rows of a heap and writes to its table, in the order of keys.
#[derive(Drop)]
struct Merge<'a, 'k, 'r> {
    rows: RowsAhead<'a, 'k>,
    writes: WritesAhead<'a, 'r>,
    ghost in_order: { IsTrue (is_map key_cmp key_of_entry (entries_ahead rows)) },
    ghost by_key: { AreByKey writes },
}

impl<'a, 'k, 'r> Merge<'a, 'k, 'r> {
    /// Goes to the next key, and gives the row that stands there, or none where it is removed;
    /// `None` behind the last key. It takes constant time over many keys, and compares one pair of
    /// keys at most.
    fn advance(&mut self) -> Option<Option<&'a Row>>
        ensures rows { rows_stepped (option_map (λ row. option_map (λ r. r.now) row) result)
            (rows_ahead (entries_ahead self.new.rows) self.new.writes)
            ≡ rows_ahead (entries_ahead self.old.rows) self.old.writes }
        ensures nearer { OnSome result (steps_ahead (entries_ahead self.new.rows) self.new.writes
            < steps_ahead (entries_ahead self.old.rows) self.old.writes) }
    {
        match (self.rows.get(), self.writes.get()) {
            (None, None) => None,
            (Some((_, row)), None) => {
                self.rows.advance();
                Some(Some(row))
            }
            (None, Some((_, written))) => {
                self.writes.advance();
                Some(written)
            }
            (Some((key, row)), Some((at, written))) => match at.compare(key) {
                Ordering::Less => {
                    self.writes.advance();
                    Some(written)
                }
                Ordering::Equal => {
                    self.rows.advance();
                    self.writes.advance();
                    Some(written)
                }
                Ordering::Greater => {
                    self.rows.advance();
                    Some(Some(row))
                }
            },
        }
    }
}

/// The rows that satisfy a condition, in one pass over rows and the writes to their table.
fn scan<'a, 'k, 'r>(
    alloc: Global,
    rows: RowsAhead<'a, 'k>,
    writes: WritesAhead<'a, 'r>,
    cond: &Cond,
) -> Result<Vec<&'a Row>, Memory>
    requires rows { IsTrue (is_map key_cmp key_of_entry (entries_ahead rows)) }
    requires writes { AreByKey writes }
    ensures { IfOk result (λ found.
        map (λ row. row.now) found.items ≡ selected cell cond.now
        (rows_ahead (entries_ahead rows.entry) writes.entry)) }
{
    let mut merge = Merge { rows, writes };
    let mut found = Vec::new(alloc);
    while let Some(next) = merge.advance() {
        let Some(row) = next else {
            continue;
        };
        if holds(alloc, cond, row)? {
            found.push(row)?;
        }
    }
    Ok(found)
}

/// The row that is there, if it satisfies a condition.
fn if_it_holds<'a>(
    alloc: Global,
    found: Option<&'a Row>,
    cond: &Cond,
) -> Result<Vec<&'a Row>, Memory>
    ensures { IfOk result (λ rows.
        map (λ row. row.now) rows.items
        ≡ selected cell cond.now (option_to_list (option_map (λ row. row.now) found.entry))) }
{
    let mut rows = Vec::new(alloc);
    let Some(row) = found else {
        return Ok(rows);
    };
    if holds(alloc, cond, row)? {
        rows.push(row)?;
    }
    Ok(rows)
}

/// The rows of a table that satisfy a condition, in key order, where they stand. A key that the
/// condition fixes is looked up, in time logarithmic in the rows. Else one pass goes over rows of the
/// heap and the writes to the table whose keys are in the range that the condition leaves. Where
/// `index_for` gives an index, these are the rows that have the value which the condition fixes its
/// columns to: finding them takes time logarithmic in the rows, and that again for each of them. Else
/// they are the rows whose keys are in the range, and finding the first takes that time. The pass is
/// linear in the rows and the writes that it goes over. Memory is taken for the references, the ends
/// of the range, and the keys that the index gives.
pub fn selected_rows<'a>(
    alloc: Global,
    heap: &'a Heap,
    indexes: &[Index],
    workspace: &'a Workspace,
    table: &Table,
    cond: &Cond,
    fixed: &Option<Key>,
) -> Result<Vec<&'a Row>, Memory>
    requires indexes { AreIndexesOf heap.now.entries indexes.now }
    requires fixed { fixed.now ≡ fixed_key table.now cond.now }
    requires keys { StandUnderOwnKeys table.now heap.now.entries workspace.now }
    ensures { IfOk result (λ rows.
        map (λ row. row.now) rows.items
        ≡ selected cell cond.now (rows_under heap.now.entries workspace.now table.now.name)) }
{
    // By its contract the heap is in the order of its keys.
    let _ = heap.len();
    if let Some(key) = fixed {
        return if_it_holds(alloc, row_at(heap, workspace, &table.name, key), cond);
    }
    let range = key_range(alloc, table, cond)?;
    let writes = workspace.range(&table.name, &range);
    match index_for(indexes, table, cond) {
        Some(index) => {
            let listed = rows_by_index(alloc, heap, index, cond)?;
            let rows = RowsAhead::Listed(Listed {
                rows: listed.as_slice(),
            });
            scan(alloc, rows, writes, cond)
        }
        None => {
            let rows = RowsAhead::InRange(heap.range(&range));
            scan(alloc, rows, writes, cond)
        }
    }
}
