//! The index that serves a condition, and the rows that it lists.

ghost use Rattle.std.specs.Prelude.{◌≡◌, IfNone, IfOk, IfSome, IsTrue, map};
ghost use Rattle.bf_index.specs.Edits.{IsIndexOf};
ghost use Rattle.bf_index.specs.Pairs.{keys_with};
ghost use Rattle.bf_access.specs.ByIndex.{IsIndexFor, NoneServes, all_fixed, columns_for, entries_at, entries_with, fixed_front, fixed_value, is_fixed};

use bf_base::{Key, Memory, Row, Table};
use bf_heap::Heap;
use bf_index::Index;
use bf_tree::{Cond, column_fixed};
use std::alloc::Global;

/// Whether a condition fixes the column at a place, in time linear in the condition.
fn is_fixed(cond: &Cond, place: u8) -> bool
    ensures { result ≡ is_fixed cond.now place }
{
    column_fixed(cond, place).is_some()
}

/// Whether a condition fixes each of some columns.
fn all_fixed(cond: &Cond, columns: &[u8]) -> bool
    ensures { result ≡ all_fixed cond.now columns.now }
{
    columns.iter().all(|place| is_fixed(cond, *place))
}

/// The number of columns of an index that serves a condition, and 0 of one that doesn't.
fn columns_for(cond: &Cond, index: &Index) -> usize
    ensures { result ≡ columns_for cond.now index.now }
{
    let columns = index.columns();
    if all_fixed(cond, columns) {
        columns.len()
    } else {
        0
    }
}

/// The number of columns of a table's key that a condition fixes before the first that it leaves open.
fn fixed_front(cond: &Cond, table: &Table) -> usize
    ensures { result ≡ fixed_front table.now cond.now }
{
    let key = table.key.as_slice();
    key.iter()
        .take_while(|place| is_fixed(cond, **place))
        .count()
}

/// The index in which the rows that satisfy a condition are looked up: one whose columns the condition
/// all fixes, by `column = literal` among its conjuncts, and of these one that has the most columns.
/// `None` exactly where none of these has more columns than the condition fixes of the key before the
/// first that it leaves open, since the range of keys that it leaves serves as well then. It goes over
/// the condition once for each column of the indexes and of the key, and takes no memory.
pub fn index_for<'i>(indexes: &'i [Index], table: &Table, cond: &Cond) -> Option<&'i Index>
    ensures some { IfSome result (λ index. IsIndexFor indexes.now table.now cond.now index.now) }
    ensures none { IfNone result (NoneServes indexes.now table.now cond.now) }
{
    let mut most = fixed_front(cond, table);
    let mut best = None;
    for index in indexes {
        let columns = columns_for(cond, index);
        if columns > most {
            most = columns;
            best = Some(index);
        }
    }
    best
}

/// The value that a condition fixes some columns to.
fn fixed_value(alloc: Global, cond: &Cond, columns: &[u8]) -> Result<Key, Memory>
    requires { IsTrue (all_fixed cond.now columns.now) }
    ensures { IfOk result (λ value. value ≡ fixed_value cond.now columns.now) }
{
    let mut values = Vec::with_capacity(alloc, columns.len())?;
    for place in columns {
        let value = column_fixed(cond, *place).unwrap();
        values.push(value.copy(alloc)?)?;
    }
    Ok(Key::of(values))
}

/// Copies of the keys that an index has with the value that a condition fixes its columns to, in
/// order. It takes time logarithmic in the rows, and time and memory linear in the answer.
pub fn keys_by_index(alloc: Global, index: &Index, cond: &Cond) -> Result<Vec<Key>, Memory>
    requires { IsTrue (all_fixed cond.now index.now.columns) }
    ensures { IfOk result (λ keys. keys.items
        ≡ keys_with index.now.pairs (fixed_value cond.now index.now.columns)) }
{
    index.find(alloc, &fixed_value(alloc, cond, index.columns())?)
}

/// The rows under some keys, each with its key.
fn rows_at<'a>(alloc: Global, heap: &'a Heap, keys: Vec<Key>) -> Result<Vec<(Key, &'a Row)>, Memory>
    ensures { IfOk result (λ rows. map (λ entry. (entry.0, entry.1.now)) rows.items
        ≡ entries_at heap.now.entries keys.items) }
{
    let mut rows = Vec::with_capacity(alloc, keys.len())?;
    for key in keys {
        if let Some(row) = heap.get(&key) {
            rows.push((key, row))?;
        }
    }
    Ok(rows)
}

/// The rows of a heap that have the value which a condition fixes an index's columns to, each with
/// its key, in key order. Each is a look-up in the heap, so that it takes time logarithmic in the
/// rows for each row that it gives, and memory for the keys and the references.
pub fn rows_by_index<'a>(
    alloc: Global,
    heap: &'a Heap,
    index: &Index,
    cond: &Cond,
) -> Result<Vec<(Key, &'a Row)>, Memory>
    requires index { IsIndexOf heap.now.entries index.now }
    requires serves { IsTrue (all_fixed cond.now index.now.columns) }
    ensures { IfOk result (λ rows. map (λ entry. (entry.0, entry.1.now)) rows.items
        ≡ entries_with index.now.columns (fixed_value cond.now index.now.columns)
        heap.now.entries) }
{
    // By its contract the heap is in the order of its keys.
    let _ = heap.len();
    rows_at(alloc, heap, keys_by_index(alloc, index, cond)?)
}
