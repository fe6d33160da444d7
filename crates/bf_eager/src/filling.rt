//! Heaps of given rows.

ghost use Rattle.std.specs.List.{AllByRecursion};
ghost use Rattle.std.specs.Prelude.{◌≡◌, IfOk, IsTrue};
ghost use Rattle.bf_base.specs.Tables.{IsKeyWithin};
ghost use Rattle.bf_eager.specs.Starting.{entries_in_order, have_different_keys};

use bf_base::{Memory, Row, Table, key_of};
use bf_heap::Heap;
use std::alloc::Global;

/// A heap of the rows of a table, each under its key.
///
/// # Errors
/// Where memory runs out, or there are 2 ^ 32 rows or more.
pub(crate) fn heap_of(alloc: Global, table: &Table, rows: Vec<Row>) -> Result<Heap, Memory>
    requires within { AllByRecursion (IsKeyWithin table.now) rows.items }
    requires keys { IsTrue (have_different_keys table.now rows.items) }
    ensures { IfOk result (λ heap. heap.entries ≡ entries_in_order table.now rows.items) }
{
    let Ok(count) = u32::try_from(rows.len()) else {
        return Err(Memory);
    };
    let mut heap = Heap::new(alloc);
    heap.reserve(count)?;
    for row in rows {
        let key = key_of(alloc, table, &row)?;
        heap.put(key, row);
    }
    Ok(heap)
}
