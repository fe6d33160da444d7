//! The heaps of tables by their names.

ghost use Rattle.std.specs.Prelude.{◌≡◌};
ghost use Rattle.std.specs.BTreeMap.{is_at};
ghost use Rattle.std.specs.Map.{lookup};
ghost use Rattle.bf_base.specs.Lists.{name_cmp};
ghost use Rattle.bf_live.specs.Live.{rows_in, with_rows_under};

use bf_base::{Memory, Name};
use bf_index::IndexedHeap;
use std::collections::BTreeMap;
use std::mem;

/// Puts a heap in the place of the one of a name and hands that back, if it is there. It compares
/// about log n names. Takes no memory.
pub fn exchange_heap(
    heaps: &mut BTreeMap<Name, IndexedHeap>,
    name: &Name,
    heap: IndexedHeap,
) -> Option<IndexedHeap>
    ensures former { result ≡ lookup (is_at (name_cmp name.now)) heaps.old.entries }
    ensures rows { rows_in heaps.new.entries
        ≡ with_rows_under name.now heap.entries (rows_in heaps.old.entries) }
{
    match heaps.get_mut(name) {
        Some(place) => Some(mem::replace(place, heap)),
        None => None,
    }
}

/// Builds the index of the columns at these places over the rows of the table of a name, if it is there. It takes
/// time n log n in the rows.
///
/// # Errors
/// Where memory runs out. The table has the indexes that it had then.
pub fn build_index(
    heaps: &mut BTreeMap<Name, IndexedHeap>,
    name: &Name,
    columns: Vec<u8>,
) -> Result<(), Memory>
    ensures { rows_in heaps.new.entries ≡ rows_in heaps.old.entries }
{
    match heaps.get_mut(name) {
        Some(heap) => heap.add_index(columns),
        None => Ok(()),
    }
}
