//! The rows of a table by the values that they have at some places.

ghost use Rattle.std.specs.Prelude.{◌≡◌, [], ◌∷◌, ◌++◌, List, IfOk, IsTrue, OnOk, if◌then◌else◌, length, nat_lt, slice_get, unwrap_or};
ghost use Rattle.std.specs.BTreeMap as tree;
ghost use Rattle.std.specs.List.{list_all};
ghost use Rattle.std.specs.List.Sorted.{IsBinarySearchResult, IsSearchInRange};
ghost use Rattle.std.specs.Option.{option_map};
ghost use Rattle.bf_base.specs.declared.value.Value.{Value as Cell};
ghost use Rattle.bf_base.specs.Lists.{same_key};
ghost use Rattle.bf_base.specs.Maps.{is_map};
ghost use Rattle.bf_base.specs.Tables.{cells};
ghost use Rattle.bf_base.specs.Values.{key_cmp};
ghost use Rattle.bf_index.specs.ByValues.{are_within, by_value, positions_under, value_of, values_at};

use bf_base::{Key, Memory, Row, Sequence};
use bf_heap::FrozenHeap;
use std::alloc::Global;
use std::collections::BTreeMap;
use std::marker::Model;

/// The values that the rows of a frozen table have at some places, each with the positions of its
/// rows. Contracts see the values in their order, each once, and the positions of each in order.
#[derive(Drop)]
pub struct ByValue {
    entries: Vec<(Key, Sequence<u32>)>,
}

impl Model for ByValue {
    ghost use Rattle.std.specs.Prelude.{List, IsTrue};
    ghost use Rattle.bf_base.specs.Maps.{is_map};
    ghost use Rattle.bf_base.specs.Values.{key_cmp};
    ghost use Rattle.bf_index.specs.ByValues.{Valued, value_of};

    ghost Value = { List Valued };

    ghost view = { λ index. index.entries.items };

    ghost invariant = { λ index. IsTrue (is_map key_cmp value_of index.entries.items) };
}

/// The values of a row at some places.
fn value_at(alloc: Global, places: &[u8], row: &Row) -> Result<Key, Memory>
    requires { IsTrue (list_all (λ place. nat_lt place (length row.now)) places.now) }
    ensures { IfOk result (λ value. value ≡ cells places.now row.now) }
{
    let row = row.as_slice();
    let mut values = Vec::with_capacity(alloc, places.len())?;
    for place in places {
        values.push(row[*place as usize].copy(alloc)?)?;
    }
    Ok(Key::of(values))
}

/// Adds a position behind those of a value.
fn add(
    alloc: Global,
    index: &mut BTreeMap<Key, Sequence<u32>>,
    value: Key,
    position: u32,
) -> Result<(), Memory>
    ensures ordered { OnOk result (tree.IsOrdered key_cmp index.new) }
    ensures added { OnOk result ((other : List Cell) → tree.get key_cmp index.new other
        ≡ (if same_key value other
        then Some (unwrap_or (tree.get key_cmp index.old value) [] ++ position ∷ [])
        else tree.get key_cmp index.old other)) }
{
    if let Some(positions) = index.get_mut(&value) {
        positions.insert(positions.len(), position)?;
        return Ok(());
    }
    let mut positions = Vec::new(alloc);
    positions.push(position)?;
    index.insert(value, Sequence::of(positions))?;
    Ok(())
}

/// The values at some places of all rows, each with the positions of its rows.
fn index_of(
    alloc: Global,
    heap: &FrozenHeap,
    places: &[u8],
) -> Result<BTreeMap<Key, Sequence<u32>>, Memory>
    requires { IsTrue (are_within places.now heap.now) }
    ensures { IfOk result (λ index. index.entries ≡ by_value (values_at places.now heap.now)) }
{
    let mut index = BTreeMap::new(alloc);
    let mut rows = heap.first();
    let mut read = 0;
    for position in 0..heap.len() {
        read = heap.read_on(position, heap.len(), read);
        let Some((_, row)) = rows.get() else {
            unreachable!()
        };
        let value = value_at(alloc, places, row)?;
        add(alloc, &mut index, value, position)?;
        rows.advance();
    }
    Ok(index)
}

/// The entries of an index, in the order of their values.
fn entries_of(
    alloc: Global,
    index: BTreeMap<Key, Sequence<u32>>,
) -> Result<Vec<(Key, Sequence<u32>)>, Memory>
    ensures { IfOk result (λ entries. entries.items ≡ index.entries) }
{
    let mut entries = Vec::with_capacity(alloc, index.len())?;
    for entry in index {
        entries.push(entry)?;
    }
    Ok(entries)
}

/// Where a value stands among entries in the order of their values, or else where it would. It
/// compares about log n values, and takes no memory.
fn find(entries: &[(Key, Sequence<u32>)], value: &Key) -> Result<usize, usize>
    ensures bound { IsSearchInRange result (length entries.now) }
    ensures position { IsBinarySearchResult (λ entry. key_cmp entry.0 value.now)
        entries.now result }
{
    entries.binary_search_by(|entry| entry.0.compare(value))
}

impl ByValue {
    /// The values that the rows of a table have at some places. It goes over the rows once and
    /// compares about log n values for each; it copies each row's values there, and takes memory
    /// linear in the rows.
    pub fn of(alloc: Global, heap: &FrozenHeap, places: &[u8]) -> Result<ByValue, Memory>
        requires { IsTrue (are_within places.now heap.now) }
        ensures { IfOk result (λ index. index ≡ by_value (values_at places.now heap.now)) }
    {
        let index = index_of(alloc, heap, places)?;
        let entries = entries_of(alloc, index)?;
        Ok(ByValue { entries })
    }

    /// The number of values. Takes no memory.
    pub fn len(&self) -> usize
        ensures count { result ≡ length self.now }
        ensures in_order { IsTrue (is_map key_cmp value_of self.now) }
    {
        self.entries.len()
    }

    /// The value of a place in the order of values, counted from 0, and the positions of its rows;
    /// `None` exactly where the place is not below the number of values. Takes no memory, and
    /// constant time.
    pub fn at(&self, place: usize) -> Option<(&Key, &[u32])>
        ensures { option_map (λ entry. (entry.0.now, entry.1.now)) result
            ≡ slice_get self.now place }
    {
        let entry = self.entries.get(place)?;
        Some((&entry.0, entry.1.as_slice()))
    }

    /// The positions of the rows with a value, in order: none exactly where no row has it. It compares
    /// about log n values, and takes no memory.
    pub fn positions(&self, value: &Key) -> &[u32]
        ensures { result.now ≡ positions_under self.now value.now }
    {
        match find(&self.entries, value) {
            Ok(place) => self.entries[place].1.as_slice(),
            Err(_) => &[],
        }
    }
}
