//! Heaps with secondary indexes that follow their rows.

ghost use Rattle.std.specs.Prelude.{◌≡◌, ◌<◌, ◌≤◌, ◌⊎◌, IfOk, IsTrue, OnErr, OnOk};
ghost use Rattle.std.specs.Option.{option_map};
ghost use Rattle.bf_heap.specs.Heaps.{has_row, row_under, spare_after, with_row, without_row};
ghost use Rattle.bf_index.specs.Edits.{AreIndexesOf, HasFormer, IsIndexOf, edit_to, pair_of, pairs_moved, rows_after};
ghost use Rattle.bf_index.specs.Pairs.{with_pair};

use crate::index::Index;
use bf_base::{Key, Memory, Row};
use bf_heap::Heap;
use std::alloc::Global;
use std::marker::Model;

/// A heap with secondary indexes. Contracts see the rows and the room of the heap; each index is that of
/// the rows from scratch, whatever the calls.
///
/// To follow a change of the rows takes memory, and an index for which it runs out is given up. So there
/// may be fewer indexes than were added. No more than time is lost, since an index only spares scans, and
/// those that there are have followed.
#[derive(Drop)]
pub struct IndexedHeap {
    alloc: Global,
    heap: Heap,
    indexes: Vec<Index>,
}

impl Model for IndexedHeap {
    ghost use Rattle.bf_heap.specs.Heaps.{Rows};
    ghost use Rattle.bf_index.specs.Edits.{AreIndexesOf};

    ghost Value = { Rows };

    ghost view = { λ indexed. indexed.heap };

    ghost invariant = { λ indexed. AreIndexesOf indexed.heap.entries indexed.indexes.items };
}

/// Adds the pair of a row under its key to an index.
///
/// # Errors
/// Where memory runs out.
fn add_row(alloc: Global, index: &mut Index, key: &Key, row: &Row) -> Result<(), Memory>
    ensures columns { index.new.columns ≡ index.old.columns }
    ensures pairs { OnOk result (index.new.pairs
        ≡ with_pair index.old.pairs (pair_of index.old.columns (key.now, row.now))) }
{
    let value = index.value_of(alloc, row)?;
    let key = key.copy(alloc)?;
    index.reserve(1)?;
    index.add(value, key);
    Ok(())
}

/// The index of the rows of a heap, from scratch. It takes time in the order of n log n.
fn index_of(alloc: Global, heap: &Heap, columns: Vec<u8>) -> Result<Index, Memory>
    ensures { IfOk result (IsIndexOf heap.now.entries) }
{
    let mut index = Index::new(alloc, columns);
    index.reserve(heap.len())?;
    let mut ahead = heap.first();
    while let Some((key, row)) = ahead.get() {
        add_row(alloc, &mut index, key, row)?;
        ahead.advance();
    }
    Ok(index)
}

/// Lets an index follow where another row is put under a key than the former one, or none is left. It
/// compares about log n pairs. Where both rows have the same value, and where there is neither, it does
/// nothing, and takes no memory.
///
/// # Errors
/// Where memory runs out. The index may have lost the former row's pair then.
fn follow(
    alloc: Global,
    index: &mut Index,
    key: &Key,
    former: Option<&Row>,
    row: Option<&Row>,
) -> Result<(), Memory>
    requires { HasFormer index.old key.now (option_map (λ row. row.now) former) }
    ensures columns { index.new.columns ≡ index.old.columns }
    ensures pairs { OnOk result (index.new.pairs
        ≡ pairs_moved index.old.columns index.old.pairs key.now
        (option_map (λ row. row.now) former.entry) (option_map (λ row. row.now) row.entry)) }
{
    // By its contract the pairs are in order.
    let _ = index.len();
    if let (Some(former), Some(row)) = (former, row)
        && index.is_same_value(former, row)
    {
        return Ok(());
    }
    if let Some(former) = former {
        let value = index.value_of(alloc, former)?;
        index.take(&value, key);
    }
    match row {
        Some(row) => add_row(alloc, index, key, row),
        None => Ok(()),
    }
}

/// Lets the indexes of a heap's rows follow where a row is about to be put under a key, or the one there
/// to be removed. An index for which memory runs out is given up, and the others go on. Without indexes
/// it does nothing, and takes no memory.
fn follow_all(alloc: Global, indexes: &mut Vec<Index>, heap: &Heap, key: &Key, row: Option<&Row>)
    requires { AreIndexesOf heap.now.entries indexes.old.items }
    ensures { AreIndexesOf
        (rows_after heap.now.entries (edit_to key.now (option_map (λ row. row.now) row.entry)))
        indexes.new.items }
{
    if indexes.is_empty() {
        return;
    }
    // By its contract the heap is in the order of its keys.
    let _ = heap.len();
    let former = heap.get(key);
    let mut at = 0;
    while at < indexes.len() {
        match follow(alloc, &mut indexes[at], key, former, row) {
            Ok(()) => at += 1,
            Err(Memory) => {
                let _given_up = indexes.remove(at);
            }
        }
    }
}

impl IndexedHeap {
    /// A heap as it is, without indexes. Takes no memory.
    pub fn of(alloc: Global, heap: Heap) -> IndexedHeap
        ensures { result ≡ heap }
    {
        IndexedHeap {
            alloc,
            heap,
            indexes: Vec::new(alloc),
        }
    }

    /// The heap alone. Takes no memory.
    pub fn heap(&self) -> &Heap
        ensures { result.now ≡ self.now }
    {
        &self.heap
    }

    /// The indexes, each of which is that of the rows from scratch. Takes no memory.
    pub fn indexes(&self) -> &[Index]
        ensures { AreIndexesOf self.now.entries result.now }
    {
        self.indexes.as_slice()
    }

    /// Builds the index of the columns at these places, and puts it behind those that there are; where one
    /// of them has the same columns, that one serves. It goes over the rows, with about log n comparisons
    /// for each.
    ///
    /// # Errors
    /// Where memory runs out. The heap has the indexes that it had then.
    pub fn add_index(&mut self, columns: Vec<u8>) -> Result<(), Memory>
        ensures { self.new ≡ self.old }
    {
        if self
            .indexes
            .iter()
            .any(|index| *index.columns() == *columns)
        {
            return Ok(());
        }
        let index = index_of(self.alloc, &self.heap, columns)?;
        self.indexes.push(index)?;
        Ok(())
    }

    /// Makes room for this many further rows.
    ///
    /// # Errors
    /// Where there is less room and memory runs out, or rows and room together would reach 2 ^ 32.
    /// The rows and the room are as they were then.
    pub fn reserve(&mut self, more: u32) -> Result<(), Memory>
        ensures rows { self.new.entries ≡ self.old.entries }
        ensures room { OnOk result (more ≤ self.new.spare) }
        // Room that is there stays.
        ensures kept { self.old.spare ≤ self.new.spare }
        ensures err { OnErr result (self.new ≡ self.old) }
        ensures scarce { OnErr result (self.old.spare < more) }
    {
        self.heap.reserve(more)
    }

    /// Puts a row under a key, and answers the row that stood there. The key is there, or there is
    /// room. Each index follows, in about log n comparisons. That takes memory where there was no row or
    /// one of another value, and an index for which it runs out is given up. Without indexes it is `put`
    /// of the heap, and takes no memory.
    pub fn put(&mut self, key: Key, row: Row) -> Option<Row>
        requires { IsTrue (has_row self.old.entries key) ⊎ (0 < self.old.spare) }
        ensures former { result ≡ row_under self.old.entries key }
        ensures entries { self.new.entries ≡ with_row self.old.entries key row }
        ensures spare { self.new.spare ≡ spare_after self.old key }
    {
        follow_all(self.alloc, &mut self.indexes, &self.heap, &key, Some(&row));
        self.heap.put(key, row)
    }

    /// Takes the row under a key out, and answers it; `None` exactly where there is none, and then
    /// the heap is as it was. Each index follows, in about log n comparisons. That takes memory where
    /// there was a row, and an index for which it runs out is given up. Without indexes it is `remove` of
    /// the heap, and takes no memory.
    pub fn remove(&mut self, key: &Key) -> Option<Row>
        ensures former { result ≡ row_under self.old.entries key.now }
        ensures entries { self.new.entries ≡ without_row self.old.entries key.now }
        ensures spare { self.old.spare ≤ self.new.spare }
    {
        follow_all(self.alloc, &mut self.indexes, &self.heap, key, None);
        self.heap.remove(key)
    }

    /// The heap and its indexes, taken apart. Takes no memory.
    pub fn into_parts(self) -> (Heap, Vec<Index>)
        ensures heap { result.0 ≡ self }
        ensures indexes { AreIndexesOf self.entries result.1.items }
    {
        let IndexedHeap {
            alloc: _,
            heap,
            indexes,
        } = self;
        (heap, indexes)
    }

    /// A heap with indexes, each of which is that of its rows. Takes no memory.
    pub fn of_parts(alloc: Global, heap: Heap, indexes: Vec<Index>) -> IndexedHeap
        requires { AreIndexesOf heap.entries indexes.items }
        ensures { result ≡ heap }
    {
        IndexedHeap {
            alloc,
            heap,
            indexes,
        }
    }
}
