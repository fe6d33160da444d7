//! Heaps with secondary indexes that no longer change.

ghost use Rattle.std.specs.Prelude.{◌≡◌, ◌↔◌, ◌<◌, ◌^◌, [], IfErr, IfOk, IsTrue, length, position, slice_get};
ghost use Rattle.std.specs.Option.{option_map};
ghost use Rattle.bf_base.specs.Lists.{same_key};
ghost use Rattle.bf_base.specs.Maps.{is_map};
ghost use Rattle.bf_base.specs.Values.{key_cmp};
ghost use Rattle.bf_heap.specs.Heaps.{IsHeap, key_of_entry, row_under};
ghost use Rattle.bf_index.specs.Edits.{AreIndexesOf};

use crate::index::Index;
use crate::indexed_heap::IndexedHeap;
use bf_base::{Key, Memory, Row};
use bf_heap::FrozenHeap;
use std::alloc::Global;
use std::marker::Model;

/// A heap with secondary indexes that no longer changes. Contracts see the rows in the order of their
/// keys; each index is that of the rows from scratch.
#[derive(Drop)]
pub struct FrozenIndexedHeap {
    alloc: Global,
    heap: FrozenHeap,
    indexes: Vec<Index>,
}

impl Model for FrozenIndexedHeap {
    ghost use Rattle.std.specs.Prelude.{List};
    ghost use Rattle.bf_heap.specs.Heaps.{Entry};
    ghost use Rattle.bf_index.specs.Edits.{AreIndexesOf};

    ghost Value = { List Entry };

    ghost view = { λ indexed. indexed.heap };

    ghost invariant = { λ indexed. AreIndexesOf indexed.heap indexed.indexes.items };
}

impl FrozenIndexedHeap {
    /// The heap as it is with its indexes, which copies no row and no pair. It takes time linear in the
    /// heap's pages and four bytes for each.
    ///
    /// # Errors
    /// Where memory runs out. The heap is given back as it was.
    pub fn of(alloc: Global, heap: IndexedHeap) -> Result<FrozenIndexedHeap, (IndexedHeap, Memory)>
        ensures ok { IfOk result (λ frozen. frozen ≡ heap.entries) }
        ensures err { IfErr result (λ failed. failed.0 ≡ heap) }
    {
        let (heap, indexes) = heap.into_parts();
        match FrozenHeap::of(alloc, heap) {
            Ok(heap) => Ok(FrozenIndexedHeap {
                alloc,
                heap,
                indexes,
            }),
            Err((heap, memory)) => Err((IndexedHeap::of_parts(alloc, heap, indexes), memory)),
        }
    }

    /// The heap alone. Takes no memory.
    pub fn heap(&self) -> &FrozenHeap
        ensures { result.now ≡ self.now }
    {
        &self.heap
    }

    /// The indexes, each of which is that of the rows from scratch. Takes no memory.
    pub fn indexes(&self) -> &[Index]
        ensures { AreIndexesOf self.now result.now }
    {
        self.indexes.as_slice()
    }

    /// The number of rows. Takes no memory.
    pub fn len(&self) -> u32
        ensures count { result ≡ length self.now }
        ensures in_order { IsTrue (is_map key_cmp key_of_entry self.now) }
        ensures within { length self.now < 2 ^ 32 }
    {
        self.heap.len()
    }

    /// Whether there is no row. Takes no memory.
    pub fn is_empty(&self) -> bool
        ensures { IsTrue result ↔ (self.now ≡ []) }
    {
        self.heap.is_empty()
    }

    /// The row under a key, and `None` exactly where there is none. It compares about log n keys,
    /// and takes no memory.
    pub fn get(&self, key: &Key) -> Option<&Row>
        ensures { option_map (λ row. row.now) result ≡ row_under self.now key.now }
    {
        self.heap.get(key)
    }

    /// The key and the row of a position in the order of keys, counted from 0, and `None` exactly
    /// where the position is not below the number of rows. It takes no memory.
    pub fn at(&self, position: u32) -> Option<(&Key, &Row)>
        ensures { option_map (λ entry. (entry.0.now, entry.1.now)) result
            ≡ slice_get self.now position }
    {
        self.heap.at(position)
    }

    /// The position of the row under a key, counted from 0, and `None` exactly where there is none. It
    /// compares about log n keys, and takes no memory.
    pub fn position(&self, key: &Key) -> Option<u32>
        ensures { result ≡ position (λ entry. same_key key.now entry.0) self.now }
    {
        self.heap.position(key)
    }

    /// The heap, which may change again, with the room and the indexes that it had. Takes no memory.
    pub fn into_indexed_heap(self) -> IndexedHeap
        ensures entries { result.entries ≡ self }
        ensures heap { IsHeap result }
    {
        let FrozenIndexedHeap {
            alloc,
            heap,
            indexes,
        } = self;
        IndexedHeap::of_parts(alloc, heap.into_heap(), indexes)
    }
}
