//! Heaps that no longer change.

ghost use Rattle.std.specs.Prelude.{◌≡◌, ◌↔◌, ◌≤◌, ◌<◌, ◌^◌, [], IfErr, IfOk, IsTrue, length, nat_le, position, slice_get};
ghost use Rattle.std.specs.List.Sorted.{IsPartitionedBy};
ghost use Rattle.std.specs.Option.{option_map};
ghost use Rattle.bf_base.specs.Lists.{same_key};
ghost use Rattle.bf_base.specs.Maps.{is_map};
ghost use Rattle.bf_base.specs.Values.{key_cmp};
ghost use Rattle.bf_heap.specs.Frozen.{AreBegun, starts_from};
ghost use Rattle.bf_heap.specs.Heaps.{IsHeap, key_of_entry, row_under};
ghost use Rattle.bf_heap.specs.Pages.{rows_of};

use crate::cursor::Cursor;
use crate::heap::{Heap, Parts, find_in};
use crate::page::Page;
use bf_base::{Key, Memory, Row, Value};
use std::alloc::Global;
use std::marker::Model;

/// Reading ahead ends with the row whose values bring it to so many bytes.
const AHEAD: usize = 8192;

/// A heap that no longer changes, whose rows are found by position as well as by key. Contracts see
/// the rows in the order of their keys.
#[derive(Drop)]
pub struct FrozenHeap {
    parts: Parts,
    // The position of the first row of each page.
    starts: Vec<u32>,
}

impl Model for FrozenHeap {
    ghost use Rattle.std.specs.Prelude.{◌≡◌, List};
    ghost use Rattle.bf_heap.specs.Frozen.{AreKept, starts_from};
    ghost use Rattle.bf_heap.specs.Heaps.{Entry};
    ghost use Rattle.bf_heap.specs.Pages.{rows_of};

    ghost Value = { List Entry };

    ghost view = { λ frozen. rows_of frozen.parts.pages.items };

    ghost invariant = { λ frozen. AreKept frozen.parts
        × (frozen.starts.items ≡ starts_from 0 frozen.parts.pages.items) };
}

/// The position of the first row of each page. It takes time and memory linear in the pages.
fn starts_of(alloc: Global, pages: &[Page]) -> Result<Vec<u32>, Memory>
    requires { length (rows_of pages.now) < 2 ^ 32 }
    ensures { IfOk result (λ starts. starts.items ≡ starts_from 0 pages.now) }
{
    let mut starts = Vec::with_capacity(alloc, pages.len())?;
    let mut start = 0;
    for page in pages {
        starts.push(start)?;
        start += page.len() as u32;
    }
    Ok(starts)
}

/// How many pages begin at a position or before it, by their positions, where those come first. It is
/// a binary search, and takes no memory.
fn begun(starts: &[u32], position: u32) -> usize
    requires { IsPartitionedBy (λ start. nat_le start position) starts.now }
    ensures bound { result ≤ length starts.now }
    ensures begun { AreBegun starts.now position result }
{
    starts.partition_point(|start| *start <= position)
}

/// About how many bytes the values of a row take: 8 a number, and the length of a text. It looks at each
/// value, and not at the bytes of a text.
fn bytes_of(row: &Row) -> usize {
    let mut bytes: usize = 0;
    for value in row.as_slice() {
        let more = match value {
            Value::Int(_) => 8,
            Value::Text(text) => text.as_bytes().len(),
        };
        bytes = bytes.saturating_add(more);
    }
    bytes
}

/// Looks at the values of rows, up to the row with which they come to `AHEAD` bytes, and answers how many
/// rows these are.
fn read_values(rows: &[(Key, Row)]) -> usize
    ensures { result ≤ length rows.now }
{
    let mut bytes: usize = 0;
    for (count, (_, row)) in rows.iter().enumerate() {
        if bytes >= AHEAD {
            return count;
        }
        bytes = bytes.saturating_add(bytes_of(row));
    }
    rows.len()
}

impl FrozenHeap {
    /// The heap as it is, which copies no row. It takes time linear in the heap's pages and four
    /// bytes for each: there are at most as many pages as rows, and one for each 64 rows at least.
    ///
    /// # Errors
    /// Where memory runs out. The heap is given back as it was.
    pub fn of(alloc: Global, heap: Heap) -> Result<FrozenHeap, (Heap, Memory)>
        ensures ok { IfOk result (λ frozen. frozen ≡ heap.entries) }
        ensures err { IfErr result (λ failed. failed.0 ≡ heap) }
    {
        let parts = heap.into_parts();
        match starts_of(alloc, &parts.pages) {
            Ok(starts) => Ok(FrozenHeap { parts, starts }),
            Err(memory) => Err((Heap::of_parts(parts), memory)),
        }
    }

    /// The number of rows. Takes no memory.
    pub fn len(&self) -> u32
        ensures count { result ≡ length self.now }
        ensures in_order { IsTrue (is_map key_cmp key_of_entry self.now) }
        ensures within { length self.now < 2 ^ 32 }
    {
        self.parts.count as u32
    }

    /// Whether there is no row. Takes no memory.
    pub fn is_empty(&self) -> bool
        ensures { IsTrue result ↔ (self.now ≡ []) }
    {
        self.parts.count == 0
    }

    /// The row under a key, and `None` exactly where there is none. It compares about log n keys,
    /// and takes no memory.
    pub fn get(&self, key: &Key) -> Option<&Row>
        ensures { option_map (λ row. row.now) result ≡ row_under self.now key.now }
    {
        let (here, place) = find_in(&self.parts.pages, key)?;
        Some(self.parts.pages[here].at(place).1)
    }

    /// The key and the row of a position in the order of keys, counted from 0, and `None` exactly
    /// where the position is not below the number of rows. It is a binary search over the pages'
    /// positions, and takes no memory.
    pub fn at(&self, position: u32) -> Option<(&Key, &Row)>
        ensures { option_map (λ entry. (entry.0.now, entry.1.now)) result
            ≡ slice_get self.now position }
    {
        let begun = begun(&self.starts, position);
        if begun == 0 {
            return None;
        }
        let here = begun - 1;
        let page = &self.parts.pages[here];
        let place = (position - self.starts[here]) as usize;
        if place < page.len() {
            Some(page.at(place))
        } else {
            None
        }
    }

    /// Looks at the values of rows from a position on, ahead of their use, and answers how many rows these
    /// are: at most `most`, none past the end of the page, and none once some kilobytes were seen. Rows
    /// that came in another order than that of their keys stand apart in memory. Looked at one behind the
    /// other, the processor can wait for several at once. Takes no memory.
    pub fn read_ahead(&self, position: u32, most: u32) -> u32
        ensures within { result ≤ most }
    {
        let begun = begun(&self.starts, position);
        if begun == 0 {
            return 0;
        }
        let here = begun - 1;
        let page = &self.parts.pages[here];
        let place = (position - self.starts[here]) as usize;
        let count = page.len();
        if place >= count {
            return 0;
        }
        let left = count - place;
        let many = if (most as usize) < left {
            most as usize
        } else {
            left
        };
        read_values(&page.rows()[place..place + many]) as u32
    }

    /// Reads ahead for one who goes over the positions below `end` in order. `read` is the first position
    /// that was not read ahead: where `position` has come to it, rows from there on are. It answers the
    /// new `read`, a hint on which no result depends. Takes no memory.
    pub fn read_on(&self, position: u32, end: u32, read: u32) -> u32 {
        if position < read {
            return read;
        }
        position.saturating_add(self.read_ahead(position, end.saturating_sub(position)))
    }

    /// The position of the row under a key, counted from 0, and `None` exactly where there is none. It
    /// compares about log n keys, and takes no memory.
    pub fn position(&self, key: &Key) -> Option<u32>
        ensures { result ≡ position (λ entry. same_key key.now entry.0) self.now }
    {
        let (here, place) = find_in(&self.parts.pages, key)?;
        Some(self.starts[here] + place as u32)
    }

    /// The place of the first row. Takes no memory.
    pub fn first(&self) -> Cursor<'_>
        ensures { result ≡ self.now }
    {
        Cursor::new(&self.parts.pages, &[])
    }

    /// The heap, which may change again, with the room that it had. Takes no memory.
    pub fn into_heap(self) -> Heap
        ensures entries { result.entries ≡ self }
        ensures heap { IsHeap result }
    {
        let FrozenHeap { parts, starts: _ } = self;
        Heap::of_parts(parts)
    }
}
