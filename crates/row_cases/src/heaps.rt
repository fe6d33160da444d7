//! Calls of a heap, which may have indexes.
//!
//! `put KEY=ROW ..` puts a row, or takes one out where `-` stands for it, and answers the number of the former one, as
//! `take KEY ..` and `get KEY ..` do. `at POSITION KEY` answers the number of the row at a position, where its key is
//! this one. `rows` lists the numbers of the rows by their positions, `first` those from the first one on, and `range
//! RANGE ..` those of ranges, as `[1..5,'a')`. A row that is another number than its key is listed as `+`.
//! `reserve COUNT` makes room for rows, which later ones take, and a row for which none is left has some made. `len` and
//! `pages` answer how many rows and pages there are, and `pages LOW..HIGH` answers `as many` where they are so many.
//! `index COLUMNS` adds an index, and `find VALUE` lists the keys that each index has of a value.
//! Behind a line `freeze` the calls are those of the frozen heap, and behind a line `thaw` those of the heap again.

ghost use Rattle.std.specs.Prelude.{◌≤◌};

use crate::answers::{Answer, Run, tell_count, tell_number};
use crate::calls::{Structure, tell_lines};
use crate::cells::{columns, key, range};
use crate::frozen;
use crate::indexes::tell_keys;
use anyhow::{Context, bail};
use bf_base::{Key, Row};
use bf_heap::{Cursor, Heap};
use bf_index::IndexedHeap;
use std::alloc::Global;

/// A heap, and for how many rows room was made in it that they have not taken.
#[derive(Drop)]
struct RoomyHeap {
    heap: IndexedHeap,
    room: u32,
    ghost is_there: { room ≤ heap.spare },
}

/// Whether a cursor that is behind the last row stays there.
fn stays_behind(cursor: &mut Cursor<'_>) -> bool {
    cursor.advance();
    cursor.get().is_none()
}

/// Tells the numbers of the rows from a place on.
pub fn tell_cursor(mut cursor: Cursor<'_>, told: &mut String) -> anyhow::Result<()> {
    told.push_str(" |")?;
    let mut run = Run::NONE;
    for _ in 0..u32::MAX {
        let next = Answer::of_entry(cursor.get());
        if next.is_nothing() {
            break;
        }
        run.add(next, told)?;
        cursor.advance();
    }
    run.tell(told)?;
    if !stays_behind(&mut cursor) {
        told.push_str(" more")?;
    }
    Ok(())
}

/// Tells the numbers of the rows by their positions.
fn tell_rows(heap: &Heap, told: &mut String) -> anyhow::Result<()> {
    told.push_str(" |")?;
    let mut run = Run::NONE;
    for position in 0..=heap.len() {
        let row = Answer::of_entry(heap.at(position));
        if !row.is_nothing() {
            run.add(row, told)?;
        }
    }
    run.tell(told)
}

impl RoomyHeap {
    fn of(alloc: Global, heap: Heap) -> RoomyHeap {
        RoomyHeap {
            heap: IndexedHeap::of(alloc, heap),
            room: 0,
        }
    }

    /// Makes room for this many further rows, and answers whether there is room for them.
    fn reserve(&mut self, more: u32) -> bool {
        let is_there = self.heap.reserve(more).is_ok();
        if is_there && self.room < more {
            self.room = more;
        }
        is_there
    }

    /// Puts a row in room that was made before, or is made where there is none left.
    fn put(&mut self, key: Key, row: Row) -> anyhow::Result<Answer> {
        if self.room == 0 {
            self.heap.reserve(1)?;
            self.room = 1;
        }
        self.room -= 1;
        let former = self.heap.put(key, row);
        Ok(Answer::of_row(former.as_ref()))
    }

    fn take(&mut self, key: &Key) -> Answer {
        let former = self.heap.remove(key);
        Answer::of_row(former.as_ref())
    }

    fn get(&self, key: &Key) -> Answer {
        Answer::of_row(self.heap.heap().get(key))
    }

    /// Takes a row out, and answers it where none is left under its key.
    fn clear(&mut self, key: &Key) -> Answer {
        let former = self.take(key);
        if self.get(key).is_nothing() {
            former
        } else {
            Answer::Present
        }
    }

    /// The number of the row at a position, where its key is the one that stands behind the position.
    fn at(&self, alloc: Global, words: &str) -> anyhow::Result<Answer> {
        let (position, word) = words.split_once(" ").context("no position and key")?;
        let key = key(alloc, word)?;
        match self.heap.heap().at(position.parse()?) {
            Some((at, row)) if at.is_same(&key) => Ok(Answer::of_row(Some(row))),
            Some(_) => Ok(Answer::Present),
            None => Ok(Answer::Nothing),
        }
    }

    fn tell_ranges(&self, alloc: Global, words: &str, told: &mut String) -> anyhow::Result<()> {
        for word in words.split(" ") {
            let range = range(alloc, word)?;
            tell_cursor(self.heap.heap().range(&range), told)?;
        }
        Ok(())
    }

    /// Tells the keys that each index has of a value.
    fn tell_found(&self, alloc: Global, word: &str, told: &mut String) -> anyhow::Result<()> {
        let value = key(alloc, word)?;
        for index in self.heap.indexes() {
            tell_keys(alloc, index, &value, told)?;
        }
        Ok(())
    }
}

/// Tells how many pages there are, or whether there are as many as two ends have between them.
fn tell_pages(pages: u32, words: &str, told: &mut String) -> anyhow::Result<()> {
    let Some((low, high)) = words.split_once("..") else {
        return tell_number(" ", pages as i64, told);
    };
    let (low, high): (u32, u32) = (low.parse()?, high.parse()?);
    told.push_str(if low <= pages && pages <= high {
        " as many"
    } else {
        " others"
    })?;
    Ok(())
}

impl Structure for RoomyHeap {
    fn answer(
        &mut self,
        _alloc: Global,
        call: &str,
        key: Key,
        row: Option<Row>,
    ) -> anyhow::Result<Answer> {
        match (call, row) {
            ("put", Some(row)) => self.put(key, row),
            ("put", None) => Ok(self.clear(&key)),
            ("take", _) => Ok(self.clear(&key)),
            ("get", _) => Ok(self.get(&key)),
            _ => bail!("no such call of a heap: {call}"),
        }
    }

    fn tell_whole(
        &mut self,
        alloc: Global,
        call: &str,
        words: &str,
        told: &mut String,
    ) -> anyhow::Result<bool> {
        match call {
            "reserve" => {
                let is_there = self.reserve(words.parse()?);
                told.push_str(if is_there { " room" } else { " no room" })?;
            }
            "at" => {
                told.push_str(" ")?;
                self.at(alloc, words)?.tell(told)?;
            }
            "rows" => tell_rows(self.heap.heap(), told)?,
            "first" => tell_cursor(self.heap.heap().first(), told)?,
            "range" => self.tell_ranges(alloc, words, told)?,
            "len" => {
                let heap = self.heap.heap();
                tell_count(heap.len(), heap.is_empty(), told)?;
            }
            "pages" => tell_pages(self.heap.heap().pages(), words, told)?,
            "index" => self.heap.add_index(columns(alloc, words)?)?,
            "find" => self.tell_found(alloc, words, told)?,
            _ => return Ok(false),
        }
        Ok(true)
    }
}

/// Tells what the calls of a heap answer, which has no rows at first.
pub fn tell(alloc: Global, lines: &str, told: &mut String) -> anyhow::Result<()> {
    let mut rows = RoomyHeap::of(alloc, Heap::new(alloc));
    let Some((lines, later)) = lines.split_once("\nfreeze\n") else {
        return tell_lines(&mut rows, alloc, lines, told);
    };
    tell_lines(&mut rows, alloc, lines, told)?;
    let RoomyHeap { heap, room: _ } = rows;
    let (heap, _) = heap.into_parts();
    let Some((lines, later)) = later.split_once("\nthaw\n") else {
        frozen::tell(alloc, heap, later, told)?;
        return Ok(());
    };
    let heap = frozen::tell(alloc, heap, lines, told)?;
    tell_lines(&mut RoomyHeap::of(alloc, heap), alloc, later, told)
}
