//! Calls of a frozen heap.
//!
//! `get KEY ..` answers the number of the row of a key, and `seek KEY ..` that of the row at the key's position. `at
//! POSITION` answers whether a row stands there. `rows` lists the numbers of the rows by their positions, `first` those
//! from the first one on, and `len` answers how many there are. `look POSITION MOST` answers how many rows are read
//! ahead from a position on, and `ahead END` the first position below an end of which no row has been read ahead when
//! its turn comes, or else the end.

use crate::answers::{Answer, Run, tell_count, tell_number};
use crate::calls::{Structure, tell_lines};
use crate::heaps::tell_cursor;
use anyhow::{Context, bail};
use bf_base::{Key, Row};
use bf_heap::{FrozenHeap, Heap};
use std::alloc::Global;

/// The number of the row at the position of a key.
fn seek(heap: &FrozenHeap, key: &Key) -> Answer {
    match heap.position(key) {
        Some(position) => Answer::of_entry(heap.at(position)),
        None => Answer::Nothing,
    }
}

/// The first position below an end of which no row has been read ahead when its turn comes, or else the end.
fn first_not_ahead(heap: &FrozenHeap, end: u32) -> u32 {
    let mut read = 0;
    for position in 0..end {
        read = heap.read_on(position, end, read);
        if read <= position {
            return position;
        }
    }
    end
}

/// How many rows are read ahead, by the words that tell from where and how many at most.
fn look(heap: &FrozenHeap, words: &str) -> anyhow::Result<u32> {
    let (position, most) = words.split_once(" ").context("no two numbers")?;
    Ok(heap.read_ahead(position.parse()?, most.parse()?))
}

fn tell_rows(heap: &FrozenHeap, told: &mut String) -> anyhow::Result<()> {
    told.push_str(" |")?;
    let mut run = Run::NONE;
    for position in 0..=heap.len() {
        let row = Answer::of_entry(heap.at(position));
        if !row.is_nothing() {
            run.add(row, told)?;
        }
    }
    run.tell(told)
}

impl Structure for FrozenHeap {
    fn answer(
        &mut self,
        _alloc: Global,
        call: &str,
        key: Key,
        _row: Option<Row>,
    ) -> anyhow::Result<Answer> {
        match call {
            "get" => Ok(Answer::of_row(self.get(&key))),
            "seek" => Ok(seek(self, &key)),
            _ => bail!("no such call of a frozen heap: {call}"),
        }
    }

    fn tell_whole(
        &mut self,
        _alloc: Global,
        call: &str,
        words: &str,
        told: &mut String,
    ) -> anyhow::Result<bool> {
        match call {
            "at" => {
                let row = self.at(words.parse()?);
                told.push_str(if row.is_some() { " +" } else { " -" })?;
            }
            "rows" => tell_rows(self, told)?,
            "first" => tell_cursor(self.first(), told)?,
            "len" => tell_count(self.len(), self.is_empty(), told)?,
            "look" => tell_number(" ", i64::from(look(self, words)?), told)?,
            "ahead" => {
                let first = first_not_ahead(self, words.parse()?);
                tell_number(" ", i64::from(first), told)?
            }
            _ => return Ok(false),
        }
        Ok(true)
    }
}

/// Tells what the calls of a heap answer when it is frozen, and gives it back.
pub fn tell(alloc: Global, heap: Heap, lines: &str, told: &mut String) -> anyhow::Result<Heap> {
    match FrozenHeap::of(alloc, heap) {
        Ok(mut heap) => {
            tell_lines(&mut heap, alloc, lines, told)?;
            Ok(heap.into_heap())
        }
        Err((_, memory)) => Err(memory)?,
    }
}
