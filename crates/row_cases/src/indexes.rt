//! Calls of an index of the columns that stand behind `index` in the first line of the case.
//!
//! `add VALUE=KEY ..` answers whether a pair is new, `take VALUE=KEY ..` whether it was there, and `has ROW=VALUE ..`
//! whether a row has a value. `find VALUE` lists the keys of a value. `reserve COUNT` makes room for pairs, which later
//! ones take, and a pair for which none is left has some made. `len` answers how many pairs there are, and `columns`
//! which columns the index is of.

ghost use Rattle.std.specs.Prelude.{◌≤◌};

use crate::answers::{Answer, Run, tell_count, tell_number};
use crate::calls::{Structure, tell_lines};
use crate::cells::{columns, key};
use anyhow::bail;
use bf_base::{Key, Row};
use bf_index::Index;
use std::alloc::Global;

/// An index, and for how many pairs room was made in it that they have not taken.
#[derive(Drop)]
struct RoomyIndex {
    index: Index,
    room: u32,
    ghost is_there: { room ≤ index.spare },
}

/// Tells the keys that an index has of a value.
pub fn tell_keys(
    alloc: Global,
    index: &Index,
    value: &Key,
    told: &mut String,
) -> anyhow::Result<()> {
    told.push_str(" |")?;
    let keys = index.find(alloc, value)?;
    let mut run = Run::NONE;
    for key in &keys {
        run.add(Answer::of_values(key.as_slice()), told)?;
    }
    run.tell(told)
}

impl RoomyIndex {
    /// Makes room for this many further pairs, and answers whether there is room for them.
    fn reserve(&mut self, more: u32) -> bool {
        let is_there = self.index.reserve(more).is_ok();
        if is_there && self.room < more {
            self.room = more;
        }
        is_there
    }

    /// Adds a pair in room that was made before, or is made where there is none left.
    fn add(&mut self, value: Key, key: Key) -> anyhow::Result<Answer> {
        if self.room == 0 {
            self.index.reserve(1)?;
            self.room = 1;
        }
        self.room -= 1;
        Ok(Answer::of(self.index.add(value, key)))
    }

    fn tell_columns(&self, told: &mut String) -> anyhow::Result<()> {
        for column in self.index.columns() {
            tell_number(" ", *column as i64, told)?;
        }
        Ok(())
    }
}

impl Structure for RoomyIndex {
    fn answer(
        &mut self,
        alloc: Global,
        call: &str,
        value: Key,
        row: Option<Row>,
    ) -> anyhow::Result<Answer> {
        let Some(row) = row else {
            bail!("no key behind a value");
        };
        let key = Key::of(row.into_vec());
        match call {
            "add" => self.add(value, key),
            "take" => Ok(Answer::of(self.index.take(&value, &key))),
            "has" => {
                let row = Row::of(value.into_vec());
                Ok(Answer::of(self.index.value_of(alloc, &row)?.is_same(&key)))
            }
            _ => bail!("no such call of an index: {call}"),
        }
    }

    fn tell_whole(
        &mut self,
        alloc: Global,
        call: &str,
        words: &str,
        told: &mut String,
    ) -> anyhow::Result<bool> {
        match call {
            "reserve" => {
                let is_there = self.reserve(words.parse()?);
                told.push_str(if is_there { " room" } else { " no room" })?;
            }
            "find" => tell_keys(alloc, &self.index, &key(alloc, words)?, told)?,
            "columns" => self.tell_columns(told)?,
            "len" => tell_count(self.index.len(), self.index.is_empty(), told)?,
            _ => return Ok(false),
        }
        Ok(true)
    }
}

/// Tells what the calls of an index answer, which has no pairs at first.
pub fn tell(alloc: Global, word: &str, lines: &str, told: &mut String) -> anyhow::Result<()> {
    let index = Index::new(alloc, columns(alloc, word)?);
    tell_lines(&mut RoomyIndex { index, room: 0 }, alloc, lines, told)
}
