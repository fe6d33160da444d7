//! Calls of a workspace.
//!
//! `table NAME` names the table of the calls behind it. `write KEY=ROW ..` writes rows, or removals where `-` stands for
//! them, and answers what was written there before, as `read KEY ..` does: the number of a row, or `+` for a removal.
//! `gather KEY=ROW ..` writes rows at once, and answers to how many keys. `range RANGE ..` lists the numbers of the rows
//! that are written to the keys of ranges, and `-` for a removal. `len` answers how many keys are written, and `rows`
//! how many of them have a row. `tables`, `set` and `apart` tell all writes in their order, as `TABLE:KEY=ROW`: those of
//! each table, of the set of writes, and those that the workspace is taken apart into.

use crate::answers::{Answer, Run};
use crate::calls::{Structure, pair, tell_lines};
use crate::cells::range;
use anyhow::bail;
use bf_base::{Key, Name, Row};
use bf_txn::{TableWrites, Workspace, WritesAhead};
use std::alloc::Global;
use std::{mem, str};

#[derive(Drop)]
struct Writes {
    workspace: Workspace,
    table: Name,
}

/// Tells how many writes there are.
fn tell_size(size: usize, told: &mut String) -> anyhow::Result<()> {
    write!(told, " {size}")?;
    Ok(())
}

/// Tells a write by its table, its key and its row.
fn tell_write(table: &Name, key: &Key, row: Option<&Row>, told: &mut String) -> anyhow::Result<()> {
    told.push_str(" ")?;
    told.push_str(str::from_utf8(table.as_bytes())?)?;
    told.push_str(":")?;
    Answer::of_values(key.as_slice()).tell(told)?;
    told.push_str("=")?;
    Answer::of_row(row).tell(told)
}

/// The number of the row that is written next, which is the key's where that is a number.
fn next_of(ahead: &WritesAhead<'_, '_>) -> Option<Answer> {
    match ahead.get()? {
        (key, Some(row)) => Some(Answer::of_entry(Some((key, row)))),
        (_, None) => Some(Answer::Nothing),
    }
}

/// Whether the place that is behind the last write stays there.
fn stays_behind(ahead: &mut WritesAhead<'_, '_>) -> bool {
    ahead.advance();
    ahead.get().is_none()
}

/// Tells the rows that are written from a place on.
fn tell_ahead(mut ahead: WritesAhead<'_, '_>, told: &mut String) -> anyhow::Result<()> {
    told.push_str(" |")?;
    let mut run = Run::NONE;
    for _ in 0..u32::MAX {
        let Some(next) = next_of(&ahead) else {
            break;
        };
        run.add(next, told)?;
        ahead.advance();
    }
    run.tell(told)?;
    if !stays_behind(&mut ahead) {
        told.push_str(" more")?;
    }
    Ok(())
}

impl Writes {
    /// What is written to a key, a row or a removal.
    fn read(&self, key: &Key) -> Answer {
        match self.workspace.read(&self.table, key) {
            Some(Some(row)) => Answer::of_row(Some(row)),
            Some(None) => Answer::Present,
            None => Answer::Nothing,
        }
    }

    fn tell_ranges(&self, alloc: Global, words: &str, told: &mut String) -> anyhow::Result<()> {
        for word in words.split(" ") {
            let range = range(alloc, word)?;
            tell_ahead(self.workspace.range(&self.table, &range), told)?;
        }
        Ok(())
    }

    /// Writes rows at once, and tells to how many keys.
    fn gather(&mut self, alloc: Global, words: &str, told: &mut String) -> anyhow::Result<()> {
        let mut writes = TableWrites::new(alloc);
        for word in words.split(" ") {
            let (key, row) = pair(alloc, word)?;
            writes.write(key, row)?;
        }
        let keys = if writes.is_empty() { 0 } else { writes.len() };
        tell_size(keys, told)?;
        self.workspace.write_all(&self.table, writes)?;
        Ok(())
    }

    fn tell_tables(&self, told: &mut String) -> anyhow::Result<()> {
        for (table, writes) in self.workspace.tables() {
            for (at, row) in writes.iter() {
                tell_write(table, at, row.as_ref(), told)?;
            }
        }
        Ok(())
    }

    fn tell_set(&self, alloc: Global, told: &mut String) -> anyhow::Result<()> {
        let set = self.workspace.write_set(alloc)?;
        for write in set.writes.as_slice() {
            tell_write(&write.table, &write.key, write.row.as_ref(), told)?;
        }
        if set != self.workspace.write_set(alloc)? {
            bail!("another set of writes");
        }
        Ok(())
    }
}

/// Tells the writes that a workspace is taken apart into.
fn tell_apart(workspace: Workspace, told: &mut String) -> anyhow::Result<()> {
    for (table, writes) in workspace.into_tables() {
        for (at, row) in writes.into_iter() {
            tell_write(&table, &at, row.as_ref(), told)?;
        }
    }
    Ok(())
}

impl Structure for Writes {
    fn answer(
        &mut self,
        alloc: Global,
        call: &str,
        key: Key,
        row: Option<Row>,
    ) -> anyhow::Result<Answer> {
        match call {
            "read" => Ok(self.read(&key)),
            "write" => {
                let table = self.table.copy(alloc)?;
                let former = self.read(&key);
                self.workspace.write(table, key, row)?;
                Ok(former)
            }
            _ => bail!("no such call of a workspace: {call}"),
        }
    }

    fn tell_whole(
        &mut self,
        alloc: Global,
        call: &str,
        words: &str,
        told: &mut String,
    ) -> anyhow::Result<bool> {
        match call {
            "table" => self.table = Name::of(alloc, words.as_bytes())?,
            "range" => self.tell_ranges(alloc, words, told)?,
            "gather" => self.gather(alloc, words, told)?,
            "len" => tell_size(self.workspace.of_table(&self.table).len(), told)?,
            "rows" => tell_size(self.workspace.of_table(&self.table).count_puts(), told)?,
            "tables" => self.tell_tables(told)?,
            "set" => self.tell_set(alloc, told)?,
            "apart" => {
                let workspace = mem::replace(&mut self.workspace, Workspace::new(alloc));
                tell_apart(workspace, told)?;
            }
            _ => return Ok(false),
        }
        Ok(true)
    }
}

/// Tells what the calls of a workspace answer, which has no writes at first.
pub fn tell(alloc: Global, lines: &str, told: &mut String) -> anyhow::Result<()> {
    let mut writes = Writes {
        workspace: Workspace::new(alloc),
        table: Name::of(alloc, b"a")?,
    };
    tell_lines(&mut writes, alloc, lines, told)
}
