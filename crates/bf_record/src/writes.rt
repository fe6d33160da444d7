//! Writes of a transaction as bytes.

ghost use Rattle.bf_record.specs.Apart.{row_changes_apart, writes_apart};
ghost use Rattle.bf_record.specs.Changes.{IsRowChange, IsWrite, row_change_spelling, write_spelling};

use crate::part::Part;
use bf_base::{Key, Memory, Name, Row};
use std::alloc::Global;

/// What becomes of a row.
#[derive(Debug, Drop)]
pub enum RowChange {
    /// The row of this key is gone.
    Removed(Key),
    /// This row stands under its key, which its table tells, so that no key is spelled.
    Put(Row),
}

/// A change of a row of a table.
#[derive(Debug, Drop)]
pub struct TableWrite {
    pub table: Name,
    pub change: RowChange,
}

impl Part for RowChange {
    ghost HasSpelling = { IsRowChange };

    ghost spelling = { row_change_spelling };

    ghost IsShallow = { λ _. Unit {0} };

    ghost apart = { row_changes_apart };

    fn put(&self, out: &mut Vec<u8>) -> Result<(), Memory> {
        match self {
            RowChange::Removed(key) => {
                out.push(0)?;
                key.put(out)
            }
            RowChange::Put(row) => {
                out.push(1)?;
                row.put(out)
            }
        }
    }

    fn take(alloc: Global, bytes: &[u8]) -> Result<Option<(RowChange, usize)>, Memory> {
        match bytes {
            [0, rest @ ..] => match Key::take(alloc, rest)? {
                Some((key, taken)) => Ok(Some((RowChange::Removed(key), taken + 1))),
                None => Ok(None),
            },
            [1, rest @ ..] => match Row::take(alloc, rest)? {
                Some((row, taken)) => Ok(Some((RowChange::Put(row), taken + 1))),
                None => Ok(None),
            },
            [] | [_, ..] => Ok(None),
        }
    }
}

impl Part for TableWrite {
    ghost HasSpelling = { IsWrite };

    ghost spelling = { write_spelling };

    ghost IsShallow = { λ _. Unit {0} };

    ghost apart = { writes_apart };

    fn put(&self, out: &mut Vec<u8>) -> Result<(), Memory> {
        self.table.put(out)?;
        self.change.put(out)
    }

    fn take(alloc: Global, bytes: &[u8]) -> Result<Option<(TableWrite, usize)>, Memory> {
        match <(Name, RowChange)>::take(alloc, bytes)? {
            Some(((table, change), taken)) => Ok(Some((TableWrite { table, change }, taken))),
            None => Ok(None),
        }
    }
}
