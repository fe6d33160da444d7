//! Writes.

ghost use Rattle.std.specs.Prelude.{◌≡◌, IfOk};

use bf_base::{Key, Memory, Name, Row, Sequence, TryClone};
use std::alloc::Global;

/// What a key of a table has from now on: a row, or none.
#[derive(Debug, Drop, PartialEq, Eq)]
pub struct Write {
    pub table: Name,
    pub key: Key,
    pub row: Option<Row>,
}

/// Writes of a transaction, one for each key, sorted by table, then key.
#[derive(Debug, Drop, PartialEq, Eq)]
pub struct WriteSet {
    pub writes: Sequence<Write>,
}

impl Write {
    /// An equal write, in time linear in its size.
    pub fn copy(&self, alloc: Global) -> Result<Write, Memory>
        ensures { IfOk result (λ copy. copy ≡ self.now) }
    {
        let row = match &self.row {
            Some(row) => Some(row.copy(alloc)?),
            None => None,
        };
        Ok(Write {
            table: self.table.copy(alloc)?,
            key: self.key.copy(alloc)?,
            row,
        })
    }
}

impl TryClone for Write {
    fn try_clone(&self, alloc: Global) -> Result<Write, Memory> {
        self.copy(alloc)
    }
}
