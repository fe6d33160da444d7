//! The workspace of a transaction.

ghost use Rattle.std.specs.Prelude.{◌≡◌, [], ◌++◌, IfOk, OnOk, OnErr, filter, fold};
ghost use Rattle.std.specs.Option.{option_map};
ghost use Rattle.bf_heap.specs.KeyRanges.{is_within};
ghost use Rattle.bf_txn.specs.Writes.{AreTables, AreWrites, all_writes, key_writes_to, with_write, writes_in, written_at};

use crate::table_writes::TableWrites;
use crate::write::{Write, WriteSet};
use crate::writes_ahead::WritesAhead;
use bf_base::{Key, Memory, Name, Row, Sequence, TryClone};
use bf_heap::KeyRange;
use std::alloc::Global;
use std::collections::BTreeMap;
use std::collections::btree_map::{IntoIter, Iter};
use std::marker::Model;

/// The writes of a transaction that has not ended. Contracts see the last write of each key,
/// sorted by table, then key. A look-up and a write compare about log n names and then about log n
/// keys, in whatever order the writes come.
#[derive(Drop)]
pub struct Workspace {
    alloc: Global,
    tables: BTreeMap<Name, TableWrites>,
    // What is written to a table that `tables` does not have.
    nothing: TableWrites,
}

impl Model for Workspace {
    ghost use Rattle.std.specs.Prelude.{List, ◌≡◌, []};
    ghost use Rattle.bf_txn.specs.declared.write.Write.{Write as Written};
    ghost use Rattle.bf_txn.specs.Writes.{AreTables, all_writes};

    ghost Value = { List Written };

    ghost view = { λ workspace. all_writes workspace.tables.entries };

    ghost invariant = { λ workspace. AreTables workspace.tables.entries
        × (workspace.nothing ≡ []) };
}

/// Adds copies of the writes to a table to others.
fn copy_each(
    alloc: Global,
    table: &Name,
    writes: &TableWrites,
    copies: &mut Vec<Write>,
) -> Result<(), Memory>
    ensures { OnOk result
        (copies.new.items ≡ copies.old.items ++ writes_in table.now writes.now) }
{
    for (key, row) in writes.iter() {
        copies.push(Write {
            table: table.copy(alloc)?,
            key: key.copy(alloc)?,
            row: row.try_clone(alloc)?,
        })?;
    }
    Ok(())
}

impl Workspace {
    /// The workspace of a transaction that has written nothing. Takes no memory.
    pub fn new(alloc: Global) -> Workspace
        ensures { result ≡ [] }
    {
        Workspace {
            alloc,
            tables: BTreeMap::new(alloc),
            nothing: TableWrites::new(alloc),
        }
    }

    /// All writes to a table. Takes no memory.
    pub fn of_table(&self, table: &Name) -> &TableWrites
        ensures writes { result.now ≡ key_writes_to table.now self.now }
        ensures sorted { AreWrites self.now }
    {
        match self.tables.get(table) {
            Some(writes) => writes,
            None => &self.nothing,
        }
    }

    /// What the transaction has last written to a key: `None` exactly where it has not written
    /// there, and `Some(None)` where it has removed the row. Takes no memory.
    pub fn read(&self, table: &Name, key: &Key) -> Option<Option<&Row>>
        ensures row { option_map (λ row. option_map (λ r. r.now) row) result
            ≡ written_at self.now (table.now, key.now) }
        ensures sorted { AreWrites self.now }
    {
        self.of_table(table).read(key)
    }

    /// The place of the first write to a key of a range, for a pass over the writes to a table whose
    /// keys are in the range. Takes no memory.
    pub fn range<'w, 'r>(&'w self, table: &Name, range: &'r KeyRange) -> WritesAhead<'w, 'r>
        ensures writes { result
            ≡ filter (λ write. is_within range.now write.0) (key_writes_to table.now self.now) }
        ensures sorted { AreWrites self.now }
    {
        self.of_table(table).range(range)
    }

    /// The tables that are written, by name, each with its writes. Takes no memory.
    pub fn tables(&self) -> Iter<'_, Name, TableWrites>
        ensures writes { all_writes result ≡ self.now }
        ensures sorted { AreTables result }
    {
        self.tables.iter()
    }

    /// The tables that are written, by name, each with its writes. Copies nothing, and takes no
    /// memory.
    pub fn into_tables(self) -> IntoIter<Name, TableWrites>
        ensures writes { all_writes result ≡ self }
        ensures sorted { AreTables result }
    {
        self.tables.into_iter()
    }

    /// Notes a write, which takes the place of an earlier one to its key.
    ///
    /// # Errors
    /// Where memory runs out. The workspace is as it was then.
    pub fn write(&mut self, table: Name, key: Key, row: Option<Row>) -> Result<(), Memory>
        ensures ok { OnOk result (self.new
            ≡ with_write self.old (record { table = table; key = key; row = row })) }
        ensures err { OnErr result (self.new ≡ self.old) }
    {
        if let Some(writes) = self.tables.get_mut(&table) {
            return writes.write(key, row);
        }
        let mut writes = TableWrites::new(self.alloc);
        writes.write(key, row)?;
        self.tables.insert(table, writes)?;
        Ok(())
    }

    /// Notes writes to a table: each takes the place of an earlier one to its key. Where nothing is
    /// written to the table yet they are taken over as they are, and else each costs what `write`
    /// costs.
    ///
    /// # Errors
    /// Where memory runs out. The workspace is as it was then.
    pub fn write_all(&mut self, table: &Name, writes: TableWrites) -> Result<(), Memory>
        ensures ok { OnOk result
            (self.new ≡ fold with_write self.old (writes_in table.now writes)) }
        ensures err { OnErr result (self.new ≡ self.old) }
        ensures sorted { AreWrites self.old }
    {
        if let Some(before) = self.tables.get_mut(table) {
            return before.write_all(writes);
        }
        self.tables.insert(table.copy(self.alloc)?, writes)?;
        Ok(())
    }

    /// A copy of the writes, sorted by table, then key, in time linear in their size.
    ///
    /// # Errors
    /// Where memory runs out.
    pub fn write_set(&self, alloc: Global) -> Result<WriteSet, Memory>
        ensures writes { IfOk result (λ set. set.writes ≡ self.now) }
        ensures sorted { AreWrites self.now }
    {
        let mut copies = Vec::new(alloc);
        for (table, writes) in self.tables() {
            copy_each(alloc, table, writes, &mut copies)?;
        }
        Ok(WriteSet {
            writes: Sequence::of(copies),
        })
    }
}
