//! The writes of a transaction to one table.

ghost use Rattle.std.specs.Prelude.{◌≡◌, ◌==◌, [], OnErr, OnOk, fold, filter, length, count_by, is_some};
ghost use Rattle.std.specs.Map.{values_of};
ghost use Rattle.std.specs.Option.{option_map};
ghost use Rattle.bf_heap.specs.KeyRanges.{is_within};
ghost use Rattle.bf_txn.specs.Writes.{AreKeyWrites, KeyWrite, row_written_at, with_key_write};

use crate::putting::put_all;
use crate::writes_ahead::WritesAhead;
use bf_base::{Key, Memory, Row};
use bf_heap::KeyRange;
use std::alloc::Global;
use std::collections::BTreeMap;
use std::collections::btree_map::{IntoIter, Iter};
use std::marker::Model;

/// For each key of a table that is written, the row that it has from now on, or none. Contracts see
/// the keys in their order, each with the row or the removal. A look-up and a write compare about
/// log n keys, in whatever order the keys come.
#[derive(Drop)]
pub struct TableWrites {
    alloc: Global,
    rows: BTreeMap<Key, Option<Row>>,
}

impl Model for TableWrites {
    ghost use Rattle.std.specs.Prelude.{List};
    ghost use Rattle.bf_txn.specs.Writes.{AreKeyWrites, KeyWrite};

    ghost Value = { List KeyWrite };

    ghost view = { λ writes. writes.rows.entries };

    ghost invariant = { λ writes. AreKeyWrites writes.rows.entries };
}

/// The number of keys that have a row.
fn count_rows(rows: &BTreeMap<Key, Option<Row>>) -> usize
    ensures { result ≡ count_by (λ row. is_some row) (values_of rows.now.entries) }
{
    rows.values().filter(|row| row.is_some()).count()
}

impl TableWrites {
    /// No writes. Takes no memory.
    pub fn new(alloc: Global) -> TableWrites
        ensures { result ≡ [] }
    {
        TableWrites {
            alloc,
            rows: BTreeMap::new(alloc),
        }
    }

    /// The number of keys that are written. Takes no memory.
    pub fn len(&self) -> usize
        ensures { result ≡ length self.now }
    {
        self.rows.len()
    }

    /// Whether nothing is written. Takes no memory.
    pub fn is_empty(&self) -> bool
        ensures { result ≡ (length self.now == 0) }
    {
        self.rows.is_empty()
    }

    /// What is written to a key: `None` exactly where nothing is, and `Some(None)` where its row is
    /// removed. Takes no memory.
    pub fn read(&self, key: &Key) -> Option<Option<&Row>>
        ensures row { option_map (λ row. option_map (λ r. r.now) row) result
            ≡ row_written_at self.now key.now }
        ensures sorted { AreKeyWrites self.now }
    {
        match self.rows.get(key) {
            Some(row) => Some(row.as_ref()),
            None => None,
        }
    }

    /// Notes a write, which takes the place of an earlier one to its key.
    ///
    /// # Errors
    /// Where memory runs out. The writes are as they were then.
    pub fn write(&mut self, key: Key, row: Option<Row>) -> Result<(), Memory>
        ensures ok { OnOk result (self.new ≡ with_key_write self.old (key, row)) }
        ensures err { OnErr result (self.new ≡ self.old) }
        ensures sorted { AreKeyWrites self.new }
    {
        self.rows.insert(key, row)?;
        Ok(())
    }

    /// Notes writes: each takes the place of an earlier one to its key. It copies their keys.
    ///
    /// # Errors
    /// Where memory runs out. The writes are as they were then.
    pub fn write_all(&mut self, more: TableWrites) -> Result<(), Memory>
        ensures ok { OnOk result (self.new ≡ fold with_key_write self.old more) }
        ensures err { OnErr result (self.new ≡ self.old) }
        ensures sorted { AreKeyWrites self.new }
        ensures more_sorted { AreKeyWrites more }
    {
        put_all(self.alloc, &mut self.rows, more.rows)
    }

    /// The place before the first write to a key of a range, for a pass over the writes to its keys.
    /// It compares about log n keys, and those that an excluded low end begins. Takes no memory.
    pub fn range<'w, 'r>(&'w self, range: &'r KeyRange) -> WritesAhead<'w, 'r>
        ensures { result ≡ filter (λ write. is_within range.now write.0) self.now }
    {
        WritesAhead::new(&self.rows, range)
    }

    /// The number of writes that put a row, in time linear in their number. Takes no memory.
    pub fn count_puts(&self) -> usize
        ensures { result ≡ count_by (λ row. is_some row) (values_of self.now) }
    {
        count_rows(&self.rows)
    }

    /// The keys in their order, each with its row or none. Takes no memory.
    pub fn iter(&self) -> Iter<'_, Key, Option<Row>>
        ensures { result ≡ self.now }
    {
        self.rows.iter()
    }

    /// The keys in their order, each with its row or none. Copies nothing, and takes no memory.
    pub fn into_iter(self) -> IntoIter<Key, Option<Row>>
        ensures { result ≡ self }
    {
        self.rows.into_iter()
    }
}
