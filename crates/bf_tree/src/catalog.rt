//! The catalog: what a database has beside its rows.

ghost use Rattle.std.specs.Prelude.{◌≡◌, IfOk, OnErr, OnOk, None, option_copied};
ghost use Rattle.bf_tree.specs.Places.{AreByName, AreIndexesByName, empty_catalog, index_named, table_named, with_new_index, with_new_table};

use bf_base::{Memory, Name, Sequence, Table, TryClone};
use std::alloc::Global;
use std::collections::BTreeMap;
use std::collections::btree_map::Values;
use std::marker::Model;

/// An index on columns of a table, by their places, counted from 0.
#[derive(Debug, Drop, PartialEq, Eq)]
pub struct IndexRule {
    pub name: Name,
    pub table: Name,
    pub columns: Sequence<u8>,
}

/// The number of schema changes so far, and the tables and the index rules by their names, which
/// contracts see in the order of those. A look-up and a schema change compare about log n names.
#[derive(Drop)]
pub struct Catalog {
    alloc: Global,
    number: u64,
    tables: BTreeMap<Name, Table>,
    indexes: BTreeMap<Name, IndexRule>,
}

impl Model for Catalog {
    ghost use Rattle.std.specs.Map.{values_of};
    ghost use Rattle.bf_base.specs.declared.table.Table.{Table as TableSeen};
    ghost use Rattle.bf_tree.specs.Catalogs.{Catalog as Seen, StandByName};
    ghost use Rattle.bf_tree.specs.declared.catalog.IndexRule.{IndexRule as RuleSeen};

    ghost Value = { Seen };

    ghost view = { λ catalog. record {
      number = catalog.number;
      tables = values_of catalog.tables.entries;
      indexes = values_of catalog.indexes.entries;
    } };

    ghost invariant = { λ catalog. StandByName TableSeen (λ t. t.name) catalog.tables.entries
        × StandByName RuleSeen (λ i. i.name) catalog.indexes.entries };
}

impl IndexRule {
    /// An equal rule.
    pub fn copy(&self, alloc: Global) -> Result<IndexRule, Memory>
        ensures { IfOk result (λ copy. copy ≡ self.now) }
    {
        let name = self.name.copy(alloc)?;
        let table = self.table.copy(alloc)?;
        let columns = self.columns.copy(alloc)?;
        Ok(IndexRule {
            name,
            table,
            columns,
        })
    }
}

impl TryClone for IndexRule {
    fn try_clone(&self, alloc: Global) -> Result<IndexRule, Memory> {
        self.copy(alloc)
    }
}

impl Catalog {
    /// The catalog of no tables, before any schema change. Takes no memory.
    pub fn new(alloc: Global) -> Catalog
        ensures { result ≡ empty_catalog }
    {
        Catalog {
            alloc,
            number: 0,
            tables: BTreeMap::new(alloc),
            indexes: BTreeMap::new(alloc),
        }
    }

    /// The number of schema changes so far.
    pub fn number(&self) -> u64
        ensures { result ≡ self.now.number }
    {
        self.number
    }

    /// The table of a name. It compares about log n names, and takes no memory.
    pub fn table(&self, name: &Name) -> Option<&Table>
        ensures { option_copied result ≡ table_named self.now name.now }
    {
        self.tables.get(name)
    }

    /// The index rule of a name. It compares about log n names, and takes no memory.
    pub fn index(&self, name: &Name) -> Option<&IndexRule>
        ensures { option_copied result ≡ index_named self.now name.now }
    {
        self.indexes.get(name)
    }

    /// The tables, in the order of their names. Takes no memory.
    pub fn tables(&self) -> Values<'_, Name, Table>
        ensures tables { result ≡ self.now.tables }
        ensures by_name { AreByName self.now.tables }
    {
        self.tables.values()
    }

    /// The index rules, in the order of their names. Takes no memory.
    pub fn indexes(&self) -> Values<'_, Name, IndexRule>
        ensures indexes { result ≡ self.now.indexes }
        ensures by_name { AreIndexesByName self.now.indexes }
    {
        self.indexes.values()
    }

    /// The same tables and index rules, after as many schema changes as are told: what one change
    /// replaces can be built up in steps, and counts once. Takes no memory.
    pub fn with_number(self, number: u64) -> Catalog
        ensures { result ≡ record self { number = number } }
    {
        Catalog { number, ..self }
    }

    /// Adds a table of a new name, and counts a schema change. It compares about log n names.
    ///
    /// # Errors
    /// Where memory runs out, or 2 ^ 64 schema changes were made. The catalog is as it was then.
    pub fn add_table(&mut self, table: Table) -> Result<(), Memory>
        requires { table_named self.old table.name ≡ None }
        ensures ok { OnOk result (self.new ≡ with_new_table table self.old) }
        ensures err { OnErr result (self.new ≡ self.old) }
    {
        let number = self.number.checked_add(1).ok_or(Memory)?;
        let name = table.name.copy(self.alloc)?;
        self.tables.insert(name, table)?;
        self.number = number;
        Ok(())
    }

    /// Adds an index rule of a new name, and counts a schema change. It compares about log n names.
    /// No index is built.
    ///
    /// # Errors
    /// Where memory runs out, or 2 ^ 64 schema changes were made. The catalog is as it was then.
    pub fn add_index(&mut self, index: IndexRule) -> Result<(), Memory>
        requires { index_named self.old index.name ≡ None }
        ensures ok { OnOk result (self.new ≡ with_new_index index self.old) }
        ensures err { OnErr result (self.new ≡ self.old) }
    {
        let number = self.number.checked_add(1).ok_or(Memory)?;
        let name = index.name.copy(self.alloc)?;
        self.indexes.insert(name, index)?;
        self.number = number;
        Ok(())
    }
}
