//! The live tables.

ghost use Rattle.std.specs.Prelude.{◌≡◌, List, [], ◌∷◌, IfOk, OnErr, OnOk, map};
ghost use Rattle.std.specs.List.{All};
ghost use Rattle.std.specs.Option.{option_map};
ghost use Rattle.bf_live.specs.Meanings.{entries_of};
ghost use Rattle.bf_live.specs.Merged.{StandUnderOwnKeys};
ghost use Rattle.bf_sql.specs.Database.{IsDatabase, Stored, empty_database, stored_at, stored_in_order, with_rows, with_tables};
ghost use Rattle.bf_sql.specs.Meaning.{next_number, with_index};
ghost use Rattle.bf_sql.specs.Bound.{catalog_of};
ghost use Rattle.bf_live.specs.Drafts.{AreNamedApart, CanExchange, IsExchangeOf, tables_after};
ghost use Rattle.bf_live.specs.Puts.{AreOfDifferentTables, all_puts};
ghost use Rattle.bf_live.specs.Live.{IsUnderOwnKeys, TableRows, committed, exchanged, held_in, stored};

use crate::by_name::{build_index, exchange_heap};
use crate::commit::{apply, make_room};
use crate::draft::Draft;
use crate::puts::{Puts, make_room_for, put_all};
use bf_base::{Memory, Name, Table};
use bf_heap::Heap;
use bf_index::IndexedHeap;
use bf_tree::{Catalog, IndexRule};
use bf_txn::Workspace;
use std::alloc::Global;
use std::collections::BTreeMap;
use std::marker::Model;
use std::mem;

/// The committed tables. Contracts see the database that they are.
#[derive(Drop)]
pub struct LiveTables {
    alloc: Global,
    catalog: Catalog,
    /// For the name of each table of the catalog, the rows.
    heaps: BTreeMap<Name, IndexedHeap>,
}

/// What an exchange is to make of live tables, built up beside them.
#[derive(Drop)]
pub struct Exchange {
    number: u64,
    draft: Draft,
}

impl Model for Exchange {
    ghost use Rattle.bf_live.specs.Drafts.{Prepared};

    ghost Value = { Prepared };

    ghost view = { λ exchange. record {
      number = exchange.number;
      drafted = exchange.draft;
    } };
}

impl Model for LiveTables {
    ghost use Rattle.bf_sql.specs.Database.{Database};
    ghost use Rattle.bf_live.specs.Live.{AreLiveTables, database_of, rows_in};

    ghost Value = { Database };

    ghost view = { λ live. database_of live.catalog (rows_in live.heaps.entries) };

    ghost invariant = { λ live. AreLiveTables live.catalog (rows_in live.heaps.entries) };
}

impl LiveTables {
    /// The live tables of the empty database. Takes no memory.
    pub fn new(alloc: Global) -> LiveTables
        ensures { result ≡ empty_database }
    {
        LiveTables {
            alloc,
            catalog: Catalog::new(alloc),
            heaps: BTreeMap::new(alloc),
        }
    }

    /// The catalog. Takes no memory.
    pub fn catalog(&self) -> &Catalog
        ensures catalog { result.now ≡ catalog_of self.now }
        ensures database { IsDatabase self.now }
    {
        &self.catalog
    }

    /// The rows of the table of a name, each under its key, and `None` exactly where no table has
    /// the name. It compares about log n names, and takes no memory.
    pub fn heap(&self, table: &Name) -> Option<&Heap>
        ensures { option_map (λ heap. heap.now.entries) result
            ≡ option_map (λ s. entries_of s.table s.rows) (stored_at self.now table.now) }
    {
        match self.heaps.get(table) {
            Some(indexed) => Some(indexed.heap()),
            None => None,
        }
    }

    /// The rows of the table of a name with the indexes that are kept of them, and `None` exactly where no
    /// table has the name. It compares about log n names, and takes no memory.
    pub fn indexed_heap(&self, table: &Name) -> Option<&IndexedHeap>
        ensures { option_map (λ heap. heap.now.entries) result
            ≡ option_map (λ s. entries_of s.table s.rows) (stored_at self.now table.now) }
    {
        self.heaps.get(table)
    }

    /// Adds a table without rows, and counts a schema change. It compares about log n names.
    ///
    /// # Errors
    /// Where memory runs out, or 2 ^ 64 schema changes were made. The live tables are as they were then.
    pub fn create_table(&mut self, table: Table) -> Result<(), Memory>
        requires database { IsDatabase
            (next_number (with_tables (stored_in_order table [] ∷ []) self.old)) }
        ensures ok { OnOk result (self.new
            ≡ next_number (with_tables (stored_in_order table [] ∷ []) self.old)) }
        ensures err { OnErr result (self.new ≡ self.old) }
    {
        let name = table.name.copy(self.alloc)?;
        let under = table.name.copy(self.alloc)?;
        self.heaps
            .insert(under, IndexedHeap::of(self.alloc, Heap::new(self.alloc)))?;
        match self.catalog.add_table(table) {
            Ok(()) => Ok(()),
            Err(e) => {
                self.heaps.remove(&name);
                Err(e)
            }
        }
    }

    /// Adds an index rule, builds its index over the rows of its table, and counts a schema change. It compares
    /// about log n names, and takes time n log n in the rows.
    ///
    /// # Errors
    /// Where memory runs out, or 2 ^ 64 schema changes were made. The live tables are as they were then.
    pub fn create_index(&mut self, index: IndexRule) -> Result<(), Memory>
        requires database { IsDatabase (next_number (with_index index self.old)) }
        ensures ok { OnOk result (self.new ≡ next_number (with_index index self.old)) }
        ensures err { OnErr result (self.new ≡ self.old) }
    {
        let columns = index.columns.copy(self.alloc)?.into_vec();
        build_index(&mut self.heaps, &index.table, columns)?;
        self.catalog.add_index(index)
    }

    /// Tables leave with their index rules, and new ones come with their rows, as one schema change. A
    /// name may leave and come back. Each table and each index rule is compared with the names that
    /// leave, and a table is placed by about log n compares; the columns of those that stay are copied,
    /// and no row is.
    ///
    /// # Errors
    /// Where memory runs out, or 2 ^ 64 schema changes were made. The live tables are as they were then.
    pub fn replace(&mut self, gone: &[Name], new: Vec<(Table, Heap)>) -> Result<(), Memory>
        requires database { IsDatabase
            (exchanged self.old gone.now (map stored (held_in new.items))) }
        requires own_keys { All IsUnderOwnKeys (held_in new.items) }
        ensures ok { OnOk result (self.new
            ≡ exchanged self.old gone.now (map stored (held_in new.items))) }
        ensures err { OnErr result (self.new ≡ self.old) }
    {
        let exchange = self.prepare_exchange(gone, new)?;
        self.exchange(gone, exchange);
        Ok(())
    }

    /// Builds up beside the live tables what an exchange is to make of them, and reads their catalog
    /// alone: their rows may change until then. Each table and each index rule is compared with the
    /// names that leave, and a table is placed by about log n compares; the columns of those that stay
    /// are copied.
    ///
    /// # Errors
    /// Where memory runs out, or 2 ^ 64 schema changes were made.
    pub fn prepare_exchange(
        &self,
        gone: &[Name],
        new: Vec<(Table, Heap)>,
    ) -> Result<Exchange, Memory>
        requires { AreNamedApart (tables_after (catalog_of self.now) gone.now (held_in new.items)) }
        ensures { IfOk result (λ exchange. IsExchangeOf
            (catalog_of self.now) gone.now (held_in new.items) exchange) }
    {
        let number = self.catalog.number().checked_add(1).ok_or(Memory)?;
        let draft = Draft::of(self.alloc, &self.catalog, gone, new)?;
        Ok(Exchange { number, draft })
    }

    /// Tables leave with their index rules and their rows, and new ones come, as was built up: one
    /// schema change. Each table is compared with the names that leave, and the heap of one that stays
    /// is placed by about log n compares. Takes no memory.
    pub fn exchange(&mut self, gone: &[Name], exchange: Exchange)
        requires { CanExchange self.old gone.now exchange }
        ensures { (new : List TableRows)
            → IsExchangeOf (catalog_of self.old) gone.now new exchange
            → self.new ≡ exchanged self.old gone.now (map stored new) }
    {
        let Exchange { number, mut draft } = exchange;
        let old = mem::replace(&mut self.heaps, BTreeMap::new(self.alloc));
        draft.put_staying(gone, old);
        let (catalog, heaps) = draft.into_parts();
        self.catalog = catalog.with_number(number);
        self.heaps = heaps;
    }

    /// Takes the rows of the table of a name out, which leaves it without rows: `None` exactly where no
    /// table has the name. It compares about log n names. Takes no memory.
    pub fn take_rows(&mut self, name: &Name) -> Option<IndexedHeap>
        ensures live { self.new ≡ with_rows self.old name.now [] }
        ensures rows { option_map (λ heap. heap.entries) result
            ≡ option_map (λ s. entries_of s.table s.rows) (stored_at self.old name.now) }
    {
        let none = IndexedHeap::of(self.alloc, Heap::new(self.alloc));
        exchange_heap(&mut self.heaps, name, none)
    }

    /// Puts rows into the table of a name in place of those that it has, if the table is there. It
    /// compares about log n names. Takes no memory.
    pub fn put_rows(&mut self, name: &Name, rows: IndexedHeap)
        requires own_keys { (s : Stored) → stored_at self.old name.now ≡ Some s
            → rows.entries ≡ entries_of s.table (map (λ entry. entry.1) rows.entries) }
        requires database { IsDatabase
            (with_rows self.old name.now (map (λ entry. entry.1) rows.entries)) }
        ensures { self.new ≡ with_rows self.old name.now (map (λ entry. entry.1) rows.entries) }
    {
        exchange_heap(&mut self.heaps, name, rows);
    }

    /// The same tables and index rules, after as many schema changes as are told: what stands for other
    /// changes can be built up in steps. Takes no memory.
    pub fn with_number(self, number: u64) -> LiveTables
        ensures { result ≡ record self { number = number } }
    {
        LiveTables {
            catalog: self.catalog.with_number(number),
            ..self
        }
    }

    /// Makes what a transaction has written part of its tables, and each other table stays. The
    /// writes move into the tables, which leaves the workspace empty. A table is looked up twice, and
    /// a write to it costs a look-up by key, in time logarithmic in its rows; a new or a removed row
    /// moves the rows behind it in its page, and each index of the table follows. Room is made for as
    /// many rows as are put; what is left of it stays as room for later rows.
    ///
    /// # Errors
    /// Where memory runs out. The live tables and the workspace are as they were then.
    pub fn commit(&mut self, writes: &mut Workspace) -> Result<(), Memory>
        requires own_keys { All (λ s. StandUnderOwnKeys s.table (entries_of s.table s.rows)
            writes.old) self.old.tables }
        requires database { IsDatabase (committed self.old writes.old) }
        ensures ok { OnOk result (self.new ≡ committed self.old writes.old) }
        ensures emptied { OnOk result (writes.new ≡ []) }
        ensures err { OnErr result (self.new ≡ self.old) }
        ensures kept { OnErr result (writes.new ≡ writes.old) }
    {
        make_room(&mut self.heaps, writes)?;
        let taken = mem::replace(writes, Workspace::new(self.alloc));
        apply(&mut self.heaps, taken);
        Ok(())
    }

    /// Puts rows under their keys into tables, each of which is told once; each other table stays. A
    /// table is looked up twice, and a row costs a look-up by key, in time logarithmic in the rows of
    /// its table; a new one moves the rows behind it in its page, and each index of the table follows.
    /// Room is made for all rows before the first is put; what is left of it stays as room for later
    /// rows.
    ///
    /// # Errors
    /// Where memory runs out. The live tables are as they were then.
    pub fn put(&mut self, puts: Vec<Puts>) -> Result<(), Memory>
        requires apart { AreOfDifferentTables puts.items }
        requires own_keys { All (λ s. StandUnderOwnKeys s.table (entries_of s.table s.rows)
            (all_puts puts.items)) self.old.tables }
        requires database { IsDatabase (committed self.old (all_puts puts.items)) }
        ensures ok { OnOk result (self.new ≡ committed self.old (all_puts puts.items)) }
        ensures err { OnErr result (self.new ≡ self.old) }
    {
        make_room_for(&mut self.heaps, &puts)?;
        put_all(&mut self.heaps, puts);
        Ok(())
    }
}
