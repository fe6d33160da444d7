//! What a schema change makes of the live tables, built up beside them.

ghost use Rattle.std.specs.Prelude.{◌≡◌, [], ◌∷◌, IfOk, None, map};
ghost use Rattle.bf_base.specs.Lists.{has, name_cmp, placed, same_name};
ghost use Rattle.bf_live.specs.Live.{held_in, rows_in};
ghost use Rattle.bf_live.specs.Drafts.{AreNamedApart, drafted_at, name_of_rows, rule_named, staying, staying_rows, staying_rules, tables_after, with_more, with_rows_of};

use crate::by_name::exchange_heap;
use bf_base::{Memory, Name, Table};
use bf_heap::Heap;
use bf_index::IndexedHeap;
use bf_tree::{Catalog, IndexRule};
use std::alloc::Global;
use std::collections::BTreeMap;
use std::marker::Model;

/// Tables with their rows and index rules, while a schema change builds them up. The number of the
/// catalog within tells nothing.
#[derive(Drop)]
pub struct Draft {
    alloc: Global,
    catalog: Catalog,
    /// For the name of each table of the catalog, the rows.
    heaps: BTreeMap<Name, IndexedHeap>,
}

impl Model for Draft {
    ghost use Rattle.std.specs.Prelude.{◌≡◌, map, zip};
    ghost use Rattle.std.specs.Map.{keys_of, values_of};
    ghost use Rattle.bf_live.specs.Drafts.{Drafted};
    ghost use Rattle.bf_live.specs.Live.{rows_in};

    ghost Value = { Drafted };

    ghost view = { λ draft. record {
      tables = zip draft.catalog.tables (values_of (rows_in draft.heaps.entries));
      indexes = draft.catalog.indexes;
    } };

    ghost invariant = { λ draft. keys_of (rows_in draft.heaps.entries)
        ≡ map (λ table. table.name) draft.catalog.tables };
}

/// Whether a name is one of some names.
fn is_among(names: &[Name], name: &Name) -> bool
    ensures { result ≡ has same_name names.now name.now }
{
    names.iter().any(|other| *name == *other)
}

impl Draft {
    /// No tables. Takes no memory.
    fn new(alloc: Global) -> Draft
        ensures { result ≡ record { tables = []; indexes = [] } }
    {
        Draft {
            alloc,
            catalog: Catalog::new(alloc),
            heaps: BTreeMap::new(alloc),
        }
    }

    /// The draft with a table of a new name and its rows.
    fn with_table(self, table: Table, heap: Heap) -> Result<Draft, Memory>
        requires { drafted_at self.tables table.name ≡ None }
        ensures { IfOk result (λ draft. draft ≡ record self {
          tables = placed name_cmp name_of_rows self.tables (table, heap.entries);
        }) }
    {
        let Draft {
            alloc,
            mut catalog,
            mut heaps,
        } = self;
        let name = table.name.copy(alloc)?;
        catalog.add_table(table)?;
        heaps.insert(name, IndexedHeap::of(alloc, heap))?;
        Ok(Draft {
            alloc,
            catalog,
            heaps,
        })
    }

    /// The draft with an index rule of a new name.
    fn with_rule(self, rule: IndexRule) -> Result<Draft, Memory>
        requires { rule_named self.indexes rule.name ≡ None }
        ensures { IfOk result (λ draft. draft ≡ record self {
          indexes = placed name_cmp (λ rule. rule.name) self.indexes rule;
        }) }
    {
        let Draft {
            alloc,
            mut catalog,
            heaps,
        } = self;
        catalog.add_index(rule)?;
        Ok(Draft {
            alloc,
            catalog,
            heaps,
        })
    }

    /// The draft with new tables and their rows.
    fn with_new(self, new: Vec<(Table, Heap)>) -> Result<Draft, Memory>
        requires { AreNamedApart (with_more self.tables (held_in new.items)) }
        ensures { IfOk result (λ draft. draft ≡ record self {
          tables = with_more self.tables (held_in new.items);
        }) }
    {
        let mut draft = self;
        for (table, heap) in new {
            draft = draft.with_table(table, heap)?;
        }
        Ok(draft)
    }

    /// The draft with copies of the tables that stay, without rows.
    fn with_staying(self, old: &Catalog, gone: &[Name]) -> Result<Draft, Memory>
        requires { AreNamedApart (with_more self.tables (staying gone.now old.now.tables)) }
        ensures { IfOk result (λ draft. draft ≡ record self {
          tables = with_more self.tables (staying gone.now old.now.tables);
        }) }
    {
        let alloc = self.alloc;
        let mut draft = self;
        for table in old.tables() {
            if !is_among(gone, &table.name) {
                draft = draft.with_table(table.copy(alloc)?, Heap::new(alloc))?;
            }
        }
        Ok(draft)
    }

    /// The draft with copies of the index rules on the tables that stay, where it has none.
    fn with_rules(self, old: &Catalog, gone: &[Name]) -> Result<Draft, Memory>
        requires { self.indexes ≡ [] }
        ensures { IfOk result (λ draft. draft ≡ record self {
          indexes = staying_rules gone.now old.now.indexes;
        }) }
    {
        let alloc = self.alloc;
        let mut draft = self;
        for rule in old.indexes() {
            if !is_among(gone, &rule.table) {
                draft = draft.with_rule(rule.copy(alloc)?)?;
            }
        }
        Ok(draft)
    }

    /// The new tables with their rows, and copies of those that stay with their index rules, without
    /// their rows.
    ///
    /// # Errors
    /// Where memory runs out.
    pub fn of(
        alloc: Global,
        old: &Catalog,
        gone: &[Name],
        new: Vec<(Table, Heap)>,
    ) -> Result<Draft, Memory>
        requires { AreNamedApart (tables_after old.now gone.now (held_in new.items)) }
        ensures { IfOk result (λ draft. draft ≡ record {
          tables = tables_after old.now gone.now (held_in new.items);
          indexes = staying_rules gone.now old.now.indexes;
        }) }
    {
        Draft::new(alloc)
            .with_new(new)?
            .with_staying(old, gone)?
            .with_rules(old, gone)
    }

    /// Puts a heap in the place of the one of a name, if that is there. Takes no memory.
    fn put(&mut self, name: &Name, heap: IndexedHeap)
        ensures { self.new ≡ record self.old {
          tables = with_rows_of ((name.now, heap.entries) ∷ []) self.old.tables;
        } }
    {
        exchange_heap(&mut self.heaps, name, heap);
    }

    /// Puts the heaps of the tables that stay in their places, and lets go of the others. Takes no
    /// memory.
    pub fn put_staying(&mut self, gone: &[Name], heaps: BTreeMap<Name, IndexedHeap>)
        ensures { self.new ≡ record self.old {
          tables = with_rows_of (staying_rows gone.now (rows_in heaps.entries)) self.old.tables;
        } }
    {
        for (name, heap) in heaps {
            if !is_among(gone, &name) {
                self.put(&name, heap);
            }
        }
    }

    /// The catalog of the tables, and their heaps by their names. Takes no memory.
    pub fn into_parts(self) -> (Catalog, BTreeMap<Name, IndexedHeap>)
        ensures tables { result.0.tables ≡ map (λ t. t.0) self.tables }
        ensures indexes { result.0.indexes ≡ self.indexes }
        ensures rows { rows_in result.1.entries ≡ map (λ t. (t.0.name, t.1)) self.tables }
    {
        let Draft {
            catalog,
            heaps,
            alloc: _,
        } = self;
        (catalog, heaps)
    }
}
