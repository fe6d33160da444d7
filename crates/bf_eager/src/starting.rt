//! The live tables of a catalog and given rows.

ghost use Rattle.std.specs.Prelude.{◌≡◌, ℕ, IfOk, List};
ghost use Rattle.bf_live.specs.Live.{held_in};
ghost use Rattle.bf_eager.specs.Starting.{CanStart, database_with, named_tables, rows_named, tables_with};
ghost use Rattle.bf_eager.specs.Given.{given_under};

use crate::filling::heap_of;
use bf_base::{Memory, Name, Row, Table};
use bf_heap::Heap;
use bf_live::LiveTables;
use bf_tree::Catalog;
use std::alloc::Global;
use std::collections::BTreeMap;

/// The rows that are given under each name; of several the last.
fn by_name(alloc: Global, given: Vec<(Name, Vec<Row>)>) -> Result<BTreeMap<Name, Vec<Row>>, Memory>
    ensures { IfOk result (λ rows. (name : List ℕ)
        → given_under rows name ≡ rows_named (named_tables given.items) name) }
{
    let mut by_name = BTreeMap::new(alloc);
    for (name, rows) in given {
        by_name.insert(name, rows)?;
    }
    Ok(by_name)
}

/// The tables of a catalog, each with a heap of the rows that are given under its name.
fn heaps_of(
    alloc: Global,
    catalog: &Catalog,
    given: Vec<(Name, Vec<Row>)>,
) -> Result<Vec<(Table, Heap)>, Memory>
    requires { CanStart catalog.now (named_tables given.items) }
    ensures { IfOk result (λ tables.
        held_in tables.items ≡ tables_with catalog.now (named_tables given.items)) }
{
    let mut by_name = by_name(alloc, given)?;
    let mut tables = Vec::new(alloc);
    for table in catalog.tables() {
        let rows = by_name.remove(&table.name).unwrap_or(Vec::new(alloc));
        let heap = heap_of(alloc, table, rows)?;
        tables.push((table.copy(alloc)?, heap))?;
    }
    Ok(tables)
}

/// The live tables of a catalog and the rows that are given under the names of its tables.
///
/// # Errors
/// Where memory runs out, or a table has 2 ^ 32 rows or more.
pub(crate) fn live_tables(
    alloc: Global,
    catalog: &Catalog,
    given: Vec<(Name, Vec<Row>)>,
) -> Result<LiveTables, Memory>
    requires { CanStart catalog.now (named_tables given.items) }
    ensures { IfOk result (λ live. live ≡ database_with catalog.now (named_tables given.items)) }
{
    let mut live = LiveTables::new(alloc);
    live.replace(&[], heaps_of(alloc, catalog, given)?)?;
    for index in catalog.indexes() {
        live.create_index(index.copy(alloc)?)?;
    }
    Ok(live.with_number(catalog.number()))
}
