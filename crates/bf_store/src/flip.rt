//! The flip: the old tables leave the live ones as they are, and the new ones come without rows.

ghost use Rattle.std.specs.Prelude.{◌≡◌, [], IfOk, IsTrue, OnErr, OnOk, fold, is_some, map, Some};
ghost use Rattle.std.specs.Option.{option_map};
ghost use Rattle.boxcar.specs.Table.{Shows};
ghost use Rattle.bf_base.specs.Lists.{has, same_name};
ghost use Rattle.bf_live.specs.Meanings.{entries_of};
ghost use Rattle.bf_tree.specs.Limits.{HasNarrowTables, IsNarrowMigrate};
ghost use Rattle.bf_sql.specs.Bound.{catalog_of};
ghost use Rattle.bf_sql.specs.Database.{IsDatabase, stored_at, with_rows};
ghost use Rattle.bf_sql.specs.migrations.Plans.{plan_made};
ghost use Rattle.bf_image.specs.Lawful.{IsLawful};
ghost use Rattle.bf_image.specs.Migrations.{IsLawfulMigration};
ghost use Rattle.bf_live.specs.Live.{held_in};
ghost use Rattle.bf_live.specs.Aside.{set_aside as without_rows_of};
ghost use Rattle.bf_store.specs.Flips.{AreTablesOf, IsBegun, MayComeBack, emptied, frozen_in, names_in, tables_of, with_back};
ghost use Rattle.bf_store.specs.Stores.{migration_of, next_anchor};

use crate::anchor::Anchor;
use crate::done::Done;
use crate::under_way::UnderWay;
use bf_base::{Memory, Name, Sequence, Table};
use bf_heap::Heap;
use bf_image::{Frozen, Migration, Registry, positions};
use bf_index::FrozenIndexedHeap;
use bf_live::LiveTables;
use bf_tree::Plan;
use std::alloc::Global;
use std::sync::Wait;

/// Takes the rows of a table out of the live ones, frozen as they are.
///
/// # Errors
/// Where memory runs out. The live tables are as they were then.
fn take_frozen(
    alloc: Global,
    live: &mut LiveTables,
    name: &Name,
) -> Result<FrozenIndexedHeap, Memory>
    requires database { IsDatabase live.old }
    requires there { IsTrue (is_some (stored_at live.old name.now)) }
    ensures rows { IfOk result (λ rows. Some rows
        ≡ option_map (λ s. entries_of s.table s.rows) (stored_at live.old name.now)) }
    ensures taken { OnOk result (live.new ≡ with_rows live.old name.now []) }
    ensures err { OnErr result (live.new ≡ live.old) }
{
    let Some(heap) = live.take_rows(name) else {
        unreachable!();
    };
    match FrozenIndexedHeap::of(alloc, heap) {
        Ok(rows) => Ok(rows),
        Err((heap, memory)) => {
            live.put_rows(name, heap);
            Err(memory)
        }
    }
}

/// Puts the rows of old tables back into the live ones. Takes no memory.
fn put_back(live: &mut LiveTables, frozen: Vec<Frozen>)
    requires { MayComeBack live.old frozen.items }
    ensures { live.new ≡ fold with_back live.old frozen.items }
{
    for old in frozen {
        let Frozen { table, rows } = old;
        live.put_rows(&table.name, rows.into_indexed_heap());
    }
}

/// Takes the rows of some tables out of the live ones, each with its table.
///
/// # Errors
/// Where memory runs out. The live tables are as they were then.
fn set_aside(
    alloc: Global,
    live: &mut LiveTables,
    tables: Vec<Table>,
) -> Result<Vec<Frozen>, Memory>
    requires database { IsDatabase live.old }
    requires tables { AreTablesOf live.old tables.items }
    ensures frozen { IfOk result (λ frozen.
        frozen.items ≡ map (frozen_in live.old) tables.items) }
    ensures aside { OnOk result (live.new ≡ without_rows_of (names_in tables.items) live.old) }
    ensures err { OnErr result (live.new ≡ live.old) }
{
    let mut frozen = Vec::with_capacity(alloc, tables.len())?;
    for table in tables {
        match take_frozen(alloc, live, &table.name) {
            Ok(rows) => frozen.push_reserved(Frozen { table, rows }),
            Err(memory) => {
                put_back(live, frozen);
                return Err(memory);
            }
        }
    }
    Ok(frozen)
}

/// Whether a name is one of some names.
fn is_among(names: &[Name], name: &Name) -> bool
    ensures { result ≡ has same_name names.now name.now }
{
    names.iter().any(|other| *name == *other)
}

/// Copies of the tables of some names, without their rows. It compares each table's name with them.
fn tables_named(alloc: Global, live: &LiveTables, names: &[Name]) -> Result<Vec<Table>, Memory>
    ensures { IfOk result (λ tables. tables.items ≡ tables_of live.now names.now) }
{
    let mut all = Vec::new(alloc);
    for table in live.catalog().tables() {
        if is_among(names, &table.name) {
            all.push(table.copy(alloc)?)?;
        }
    }
    Ok(all)
}

/// Copies of tables, without rows.
fn without_rows(alloc: Global, tables: &[Table]) -> Result<Vec<(Table, Heap)>, Memory>
    ensures { IfOk result (λ new. held_in new.items ≡ map (λ table. (table, [])) tables.now) }
{
    let mut new = Vec::with_capacity(alloc, tables.len())?;
    for table in tables {
        new.push((table.copy(alloc)?, Heap::new(alloc)))?;
    }
    Ok(new)
}

/// The first anchor of a migration, if there is one. It compares about log n names for each unit.
/// Takes no memory.
fn first_anchor(migration: &Migration) -> Option<Anchor>
    requires { IsLawfulMigration migration.now }
    ensures { result ≡ next_anchor (migration_of migration.now []) }
{
    for number in 0..migration.plan.units.len() {
        let unit = number as u8;
        if positions(migration, unit) > 0 {
            return Some(Anchor { unit, position: 0 });
        }
    }
    None
}

/// Gives a migration to a registry, with which it begins: nothing of it has moved.
///
/// # Errors
/// Where memory runs out. The rows of its old tables are put back into the live ones then.
fn begin<R: Wait>(
    alloc: Global,
    rt: &R,
    live: &mut LiveTables,
    registry: &Registry,
    migration: Migration,
) -> Result<UnderWay, Memory>
    requires lawful { IsLawfulMigration migration }
    requires back { MayComeBack live.old migration.frozen }
    ensures shown { IfOk result (λ begun. Shows registry.now.migrations begun.pass) }
    ensures kept { IfOk result (λ begun. begun.pass.value ≡ migration) }
    ensures numbered { IfOk result (λ begun. begun.number ≡ migration.number) }
    ensures none_done { IfOk result (λ begun. begun.done ≡ []) }
    ensures next { IfOk result (λ begun. begun.next ≡ next_anchor (migration_of migration [])) }
    ensures live { OnOk result (live.new ≡ live.old) }
    ensures err { OnErr result (live.new ≡ fold with_back live.old migration.frozen) }
{
    let number = migration.number;
    let next = first_anchor(&migration);
    match registry.add_migration(rt, migration) {
        Ok(pass) => Ok(UnderWay {
            number,
            pass,
            done: Done::new(alloc),
            next,
        }),
        Err((migration, memory)) => {
            put_back(live, migration.frozen.into_vec());
            Err(memory)
        }
    }
}

/// Begins a migration by its plan, over the old tables with their rows, which leave the live ones.
/// What may fail is done before they leave for good. It costs the pages of the old tables, the
/// catalog and the plan; no row is copied.
///
/// # Errors
/// Where memory runs out. The live tables are as they were then.
pub(crate) fn flip<R: Wait>(
    alloc: Global,
    rt: &R,
    live: &mut LiveTables,
    registry: &Registry,
    plan: &Plan,
    number: u32,
) -> Result<UnderWay, Memory>
    requires lawful { IsLawful live.old plan.now.migrate }
    requires planned { plan.now ≡ plan_made live.old plan.now.migrate }
    requires narrow { IsNarrowMigrate plan.now.migrate }
    requires tables { HasNarrowTables (catalog_of live.old) }
    ensures begun { IfOk result (λ begun. IsBegun live.old plan.now registry.now number begun) }
    ensures live { OnOk result (live.new ≡ emptied live.old plan.now.migrate) }
    ensures err { OnErr result (live.new ≡ live.old) }
{
    let sources = plan.sources.as_slice();
    let new = without_rows(alloc, plan.tables.as_slice())?;
    let exchange = live.prepare_exchange(sources, new)?;
    let copy = plan.copy(alloc)?;
    let tables = tables_named(alloc, live, sources)?;
    let frozen = Sequence::of(set_aside(alloc, live, tables)?);
    let migration = Migration {
        number,
        plan: copy,
        frozen,
    };
    let begun = begin(alloc, rt, live, registry, migration)?;
    live.exchange(sources, exchange);
    Ok(begun)
}
