//! The rows of the new tables, gathered part by part.

ghost use Rattle.std.specs.Prelude.{◌≡◌, ◌++◌, IfOk, OnOk, map};
ghost use Rattle.bf_sql.specs.migrations.Granules.{granule, part_of};
ghost use Rattle.bf_image.specs.Migrations.{IsLawfulMigration, anchors_in, old_of, value_indexes};
ghost use Rattle.bf_eager.specs.Flips.{AreMade};
ghost use Rattle.bf_eager.specs.Gathering.{gathered, named, parts_at, places_of_rows, places_of_values};
ghost use Rattle.bf_eager.specs.Sorting.{rows_made, table_alone, with_rows};

use bf_base::{Granule, Memory, Place, Row, Table};
use bf_image::{Migration, ValueIndexes, positions, rows_of};
use bf_index::ByValue;
use std::alloc::Global;

/// Adds the rows of a granule, each with the number of its target.
fn add_part(
    alloc: Global,
    migration: &Migration,
    indexes: &ValueIndexes,
    granule: Granule,
    rows: &mut Vec<(u8, Row)>,
) -> Result<(), Memory>
    requires lawful { IsLawfulMigration migration.now }
    requires indexed { indexes.now ≡ value_indexes migration.now }
    ensures { OnOk result (named migration.now rows.new.items ≡ named migration.now rows.old.items
        ++ part_of (old_of migration.now) migration.now.plan.migrate granule) }
{
    let part = rows_of(alloc, migration, indexes, &granule)?;
    for row in part {
        rows.push(row)?;
    }
    Ok(())
}

/// Adds the rows of a unit that goes by rows.
fn add_rows(
    alloc: Global,
    migration: &Migration,
    indexes: &ValueIndexes,
    unit: u8,
    rows: &mut Vec<(u8, Row)>,
) -> Result<(), Memory>
    requires lawful { IsLawfulMigration migration.now }
    requires indexed { indexes.now ≡ value_indexes migration.now }
    ensures { OnOk result (named migration.now rows.new.items ≡ named migration.now rows.old.items
        ++ parts_at migration.now unit (places_of_rows (anchors_in migration.now unit))) }
{
    for position in 0..positions(migration, unit) {
        let place = Place::Row(position);
        add_part(alloc, migration, indexes, Granule { unit, place }, rows)?;
    }
    Ok(())
}

/// Adds the rows of a unit that goes by values, value by value.
fn add_values(
    alloc: Global,
    migration: &Migration,
    indexes: &ValueIndexes,
    unit: u8,
    values: &ByValue,
    rows: &mut Vec<(u8, Row)>,
) -> Result<(), Memory>
    requires lawful { IsLawfulMigration migration.now }
    requires indexed { indexes.now ≡ value_indexes migration.now }
    ensures { OnOk result (named migration.now rows.new.items ≡ named migration.now rows.old.items
        ++ parts_at migration.now unit (places_of_values values.now)) }
{
    for at in 0..values.len() {
        if let Some((value, _)) = values.at(at) {
            let place = Place::Group(value.copy(alloc)?);
            add_part(alloc, migration, indexes, Granule { unit, place }, rows)?;
        }
    }
    Ok(())
}

/// The rows of all parts, unit by unit.
fn all_parts(alloc: Global, migration: &Migration) -> Result<Vec<(u8, Row)>, Memory>
    requires lawful { IsLawfulMigration migration.now }
    ensures { IfOk result (λ rows. named migration.now rows.items ≡ gathered migration.now) }
{
    let indexes = ValueIndexes::of(alloc, migration)?;
    let mut rows = Vec::new(alloc);
    for unit in 0..migration.plan.units.len() {
        let unit = unit as u8;
        match indexes.unit(unit) {
            Some(index) => {
                add_values(alloc, migration, &indexes, unit, &index.from, &mut rows)?;
            }
            None => add_rows(alloc, migration, &indexes, unit, &mut rows)?,
        }
    }
    Ok(rows)
}

/// The new tables, still without rows.
fn tables_alone(alloc: Global, migration: &Migration) -> Result<Vec<(Table, Vec<Row>)>, Memory>
    ensures { IfOk result (λ made. rows_made made.items
        ≡ map table_alone migration.now.plan.tables) }
{
    let mut made = Vec::with_capacity(alloc, migration.plan.tables.len())?;
    for table in migration.plan.tables.as_slice() {
        let table = table.copy(alloc)?;
        made.push((table, Vec::new(alloc)))?;
    }
    Ok(made)
}

/// Tables, each with the rows of its number behind its own.
fn sorted(
    tables: Vec<(Table, Vec<Row>)>,
    rows: Vec<(u8, Row)>,
) -> Result<Vec<(Table, Vec<Row>)>, Memory>
    ensures { IfOk result (λ made. rows_made made.items
        ≡ with_rows (rows_made tables.items) rows.items) }
{
    let mut made = tables;
    for (target, row) in rows {
        if let Some(table) = made.get_mut(target as usize) {
            table.1.push(row)?;
        }
    }
    Ok(made)
}

/// The new tables of a migration, each with its rows in the order of their parts.
///
/// # Errors
/// Where memory runs out.
pub(crate) fn tables_made(
    alloc: Global,
    migration: &Migration,
) -> Result<Vec<(Table, Vec<Row>)>, Memory>
    requires { IsLawfulMigration migration.now }
    ensures { IfOk result (λ made.
        AreMade (old_of migration.now) migration.now.plan.migrate.targets made.items) }
{
    let tables = tables_alone(alloc, migration)?;
    let rows = all_parts(alloc, migration)?;
    sorted(tables, rows)
}
