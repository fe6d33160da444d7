//! The anchors of a unit, by which a sweep goes.

ghost use Rattle.std.specs.Prelude.{◌≡◌, IfOk, IsTrue, length, slice_get};
ghost use Rattle.std.specs.Option.{option_map};
ghost use Rattle.bf_sql.specs.Database.{table_rows};
ghost use Rattle.bf_sql.specs.migrations.Granules.{granule};
ghost use Rattle.bf_tree.specs.Limits.{is_narrow};
ghost use Rattle.bf_image.specs.BoundArms.{HasFewRows, arm_values};
ghost use Rattle.bf_index.specs.ByValues.{values_at as values_of};
ghost use Rattle.bf_image.specs.Migrations.{IsLawfulMigration, anchored_at, anchors_in, old_of};

use crate::arm_rows::values_at;
use crate::arms::FrozenArm;
use crate::migration::{Frozen, Migration};
use bf_base::{Granule, Key, Memory, Name, Place};
use std::alloc::Global;

/// How many rows an old table has: none where it is not there. It compares about log n names.
fn row_count(migration: &Migration, name: &Name) -> u32
    requires lawful { IsLawfulMigration migration.now }
    ensures { result ≡ length (table_rows (old_of migration.now) name.now) }
{
    match migration.source(name) {
        Some(table) => table.rows.len(),
        None => 0,
    }
}

/// How many rows the tables of an arm have.
fn value_count(arm: &FrozenArm<'_>) -> u32
    requires { HasFewRows arm.now }
    ensures { result ≡ length (arm_values arm.now) }
{
    let from = arm.from.rows.len();
    match arm.join {
        Some(join) => from + join.rows.len(),
        None => from,
    }
}

/// The number of a unit's anchors: the rows of its driver, or those of FROM and of JOIN; 0 where there is
/// no such unit. It compares about log n names of old tables, and takes no memory.
pub fn positions(migration: &Migration, unit: u8) -> u32
    requires lawful { IsLawfulMigration migration.now }
    ensures { result ≡ anchors_in migration.now unit }
{
    if let Some(arm) = migration.arm_by_values(unit) {
        return value_count(&arm);
    }
    match migration.plan.units.as_slice().get(unit as usize) {
        Some(planned) => row_count(migration, &planned.driver),
        None => 0,
    }
}

/// The values at some places of the row at a position, if there is one.
fn value_at(
    alloc: Global,
    table: &Frozen,
    places: &[u8],
    position: u32,
) -> Result<Option<Key>, Memory>
    ensures { IfOk result (λ value.
        value ≡ slice_get (values_of places.now table.now.rows) position) }
{
    match table.rows.at(position) {
        Some((_, row)) => Ok(Some(values_at(alloc, row, places)?)),
        None => Ok(None),
    }
}

/// The value by which an arm goes of a row of FROM, and behind those, of one of JOIN.
fn arm_value(alloc: Global, arm: &FrozenArm<'_>, anchor: u32) -> Result<Option<Key>, Memory>
    requires { IsTrue (is_narrow arm.now.from.now.table) }
    ensures { IfOk result (λ value. value ≡ slice_get (arm_values arm.now) anchor) }
{
    let count = arm.from.rows.len();
    if anchor < count {
        let places = arm.from_places(alloc)?;
        return value_at(alloc, arm.from, places.as_slice(), anchor);
    }
    match arm.join {
        Some(join) => {
            let places = arm.join_places(alloc)?;
            value_at(alloc, join, places.as_slice(), anchor - count)
        }
        None => Ok(None),
    }
}

/// The place of an anchor of a unit, if there is one.
fn place_of(
    alloc: Global,
    migration: &Migration,
    unit: u8,
    anchor: u32,
) -> Result<Option<Place>, Memory>
    requires lawful { IsLawfulMigration migration.now }
    ensures { IfOk result (λ place.
        option_map (granule unit) place ≡ anchored_at migration.now unit anchor) }
{
    match migration.arm_by_values(unit) {
        Some(arm) => match arm_value(alloc, &arm, anchor)? {
            Some(value) => Ok(Some(Place::Group(value))),
            None => Ok(None),
        },
        None if anchor < positions(migration, unit) => Ok(Some(Place::Row(anchor))),
        None => Ok(None),
    }
}

/// The granule at which an anchor of a unit stands, counted from 0, and `None` exactly where the unit has no
/// such anchor. A row is found by its position, in about log n steps.
///
/// # Errors
/// Where memory runs out.
pub fn granule_of(
    alloc: Global,
    migration: &Migration,
    unit: u8,
    anchor: u32,
) -> Result<Option<Granule>, Memory>
    requires lawful { IsLawfulMigration migration.now }
    ensures { IfOk result (λ granule. granule ≡ anchored_at migration.now unit anchor) }
{
    let place = place_of(alloc, migration, unit, anchor)?;
    Ok(place.map(|place| Granule { unit, place }))
}
