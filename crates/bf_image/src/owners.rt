//! The granule from which the row with a key comes.

ghost use Rattle.std.specs.List.{list_any};
ghost use Rattle.std.specs.Option.{option_to_list};
ghost use Rattle.std.specs.Prelude.{◌≡◌, ◌<◌, ℕ, IfOk, IsTrue, find, length, map, position};
ghost use Rattle.bf_base.specs.Lists.{same_name};
ghost use Rattle.bf_base.specs.declared.granule.Place.TheVariants.{Group};
ghost use Rattle.bf_tree.specs.Limits.{is_narrow};
ghost use Rattle.bf_tree.specs.declared.migration.Arm.{Arm};
ghost use Rattle.bf_sql.specs.migrations.Granules.{granule, owner_of, rows_unit};
ghost use Rattle.bf_sql.specs.migrations.Targets.{arm_kind, target_table};
ghost use Rattle.bf_image.specs.BoundArms.{IsFrozenArm};
ghost use Rattle.bf_image.specs.Laws.{owns};
ghost use Rattle.bf_image.specs.Lookup.{behind_tag, places_by, values_by};
ghost use Rattle.bf_image.specs.Migrations.{IsLawfulMigration, old_of, owner_in, target_at, value_indexes};
ghost use Rattle.bf_image.specs.Owners.{candidates_at, is_row_with};
ghost use Rattle.bf_image.specs.declared.migration.Migration.{Migration as Seen};

use crate::arm_rows::values_at;
use crate::arms::FrozenArm;
use crate::migration::Migration;
use crate::parts::rows_of;
use crate::value_indexes::ValueIndexes;
use bf_base::{Granule, Key, Memory, Name, Place, Row, Table, Value};
use bf_tree::{ArmKind, Target};
use std::alloc::Global;

/// A key of some values.
fn key_of_values(alloc: Global, values: &[Value]) -> Result<Key, Memory>
    ensures { IfOk result (λ key. key ≡ values.now) }
{
    let mut copies = Vec::with_capacity(alloc, values.len())?;
    for value in values {
        copies.push(value.copy(alloc)?)?;
    }
    Ok(Key::of(copies))
}

/// The key in the driver that a key of a target has: behind the tag, where the target has several
/// arms.
fn driver_key(alloc: Global, migration: &Migration, target: u8, key: &Key) -> Result<Key, Memory>
    ensures { IfOk result (λ found. found ≡ behind_tag (target_at migration.now target) key.now) }
{
    let targets = migration.plan.migrate.targets.as_slice();
    let arms = match targets.get(target as usize) {
        Some(target) => target.arms.len(),
        None => 0,
    };
    match key.as_slice() {
        [_, behind @ ..] if arms > 1 => key_of_values(alloc, behind),
        values => key_of_values(alloc, values),
    }
}

/// The place of a unit by rows from which a row with a key of a target can come.
fn place_by_row(
    alloc: Global,
    migration: &Migration,
    driver: &Name,
    target: u8,
    key: &Key,
) -> Result<Option<Place>, Memory>
    requires lawful { IsLawfulMigration migration.now }
    ensures { IfOk result (λ place. option_to_list place ≡ places_by (old_of migration.now)
        (target_at migration.now target) key.now (rows_unit driver.now)) }
{
    let Some(driver) = migration.source(driver) else {
        return Ok(None);
    };
    let key = driver_key(alloc, migration, target, key)?;
    match driver.rows.position(&key) {
        Some(position) => Ok(Some(Place::Row(position))),
        None => Ok(None),
    }
}

/// The place of a unit by values from which a row with a key can come: the key itself is the group,
/// or it begins with the key of the row of FROM that has the joined value.
fn place_by_value(alloc: Global, arm: &FrozenArm<'_>, key: &Key) -> Result<Option<Place>, Memory>
    requires { IsTrue (is_narrow arm.now.from.now.table) }
    ensures { IfOk result (λ place. (m : Seen) (target : ℕ) (raw : Arm) → IsLawfulMigration m
        → IsFrozenArm m target raw arm.now → option_to_list place
        ≡ map Group (values_by (old_of m) raw key.now (arm_kind (old_of m) raw))) }
{
    match arm.placed.kind {
        ArmKind::ByFrom | ArmKind::ByJoin => Ok(None),
        ArmKind::ByGroup => Ok(Some(Place::Group(key.copy(alloc)?))),
        ArmKind::ByPair => {
            let values = key.as_slice();
            let width = arm.from.table.key.len().min(values.len());
            let front = key_of_values(alloc, &values[..width])?;
            let Some(row) = arm.from.rows.get(&front) else {
                return Ok(None);
            };
            let places = arm.from_places(alloc)?;
            let value = values_at(alloc, row, places.as_slice())?;
            Ok(Some(Place::Group(value)))
        }
    }
}

/// The place of a unit from which a row with a key of a target can come.
fn place_of(
    alloc: Global,
    migration: &Migration,
    number: u8,
    target: u8,
    key: &Key,
) -> Result<Option<Place>, Memory>
    requires lawful { IsLawfulMigration migration.now }
    requires there { target < length migration.now.plan.migrate.targets }
    ensures { IfOk result (λ place. map (granule number) (option_to_list place)
        ≡ candidates_at migration.now (target_at migration.now target) key.now number) }
{
    if let Some(arm) = migration.arm_by_values(number) {
        if arm.target == target {
            return place_by_value(alloc, &arm, key);
        }
        return Ok(None);
    }
    match migration.plan.units.as_slice().get(number as usize) {
        Some(unit) => place_by_row(alloc, migration, &unit.driver, target, key),
        None => Ok(None),
    }
}

/// Whether a row, with the number of its target, is of a target and has a key there.
fn is_row_with(
    alloc: Global,
    of: u8,
    row: &Row,
    target: u8,
    table: &Table,
    key: &Key,
) -> Result<bool, Memory>
    ensures { IfOk result (λ found. found ≡ is_row_with table.now key.now target (of, row.now)) }
{
    if of != target {
        return Ok(false);
    }
    let own = values_at(alloc, row, table.key.as_slice())?;
    Ok(key.compare(&own).is_eq())
}

/// Whether one of some rows, each with the number of its target, is of a target and has a key
/// there.
fn has_row_with(
    alloc: Global,
    rows: &[(u8, Row)],
    target: u8,
    table: &Table,
    key: &Key,
) -> Result<bool, Memory>
    ensures { IfOk result (λ found. found
        ≡ list_any (is_row_with table.now key.now target) rows.now) }
{
    for (of, row) in rows {
        if is_row_with(alloc, *of, row, target, table, key)? {
            return Ok(true);
        }
    }
    Ok(false)
}

/// Where the target of a name stands. It compares each target's name.
fn place_named(targets: &[Target], name: &Name) -> Option<usize>
    ensures { result ≡ position (λ target. same_name name.now target.name) targets.now }
{
    targets.iter().position(|target| *name == target.name)
}

/// The granule of a unit from which the row of a target with a key comes.
fn owner_in_unit(
    alloc: Global,
    migration: &Migration,
    indexes: &ValueIndexes,
    unit: u8,
    target: u8,
    table: &Table,
    key: &Key,
) -> Result<Option<Granule>, Memory>
    requires lawful { IsLawfulMigration migration.now }
    requires indexed { indexes.now ≡ value_indexes migration.now }
    requires there { target < length migration.now.plan.migrate.targets }
    requires made { table.now
        ≡ target_table (old_of migration.now) (target_at migration.now target) }
    ensures { IfOk result (λ owner. owner ≡ find (owns (old_of migration.now)
        migration.now.plan.migrate (target_at migration.now target) key.now)
        (candidates_at migration.now (target_at migration.now target) key.now unit)) }
{
    let Some(place) = place_of(alloc, migration, unit, target, key)? else {
        return Ok(None);
    };
    let granule = Granule { unit, place };
    let rows = rows_of(alloc, migration, indexes, &granule)?;
    if has_row_with(alloc, rows.as_slice(), target, table, key)? {
        return Ok(Some(granule));
    }
    Ok(None)
}

/// The granule from which the row of a target with a key comes.
fn owner_of_target(
    alloc: Global,
    migration: &Migration,
    indexes: &ValueIndexes,
    target: u8,
    table: &Table,
    key: &Key,
) -> Result<Option<Granule>, Memory>
    requires lawful { IsLawfulMigration migration.now }
    requires indexed { indexes.now ≡ value_indexes migration.now }
    requires there { target < length migration.now.plan.migrate.targets }
    requires made { table.now
        ≡ target_table (old_of migration.now) (target_at migration.now target) }
    ensures { IfOk result (λ owner. owner ≡ owner_of (old_of migration.now)
        migration.now.plan.migrate (target_at migration.now target) key.now) }
{
    for number in 0..migration.plan.units.len() {
        let unit = number as u8;
        if let Some(owner) = owner_in_unit(alloc, migration, indexes, unit, target, table, key)? {
            return Ok(Some(owner));
        }
    }
    Ok(None)
}

/// The granule from which the row of a new table with a key comes, and `None` exactly where none
/// has such a row. For each unit it costs one look-up by key, and what its one granule that could be
/// the owner has.
///
/// # Errors
/// Where memory runs out.
pub fn owner(
    alloc: Global,
    migration: &Migration,
    indexes: &ValueIndexes,
    table: &Name,
    key: &Key,
) -> Result<Option<Granule>, Memory>
    requires lawful { IsLawfulMigration migration.now }
    requires indexed { indexes.now ≡ value_indexes migration.now }
    ensures { IfOk result (λ owner. owner ≡ owner_in migration.now table.now key.now) }
{
    let Some(place) = place_named(migration.plan.migrate.targets.as_slice(), table) else {
        return Ok(None);
    };
    let made = &migration.plan.tables.as_slice()[place];
    owner_of_target(alloc, migration, indexes, place as u8, made, key)
}
