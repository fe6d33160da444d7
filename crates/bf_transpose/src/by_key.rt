//! The granules from which rows with some keys can come. They are found by look-ups, and no row is made.

ghost use Rattle.std.specs.Prelude.{◌≡◌, ◌<◌, ◌++◌, IfOk, IfSome, OnOk, Some, length, map, position};
ghost use Rattle.std.specs.List.{All};
ghost use Rattle.std.specs.Option.{option_map, option_to_list};
ghost use Rattle.bf_base.specs.Lists.{same_name};
ghost use Rattle.bf_base.specs.Tables.{IsKeyWithin, key_of};
ghost use Rattle.bf_tree.specs.declared.plan.ArmKind.TheVariants.{ByPair};
ghost use Rattle.bf_sql.specs.migrations.Granules.{granule, rows_unit};
ghost use Rattle.bf_live.specs.Replies.{IsWellBound};
ghost use Rattle.bf_image.specs.BoundArms.{IsOfUnit};
ghost use Rattle.bf_image.specs.Lookup.{behind_tag, places_by};
ghost use Rattle.bf_image.specs.Migrations.{IsLawfulMigration, old_of, target_at, unit_at};
ghost use Rattle.bf_image.specs.Owners.{candidates_at};
ghost use Rattle.bf_transpose.specs.Candidates.{HasNeed, HasOwner, candidate_in, candidates_for, candidates_in, candidates_named, keyed, keys_of};

use crate::scan::has_arm;
use crate::target::target_of;
use bf_base::{Granule, Key, Memory, Name, Place, Row, Table, Value, key_of};
use bf_image::{FrozenArm, Migration, granule_of};
use bf_tree::{Action, ArmKind, Bound, Target};
use std::alloc::Global;

/// A key of some values.
fn key_of_values(alloc: Global, values: &[Value]) -> Result<Key, Memory>
    ensures { IfOk result (λ key. key ≡ values.now) }
{
    let mut copies = Vec::with_capacity(alloc, values.len())?;
    for value in values {
        copies.push(value.copy(alloc)?)?;
    }
    Ok(Key::of(copies))
}

/// What a key of a target has behind the tag, where the target has several arms.
fn key_behind(alloc: Global, migration: &Migration, target: u8, key: &Key) -> Result<Key, Memory>
    ensures { IfOk result (λ found. found ≡ behind_tag (target_at migration.now target) key.now) }
{
    let targets = migration.plan.migrate.targets.as_slice();
    let arms = match targets.get(target as usize) {
        Some(target) => target.arms.len(),
        None => 0,
    };
    match key.as_slice() {
        [_, behind @ ..] if arms > 1 => key_of_values(alloc, behind),
        values => key_of_values(alloc, values),
    }
}

/// The granule of a unit by rows from which a row with a key of a target can come: the row of the driver
/// with the key.
fn by_row(
    alloc: Global,
    migration: &Migration,
    unit: u8,
    driver: &Name,
    target: u8,
    key: &Key,
) -> Result<Option<Granule>, Memory>
    requires lawful { IsLawfulMigration migration.now }
    ensures { IfOk result (λ found. option_to_list found ≡ map (granule unit)
        (places_by (old_of migration.now) (target_at migration.now target) key.now
        (rows_unit driver.now))) }
{
    let Some(driver) = migration.source(driver) else {
        return Ok(None);
    };
    let key = key_behind(alloc, migration, target, key)?;
    match driver.rows.position(&key) {
        Some(position) => {
            let place = Place::Row(position);
            Ok(Some(Granule { unit, place }))
        }
        None => Ok(None),
    }
}

/// The granule of a unit by pairs from which a row with a key can come: the one at which the row of FROM
/// stands with whose key it begins.
fn by_pair(
    alloc: Global,
    migration: &Migration,
    unit: u8,
    arm: &FrozenArm<'_>,
    key: &Key,
) -> Result<Option<Granule>, Memory>
    requires lawful { IsLawfulMigration migration.now }
    requires of_unit { IsOfUnit migration.now (unit_at migration.now unit) (Some arm.now) }
    requires pairs { arm.now.placed.now.kind ≡ ByPair }
    ensures { IfOk result (λ found. option_to_list found
        ≡ candidates_at migration.now (target_at migration.now arm.now.target) key.now unit) }
{
    let values = key.as_slice();
    let width = arm.from.table.key.len().min(values.len());
    let front = key_of_values(alloc, &values[..width])?;
    match arm.from.rows.position(&front) {
        Some(position) => granule_of(alloc, migration, unit, position),
        None => Ok(None),
    }
}

/// The granule of a unit by values from which a row with a key of its target can come: that of the key
/// itself, where the unit goes by groups.
fn by_value(
    alloc: Global,
    migration: &Migration,
    unit: u8,
    arm: &FrozenArm<'_>,
    key: &Key,
) -> Result<Option<Granule>, Memory>
    requires lawful { IsLawfulMigration migration.now }
    requires of_unit { IsOfUnit migration.now (unit_at migration.now unit) (Some arm.now) }
    ensures { IfOk result (λ found. option_to_list found
        ≡ candidates_at migration.now (target_at migration.now arm.now.target) key.now unit) }
{
    match arm.placed.kind {
        ArmKind::ByFrom | ArmKind::ByJoin => Ok(None),
        ArmKind::ByGroup => {
            let place = Place::Group(key.copy(alloc)?);
            Ok(Some(Granule { unit, place }))
        }
        ArmKind::ByPair => by_pair(alloc, migration, unit, arm, key),
    }
}

/// The granule of a unit from which a row with a key of a target can come; none where the unit has no arm
/// of the target.
fn in_unit(
    alloc: Global,
    migration: &Migration,
    unit: u8,
    target: u8,
    key: &Key,
) -> Result<Option<Granule>, Memory>
    requires lawful { IsLawfulMigration migration.now }
    requires there { target < length migration.now.plan.migrate.targets }
    ensures { IfOk result (λ found. option_to_list found
        ≡ candidate_in migration.now target key.now unit) }
{
    if !has_arm(migration, unit, target) {
        return Ok(None);
    }
    if let Some(arm) = migration.arm_by_values(unit) {
        if arm.target == target {
            return by_value(alloc, migration, unit, &arm, key);
        }
        return Ok(None);
    }
    match migration.plan.units.as_slice().get(unit as usize) {
        Some(planned) => by_row(alloc, migration, unit, &planned.driver, target, key),
        None => Ok(None),
    }
}

/// Adds the granules from which a row with a key of a target can come, one of each unit at most.
fn add_candidates(
    alloc: Global,
    migration: &Migration,
    target: u8,
    key: &Key,
    found: &mut Vec<Granule>,
) -> Result<(), Memory>
    requires lawful { IsLawfulMigration migration.now }
    requires there { target < length migration.now.plan.migrate.targets }
    ensures { OnOk result
        (found.new.items ≡ found.old.items ++ candidates_in migration.now target key.now) }
{
    for number in 0..migration.plan.units.len() {
        if let Some(granule) = in_unit(alloc, migration, number as u8, target, key)? {
            found.push(granule)?;
        }
    }
    Ok(())
}

/// Where the target of a name stands. It compares each target's name.
fn place_named(targets: &[Target], name: &Name) -> Option<usize>
    ensures { result ≡ position (λ target. same_name name.now target.name) targets.now }
{
    targets.iter().position(|target| *name == target.name)
}

/// The granules from which a row of a new table with a key can come, one of each unit at most: its owner, if
/// it has one, is among them. It costs two look-ups by key for each unit, and makes no row.
///
/// # Errors
/// Where memory runs out.
pub fn candidates(
    alloc: Global,
    migration: &Migration,
    table: &Name,
    key: &Key,
) -> Result<Vec<Granule>, Memory>
    requires { IsLawfulMigration migration.now }
    ensures exact { IfOk result (λ found.
        found.items ≡ candidates_named migration.now table.now key.now) }
    ensures owner { IfOk result (λ found.
        HasOwner migration.now table.now key.now found.items) }
{
    let Some(place) = place_named(migration.plan.migrate.targets.as_slice(), table) else {
        return Ok(Vec::new(alloc));
    };
    let mut found = Vec::new(alloc);
    add_candidates(alloc, migration, place as u8, key, &mut found)?;
    Ok(found)
}

/// The granules from which rows with the keys of some tuples of a table can come, tuple by tuple; none where
/// the migration does not make the table.
fn candidates_of_rows(
    alloc: Global,
    migration: &Migration,
    table: &Table,
    rows: &[Row],
) -> Result<Vec<Granule>, Memory>
    requires lawful { IsLawfulMigration migration.now }
    requires within { All (IsKeyWithin table.now) rows.now }
    ensures { IfOk result (λ found. found.items
        ≡ candidates_for migration.now (table.now, map (key_of table.now) rows.now)) }
{
    let mut found = Vec::new(alloc);
    let Some(target) = target_of(migration, table) else {
        return Ok(found);
    };
    for row in rows {
        let key = key_of(alloc, table, row)?;
        add_candidates(alloc, migration, target, &key, &mut found)?;
    }
    Ok(found)
}

/// The granules from which a row of a table with the key that a condition fixes can come, if it fixes one; none
/// where the migration does not make the table.
fn candidates_of_fixed(
    alloc: Global,
    migration: &Migration,
    table: &Table,
    fixed: &Option<Key>,
) -> Result<Option<Vec<Granule>>, Memory>
    requires { IsLawfulMigration migration.now }
    ensures { IfOk result (λ found. option_map (λ granules. granules.items) found
        ≡ option_map (candidates_for migration.now) (keyed table.now fixed.now)) }
{
    let Some(key) = fixed else {
        return Ok(None);
    };
    let mut found = Vec::new(alloc);
    let Some(target) = target_of(migration, table) else {
        return Ok(Some(found));
    };
    add_candidates(alloc, migration, target, key, &mut found)?;
    Ok(Some(found))
}

/// The granules among which are all that a statement needs, as its keys tell: of an INSERT those from which rows
/// with the keys of its tuples can come, and of a statement whose condition fixes the key of its table
/// those of that key. `None` exactly where a statement fixes no key. For each key and each unit it costs two
/// look-ups by key, and no row is made.
///
/// # Errors
/// Where memory runs out.
pub fn candidates_of(
    alloc: Global,
    bound: &Bound,
    migration: &Migration,
) -> Result<Option<Vec<Granule>>, Memory>
    requires lawful { IsLawfulMigration migration.now }
    requires bound { IsWellBound bound.now.action }
    ensures exact { IfOk result (λ found. option_map (λ granules. granules.items) found
        ≡ option_map (candidates_for migration.now) (keys_of bound.now.action)) }
    ensures all { IfOk result (λ found. IfSome found
        (λ granules. HasNeed migration.now bound.now.action granules.items)) }
{
    match &bound.action {
        Action::Insert { table, rows } => {
            let found = candidates_of_rows(alloc, migration, table, rows.as_slice())?;
            Ok(Some(found))
        }
        Action::Select { table, fixed, .. }
        | Action::Update { table, fixed, .. }
        | Action::Delete { table, fixed, .. } => {
            candidates_of_fixed(alloc, migration, table, fixed)
        }
        Action::Refused(_)
        | Action::CreateTable(_)
        | Action::CreateIndex(_)
        | Action::Migrate(_)
        | Action::Begin
        | Action::Commit
        | Action::Rollback => Ok(None),
    }
}
