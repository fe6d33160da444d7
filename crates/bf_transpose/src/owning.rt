//! The granules that own keys of a new table.

ghost use Rattle.std.specs.Prelude.{◌≡◌, ◌&&◌, ◌==◌, ◌<◌, IfOk, IsSome, Some, length};
ghost use Rattle.std.specs.BTreeSet.{keys};
ghost use Rattle.std.specs.List.{All, list_any};
ghost use Rattle.bf_base.specs.Tables.{IsKeyWithin};
ghost use Rattle.bf_tree.specs.declared.migration.Target.{Target};
ghost use Rattle.bf_sql.specs.Conditions.{fixed_key};
ghost use Rattle.bf_sql.specs.migrations.Granules.{part_in};
ghost use Rattle.bf_sql.specs.migrations.Need.{giving, has_key_of, may_satisfy, target_of, total_places};
ghost use Rattle.bf_image.specs.Migrations.{IsLawfulMigration, old_of, target_at, value_indexes};

use crate::condition::{may_be_met, total_places};
use bf_base::{Granule, Key, Memory, Row, Table, key_of};
use bf_image::{Migration, ValueIndexes, owner, rows_of};
use bf_tree::Cond;
use std::alloc::Global;
use std::collections::BTreeSet;

/// The owners of the keys of some rows of a target, in order, each once.
fn owners_of(
    alloc: Global,
    migration: &Migration,
    indexes: &ValueIndexes,
    table: &Table,
    rows: &[Row],
) -> Result<BTreeSet<Granule>, Memory>
    requires lawful { IsLawfulMigration migration.now }
    requires indexed { indexes.now ≡ value_indexes migration.now }
    requires made { IsSome (target_of (old_of migration.now) migration.now.plan.migrate table.now) }
    requires within { All (IsKeyWithin table.now) rows.now }
    ensures { IfOk result (λ owners. keys owners
        ≡ giving (old_of migration.now) migration.now.plan.migrate
        (target_of (old_of migration.now) migration.now.plan.migrate table.now)
        (has_key_of table.now rows.now)) }
{
    let mut owners = BTreeSet::new(alloc);
    for row in rows {
        let key = key_of(alloc, table, row)?;
        if let Some(granule) = owner(alloc, migration, indexes, &table.name, &key)? {
            owners.insert(granule)?;
        }
    }
    Ok(owners)
}

/// The granules that own a key of some rows of a target, in the order of unit and place, each once.
/// For each row it looks up the key's owner, and compares that with about log n others.
///
/// # Errors
/// Where memory runs out.
pub(crate) fn owning(
    alloc: Global,
    migration: &Migration,
    indexes: &ValueIndexes,
    table: &Table,
    rows: &[Row],
) -> Result<Vec<Granule>, Memory>
    requires lawful { IsLawfulMigration migration.now }
    requires indexed { indexes.now ≡ value_indexes migration.now }
    requires made { IsSome (target_of (old_of migration.now) migration.now.plan.migrate table.now) }
    requires within { All (IsKeyWithin table.now) rows.now }
    ensures { IfOk result (λ granules. granules.items
        ≡ giving (old_of migration.now) migration.now.plan.migrate
        (target_of (old_of migration.now) migration.now.plan.migrate table.now)
        (has_key_of table.now rows.now)) }
{
    let owners = owners_of(alloc, migration, indexes, table, rows)?;
    let mut granules = Vec::with_capacity(alloc, owners.len())?;
    for granule in owners {
        granules.push(granule)?;
    }
    Ok(granules)
}

/// Whether one of some rows, each with the number of its target, is of a target and one that a
/// condition may pick.
fn has_picked(
    alloc: Global,
    rows: &[(u8, Row)],
    target: u8,
    cond: &Cond,
    totals: &[u8],
) -> Result<bool, Memory>
    ensures { IfOk result (λ found. (t : Target) → total_places t ≡ totals.now → found
        ≡ list_any (λ row. row.0 == target && may_satisfy cond.now t row.1) rows.now) }
{
    for (of, row) in rows {
        if *of == target && may_be_met(alloc, cond, totals, row)? {
            return Ok(true);
        }
    }
    Ok(false)
}

/// Whether a granule has a row of a target that a condition may pick.
fn gives(
    alloc: Global,
    migration: &Migration,
    indexes: &ValueIndexes,
    target: u8,
    cond: &Cond,
    granule: &Granule,
) -> Result<bool, Memory>
    requires lawful { IsLawfulMigration migration.now }
    requires indexed { indexes.now ≡ value_indexes migration.now }
    requires there { target < length migration.now.plan.migrate.targets }
    ensures { IfOk result (λ found. found
        ≡ list_any (may_satisfy cond.now (target_at migration.now target))
        (part_in (old_of migration.now) migration.now.plan.migrate
        (target_at migration.now target).name granule.now)) }
{
    let written = &migration.plan.migrate.targets.as_slice()[target as usize];
    let totals = total_places(alloc, written)?;
    let rows = rows_of(alloc, migration, indexes, granule)?;
    has_picked(alloc, &rows, target, cond, &totals)
}

/// The granules with a row of a target that a condition may pick which fixes the key: the key's
/// owner, if it has such a row. It costs what that granule has.
///
/// # Errors
/// Where memory runs out.
pub(crate) fn owner_giving(
    alloc: Global,
    migration: &Migration,
    indexes: &ValueIndexes,
    target: u8,
    table: &Table,
    cond: &Cond,
    key: &Key,
) -> Result<Vec<Granule>, Memory>
    requires lawful { IsLawfulMigration migration.now }
    requires indexed { indexes.now ≡ value_indexes migration.now }
    requires there { target < length migration.now.plan.migrate.targets }
    requires made { target_of (old_of migration.now) migration.now.plan.migrate table.now
        ≡ Some (target_at migration.now target) }
    requires fixed { fixed_key table.now cond.now ≡ Some key.now }
    ensures { IfOk result (λ granules. granules.items
        ≡ giving (old_of migration.now) migration.now.plan.migrate
        (Some (target_at migration.now target)) (may_satisfy cond.now)) }
{
    let Some(granule) = owner(alloc, migration, indexes, &table.name, key)? else {
        return Ok(Vec::new(alloc));
    };
    if gives(alloc, migration, indexes, target, cond, &granule)? {
        return Ok(vec![in alloc; granule]?);
    }
    Ok(Vec::new(alloc))
}
