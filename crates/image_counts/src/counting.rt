//! Owners of keys, and the rows of their granules.

ghost use Rattle.std.specs.Prelude.{◌≡◌};
ghost use Rattle.bf_image.specs.Migrations.{IsLawfulMigration, value_indexes};

use crate::kinds::{Kind, key};
use bf_base::{Key, Memory, Name};
use bf_image::{Migration, ValueIndexes, owner, rows_of};
use std::alloc::Global;

/// How many rows the granule of the owner of a key of a table has, if the key has one.
fn rows_with(
    alloc: Global,
    migration: &Migration,
    indexes: &ValueIndexes,
    table: &Name,
    key: &Key,
) -> Result<Option<usize>, Memory>
    requires lawful { IsLawfulMigration migration.now }
    requires indexed { indexes.now ≡ value_indexes migration.now }
{
    match owner(alloc, migration, indexes, table, key)? {
        Some(owner) => Ok(Some(rows_of(alloc, migration, indexes, &owner)?.len())),
        None => Ok(None),
    }
}

/// The next number of a linear congruential generator.
fn next(seed: u32) -> u32 {
    seed.wrapping_mul(1_664_525).wrapping_add(1_013_904_223)
}

/// What `count` answers, for the table of a name.
fn count_in(
    alloc: Global,
    kind: Kind,
    migration: &Migration,
    table: &Name,
    rows: u32,
    calls: u32,
) -> Result<Option<usize>, Memory>
    requires { IsLawfulMigration migration.now }
{
    let indexes = ValueIndexes::of(alloc, migration)?;
    let mut count = 0usize;
    let mut seed = 0u32;
    for _ in 0..calls {
        seed = next(seed);
        let key = key(alloc, kind, seed.checked_rem(rows).unwrap_or(0))?;
        let Some(more) = rows_with(alloc, migration, &indexes, table, &key)? else {
            return Ok(None);
        };
        count = count.saturating_add(more);
    }
    Ok(Some(count))
}

/// Finds the owner of each of some keys of the new table, and counts the rows of its granule; `None`
/// where a key has no owner.
pub fn count(
    alloc: Global,
    kind: Kind,
    migration: &Migration,
    rows: u32,
    calls: u32,
) -> anyhow::Result<Option<usize>>
    requires { IsLawfulMigration migration.now }
{
    let table = Name::of(alloc, b"t")?;
    Ok(count_in(alloc, kind, migration, &table, rows, calls)?)
}
