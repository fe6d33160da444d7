//! Covers: what a bound statement needs of the migration under way.

ghost use Rattle.std.specs.Prelude.{◌≡◌, IfOk};
ghost use Rattle.std.specs.List.{All};
ghost use Rattle.std.specs.Option.{option_map};
ghost use Rattle.bf_base.specs.Tables.{IsKeyWithin};
ghost use Rattle.bf_sql.specs.Conditions.{fixed_key};
ghost use Rattle.bf_sql.specs.migrations.Need.{giving, has_key_of, may_satisfy, needed_for, target_of};
ghost use Rattle.bf_live.specs.Replies.{IsWellBound};
ghost use Rattle.bf_image.specs.Migrations.{IsLawfulMigration, old_of, value_indexes};
ghost use Rattle.bf_transpose.specs.Covers.{IsCoverOf, IsFound, can_need};

use crate::owning::{owner_giving, owning};
use crate::scan;
use crate::target::target_of;
use bf_base::{Granule, Key, Memory, Row, Table};
use bf_image::{Migration, ValueIndexes};
use bf_tree::{Action, Bound, Cond};
use std::alloc::Global;

/// What a statement needs moved before it runs, in the order of unit and place: the number of the
/// catalog in which it is bound, the number of the migration, which is 0 where there is none, and
/// the granules, whether they have moved or not.
#[derive(Drop)]
pub struct Cover {
    pub catalog: u64,
    pub migration: u32,
    pub granules: Vec<Granule>,
}

/// Whether a statement can need anything of a migration: a MIGRATE, and one on a table that the
/// migration makes. Takes no memory.
pub fn can_need(bound: &Bound, migration: &Migration) -> bool
    requires lawful { IsLawfulMigration migration.now }
    ensures { result ≡ can_need migration.now bound.now.action }
{
    match &bound.action {
        Action::Migrate(_) => true,
        Action::Insert { table, .. }
        | Action::Select { table, .. }
        | Action::Update { table, .. }
        | Action::Delete { table, .. } => target_of(migration, table).is_some(),
        Action::Refused(_)
        | Action::CreateTable(_)
        | Action::CreateIndex(_)
        | Action::Begin
        | Action::Commit
        | Action::Rollback => false,
    }
}

/// The granules that an INSERT needs: those that own a key of a tuple.
fn inserted(
    alloc: Global,
    migration: &Migration,
    indexes: &ValueIndexes,
    table: &Table,
    rows: &[Row],
) -> Result<Vec<Granule>, Memory>
    requires lawful { IsLawfulMigration migration.now }
    requires indexed { indexes.now ≡ value_indexes migration.now }
    requires within { All (IsKeyWithin table.now) rows.now }
    ensures { IfOk result (λ granules. granules.items
        ≡ giving (old_of migration.now) migration.now.plan.migrate
        (target_of (old_of migration.now) migration.now.plan.migrate table.now)
        (has_key_of table.now rows.now)) }
{
    match target_of(migration, table) {
        Some(_) => owning(alloc, migration, indexes, table, rows),
        None => Ok(Vec::new(alloc)),
    }
}

/// The granules that a statement with a condition needs: those with a row that the condition may
/// pick.
fn picked(
    alloc: Global,
    migration: &Migration,
    indexes: &ValueIndexes,
    table: &Table,
    cond: &Cond,
    fixed: &Option<Key>,
) -> Result<Vec<Granule>, Memory>
    requires lawful { IsLawfulMigration migration.now }
    requires indexed { indexes.now ≡ value_indexes migration.now }
    requires fixed { fixed.now ≡ fixed_key table.now cond.now }
    ensures { IfOk result (λ granules. granules.items
        ≡ giving (old_of migration.now) migration.now.plan.migrate
        (target_of (old_of migration.now) migration.now.plan.migrate table.now)
        (may_satisfy cond.now)) }
{
    let Some(target) = target_of(migration, table) else {
        return Ok(Vec::new(alloc));
    };
    match fixed {
        Some(key) => owner_giving(alloc, migration, indexes, target, table, cond, key),
        None => scan::giving(alloc, migration, indexes, target, cond),
    }
}

/// The granules that an action needs.
fn needed(
    alloc: Global,
    migration: &Migration,
    indexes: &ValueIndexes,
    action: &Action,
) -> Result<Vec<Granule>, Memory>
    requires lawful { IsLawfulMigration migration.now }
    requires indexed { indexes.now ≡ value_indexes migration.now }
    requires bound { IsWellBound action.now }
    ensures { IfOk result (λ granules. granules.items
        ≡ needed_for (old_of migration.now) migration.now.plan.migrate action.now) }
{
    match action {
        Action::Migrate(_) => scan::all(alloc, migration, indexes),
        Action::Insert { table, rows } => {
            inserted(alloc, migration, indexes, table, rows.as_slice())
        }
        Action::Select {
            table,
            cond,
            fixed,
            ..
        }
        | Action::Update {
            table,
            cond,
            fixed,
            ..
        }
        | Action::Delete { table, cond, fixed } => {
            picked(alloc, migration, indexes, table, cond, fixed)
        }
        Action::Refused(_)
        | Action::CreateTable(_)
        | Action::CreateIndex(_)
        | Action::Begin
        | Action::Commit
        | Action::Rollback => Ok(Vec::new(alloc)),
    }
}

/// The cover of a bound statement. A MIGRATE takes time and memory linear in the old rows, an
/// INSERT a look-up of an owner for each tuple, and a statement whose condition fixes the key of its
/// table one; any other on a table that the migration makes looks at each granule that can have a
/// row of it, as far as its key, an index of the old table from which it comes, or the values of the
/// old row tell; where each surely has one it looks at none.
///
/// # Errors
/// Where memory runs out.
pub fn cover_of(
    alloc: Global,
    bound: &Bound,
    migration: Option<(&Migration, &ValueIndexes)>,
) -> Result<Cover, Memory>
    requires bound { IsWellBound bound.now.action }
    requires found { IsFound (option_map (λ found. (found.0.now, found.1.now)) migration) }
    ensures { IfOk result
        (IsCoverOf (option_map (λ found. found.0.now) migration.entry) bound.now) }
{
    let (number, granules) = match migration {
        Some((migration, indexes)) => (
            migration.number,
            needed(alloc, migration, indexes, &bound.action)?,
        ),
        None => (0, Vec::new(alloc)),
    };
    Ok(Cover {
        catalog: bound.catalog,
        migration: number,
        granules,
    })
}
