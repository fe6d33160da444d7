//! MIGRATE: the old tables leave, and the new ones have what it makes of them.

ghost use Rattle.std.specs.List.{AllByRecursion};
ghost use Rattle.std.specs.Prelude.{◌≡◌, ℕ, IfOk, None, OnErr, OnOk, false};
ghost use Rattle.bf_tree.specs.Limits.{HasNarrowTables};
ghost use Rattle.bf_tree.specs.declared.statement.Statement.TheVariants as statement;
ghost use Rattle.bf_live.specs.Live.{held_in};
ghost use Rattle.bf_sql.specs.Bound.{catalog_of};
ghost use Rattle.bf_sql.specs.Database.{IsDatabase};
ghost use Rattle.bf_sql.specs.Meaning.{executed};
ghost use Rattle.bf_sql.specs.RowObjections.{first_oversize};
ghost use Rattle.bf_image.specs.Migrations.{IsLawfulMigration};
ghost use Rattle.bf_eager.specs.Beginnings.{IsBegun};
ghost use Rattle.bf_eager.specs.Flips.{CanStand, heaped};
ghost use Rattle.bf_eager.specs.Freezing.{AreFrozen};
ghost use Rattle.bf_eager.specs.Groups.{IsPlanned};

use crate::filling::heap_of;
use crate::freezing::frozen_sources;
use crate::gathering::tables_made;
use bf_base::{Memory, Row, Sequence, Table};
use bf_heap::Heap;
use bf_image::Migration;
use bf_live::LiveTables;
use bf_tree::{Plan, Refusal, Reply};
use std::alloc::Global;

/// Tables with heaps of their rows.
fn heaps_of(alloc: Global, made: Vec<(Table, Vec<Row>)>) -> Result<Vec<(Table, Heap)>, Memory>
    requires { AllByRecursion CanStand made.items }
    ensures { IfOk result (λ heaps. held_in heaps.items ≡ heaped made.items) }
{
    let mut heaps = Vec::with_capacity(alloc, made.len())?;
    for (table, rows) in made {
        let heap = heap_of(alloc, &table, rows)?;
        heaps.push((table, heap))?;
    }
    Ok(heaps)
}

/// A migration by a plan, over copies of its old tables, none of which has too many rows.
fn migration_of(alloc: Global, live: &LiveTables, plan: Plan) -> Result<Migration, Memory>
    requires database { IsDatabase live.now }
    requires planned { IsPlanned live.now plan }
    requires tables { HasNarrowTables (catalog_of live.now) }
    requires few { first_oversize live.now plan.sources ≡ None }
    ensures plan { IfOk result (λ migration. migration.plan ≡ plan) }
    ensures frozen { IfOk result (λ migration. AreFrozen live.now plan.sources migration.frozen) }
    ensures lawful { IfOk result (λ migration. IsLawfulMigration migration) }
{
    let frozen = frozen_sources(alloc, live, plan.sources.as_slice())?;
    Ok(Migration {
        number: 1,
        plan,
        frozen: Sequence::of(frozen),
    })
}

/// The migration of a plan that the catalog allows, or the refusal of the first old table with too many
/// rows. It copies the rows of the old tables.
///
/// # Errors
/// Where memory runs out.
pub(crate) fn begun(
    alloc: Global,
    live: &LiveTables,
    plan: Plan,
) -> Result<Result<Migration, Refusal>, Memory>
    requires database { IsDatabase live.now }
    requires planned { IsPlanned live.now plan }
    requires tables { HasNarrowTables (catalog_of live.now) }
    ensures { IfOk result (λ begun. IsBegun live.now plan.migrate begun) }
{
    match live.oversize(alloc, plan.sources.as_slice())? {
        Some(refusal) => Ok(Err(refusal)),
        None => Ok(Ok(migration_of(alloc, live, plan)?)),
    }
}

/// Runs a MIGRATE that the catalog allows: it is refused where an old table has too many rows.
///
/// # Errors
/// Where memory runs out, or 2 ^ 64 schema changes were made. The tables are as they were then.
pub(crate) fn migrate(alloc: Global, live: &mut LiveTables, plan: Plan) -> Result<Reply, Memory>
    requires database { IsDatabase live.old }
    requires planned { IsPlanned live.old plan }
    requires tables { HasNarrowTables (catalog_of live.old) }
    ensures meant { IfOk result (λ reply. (commit : ℕ)
        → executed commit live.old false (statement.Migrate plan.migrate) ≡ (reply, live.new)) }
    ensures database { OnOk result (IsDatabase live.new) }
    ensures tables { OnOk result (HasNarrowTables (catalog_of live.new)) }
    ensures err { OnErr result (live.new ≡ live.old) }
{
    if let Some(refusal) = live.oversize(alloc, plan.sources.as_slice())? {
        return Ok(Reply::Refused(refusal));
    }
    let count = plan.migrate.targets.len() as u8;
    let migration = migration_of(alloc, live, plan)?;
    let made = tables_made(alloc, &migration)?;
    let heaps = heaps_of(alloc, made)?;
    live.replace(migration.plan.sources.as_slice(), heaps)?;
    Ok(Reply::Migrated(count))
}
