//! Records of migrations that begin.

ghost use Rattle.std.specs.Prelude.{◌≡◌, ◌<◌, ◌≤◌, IfErr, IfOk, IsTrue, Ok, OnErr, false, flat_map, length, true};
ghost use Rattle.bf_base.specs.Limits.{longest_script};
ghost use Rattle.bf_sql.specs.Bound.{catalog_of};
ghost use Rattle.bf_sql.specs.RowObjections.{size_objections};
ghost use Rattle.bf_sql.specs.migrations.Lazy.{pending_of};
ghost use Rattle.bf_store.specs.States.{frozen_lazily};
ghost use Rattle.bf_store.specs.Stores.{IsOf};
ghost use Rattle.bf_tree.specs.Limits.{HasNarrowTables};
ghost use Rattle.bf_recover.specs.Flips.{IsPlanIfAllowed, is_legal_flip, says_complete};
ghost use Rattle.bf_recover.specs.Schemas.{is_empty};
ghost use Rattle.bf_recover.specs.Spoken.{is_spoken_migrate};

use crate::spoken::is_spoken_migrate;
use bf_base::{MOST_ROWS, Memory, Name};
use bf_image::Registry;
use bf_live::LiveTables;
use bf_plan::plan;
use bf_store::Store;
use bf_tree::{Migrate, Plan, Sweep, Target, have_few_arms};
use std::alloc::Global;
use std::sync::Wait;

fn says_complete(sweep: &Sweep) -> bool
    ensures { result ≡ says_complete sweep.now }
{
    match sweep {
        Sweep::Never | Sweep::Complete { .. } => true,
        Sweep::Running { .. } => false,
    }
}

/// Whether nothing of the last migration is left to move. Takes no memory.
fn is_complete(store: &Store) -> bool
    ensures { result ≡ is_empty (pending_of store.now.lazy.last) }
{
    says_complete(&store.sweep())
}

/// A MIGRATE has no more arms than a script has room for.
///
/// # Errors
/// Where there are more, which a plan has no memory for.
fn expect_few_arms(targets: &[Target]) -> Result<(), Memory>
    ensures ok { IfOk result (λ _. length (flat_map (λ t. t.arms) targets.now) ≤ longest_script) }
    ensures err { IfErr result (λ _. longest_script < length (flat_map (λ t. t.arms) targets.now)) }
{
    if have_few_arms(targets) {
        Ok(())
    } else {
        Err(Memory)
    }
}

/// Whether each table of some names has no more rows than a MIGRATE reads. It compares about log n
/// names for each.
fn are_small(live: &LiveTables, names: &[Name]) -> bool
    ensures { result ≡ is_empty (flat_map (size_objections live.now) names.now) }
{
    for name in names {
        if live.row_count(name) > MOST_ROWS {
            return false;
        }
    }
    true
}

/// The plan of a MIGRATE against which neither the catalog nor the rows have anything, and none where
/// they have. It costs what `bf_plan::plan` does, and a look-up for each table that it reads.
///
/// # Errors
/// Where memory runs out.
fn plan_if_allowed(
    alloc: Global,
    live: &LiveTables,
    migrate: &Migrate,
) -> Result<Option<Plan>, Memory>
    requires narrow { HasNarrowTables (catalog_of live.now) }
    requires spoken { IsTrue (is_spoken_migrate migrate.now) }
    ensures { IfOk result (IsPlanIfAllowed live.now migrate.now) }
{
    expect_few_arms(migrate.targets.as_slice())?;
    let planned = plan(alloc, migrate, live.catalog())?;
    match planned {
        Ok(plan) => {
            if are_small(live, plan.sources.as_slice()) {
                Ok(Some(plan))
            } else {
                Ok(None)
            }
        }
        Err(_) => Ok(None),
    }
}

/// Begins a migration where that is legal; false exactly where it isn't, and then the store is as it
/// was. It costs what `bf_plan::plan` and `Store::flip` do; no row is looked at.
///
/// # Errors
/// Where memory runs out, or 2 ^ 32 migrations or 2 ^ 64 changes were made, or the MIGRATE has more
/// arms than a script has room for. The store is as it was then.
pub(crate) fn flip<R: Wait>(
    alloc: Global,
    rt: &R,
    registry: &Registry,
    store: &mut Store,
    migrate: &Migrate,
) -> Result<bool, Memory>
    requires one { IsOf registry.now store.old.migration }
    ensures legal { IfOk result (λ legal. legal ≡ is_legal_flip store.old.lazy migrate.now) }
    ensures applied { result ≡ Ok true → store.new.lazy ≡ frozen_lazily store.old.lazy migrate.now }
    ensures one { IsOf registry.now store.new.migration }
    ensures refused { result ≡ Ok false → store.new ≡ store.old }
    ensures err { OnErr result (store.new ≡ store.old) }
{
    if !is_spoken_migrate(migrate) {
        return Ok(false);
    }
    if !is_complete(store) {
        return Ok(false);
    }
    let Some(plan) = plan_if_allowed(alloc, store.live(), migrate)? else {
        return Ok(false);
    };
    store.flip(rt, registry, &plan)?;
    Ok(true)
}
