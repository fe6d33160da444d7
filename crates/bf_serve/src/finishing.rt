//! What is left of the last migration behind the sessions, moved.

ghost use Rattle.std.specs.Prelude.{◌≡◌, ℕ, [], IfOk, IsTrue, OnOk, Some};
ghost use Rattle.boxcar.specs.Table.{Shows};
ghost use Rattle.bf_base.specs.Lists.{rises};
ghost use Rattle.bf_image.specs.Migrations.{IsLawfulMigration, old_of, value_indexes};
ghost use Rattle.bf_sql.specs.migrations.Granules.{granules_of};
ghost use Rattle.bf_live.specs.Replies.{IsWellBound};
ghost use Rattle.bf_transpose.specs.Covers.{needed_in};
ghost use Rattle.bf_store.specs.States.{AreGranules, granule_cmp};
ghost use Rattle.bf_store.specs.Stores.{migration_of};
ghost use Rattle.bf_tree.specs.declared.bound.Action.TheVariants.{Migrate};
ghost use Rattle.bf_machine.specs.interleaving.Calls.{HasSessionEnded, IsPlace};
ghost use Rattle.bf_machine.specs.interleaving.Journals.{Keeps};
ghost use Rattle.bf_serve.specs.Finishing.{HasFinished, HasMovedOrStopped};

use bf_base::{Granule, Memory};
use bf_image::{Migration, MigrationPass, Registry, ValueIndexes};
use bf_machine::{Journal, KeepError, Machine, Opened, move_records};
use bf_transpose::cover_of;
use bf_tree::{Action, Bound};
use std::alloc::Global;

/// A further MIGRATE by the same plan, as it is bound.
///
/// # Errors
/// Where memory runs out.
fn migrated_again(alloc: Global, migration: &Migration) -> Result<Bound, Memory>
    ensures { IfOk result (λ bound. bound.action ≡ Migrate migration.now.plan) }
{
    let plan = migration.plan.copy(alloc)?;
    Ok(Bound {
        catalog: 0,
        schema_change: true,
        action: Action::Migrate(plan),
    })
}

/// The granules that a bound statement needs of a migration.
///
/// # Errors
/// Where memory runs out.
fn granules_for(
    alloc: Global,
    bound: &Bound,
    migration: &Migration,
    indexes: &ValueIndexes,
) -> Result<Vec<Granule>, Memory>
    requires bound { IsWellBound bound.now.action }
    requires lawful { IsLawfulMigration migration.now }
    requires indexed { indexes.now ≡ value_indexes migration.now }
    ensures { IfOk result (λ all. all.items ≡ needed_in (Some migration.now) bound.now.action) }
{
    let cover = cover_of(alloc, bound, Some((migration, indexes)))?;
    Ok(cover.granules)
}

/// All granules of a migration, in the order of unit and place: what a further MIGRATE would need
/// of it. It takes time and memory linear in the old rows.
///
/// # Errors
/// Where memory runs out.
pub fn all_granules(
    alloc: Global,
    migration: &Migration,
    indexes: &ValueIndexes,
) -> Result<Vec<Granule>, Memory>
    requires lawful { IsLawfulMigration migration.now }
    requires indexed { indexes.now ≡ value_indexes migration.now }
    ensures { IfOk result (λ all. all.items
        ≡ granules_of (old_of migration.now) migration.now.plan.migrate) }
{
    let bound = migrated_again(alloc, migration)?;
    let granules = granules_for(alloc, &bound, migration, indexes);
    drop(bound);
    granules
}

/// Moves granules of the last migration, in the order of unit and place, by records of at most 64
/// granules of one unit, until the journal does not keep one.
///
/// # Errors
/// Where memory runs out, or 2 ^ 32 granules or 2 ^ 64 changes were made.
fn move_in_records<N: Opened, J: Journal>(
    registry: &Registry,
    machine: &mut Machine<N>,
    journal: &mut J,
    pass: &MigrationPass,
    indexes: &ValueIndexes,
    granules: &[Granule],
) -> Result<(), Memory>
    requires registry { registry.now ≡ N.registry }
    requires logged { J.ends ≡ N.logged }
    requires present { machine.old.pass ≡ Some pass.now }
    requires shown { Shows N.registry.migrations pass.now }
    requires indexed { indexes.now ≡ value_indexes pass.now.value }
    requires granules { AreGranules (migration_of pass.now.value []) granules.now }
    requires in_order { IsTrue (rises granule_cmp granules.now) }
    ensures keeps { Keeps J.Answers N.opening machine.old journal.old machine.new
        journal.new }
    ensures moved { OnOk result
        (HasMovedOrStopped J.Answers granules.now machine.old machine.new journal.new) }
    ensures ended { (s : ℕ) → IsPlace machine.old.script s → HasSessionEnded machine.old s
        → HasSessionEnded machine.new s }
{
    match move_records(registry, journal, machine, pass, indexes, granules) {
        Ok(()) => Ok(()),
        Err(KeepError::Ended(_)) => Ok(()),
        Err(KeepError::Memory) => Err(Memory),
    }
}

/// Moves all that is left of the last migration of a machine, by records of at most 64 granules of
/// one unit, each of which the journal keeps before it is made, until the journal does not keep
/// one. No session goes on, and no group ends. It costs a list of all granules of the migration,
/// and what [`Machine::moved`] does for each record.
///
/// # Errors
/// Where memory runs out, or 2 ^ 32 granules or 2 ^ 64 changes were made. Some of it may have moved
/// then.
pub fn finish_migration<N: Opened, J: Journal>(
    alloc: Global,
    registry: &Registry,
    machine: &mut Machine<N>,
    journal: &mut J,
) -> Result<(), Memory>
    requires registry { registry.now ≡ N.registry }
    requires logged { J.ends ≡ N.logged }
    ensures keeps { Keeps J.Answers N.opening machine.old journal.old machine.new
        journal.new }
    ensures finished { OnOk result (HasFinished J.Answers machine.new journal.new) }
    ensures ended { (s : ℕ) → IsPlace machine.old.script s → HasSessionEnded machine.old s
        → HasSessionEnded machine.new s }
{
    // Its contract says what a machine keeps.
    let _ = machine.script();
    let Some(pass) = machine.migration() else {
        return Ok(());
    };
    if machine.is_complete() {
        return Ok(());
    }
    let last = registry.migration(&pass);
    let indexes = ValueIndexes::of(alloc, last)?;
    let all = all_granules(alloc, last, &indexes)?;
    let left = machine.need(alloc, all.as_slice())?;
    move_in_records(registry, machine, journal, &pass, &indexes, left.as_slice())
}
