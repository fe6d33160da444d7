//! The old rows of a migration by their values, kept while it is the last one.

ghost use Rattle.std.specs.Prelude.{◌≡◌, [], IfOk, IsTrue, OnOk, Some};
ghost use Rattle.std.specs.Option.{option_map};
ghost use Rattle.boxcar.specs.Table.{Shows};
ghost use Rattle.bf_image.specs.Migrations.{IsLawfulMigration, value_indexes};
ghost use Rattle.bf_store.specs.States.{to_move};
ghost use Rattle.bf_transpose.specs.Covers.{needed_in};
ghost use Rattle.bf_live.specs.Replies.{IsWellBound};
ghost use Rattle.bf_store.specs.Stores.{IsOf};
ghost use Rattle.bf_machine.specs.interleaving.Calls.{IsEnough};

use crate::machine::Machine;
use crate::opened::Opened;
use bf_base::Memory;
use bf_image::{Migration, MigrationPass, Registry, ValueIndexes};
use bf_transpose::{Cover, can_need, candidates_of, cover_of};
use bf_tree::Bound;
use std::alloc::Global;
use std::marker::{Model, PhantomData};

/// The old rows of a migration of the run's registry by their values: what covers are found by.
/// Contracts see the pass of the migration.
#[derive(Drop)]
pub struct Lookups<N: Opened> {
    pass: MigrationPass,
    indexes: ValueIndexes,
    opened: PhantomData<N>,
}

impl<N: Opened> Model for Lookups<N> {
    ghost use Rattle.std.specs.Prelude.{◌≡◌};
    ghost use Rattle.boxcar.specs.Table.{Shows, Where, where_coded};
    ghost use Rattle.bf_image.specs.Migrations.{value_indexes};
    ghost use Rattle.bf_image.specs.contracts.migration.Migration as migrations;
    ghost use Rattle.bf_image.specs.declared.migration.Migration.{Migration as Seen};

    ghost Value = { Where Seen };

    ghost coded = { where_coded migrations.the_row.coded };

    ghost view = { λ l. l.pass };

    ghost invariant = { λ l. Shows N.registry.migrations l.pass
        × (l.indexes ≡ value_indexes l.pass.value) };
}

impl<N: Opened> Lookups<N> {
    /// The look-ups of a migration. It costs what [`ValueIndexes::of`] does.
    ///
    /// # Errors
    /// Where memory runs out.
    pub fn of(
        alloc: Global,
        registry: &Registry,
        pass: &MigrationPass,
    ) -> Result<Lookups<N>, Memory>
        requires registry { registry.now ≡ N.registry }
        requires pass { Shows N.registry.migrations pass.now }
        ensures { IfOk result (λ lookups. lookups ≡ pass.now) }
    {
        let indexes = ValueIndexes::of(alloc, registry.migration(pass))?;
        Ok(Lookups {
            pass: pass.copy(),
            indexes,
            opened: PhantomData,
        })
    }

    /// The old rows by their values.
    pub fn indexes(&self) -> &ValueIndexes
        ensures { result.now ≡ value_indexes self.now.value }
    {
        &self.indexes
    }

    /// Whether they are those of a migration.
    pub fn are_of(&self, registry: &Registry, pass: &MigrationPass) -> bool
        requires registry { registry.now ≡ N.registry }
        requires pass { Shows N.registry.migrations pass.now }
        ensures { IsTrue result → self.now.value ≡ pass.now.value }
    {
        registry.same_migration(&self.pass, pass)
    }
}

/// Whether look-ups that are kept, if there are any, are those of a migration.
fn are_kept<N: Opened>(
    registry: &Registry,
    lookups: &Option<Lookups<N>>,
    pass: &MigrationPass,
) -> bool
    requires registry { registry.now ≡ N.registry }
    requires pass { Shows N.registry.migrations pass.now }
    ensures { IsTrue result
        → option_map (λ found. found.value) lookups.now ≡ Some pass.now.value }
{
    match lookups {
        Some(found) => found.are_of(registry, pass),
        None => false,
    }
}

/// Makes the look-ups of a migration, unless they are kept. Those of another migration are dropped
/// before. It costs what [`ValueIndexes::of`] does then, and else takes no memory.
///
/// # Errors
/// Where memory runs out.
pub fn look_up<N: Opened>(
    alloc: Global,
    registry: &Registry,
    lookups: &mut Option<Lookups<N>>,
    pass: &MigrationPass,
) -> Result<(), Memory>
    requires registry { registry.now ≡ N.registry }
    requires pass { Shows N.registry.migrations pass.now }
    ensures { OnOk result
        (option_map (λ found. found.value) lookups.new ≡ Some pass.now.value) }
{
    if !are_kept(registry, lookups, pass) {
        *lookups = None;
        *lookups = Some(Lookups::of(alloc, registry, pass)?);
    }
    Ok(())
}

/// Whether nothing that a bound statement needs of the machine's last migration is left to move, as far as that is told
/// without a row made: nothing of the migration is left, or the statement can need none of it, or it fixes keys, and each
/// granule has moved from which rows with them can come. It costs what [`candidates_of`] does, and a look-up for each of these.
///
/// # Errors
/// Where memory runs out.
fn needs_nothing<N: Opened>(
    alloc: Global,
    machine: &Machine<N>,
    last: &Migration,
    bound: &Bound,
) -> Result<bool, Memory>
    requires lawful { IsLawfulMigration last.now }
    requires own { option_map (λ pass. pass.value) machine.now.pass ≡ Some last.now }
    requires bound { IsWellBound bound.now.action }
    ensures { IfOk result (λ nothing. IsTrue nothing →
        to_move machine.now.lazy.last (needed_in (Some last.now) bound.now.action) ≡ []) }
{
    // Its contract says what a machine keeps.
    let _ = machine.script();
    if machine.is_complete() {
        return Ok(true);
    }
    if !can_need(bound, last) {
        return Ok(true);
    }
    let Some(candidates) = candidates_of(alloc, bound, last)? else {
        return Ok(false);
    };
    let left = machine.need(alloc, &candidates)?;
    Ok(left.is_empty())
}

/// What is enough of a bound statement's cover for [`Machine::exec`], by the pass of the machine's last migration:
/// its cover, and then the look-ups of the migration are kept; or no granule and no look-up where it is told without a row
/// made that nothing which the statement needs is left to move. It costs what [`candidates_of`] does, with a look-up for each
/// of these, and where anything is looked for what [`cover_of`] does, and what [`look_up`] does.
///
/// # Errors
/// Where memory runs out.
pub fn cover_with<N: Opened>(
    alloc: Global,
    registry: &Registry,
    lookups: &mut Option<Lookups<N>>,
    machine: &Machine<N>,
    migration: Option<&MigrationPass>,
    bound: &Bound,
) -> Result<Cover, Memory>
    requires registry { registry.now ≡ N.registry }
    requires pass { IsOf N.registry (option_map (λ pass. pass.now) migration) }
    requires own { option_map (λ pass. pass.now) migration ≡ machine.now.pass }
    requires bound { IsWellBound bound.now.action }
    ensures { IfOk result (IsEnough machine.now
        (option_map (λ pass. pass.now.value) migration.entry) bound.now) }
{
    let Some(pass) = migration else {
        return cover_of(alloc, bound, None);
    };
    let last = registry.migration(pass);
    if needs_nothing(alloc, machine, last, bound)? {
        return Ok(Cover {
            catalog: bound.catalog,
            migration: last.number,
            granules: Vec::new(alloc),
        });
    }
    look_up(alloc, registry, lookups, pass)?;
    let Some(found) = lookups else {
        unreachable!();
    };
    cover_of(alloc, bound, Some((last, found.indexes())))
}
