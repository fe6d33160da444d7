//! MIGRATE.

ghost use Rattle.std.specs.Prelude.{◌≡◌, ◌≤◌, ◌++◌, IfOk, flat_map, map, true};
ghost use Rattle.std.specs.List.{list_all};
ghost use Rattle.bf_base.specs.Limits.{longest_script};
ghost use Rattle.bf_tree.specs.Limits.{HasNarrowTables, IsNarrowMigrate};
ghost use Rattle.bf_tree.specs.Settling.{Settles};
ghost use Rattle.bf_sql.specs.Bound.{without_rows};
ghost use Rattle.bf_sql.specs.migrations.MigrationObjections.{migrate_objections, target_objections};
ghost use Rattle.bf_sql.specs.migrations.Plans.{plan_made, plan_of};
ghost use Rattle.bf_plan.specs.Units.{bound_targets};

use crate::arm::BoundArm;
use crate::target::bind_target;
use crate::units::{arm_units, drivers, expect_all_free, expect_few, joined_units, sources};
use bf_base::{Memory, Sequence, Table};
use bf_tree::{Catalog, Migrate, PlacedArm, Plan, Refusal, StatementError, Unit};
use std::alloc::Global;

/// The targets of a MIGRATE in a catalog: the tables that they become, their arms, and each arm as a unit
/// of its own.
#[derive(Drop)]
pub(crate) struct BoundTargets {
    pub(crate) tables: Sequence<Table>,
    pub(crate) arms: Sequence<Sequence<PlacedArm>>,
    pub(crate) units: Sequence<Unit>,
}

/// Arms with places for names.
fn placed_arms(alloc: Global, arms: &[BoundArm]) -> Result<Sequence<PlacedArm>, Memory>
    ensures { IfOk result (λ placed. placed ≡ map (λ arm. arm.placed) arms.now) }
{
    let mut placed = Vec::with_capacity(alloc, arms.len())?;
    for arm in arms {
        placed.push(arm.placed.copy(alloc)?)?;
    }
    Ok(Sequence::of(placed))
}

/// Units, and then others.
fn with_units(mut units: Vec<Unit>, mut more: Vec<Unit>) -> Result<Vec<Unit>, Memory>
    ensures { IfOk result (λ all. all.items ≡ units.items ++ more.items) }
{
    units.append(&mut more)?;
    Ok(units)
}

/// The targets.
///
/// # Errors
/// The first objection, target by target.
fn bind_targets(
    alloc: Global,
    catalog: &Catalog,
    migrate: &Migrate,
) -> Result<BoundTargets, StatementError>
    requires narrow { HasNarrowTables catalog.now }
    requires limits { IsNarrowMigrate migrate.now }
    ensures { Settles result
        (flat_map (target_objections (without_rows catalog.now)) migrate.now.targets)
        (bound_targets (without_rows catalog.now) migrate.now.targets) }
{
    let targets = migrate.targets.as_slice();
    let mut tables = Vec::with_capacity(alloc, targets.len())?;
    let mut arms = Vec::with_capacity(alloc, targets.len())?;
    let mut units = Vec::new(alloc);
    for (index, target) in targets.iter().enumerate() {
        let bound = bind_target(alloc, catalog, target)?;
        let more = arm_units(alloc, index as u8, bound.arms.as_slice())?;
        let placed = placed_arms(alloc, bound.arms.as_slice())?;
        tables.push(bound.table)?;
        arms.push(placed)?;
        let all = with_units(units, more)?;
        units = all;
    }
    Ok(BoundTargets {
        tables: Sequence::of(tables),
        arms: Sequence::of(arms),
        units: Sequence::of(units),
    })
}

/// What a MIGRATE is to make.
///
/// # Errors
/// The first objection.
fn bind_migrate(alloc: Global, migrate: &Migrate, catalog: &Catalog) -> Result<Plan, StatementError>
    requires narrow { HasNarrowTables catalog.now }
    requires limits { IsNarrowMigrate migrate.now }
    ensures { Settles result (migrate_objections (without_rows catalog.now) migrate.now)
        (plan_made (without_rows catalog.now) migrate.now) }
{
    let bound = bind_targets(alloc, catalog, migrate)?;
    let sources = sources(alloc, migrate)?;
    expect_all_free(
        alloc,
        catalog,
        sources.as_slice(),
        migrate.targets.as_slice(),
    )?;
    let drivers = drivers(alloc, bound.units.as_slice())?;
    expect_few(drivers.as_slice())?;
    let units = joined_units(alloc, drivers.as_slice(), bound.units.as_slice())?;
    Ok(Plan {
        migrate: migrate.copy(alloc)?,
        tables: bound.tables,
        arms: bound.arms,
        units,
        sources,
    })
}

/// A MIGRATE planned in a catalog: the first of the catalog's objections to it, or else its plan. No row is
/// looked at: what a plan costs is told by the statement and the columns of its tables. Each table is looked
/// up by about log n compares of names, and each ref is compared with the columns of its arm. The tag of an
/// arm is looked up among those before it, and each table of an arm among those named before, by about log n
/// compares each.
///
/// # Errors
/// Memory ran out.
pub fn plan(
    alloc: Global,
    migrate: &Migrate,
    catalog: &Catalog,
) -> Result<Result<Plan, Refusal>, Memory>
    requires narrow { HasNarrowTables catalog.now }
    requires limits { IsNarrowMigrate migrate.now }
    ensures { IfOk result (λ planned. planned ≡ plan_of (without_rows catalog.now) migrate.now) }
{
    match bind_migrate(alloc, migrate, catalog) {
        Ok(plan) => Ok(Ok(plan)),
        Err(StatementError::Refused(refusal)) => Ok(Err(refusal)),
        Err(StatementError::Memory) => Err(Memory),
    }
}
