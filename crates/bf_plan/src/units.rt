//! The sources of a MIGRATE, the units in which its rows move, and the names of its targets.

ghost use Rattle.std.specs.Prelude.{◌≡◌, ◌≤◌, [], ◌++◌, IfOk, flat_map, fold, length, nat_lt};
ghost use Rattle.bf_base.specs.Distinct.{distinct, with_new};
ghost use Rattle.bf_base.specs.Limits.{longest_script, most_drivers};
ghost use Rattle.bf_base.specs.Lists.{has, same_name, when, with_before};
ghost use Rattle.bf_tree.specs.Settling.{Settles};
ghost use Rattle.bf_tree.specs.declared.reply.Refusal.TheVariants as refusal;
ghost use Rattle.bf_sql.specs.Bound.{without_rows};
ghost use Rattle.bf_sql.specs.migrations.MigrationObjections.{sources_of};
ghost use Rattle.bf_sql.specs.migrations.Targets.{arm_sources};
ghost use Rattle.bf_plan.specs.Units.{arm_unit, arm_units, arms_driven, driving, has_same_name, is_driven, is_taken_among, joined_units, rows_unit, taken_objections, units_by_values};

use crate::arm::BoundArm;
use bf_base::{Memory, Name, Sequence};
use bf_tree::{Arm, Catalog, Migrate, Refusal, StatementError, Target, Unit, UnitKind};
use std::alloc::Global;
use std::collections::BTreeSet;
use std::marker::Model;

/// The most tables that give their rows one by one.
const MOST_DRIVERS: usize = 4;

/// Whether a name is one of some names.
fn is_among(name: &Name, names: &[Name]) -> bool
    ensures { result ≡ has same_name names.now name.now }
{
    names.iter().any(|other| *name == *other)
}

/// Names in the order in which they came, each once, and a set of them to look one up in. Contracts see
/// the names.
#[derive(Drop)]
struct Names {
    list: Vec<Name>,
    seen: BTreeSet<Name>,
}

impl Model for Names {
    ghost use Rattle.std.specs.Prelude.{List, ℕ};
    ghost use Rattle.bf_plan.specs.Names.{AreSeen};

    ghost Value = { List (List ℕ) };

    ghost view = { λ names. names.list.items };

    ghost invariant = { λ names. AreSeen names.list.items names.seen };
}

impl Names {
    /// No names.
    fn none(alloc: Global) -> Names
        ensures { result ≡ [] }
    {
        Names {
            list: Vec::new(alloc),
            seen: BTreeSet::new(alloc),
        }
    }

    /// The names.
    fn into_list(self) -> Sequence<Name>
        ensures { result ≡ self }
    {
        let Names { list, seen: _ } = self;
        Sequence::of(list)
    }
}

/// Names with one more, if it is new: it is looked up by about log n compares.
fn with_new(alloc: Global, names: Names, name: &Name) -> Result<Names, Memory>
    ensures { IfOk result (λ more. more ≡ with_new same_name names name.now) }
{
    let Names { mut list, mut seen } = names;
    if seen.contains(name) {
        return Ok(Names { list, seen });
    }
    seen.insert(name.copy(alloc)?)?;
    list.push(name.copy(alloc)?)?;
    Ok(Names { list, seen })
}

/// Names with those of an arm's tables.
fn with_arm(alloc: Global, names: Names, arm: &Arm) -> Result<Names, Memory>
    ensures { IfOk result (λ more. more ≡ fold (with_new same_name) names (arm_sources arm.now)) }
{
    let names = with_new(alloc, names, &arm.from)?;
    match &arm.join {
        Some(join) => with_new(alloc, names, &join.table),
        None => Ok(names),
    }
}

/// Names with those of the tables of a target's arms.
fn with_target(alloc: Global, names: Names, target: &Target) -> Result<Names, Memory>
    ensures { IfOk result (λ more. more
        ≡ fold (with_new same_name) names (flat_map arm_sources target.now.arms)) }
{
    let mut names = names;
    for arm in target.arms.as_slice() {
        names = with_arm(alloc, names, arm)?;
    }
    Ok(names)
}

/// The tables that FROM and JOIN name, each once, in the order in which they are first named.
pub(crate) fn sources(alloc: Global, migrate: &Migrate) -> Result<Sequence<Name>, Memory>
    ensures { IfOk result (λ sources. sources ≡ sources_of migrate.now) }
{
    let mut names = Names::none(alloc);
    for target in migrate.targets.as_slice() {
        names = with_target(alloc, names, target)?;
    }
    Ok(names.into_list())
}

/// An arm as a unit of its own.
fn arm_unit(alloc: Global, number: (u8, u32), arm: &BoundArm) -> Result<Unit, Memory>
    ensures { IfOk result (λ unit. unit ≡ arm_unit number arm.now) }
{
    let driver = arm.driver.copy(alloc)?;
    let mut arms = Vec::new(alloc);
    arms.push(number)?;
    Ok(Unit {
        kind: arm.unit_kind,
        driver,
        arms: Sequence::of(arms),
    })
}

/// The arms of a target of a number, each as a unit of its own.
pub(crate) fn arm_units(alloc: Global, target: u8, arms: &[BoundArm]) -> Result<Vec<Unit>, Memory>
    requires { length arms.now ≤ longest_script }
    ensures { IfOk result (λ units. units.items ≡ arm_units target arms.now) }
{
    let mut units = Vec::with_capacity(alloc, arms.len())?;
    for (index, arm) in arms.iter().enumerate() {
        units.push(arm_unit(alloc, (target, index as u32), arm)?)?;
    }
    Ok(units)
}

/// Names with the driver of a unit of rows, if it is new.
fn with_driver(alloc: Global, names: Names, unit: &Unit) -> Result<Names, Memory>
    ensures { IfOk result (λ more. more ≡ fold (with_new same_name) names (driving unit.now)) }
{
    match unit.kind {
        UnitKind::Rows => with_new(alloc, names, &unit.driver),
        UnitKind::Groups | UnitKind::Joins => Ok(names),
    }
}

/// The tables whose rows drive units, each once, in the order of the units.
pub(crate) fn drivers(alloc: Global, units: &[Unit]) -> Result<Sequence<Name>, Memory>
    ensures { IfOk result (λ drivers. drivers ≡ distinct same_name (flat_map driving units.now)) }
{
    let mut names = Names::none(alloc);
    for unit in units {
        names = with_driver(alloc, names, unit)?;
    }
    Ok(names.into_list())
}

/// At most four tables give their rows one by one.
pub(crate) fn expect_few(drivers: &[Name]) -> Result<(), StatementError>
    requires { length drivers.now ≤ longest_script }
    ensures { Settles result
        (when (nat_lt most_drivers (length drivers.now)) (refusal.UnitLimit (length drivers.now))) tt }
{
    let count = drivers.len();
    if count > MOST_DRIVERS {
        Err(StatementError::Refused(Refusal::UnitLimit(count as u32)))
    } else {
        Ok(())
    }
}

/// Whether the rows of a table drive a unit.
fn is_driven(driver: &Name, unit: &Unit) -> bool
    ensures { result ≡ is_driven driver.now unit.now }
{
    match unit.kind {
        UnitKind::Rows => *driver == unit.driver,
        UnitKind::Groups | UnitKind::Joins => false,
    }
}

/// Arms with those of a unit, if the rows of a table drive it.
fn with_driven(
    mut arms: Vec<(u8, u32)>,
    driver: &Name,
    unit: &Unit,
) -> Result<Vec<(u8, u32)>, Memory>
    ensures { IfOk result (λ more.
        more.items ≡ arms.items ++ arms_driven driver.now unit.now) }
{
    if !is_driven(driver, unit) {
        return Ok(arms);
    }
    arms.extend_from_slice(unit.arms.as_slice())?;
    Ok(arms)
}

/// The unit of the arms that the rows of a table drive.
fn rows_unit(alloc: Global, driver: &Name, units: &[Unit]) -> Result<Unit, Memory>
    ensures { IfOk result (λ unit. unit ≡ rows_unit units.now driver.now) }
{
    let mut arms = Vec::new(alloc);
    for unit in units {
        arms = with_driven(arms, driver, unit)?;
    }
    Ok(Unit {
        kind: UnitKind::Rows,
        driver: driver.copy(alloc)?,
        arms: Sequence::of(arms),
    })
}

/// Units with one more, if it goes by values.
fn with_values(alloc: Global, mut units: Vec<Unit>, unit: &Unit) -> Result<Vec<Unit>, Memory>
    ensures { IfOk result (λ more. more.items ≡ units.items ++ units_by_values unit.now) }
{
    match unit.kind {
        UnitKind::Rows => Ok(units),
        UnitKind::Groups | UnitKind::Joins => {
            units.push(unit.copy(alloc)?)?;
            Ok(units)
        }
    }
}

/// One unit for each driver, and then those that go by values.
pub(crate) fn joined_units(
    alloc: Global,
    drivers: &[Name],
    units: &[Unit],
) -> Result<Sequence<Unit>, Memory>
    ensures { IfOk result (λ all. all ≡ joined_units drivers.now units.now) }
{
    let mut all = Vec::new(alloc);
    for driver in drivers {
        all.push(rows_unit(alloc, driver, units)?)?;
    }
    for unit in units {
        all = with_values(alloc, all, unit)?;
    }
    Ok(Sequence::of(all))
}

/// Whether one of some targets has a name.
fn is_target(name: &Name, targets: &[Target]) -> bool
    ensures { result ≡ has_same_name name.now targets.now }
{
    targets.iter().any(|target| target.name == *name)
}

/// Whether the name of a target is that of a table that stays, or of a target before it.
fn is_taken(catalog: &Catalog, sources: &[Name], before: &[Target], name: &Name) -> bool
    ensures { result
        ≡ is_taken_among (without_rows catalog.now) sources.now before.now name.now }
{
    if is_target(name, before) {
        return true;
    }
    catalog.table(name).is_some() && !is_among(name, sources)
}

/// The name of a target is free.
fn expect_free(
    alloc: Global,
    catalog: &Catalog,
    sources: &[Name],
    before: &[Target],
    name: &Name,
) -> Result<(), StatementError>
    ensures { Settles result (taken_objections (without_rows catalog.now) sources.now
        before.now name.now) tt }
{
    if is_taken(catalog, sources, before, name) {
        Err(StatementError::Refused(Refusal::TableExists(name.copy(alloc)?)))
    } else {
        Ok(())
    }
}

/// The names of targets are free. Each is compared with the sources and with the targets before it.
///
/// # Errors
/// The first that is not.
pub(crate) fn expect_all_free(
    alloc: Global,
    catalog: &Catalog,
    sources: &[Name],
    targets: &[Target],
) -> Result<(), StatementError>
    ensures { Settles result (flat_map (λ p. taken_objections (without_rows catalog.now)
        sources.now p.0 p.1.name) (with_before targets.now)) tt }
{
    for (index, target) in targets.iter().enumerate() {
        expect_free(alloc, catalog, sources, &targets[..index], &target.name)?;
    }
    Ok(())
}
