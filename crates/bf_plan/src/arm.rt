//! Arms of a target.

ghost use Rattle.std.specs.Prelude.{◌≡◌, ◌≤◌, ◌&&◌, IfOk, flat_map, length, is_some, map, true};
ghost use Rattle.std.specs.List.{list_all};
ghost use Rattle.bf_base.specs.Limits.{most_columns};
ghost use Rattle.bf_tree.specs.Limits.{HasNarrowTables, has_few_items};
ghost use Rattle.bf_tree.specs.Settling.{Settles};
ghost use Rattle.bf_sql.specs.Bound.{without_rows};
ghost use Rattle.bf_sql.specs.migrations.MigrationObjections.{arm_objections};
ghost use Rattle.bf_plan.specs.Arms.{arm_of_parts, bound_arm, bound_parts, driver_of, inherits_by, parts_objections, unit_kind_of};

use crate::inheriting::{all_given, are_grouped, has_no_total, key_items};
use crate::item::{BoundItem, BoundItems, bind_items, tag_of};
use bf_base::{Memory, Name, Sequence};
use bf_bind::{ArmTables, arm_kind, bind_condition, bind_group, bind_on, bind_tables, key_places};
use bf_tree::{Arm, ArmKind, Catalog, Cond, PlacedArm, StatementError, Target, UnitKind};
use std::alloc::Global;

/// What an arm names, bound: its items, the places of the columns of ON, where there is a JOIN, WHERE,
/// and the places of the columns of GROUP BY.
#[derive(Drop)]
pub(crate) struct ArmParts {
    pub(crate) items: BoundItems,
    pub(crate) on: Option<Sequence<(u8, u8)>>,
    pub(crate) cond: Cond,
    pub(crate) group: Sequence<u8>,
}

/// An arm in a catalog: its items, for each key column the first item that gives it, whether it gives
/// its key, its tag, in which unit its rows move, and itself with places for names.
#[derive(Drop)]
pub(crate) struct BoundArm {
    pub(crate) items: Sequence<BoundItem>,
    pub(crate) key_items: Sequence<Option<u8>>,
    pub(crate) inherits_key: bool,
    pub(crate) tag: Option<i64>,
    pub(crate) unit_kind: UnitKind,
    pub(crate) driver: Name,
    pub(crate) placed: PlacedArm,
}

/// The items of an arm, ON, WHERE and GROUP BY.
///
/// # Errors
/// The first objection, from the left.
fn bind_parts(
    alloc: Global,
    tables: &ArmTables,
    target: &Name,
    arm: &Arm,
) -> Result<ArmParts, StatementError>
    requires { tables.now.columns ≡ map (λ column. column.1) tables.now.scope }
    ensures { Settles result
        (parts_objections tables.now.scope tables.now.width target.now arm.now)
        (bound_parts tables.now.scope arm.now) }
{
    let scope = &tables.scope;
    let items = bind_items(
        alloc,
        scope,
        tables.columns.as_slice(),
        arm.items.as_slice(),
    )?;
    let on = bind_on(alloc, scope, tables.width, target, arm)?;
    let cond = bind_condition(alloc, scope, &arm.cond)?;
    let group = bind_group(alloc, scope, arm.group.as_slice())?;
    Ok(ArmParts {
        items,
        on,
        cond,
        group,
    })
}

/// In which kind of unit an arm's rows move.
fn unit_kind(kind: ArmKind) -> UnitKind
    ensures { result ≡ unit_kind_of kind }
{
    match kind {
        ArmKind::ByFrom | ArmKind::ByJoin => UnitKind::Rows,
        ArmKind::ByPair => UnitKind::Joins,
        ArmKind::ByGroup => UnitKind::Groups,
    }
}

/// The table by whose rows the unit of an arm goes.
fn driver<'a>(arm: &'a Arm, kind: ArmKind) -> &'a Name
    ensures { result.now ≡ driver_of kind arm.now }
{
    match (kind, &arm.join) {
        (ArmKind::ByJoin, Some(join)) => &join.table,
        _ => &arm.from,
    }
}

/// Whether an arm gives its key: every key column is an item, and totals stand in groups alone.
fn inherits_key(arm: &Arm, kind: ArmKind, parts: &ArmParts, found: &[Option<u8>]) -> bool
    ensures { result ≡ (list_all is_some found.now && inherits_by kind arm.now parts.now) }
{
    if !all_given(found) {
        return false;
    }
    let items = parts.items.bound.as_slice();
    match kind {
        ArmKind::ByGroup => arm.join.is_none() && are_grouped(items, parts.group.as_slice()),
        _ => has_no_total(items),
    }
}

/// What the parts of an arm make of it.
fn completed(
    alloc: Global,
    tables: &ArmTables,
    arm: &Arm,
    parts: ArmParts,
) -> Result<BoundArm, Memory>
    requires { length parts.items.bound ≤ most_columns }
    ensures { IfOk result (λ bound. bound ≡ arm_of_parts tables.now arm.now parts) }
{
    let kind = arm_kind(tables, &parts.on, parts.group.as_slice());
    let places = key_places(alloc, kind, tables, parts.group.as_slice())?;
    let found = key_items(alloc, parts.items.bound.as_slice(), places.as_slice())?;
    let inherits_key = inherits_key(arm, kind, &parts, found.as_slice());
    let driver = driver(arm, kind).copy(alloc)?;
    Ok(BoundArm {
        items: parts.items.bound,
        key_items: found,
        inherits_key,
        tag: tag_of(arm.items.as_slice()),
        unit_kind: unit_kind(kind),
        driver,
        placed: PlacedArm {
            kind,
            items: parts.items.placed,
            on: parts.on,
            cond: parts.cond,
            group: parts.group,
        },
    })
}

/// An arm in a catalog, in time linear in its nodes, but that tables are looked up and refs are compared
/// with the columns.
///
/// # Errors
/// The first objection: to its tables, and then from the left.
fn bind_arm(
    alloc: Global,
    catalog: &Catalog,
    target: &Target,
    arm: &Arm,
) -> Result<BoundArm, StatementError>
    requires narrow { HasNarrowTables catalog.now }
    requires few { length arm.now.items ≤ most_columns }
    ensures { Settles result (arm_objections (without_rows catalog.now) target.now arm.now)
        (bound_arm (without_rows catalog.now) arm.now) }
{
    let tables = bind_tables(alloc, catalog, arm)?;
    let parts = bind_parts(alloc, &tables, &target.name, arm)?;
    Ok(completed(alloc, &tables, arm, parts)?)
}

/// The arms of a target.
///
/// # Errors
/// The first objection, arm by arm.
pub(crate) fn bind_arms(
    alloc: Global,
    catalog: &Catalog,
    target: &Target,
) -> Result<Sequence<BoundArm>, StatementError>
    requires narrow { HasNarrowTables catalog.now }
    requires few { list_all has_few_items target.now.arms ≡ true }
    ensures { Settles result
        (flat_map (arm_objections (without_rows catalog.now) target.now) target.now.arms)
        (map (bound_arm (without_rows catalog.now)) target.now.arms) }
{
    let arms = target.arms.as_slice();
    let mut bound = Vec::with_capacity(alloc, arms.len())?;
    for arm in arms {
        bound.push(bind_arm(alloc, catalog, target, arm)?)?;
    }
    Ok(Sequence::of(bound))
}
