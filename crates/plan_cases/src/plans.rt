//! Plans as texts.

use crate::told::{put_places, put_table, word};
use bf_base::{Sequence, Table};
use bf_tree::{ArmKind, Node, PlacedArm, PlacedItem, Plan, Test, Unit, UnitKind};

fn arm_word(kind: ArmKind) -> &'static str {
    match kind {
        ArmKind::ByFrom => "from",
        ArmKind::ByJoin => "join",
        ArmKind::ByPair => "pair",
        ArmKind::ByGroup => "group",
    }
}

/// Adds an item. With AS or without, a column is told by its place.
fn put_item(told: &mut String, item: &PlacedItem) -> anyhow::Result<()> {
    match item {
        PlacedItem::Column(place) => write!(told, " {place}")?,
        PlacedItem::Value(value) => match value.node() {
            Node::Column(place) => write!(told, " {place}")?,
            _ => told.push_str(" value")?,
        },
        PlacedItem::Total(_) => told.push_str(" total")?,
    }
    Ok(())
}

/// Adds ON, WHERE and GROUP BY, where they are there.
fn put_clauses(told: &mut String, arm: &PlacedArm) -> anyhow::Result<()> {
    if let Some(pairs) = &arm.on {
        told.push_str(" on")?;
        for (left, right) in pairs.as_slice() {
            write!(told, " {left}={right}")?;
        }
    }
    if !matches!(arm.cond.node(), Test::Always) {
        told.push_str(" where")?;
    }
    if !arm.group.is_empty() {
        told.push_str(" by")?;
        put_places(told, arm.group.as_slice())?;
    }
    Ok(())
}

fn put_arm(told: &mut String, arm: &PlacedArm) -> anyhow::Result<()> {
    write!(told, " <- {}", arm_word(arm.kind))?;
    for item in arm.items.as_slice() {
        put_item(told, item)?;
    }
    put_clauses(told, arm)
}

/// Adds a target with its arms.
fn put_target(
    told: &mut String,
    table: &Table,
    arms: Option<&Sequence<PlacedArm>>,
) -> anyhow::Result<()> {
    put_table(told, table)?;
    if let Some(arms) = arms {
        for arm in arms.as_slice() {
            put_arm(told, arm)?;
        }
    }
    told.push_str("; ")?;
    Ok(())
}

fn unit_word(kind: UnitKind) -> &'static str {
    match kind {
        UnitKind::Rows => "rows",
        UnitKind::Groups => "groups",
        UnitKind::Joins => "joins",
    }
}

fn put_unit(told: &mut String, unit: &Unit) -> anyhow::Result<()> {
    write!(told, "{} {}", unit_word(unit.kind), word(&unit.driver)?)?;
    for (target, arm) in unit.arms.as_slice() {
        write!(told, " {target}.{arm}")?;
    }
    told.push_str("; ")?;
    Ok(())
}

/// Adds a plan: table by table, unit by unit, and its sources, with a semicolon and a space between.
///
/// A table has its name, its columns, the places of its key, and its arms, each behind `<-`: how it makes rows, then for
/// each item the place of a column, or `value`, or `total`; then the pairs of ON, `where`, and the places of GROUP BY. A
/// unit has its kind, its driver, and its arms, each as the numbers of its target and within it.
pub fn put_plan(told: &mut String, plan: &Plan) -> anyhow::Result<()> {
    for (number, table) in plan.tables.as_slice().iter().enumerate() {
        put_target(told, table, plan.arms.as_slice().get(number))?;
    }
    for unit in plan.units.as_slice() {
        put_unit(told, unit)?;
    }
    told.push_str("sources")?;
    for source in plan.sources.as_slice() {
        write!(told, " {}", word(source)?)?;
    }
    Ok(())
}
