//! The columns of a new table that copy the values by which a unit of joins goes.

ghost use Rattle.std.specs.Prelude.{◌≡◌, ◌≤◌, IfOk, IfSome, length, position};
ghost use Rattle.bf_image.specs.Migrations.{IsLawfulMigration};
ghost use Rattle.bf_transpose.specs.Joined.{AreCarried, IsArmByValues, columns_of_on, copies_either};

use crate::drivers::arms_at;
use crate::transposed::place_copied;
use bf_base::Memory;
use bf_image::Migration;
use bf_tree::{PlacedArm, PlacedItem, UnitKind};
use std::alloc::Global;

/// Whether an item copies one of two places. Takes no memory.
fn copies_either(item: &PlacedItem, pair: (u8, u8)) -> bool
    ensures { result ≡ copies_either pair item.now }
{
    match place_copied(item) {
        Some(place) => place == pair.0 || place == pair.1,
        None => false,
    }
}

/// Where the first item stands that copies one of two places. Takes no memory.
fn place_of(items: &[PlacedItem], pair: (u8, u8)) -> Option<usize>
    ensures { result ≡ position (copies_either pair) items.now }
{
    items.iter().position(|item| copies_either(item, pair))
}

/// The column that the first item fills which copies one of two places. Takes no memory.
fn column_of(items: &[PlacedItem], pair: (u8, u8)) -> Option<u8>
    requires { length items.now ≤ 64 }
    ensures { result ≡ position (copies_either pair) items.now }
{
    let Some(at) = place_of(items, pair) else {
        return None;
    };
    Some(at as u8)
}

/// The columns that copy those of ON, in the order of ON, up to the first equality that no item
/// copies.
fn columns_of_on(alloc: Global, items: &[PlacedItem], on: &[(u8, u8)]) -> Result<Vec<u8>, Memory>
    requires { length items.now ≤ 64 }
    ensures { IfOk result (λ columns. columns.items ≡ columns_of_on items.now on.now) }
{
    let mut columns = Vec::new(alloc);
    for pair in on {
        let Some(column) = column_of(items, *pair) else {
            return Ok(columns);
        };
        columns.push(column)?;
    }
    Ok(columns)
}

/// The arm of a unit of joins, with places for names; none of another unit. Takes no memory.
fn arm_of_joins(migration: &Migration, unit: u8) -> Option<&PlacedArm>
    requires lawful { IsLawfulMigration migration.now }
    ensures { IfSome result (λ arm. IsArmByValues migration.now unit arm.now) }
{
    let planned = migration.plan.units.as_slice().get(unit as usize)?;
    match planned.kind {
        UnitKind::Joins => {
            let (target, number) = planned.arms.as_slice().first()?;
            let (_, arm) = arms_at(migration, *target, *number)?;
            Some(arm)
        }
        UnitKind::Rows | UnitKind::Groups => None,
    }
}

/// The columns of a new table at which each row that a value of a unit of joins gives has the front of
/// the value: those that copy the columns of ON, in the order of ON, up to the first equality that
/// none copies. None where the unit is another. It takes memory for their list.
///
/// # Errors
/// Where memory runs out.
pub(crate) fn columns_of_joins(
    alloc: Global,
    migration: &Migration,
    unit: u8,
) -> Result<Vec<u8>, Memory>
    requires lawful { IsLawfulMigration migration.now }
    ensures { IfOk result (λ columns. AreCarried migration.now unit columns.items) }
{
    let Some(arm) = arm_of_joins(migration, unit) else {
        return Ok(Vec::new(alloc));
    };
    match &arm.on {
        Some(on) => columns_of_on(alloc, arm.items.as_slice(), on.as_slice()),
        None => Ok(Vec::new(alloc)),
    }
}
