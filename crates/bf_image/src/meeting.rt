//! The one row of the other table of an arm that a driver's row can meet.

ghost use Rattle.std.specs.Prelude.{◌≡◌, ◌+◌, ◌-◌, ℕ, List, IfOk, IsTrue, map, ◌<◌, ◌^◌, [], ◌∷◌};
ghost use Rattle.std.specs.Option.{option_map, option_to_list};
ghost use Rattle.bf_base.specs.declared.value.Value.{Value as Cell};
ghost use Rattle.bf_base.specs.Tables.{cell};
ghost use Rattle.bf_tree.specs.declared.migration.Arm.{Arm};
ghost use Rattle.bf_tree.specs.declared.plan.ArmKind.TheVariants.{ByFrom, ByJoin};
ghost use Rattle.bf_tree.specs.declared.raw.Ref.{Ref};
ghost use Rattle.bf_sql.specs.Scopes.{Scope};
ghost use Rattle.bf_sql.specs.migrations.Images.{arm_rows};
ghost use Rattle.bf_sql.specs.migrations.MigrationObjections.{is_by_row};
ghost use Rattle.bf_sql.specs.migrations.Placed.{placed_pair};
ghost use Rattle.bf_sql.specs.migrations.Targets.{arm_kind};
ghost use Rattle.bf_image.specs.ArmRows.{CanMake};
ghost use Rattle.bf_image.specs.BoundArms.{IsFrozenArm};
ghost use Rattle.bf_image.specs.Giving.{has_any};
ghost use Rattle.bf_image.specs.Lookup.{partner, join_rows_met, from_rows_met};
ghost use Rattle.bf_image.specs.Migrations.{IsLawfulMigration, old_of};
ghost use Rattle.bf_image.specs.declared.migration.Migration.{Migration};

use crate::arm_gives::makes_any;
use crate::arm_rows::{column_value, row_made};
use crate::arms::FrozenArm;
use bf_base::{Key, Memory, Row};
use bf_tree::ArmKind;
use std::alloc::Global;

/// The place that the first pair which names a place makes equal to it.
fn partner(on: &[(u8, u8)], place: usize) -> usize
    ensures { (scope : Scope) (pairs : List (Ref × Ref)) → on.now ≡ map (placed_pair scope) pairs
        → result ≡ partner scope pairs place }
{
    for (left, right) in on {
        let (left, right) = (usize::from(*left), usize::from(*right));
        if left == place {
            return right;
        }
        if right == place {
            return left;
        }
    }
    place
}

/// Where the columns of one table stand, and those of the other, in a row of FROM with a row of JOIN
/// behind it.
#[derive(Clone, Copy)]
struct Ahead {
    driver: usize,
    other: usize,
}

/// The key of the row that a driver's row can meet: the values that ON makes equal to it.
fn key_met(
    alloc: Global,
    on: &[(u8, u8)],
    key: &[u8],
    ahead: Ahead,
    row: &Row,
) -> Result<Key, Memory>
    requires { ahead.other < 2 ^ 63 }
    ensures { IfOk result (λ met. (scope : Scope) (pairs : List (Ref × Ref))
        → on.now ≡ map (placed_pair scope) pairs
        → met ≡ map (λ place.
        cell row.now (partner scope pairs (ahead.other + place) - ahead.driver)) key.now) }
{
    let mut values = Vec::with_capacity(alloc, key.len())?;
    for place in key {
        let met = partner(on, ahead.other + usize::from(*place));
        values.push(column_value(alloc, row, met.saturating_sub(ahead.driver))?)?;
    }
    Ok(Key::of(values))
}

/// The row of JOIN that a row of FROM can meet, where ON has JOIN's whole key, and `None` where there
/// is no JOIN. It compares about log n keys.
fn join_row_met<'a>(
    alloc: Global,
    bound: &FrozenArm<'a>,
    row: &Row,
) -> Result<Option<&'a Row>, Memory>
    ensures { IfOk result (λ met. (m : Migration) (target : ℕ) (arm : Arm) → IsLawfulMigration m
        → IsFrozenArm m target arm bound.now
        → option_to_list (option_map (λ row. row.now) met) ≡ join_rows_met (old_of m) arm row.now) }
{
    let (Some(on), Some(join)) = (&bound.placed.on, bound.join) else {
        return Ok(None);
    };
    let ahead = Ahead {
        driver: 0,
        other: bound.from.table.columns.as_slice().len(),
    };
    let key = key_met(alloc, on.as_slice(), join.table.key.as_slice(), ahead, row)?;
    Ok(join.rows.get(&key))
}

/// The row of FROM that a row of JOIN can meet, where ON has FROM's whole key. It compares about
/// log n keys.
fn from_row_met<'a>(
    alloc: Global,
    bound: &FrozenArm<'a>,
    row: &Row,
) -> Result<Option<&'a Row>, Memory>
    ensures { IfOk result (λ met. (m : Migration) (target : ℕ) (arm : Arm) → IsLawfulMigration m
        → IsFrozenArm m target arm bound.now → arm_kind (old_of m) arm ≡ ByJoin
        → option_to_list (option_map (λ row. row.now) met) ≡ from_rows_met (old_of m) arm row.now) }
{
    let Some(on) = &bound.placed.on else {
        return Ok(None);
    };
    let ahead = Ahead {
        driver: bound.from.table.columns.as_slice().len(),
        other: 0,
    };
    let key = key_met(
        alloc,
        on.as_slice(),
        bound.from.table.key.as_slice(),
        ahead,
        row,
    )?;
    Ok(bound.from.rows.get(&key))
}

/// The arm's row of one row of its driver, and of the one row of the other table that it can meet, if
/// it makes one. It compares about log n keys.
pub(crate) fn row_of_driver(
    alloc: Global,
    bound: &FrozenArm<'_>,
    row: &Row,
) -> Result<Option<Row>, Memory>
    requires by_row { IsTrue (is_by_row bound.now.placed.now.kind) }
    requires plain { (from join : List (List Cell)) → CanMake bound.now.placed.now from join }
    ensures from { IfOk result (λ made. (m : Migration) (target : ℕ) (arm : Arm)
        → IsLawfulMigration m → IsFrozenArm m target arm bound.now
        → arm_kind (old_of m) arm ≡ ByFrom → option_to_list made
        ≡ arm_rows (old_of m) arm (row.now ∷ []) (join_rows_met (old_of m) arm row.now)) }
    ensures join { IfOk result (λ made. (m : Migration) (target : ℕ) (arm : Arm)
        → IsLawfulMigration m → IsFrozenArm m target arm bound.now
        → arm_kind (old_of m) arm ≡ ByJoin → option_to_list made
        ≡ arm_rows (old_of m) arm (from_rows_met (old_of m) arm row.now) (row.now ∷ [])) }
{
    if bound.placed.kind != ArmKind::ByJoin {
        let met = join_row_met(alloc, bound, row)?;
        return row_made(alloc, bound.placed, row, met);
    }
    match from_row_met(alloc, bound, row)? {
        Some(met) => row_made(alloc, bound.placed, met, Some(row)),
        None => Ok(None),
    }
}

/// Whether the arm makes a row of one row of its driver, and of the one row of the other table that it
/// can meet.
pub(crate) fn gives_of_driver(
    alloc: Global,
    bound: &FrozenArm<'_>,
    row: &Row,
) -> Result<bool, Memory>
    ensures from { IfOk result (λ gives. (m : Migration) (target : ℕ) (arm : Arm)
        → IsLawfulMigration m → IsFrozenArm m target arm bound.now
        → arm_kind (old_of m) arm ≡ ByFrom → gives ≡ has_any
        (arm_rows (old_of m) arm (row.now ∷ []) (join_rows_met (old_of m) arm row.now))) }
    ensures join { IfOk result (λ gives. (m : Migration) (target : ℕ) (arm : Arm)
        → IsLawfulMigration m → IsFrozenArm m target arm bound.now
        → arm_kind (old_of m) arm ≡ ByJoin → gives ≡ has_any
        (arm_rows (old_of m) arm (from_rows_met (old_of m) arm row.now) (row.now ∷ []))) }
{
    if bound.placed.kind != ArmKind::ByJoin {
        let met = join_row_met(alloc, bound, row)?;
        return makes_any(alloc, bound.placed, row, met);
    }
    match from_row_met(alloc, bound, row)? {
        Some(met) => makes_any(alloc, bound.placed, met, Some(row)),
        None => Ok(false),
    }
}
