//! The old table whose rows a unit goes by, and what these must satisfy for a row of a target to come
//! of them.

ghost use Rattle.std.specs.Prelude.{◌≡◌, ◌==◌, ◌∷◌, [], IfSome, IsTrue, filter};
ghost use Rattle.std.specs.Option.{option_map};
ghost use Rattle.bf_sql.specs.migrations.Placed.{placed_arm};
ghost use Rattle.bf_image.specs.BoundArms.{arm_at};
ghost use Rattle.bf_image.specs.Migrations.{IsLawfulMigration, old_of};
ghost use Rattle.bf_transpose.specs.Each.{MakesEach, makes_each};
ghost use Rattle.bf_transpose.specs.Scans.{IsDriverOf};
ghost use Rattle.bf_transpose.specs.Transposed.{AreCopies, begins_at};

use crate::transposed::{Copies, is_always};
use bf_image::{Frozen, Migration};
use bf_tree::{Arm, ArmKind, PlacedArm, Unit, UnitKind};

/// The old table whose rows a unit goes by; none of a unit that goes by values. It compares about
/// log n names, and takes no memory.
pub(crate) fn driver_of(migration: &Migration, unit: u8) -> Option<&Frozen>
    requires lawful { IsLawfulMigration migration.now }
    ensures { IfSome result (λ frozen. IsDriverOf migration.now unit frozen.now) }
{
    let planned = migration.plan.units.as_slice().get(unit as usize)?;
    match planned.kind {
        UnitKind::Rows => migration.source(&planned.driver),
        UnitKind::Groups | UnitKind::Joins => None,
    }
}

/// The number of the one arm of a target in a unit; none where the unit has several, or none.
fn only_arm(unit: &Unit, target: u8) -> Option<u32>
    ensures { IfSome result (λ number.
        filter (λ arm. arm.0 == target) unit.now.arms ≡ (target, number) ∷ []) }
{
    let arms = unit.arms.as_slice();
    let mut found = None;
    for (of, number) in arms {
        if *of == target {
            if found.is_some() {
                return None;
            }
            found = Some(*number);
        }
    }
    found
}

/// An arm as it is written, and with places for names, by the number of its target and its own: `None`
/// exactly where there is none. Takes no memory.
pub(crate) fn arms_at(migration: &Migration, target: u8, number: u32) -> Option<(&Arm, &PlacedArm)>
    requires lawful { IsLawfulMigration migration.now }
    ensures written { option_map (λ both. both.0.now) result
        ≡ arm_at migration.now target number }
    ensures placed { option_map (λ both. both.1.now) result
        ≡ option_map (placed_arm (old_of migration.now)) (arm_at migration.now target number) }
{
    let targets = migration.plan.migrate.targets.as_slice();
    let raw = targets.get(target as usize)?.arms.as_slice();
    let arms = migration.plan.arms.as_slice();
    let placed = arms.get(target as usize)?.as_slice();
    Some((raw.get(number as usize)?, placed.get(number as usize)?))
}

/// The place in an arm's rows at which the columns of its driver begin, by how many columns FROM has.
fn begins_at(kind: ArmKind, width: usize) -> usize
    ensures { result ≡ begins_at kind width }
{
    match kind {
        ArmKind::ByJoin => width,
        ArmKind::ByFrom | ArmKind::ByPair | ArmKind::ByGroup => 0,
    }
}

/// What the one arm of a target in a unit copies of the unit's driver; none where the unit has
/// several arms of the target. It compares about log n names, and takes no memory.
pub(crate) fn copies_of<'a>(
    migration: &'a Migration,
    unit: &Unit,
    driver: &Frozen,
    target: u8,
) -> Option<Copies<'a>>
    requires lawful { IsLawfulMigration migration.now }
    ensures { IfSome result (AreCopies migration.now target unit.now driver.now) }
{
    let number = only_arm(unit, target)?;
    let (raw, arm) = arms_at(migration, target, number)?;
    let from = migration.source(&raw.from)?;
    Some(Copies {
        items: arm.items.as_slice(),
        first: begins_at(arm.kind, from.table.columns.len()),
        count: driver.table.columns.len(),
    })
}

/// Whether an arm makes a row of each row of FROM: it goes by these, joins nothing, and has no condition
/// but such as are true of each row.
fn makes_each(arm: &PlacedArm) -> bool
    ensures { result ≡ makes_each arm.now }
{
    match arm.kind {
        ArmKind::ByFrom => arm.on.is_none() && is_always(&arm.cond),
        ArmKind::ByJoin | ArmKind::ByPair | ArmKind::ByGroup => false,
    }
}

/// Whether the one arm of a target in a unit makes a row of each row of FROM; false where the unit has
/// several arms of the target, or none. Takes no memory.
pub(crate) fn only_makes_each(migration: &Migration, unit: &Unit, target: u8) -> bool
    requires lawful { IsLawfulMigration migration.now }
    ensures { IsTrue result → MakesEach migration.now target unit.now }
{
    let Some(number) = only_arm(unit, target) else {
        return false;
    };
    match arms_at(migration, target, number) {
        Some((_, arm)) => makes_each(arm),
        None => false,
    }
}
