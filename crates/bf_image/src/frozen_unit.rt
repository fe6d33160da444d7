//! Units of a migration with their old tables.

ghost use Rattle.std.specs.Prelude.{◌≡◌, IfOk, option_map};
ghost use Rattle.bf_sql.specs.migrations.Plans.{rows_unit_of};
ghost use Rattle.bf_image.specs.FrozenUnits.{AreFound, IsDriven, IsFrozenUnit};
ghost use Rattle.bf_image.specs.Migrations.{IsLawfulMigration, old_of, value_indexes};

use crate::arms::FrozenArm;
use crate::migration::{Frozen, Migration};
use crate::value_indexes::{UnitIndex, ValueIndexes};
use bf_base::Memory;
use bf_tree::{Unit, UnitKind};
use std::alloc::Global;

/// A unit of a migration with its old tables. They are looked up by their names once for many of its
/// granules.
#[derive(Drop)]
pub struct FrozenUnit<'a> {
    /// The migration that it is of, of which contracts speak.
    pub migration: &'a Migration,
    /// Its number among the units of the plan.
    pub number: u8,
    /// The table whose rows it goes by; none where it goes by values.
    pub driver: Option<&'a Frozen>,
    // Its arms in their order where it goes by rows; else none.
    pub(crate) arms: Vec<FrozenArm<'a>>,
    // Its arm where it goes by values; else none.
    pub(crate) valued: Option<FrozenArm<'a>>,
    // The rows of that arm's tables by their values; else none.
    pub(crate) index: Option<&'a UnitIndex>,
}

/// The arms of a unit that goes by rows, in their order. It compares about log n names for each of
/// their tables.
fn arms_of<'a>(
    alloc: Global,
    migration: &'a Migration,
    unit: &Unit,
) -> Result<Vec<FrozenArm<'a>>, Memory>
    requires lawful { IsLawfulMigration migration.now }
    requires planned { unit.now
        ≡ rows_unit_of (old_of migration.now) migration.now.plan.migrate unit.now.driver }
    ensures { IfOk result (λ arms. AreFound migration.now unit.now.arms arms.items) }
{
    let mut arms = Vec::with_capacity(alloc, unit.arms.len())?;
    for (target, number) in unit.arms.as_slice() {
        match migration.arm(*target, *number) {
            Some(arm) => arms.push(arm)?,
            None => unreachable!(),
        }
    }
    Ok(arms)
}

/// The table whose rows a unit goes by, and its arms; none of each where it goes by values, and where
/// there is no unit of the number. It compares about log n names for each table.
fn driven<'a>(
    alloc: Global,
    migration: &'a Migration,
    number: u8,
) -> Result<(Option<&'a Frozen>, Vec<FrozenArm<'a>>), Memory>
    requires lawful { IsLawfulMigration migration.now }
    ensures { IfOk result (λ both. IsDriven migration.now number
        (option_map (λ driver. driver.now) both.0) both.1.items) }
{
    let Some(unit) = migration.plan.units.as_slice().get(number as usize) else {
        return Ok((None, Vec::new(alloc)));
    };
    match unit.kind {
        UnitKind::Rows => {
            let arms = arms_of(alloc, migration, unit)?;
            Ok((migration.source(&unit.driver), arms))
        }
        UnitKind::Groups | UnitKind::Joins => Ok((None, Vec::new(alloc))),
    }
}

impl<'a> FrozenUnit<'a> {
    /// The unit of a number; one that gives no rows where there is none. It compares about log n names
    /// for its driver and for each table of its arms, and makes a list of these arms.
    ///
    /// # Errors
    /// Where memory runs out.
    pub fn of(
        alloc: Global,
        migration: &'a Migration,
        indexes: &'a ValueIndexes,
        number: u8,
    ) -> Result<FrozenUnit<'a>, Memory>
        requires lawful { IsLawfulMigration migration.now }
        requires indexed { indexes.now ≡ value_indexes migration.now }
        ensures unit { IfOk result (λ unit. IsFrozenUnit unit) }
        ensures migration { IfOk result (λ unit. unit.migration.now ≡ migration.now) }
        ensures number { IfOk result (λ unit. unit.number ≡ number) }
    {
        let (driver, arms) = driven(alloc, migration, number)?;
        Ok(FrozenUnit {
            migration,
            number,
            driver,
            arms,
            valued: migration.arm_by_values(number),
            index: indexes.unit(number),
        })
    }
}
