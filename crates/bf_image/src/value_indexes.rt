//! Which old rows have which value of a group or of a join.

ghost use Rattle.std.specs.Prelude.{◌≡◌, IfOk, slice_get};
ghost use Rattle.std.specs.Option.{option_and_then, option_map};
ghost use Rattle.bf_image.specs.BoundArms.{HasValues, arm_index};
ghost use Rattle.bf_image.specs.Migrations.{IsLawfulMigration, old_of, unit_at, unit_index, value_indexes};

use crate::arms::FrozenArm;
use crate::migration::Migration;
use bf_base::Memory;
use bf_index::ByValue;
use std::alloc::Global;
use std::marker::Model;

/// The rows of a unit that goes by values: those of FROM, and those of JOIN where there is one.
#[derive(Drop)]
pub struct UnitIndex {
    pub from: ByValue,
    pub join: Option<ByValue>,
}

/// For each unit of a migration that goes by values, which rows have which value. It is made once, when
/// it is first needed.
#[derive(Drop)]
pub struct ValueIndexes {
    units: Vec<Option<UnitIndex>>,
}

/// The rows of an arm's tables by the values by which it goes.
fn index_of_arm(alloc: Global, arm: &FrozenArm<'_>) -> Result<UnitIndex, Memory>
    requires { HasValues arm.now }
    ensures { IfOk result (λ index. index ≡ arm_index arm.now) }
{
    let places = arm.from_places(alloc)?;
    let from = ByValue::of(alloc, arm.from.rows.heap(), places.as_slice())?;
    let join = match arm.join {
        Some(join) => {
            let places = arm.join_places(alloc)?;
            Some(ByValue::of(alloc, join.rows.heap(), places.as_slice())?)
        }
        None => None,
    };
    Ok(UnitIndex { from, join })
}

/// The index of a unit, if it goes by values.
fn index_of_unit(
    alloc: Global,
    migration: &Migration,
    number: u8,
) -> Result<Option<UnitIndex>, Memory>
    requires lawful { IsLawfulMigration migration.now }
    ensures { IfOk result (λ index.
        index ≡ option_and_then (unit_index (old_of migration.now)) (unit_at migration.now number)) }
{
    match migration.arm_by_values(number) {
        Some(arm) => Ok(Some(index_of_arm(alloc, &arm)?)),
        None => Ok(None),
    }
}

impl Model for ValueIndexes {
    ghost use Rattle.std.specs.Prelude.{List, Option};
    ghost use Rattle.bf_image.specs.declared.value_indexes.UnitIndex.{UnitIndex as Seen};

    ghost Value = { List (Option Seen) };

    ghost view = { λ indexes. indexes.units.items };
}

impl ValueIndexes {
    /// The indexes of a migration, in time n log n in the rows of its units that go by values.
    ///
    /// # Errors
    /// Where memory runs out.
    pub fn of(alloc: Global, migration: &Migration) -> Result<ValueIndexes, Memory>
        requires lawful { IsLawfulMigration migration.now }
        ensures { IfOk result (λ indexes. indexes ≡ value_indexes migration.now) }
    {
        let count = migration.plan.units.as_slice().len();
        let mut units = Vec::with_capacity(alloc, count)?;
        for number in 0..count {
            units.push(index_of_unit(alloc, migration, number as u8)?)?;
        }
        Ok(ValueIndexes { units })
    }

    /// The index of a unit, and `None` where it goes by rows or there is no such unit. Takes no memory.
    pub fn unit(&self, number: u8) -> Option<&UnitIndex>
        ensures { option_map (λ index. index.now) result
            ≡ option_and_then (λ index. index) (slice_get self.now number) }
    {
        self.units.as_slice().get(number as usize)?.as_ref()
    }
}
