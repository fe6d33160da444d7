//! The rows of the new tables that come from a granule.

ghost use Rattle.std.specs.Prelude.{◌≡◌, ◌++◌, ℕ, IfOk, IsSome, OnOk, Some, flat_map, map, slice_get};
ghost use Rattle.std.specs.Option.{option_to_list};
ghost use Rattle.bf_base.specs.declared.granule.Place.TheVariants.{Group, Row as At};
ghost use Rattle.bf_tree.specs.declared.migration.Arm.{Arm};
ghost use Rattle.bf_tree.specs.declared.migration.Target.{Target};
ghost use Rattle.bf_sql.specs.migrations.Granules.{from_with, granule, join_with, values_unit};
ghost use Rattle.bf_sql.specs.migrations.Targets.{arm_kind};
ghost use Rattle.bf_image.specs.BoundArms.{IsFrozenArm};
ghost use Rattle.bf_image.specs.FrozenUnits.{IsFrozenUnit, IsRowAt};
ghost use Rattle.bf_image.specs.Migrations.{ArePart, IsLawfulMigration, IsPartBehind, old_of, unit_index, value_indexes};
ghost use Rattle.bf_image.specs.declared.migration.Migration.{Migration};

use crate::arm_rows::rows_made;
use crate::arms::FrozenArm;
use crate::frozen_unit::FrozenUnit;
use crate::meeting::row_of_driver;
use crate::migration::{Frozen, Migration};
use crate::value_indexes::{UnitIndex, ValueIndexes};
use bf_base::{Granule, Key, Memory, Place, Row};
use std::alloc::Global;

/// Puts a row, if there is one, behind others with the number of its target.
fn add_row(rows: &mut Vec<(u8, Row)>, target: u8, made: Option<Row>) -> Result<(), Memory>
    ensures { OnOk result (rows.new.items ≡ rows.old.items
        ++ map (λ row. (target, row)) (option_to_list made)) }
{
    let Some(row) = made else {
        return Ok(());
    };
    rows.push((target, row))?;
    Ok(())
}

/// Puts rows behind others, each with the number of their target.
fn add_rows(rows: &mut Vec<(u8, Row)>, target: u8, made: Vec<Row>) -> Result<(), Memory>
    ensures { OnOk result (rows.new.items ≡ rows.old.items
        ++ map (λ row. (target, row)) made.items) }
{
    for row in made {
        rows.push((target, row))?;
    }
    Ok(())
}

/// The rows at some positions of an old table.
fn rows_at_all<'a>(
    alloc: Global,
    table: &'a Frozen,
    positions: &[u32],
) -> Result<Vec<&'a Row>, Memory>
    ensures { IfOk result (λ rows. map (λ row. row.now) rows.items ≡ flat_map (λ at.
        option_to_list (slice_get (map (λ entry. entry.1) table.now.rows) at)) positions.now) }
{
    let mut rows = Vec::with_capacity(alloc, positions.len())?;
    for position in positions {
        if let Some((_, row)) = table.rows.at(*position) {
            rows.push(row)?;
        }
    }
    Ok(rows)
}

/// The rows of FROM with a value.
fn from_under<'a>(
    alloc: Global,
    arm: &FrozenArm<'a>,
    index: &UnitIndex,
    value: &Key,
) -> Result<Vec<&'a Row>, Memory>
    ensures { IfOk result (λ rows. (m : Migration) (target : ℕ) (raw : Arm) (of : Target)
        → IsFrozenArm m target raw arm.now
        → unit_index (old_of m) (values_unit of raw) ≡ Some index.now
        → map (λ row. row.now) rows.items
        ≡ from_with (old_of m) raw (arm_kind (old_of m) raw) value.now) }
{
    rows_at_all(alloc, arm.from, index.from.positions(value))
}

/// The rows of JOIN with a value; none where there is no JOIN.
fn join_under<'a>(
    alloc: Global,
    arm: &FrozenArm<'a>,
    index: &UnitIndex,
    value: &Key,
) -> Result<Vec<&'a Row>, Memory>
    ensures { IfOk result (λ rows. (m : Migration) (target : ℕ) (raw : Arm) (of : Target)
        → IsFrozenArm m target raw arm.now
        → unit_index (old_of m) (values_unit of raw) ≡ Some index.now
        → map (λ row. row.now) rows.items ≡ join_with (old_of m) raw value.now) }
{
    match (arm.join, &index.join) {
        (Some(join), Some(by_value)) => rows_at_all(alloc, join, by_value.positions(value)),
        _ => Ok(Vec::new(alloc)),
    }
}

impl FrozenUnit<'_> {
    /// Adds what the arms of the unit, which goes by rows, make of a row of its driver.
    fn add_rows_of_row(
        &self,
        alloc: Global,
        row: &Row,
        rows: &mut Vec<(u8, Row)>,
    ) -> Result<(), Memory>
        requires unit { IsFrozenUnit self.now }
        requires by_rows { IsSome self.now.driver }
        ensures { OnOk result ((at : ℕ) → IsRowAt self.now at row.now
            → IsPartBehind self.now.migration.now (granule self.now.number (At at))
            rows.old.items rows.new.items) }
    {
        for arm in &self.arms {
            add_row(rows, arm.target, row_of_driver(alloc, arm, row)?)?;
        }
        Ok(())
    }

    /// Adds what the unit has at a position of the table whose rows it goes by: nothing where there is no
    /// such row.
    fn add_rows_at(
        &self,
        alloc: Global,
        position: u32,
        rows: &mut Vec<(u8, Row)>,
    ) -> Result<(), Memory>
        requires { IsFrozenUnit self.now }
        ensures { OnOk result (IsPartBehind self.now.migration.now
            (granule self.now.number (At position)) rows.old.items rows.new.items) }
    {
        let Some(driver) = self.driver else {
            return Ok(());
        };
        match driver.rows.at(position) {
            Some((_, row)) => self.add_rows_of_row(alloc, row, rows),
            None => Ok(()),
        }
    }

    /// Adds what the unit has under a value: nothing where it does not go by values.
    fn add_rows_under(
        &self,
        alloc: Global,
        value: &Key,
        rows: &mut Vec<(u8, Row)>,
    ) -> Result<(), Memory>
        requires { IsFrozenUnit self.now }
        ensures { OnOk result (IsPartBehind self.now.migration.now
            (granule self.now.number (Group value.now)) rows.old.items rows.new.items) }
    {
        let Some(arm) = &self.valued else {
            return Ok(());
        };
        let Some(index) = self.index else {
            return Ok(());
        };
        let from = from_under(alloc, arm, index, value)?;
        let join = join_under(alloc, arm, index, value)?;
        let made = rows_made(alloc, arm.placed, &from, &join)?;
        add_rows(rows, arm.target, made)
    }

    /// Adds behind others the rows of the new tables that come from the unit's granule at a place, each
    /// with the number of its target: none where the unit has no such granule. It costs what the granule
    /// has, and about log n compares of keys for each old row of it. Of a granule that goes by a row no
    /// list of its own is made.
    ///
    /// # Errors
    /// Where memory runs out. Some of the granule's rows may have been added then.
    pub fn add_rows_of(
        &self,
        alloc: Global,
        place: &Place,
        rows: &mut Vec<(u8, Row)>,
    ) -> Result<(), Memory>
        requires { IsFrozenUnit self.now }
        ensures { OnOk result (IsPartBehind self.now.migration.now
            (granule self.now.number place.now) rows.old.items rows.new.items) }
    {
        match place {
            Place::Row(position) => self.add_rows_at(alloc, *position, rows),
            Place::Group(value) => self.add_rows_under(alloc, value, rows),
        }
    }

    /// The rows of the new tables that come from the unit's granule at a place, each with the number of
    /// its target: none where the unit has no such granule. It costs what `add_rows_of` does, and a list.
    ///
    /// # Errors
    /// Where memory runs out.
    pub fn rows_of(&self, alloc: Global, place: &Place) -> Result<Vec<(u8, Row)>, Memory>
        requires { IsFrozenUnit self.now }
        ensures { IfOk result (λ rows. ArePart self.now.migration.now
            (granule self.now.number place.now) rows.items) }
    {
        let mut rows = Vec::new(alloc);
        self.add_rows_of(alloc, place, &mut rows)?;
        Ok(rows)
    }
}

/// The rows of the new tables that come from a granule, each with the number of its target: none of a
/// granule that is not the migration's. It costs what `FrozenUnit::of` and `FrozenUnit::rows_of` do.
///
/// # Errors
/// Where memory runs out.
pub fn rows_of(
    alloc: Global,
    migration: &Migration,
    indexes: &ValueIndexes,
    granule: &Granule,
) -> Result<Vec<(u8, Row)>, Memory>
    requires lawful { IsLawfulMigration migration.now }
    requires indexed { indexes.now ≡ value_indexes migration.now }
    ensures { IfOk result (λ rows. ArePart migration.now granule.now rows.items) }
{
    let unit = FrozenUnit::of(alloc, migration, indexes, granule.unit)?;
    unit.rows_of(alloc, &granule.place)
}
