//! Whether a granule gives a row of a new table, without making it.

ghost use Rattle.std.specs.Prelude.{◌≡◌, ◌<◌, [], ◌∷◌, ℕ, IfOk, IsSome, flat_map, length, map, option_map, slice_get, unwrap_or};
ghost use Rattle.std.specs.Option.{option_to_list};
ghost use Rattle.bf_base.specs.declared.granule.Place.TheVariants.{Group, Row as At};
ghost use Rattle.bf_sql.specs.migrations.Granules.{granule};
ghost use Rattle.bf_image.specs.BoundArms.{entries_of};
ghost use Rattle.bf_index.specs.ByValues.{positions_under};
ghost use Rattle.bf_image.specs.FrozenUnits.{IsFrozenUnit, IsRowAt};
ghost use Rattle.bf_image.specs.Giving.{gives_row, makes_any};

use crate::arm_gives::makes_any;
use crate::arms::FrozenArm;
use crate::frozen_unit::FrozenUnit;
use crate::meeting::gives_of_driver;
use crate::migration::Frozen;
use crate::value_indexes::UnitIndex;
use bf_base::{Key, Memory, Place, Row};
use bf_tree::PlacedArm;
use std::alloc::Global;

/// Whether an arm makes a row of a row of FROM and the row of JOIN at a position, if there is one.
fn makes_any_at(
    alloc: Global,
    arm: &PlacedArm,
    from: &Row,
    join: &Frozen,
    position: u32,
) -> Result<bool, Memory>
    ensures { IfOk result (λ any. any ≡ makes_any arm.now (from.now ∷ [])
        (option_to_list (slice_get (map (λ entry. entry.1) join.now.rows) position))) }
{
    match join.rows.at(position) {
        Some((_, row)) => makes_any(alloc, arm, from, Some(row)),
        None => makes_any(alloc, arm, from, None),
    }
}

/// Whether an arm makes a row of a row of FROM and the rows of JOIN at some positions.
fn makes_any_of(
    alloc: Global,
    arm: &FrozenArm<'_>,
    from: &Row,
    join: &[u32],
) -> Result<bool, Memory>
    ensures { IfOk result (λ any. any ≡ makes_any arm.now.placed.now (from.now ∷ [])
        (flat_map (λ at. option_to_list (slice_get (map (λ entry. entry.1)
        (entries_of (option_map (λ table. table.now) arm.now.join))) at)) join.now)) }
{
    let (Some(_), Some(table)) = (&arm.placed.on, arm.join) else {
        return makes_any(alloc, arm.placed, from, None);
    };
    for position in join {
        if makes_any_at(alloc, arm.placed, from, table, *position)? {
            return Ok(true);
        }
    }
    Ok(false)
}

/// Whether an arm makes a row of the rows of FROM and of JOIN at some positions.
fn makes_any_among(
    alloc: Global,
    arm: &FrozenArm<'_>,
    from: &[u32],
    join: &[u32],
) -> Result<bool, Memory>
    ensures { IfOk result (λ any. any ≡ makes_any arm.now.placed.now
        (flat_map (λ at. option_to_list (slice_get (map (λ entry. entry.1)
        arm.now.from.now.rows) at)) from.now)
        (flat_map (λ at. option_to_list (slice_get (map (λ entry. entry.1)
        (entries_of (option_map (λ table. table.now) arm.now.join))) at)) join.now)) }
{
    for position in from {
        if let Some((_, row)) = arm.from.rows.at(*position) {
            if makes_any_of(alloc, arm, row, join)? {
                return Ok(true);
            }
        }
    }
    Ok(false)
}

/// The positions of the rows of JOIN with a value: none where there is no JOIN.
fn joined_positions<'a>(index: &'a UnitIndex, value: &Key) -> &'a [u32]
    ensures { result.now ≡ unwrap_or
        (option_map (λ by_value. positions_under by_value value.now) index.now.join) [] }
{
    match &index.join {
        Some(by_value) => by_value.positions(value),
        None => &[],
    }
}

impl FrozenUnit<'_> {
    /// Whether the arms of the unit, which goes by rows, make a row of a target of a row of its driver.
    fn gives_of_row(&self, alloc: Global, row: &Row, target: u8) -> Result<bool, Memory>
        requires unit { IsFrozenUnit self.now }
        requires by_rows { IsSome self.now.driver }
        requires there { target < length self.now.migration.now.plan.migrate.targets }
        ensures { IfOk result (λ gives. (at : ℕ) → IsRowAt self.now at row.now → gives
            ≡ gives_row self.now.migration.now target (granule self.now.number (At at))) }
    {
        for arm in &self.arms {
            if arm.target == target && gives_of_driver(alloc, arm, row)? {
                return Ok(true);
            }
        }
        Ok(false)
    }

    /// Whether the unit gives a row of a target at a position of the table whose rows it goes by.
    fn gives_at(&self, alloc: Global, position: u32, target: u8) -> Result<bool, Memory>
        requires unit { IsFrozenUnit self.now }
        requires there { target < length self.now.migration.now.plan.migrate.targets }
        ensures { IfOk result (λ gives. gives
            ≡ gives_row self.now.migration.now target (granule self.now.number (At position))) }
    {
        let Some(driver) = self.driver else {
            return Ok(false);
        };
        match driver.rows.at(position) {
            Some((_, row)) => self.gives_of_row(alloc, row, target),
            None => Ok(false),
        }
    }

    /// Whether the unit gives a row of a target under a value: not where it does not go by values.
    fn gives_under(&self, alloc: Global, value: &Key, target: u8) -> Result<bool, Memory>
        requires unit { IsFrozenUnit self.now }
        requires there { target < length self.now.migration.now.plan.migrate.targets }
        ensures { IfOk result (λ gives. gives
            ≡ gives_row self.now.migration.now target (granule self.now.number (Group value.now))) }
    {
        let Some(arm) = &self.valued else {
            return Ok(false);
        };
        if arm.target != target {
            return Ok(false);
        }
        let Some(index) = self.index else {
            return Ok(false);
        };
        let from = index.from.positions(value);
        let join = joined_positions(index, value);
        makes_any_among(alloc, arm, from, join)
    }

    /// Whether the unit's granule at a place gives a row of a target, by the target's number: false where
    /// the unit has no such granule. It makes no row and stops at the first that would be made: of a unit
    /// that goes by rows it costs what finding the driver's row and the row that it meets costs, about log n
    /// compares of keys for each arm of the target; of one that goes by values about log n compares of
    /// values, and a test of each pair of the granule's rows up to the first that the arm takes.
    ///
    /// # Errors
    /// Where memory runs out.
    pub fn gives_row(&self, alloc: Global, place: &Place, target: u8) -> Result<bool, Memory>
        requires unit { IsFrozenUnit self.now }
        requires there { target < length self.now.migration.now.plan.migrate.targets }
        ensures { IfOk result (λ gives. gives
            ≡ gives_row self.now.migration.now target (granule self.now.number place.now)) }
    {
        match place {
            Place::Row(position) => self.gives_at(alloc, *position, target),
            Place::Group(value) => self.gives_under(alloc, value, target),
        }
    }
}
