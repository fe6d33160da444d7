//! Scans of a migration's granules: all of them, and those that give a row which a condition may
//! pick.

ghost use Rattle.std.specs.Prelude.{◌≡◌, ◌==◌, ◌∷◌, [], ◌++◌, ◌<◌, ◌≤◌, ℕ, List, false, IfOk, IfSome, IsTrue, None, OnOk, Some, filter, length, map, option_map, slice_get};
ghost use Rattle.std.specs.List.{list_any};
ghost use Rattle.std.specs.Option.{option_to_list};
ghost use Rattle.bf_base.specs.declared.granule.Place.TheVariants.{Group, Row as At};
ghost use Rattle.bf_tree.specs.Trees.{always};
ghost use Rattle.bf_sql.specs.migrations.Targets.{target_table};
ghost use Rattle.bf_sql.specs.migrations.Granules.{granule, granules_of};
ghost use Rattle.bf_sql.specs.migrations.Need.{giving, may_satisfy};
ghost use Rattle.bf_index.specs.ByValues.{Valued, value_of};
ghost use Rattle.bf_image.specs.FrozenUnits.{IsUnitIn};
ghost use Rattle.bf_image.specs.Migrations.{IsLawfulMigration, anchors_in, old_of, target_at, value_indexes};
ghost use Rattle.bf_transpose.specs.InOrder.{values_in};
ghost use Rattle.bf_transpose.specs.Scans.{AreUnitsFor, AreWithin, IsIndexOf, IsSearch, IsUnitFor, gives, granules_at, granules_in, has_arm, is_sought, row_granules, value_granules, values_indexed};
ghost use Rattle.bf_transpose.specs.Transposed.{IsBehind};

use crate::bounds::{
    positions_of, range_at, range_behind, rows_before, rows_to_end, values_before, values_to_end,
};
use crate::condition::{total_places, without_totals};
use crate::drivers::{copies_of, driver_of, only_makes_each};
use crate::joined::columns_of_joins;
use crate::merge::Merge;
use crate::transposed::is_always;
use bf_access::{index_for, keys_by_index};
use bf_base::{Granule, Memory, Place, Row, Table};
use bf_heap::KeyRange;
use bf_image::{Frozen, FrozenUnit, Migration, UnitIndex, ValueIndexes, positions};
use bf_index::ByValue;
use bf_tree::{Cond, Unit, holds};
use std::alloc::Global;

/// Adds the granules of a unit at the first positions, as many as are told.
fn add_rows(unit: u8, count: u32, granules: &mut Vec<Granule>) -> Result<(), Memory>
    ensures { OnOk result (granules.new.items
        ≡ granules.old.items ++ row_granules unit count) }
{
    for position in 0..count {
        let place = Place::Row(position);
        granules.push(Granule { unit, place })?;
    }
    Ok(())
}

/// Adds the granules of a unit at the values of an index.
fn add_values(
    alloc: Global,
    unit: u8,
    values: &ByValue,
    granules: &mut Vec<Granule>,
) -> Result<(), Memory>
    ensures { OnOk result (granules.new.items
        ≡ granules.old.items ++ value_granules unit (map value_of values.now)) }
{
    for at in 0..values.len() {
        if let Some((value, _)) = values.at(at) {
            let place = Place::Group(value.copy(alloc)?);
            granules.push(Granule { unit, place })?;
        }
    }
    Ok(())
}

/// Adds the granules of a unit at the values of two indexes, in order, each value once.
fn add_merged(
    alloc: Global,
    unit: u8,
    from: &ByValue,
    join: &ByValue,
    granules: &mut Vec<Granule>,
) -> Result<(), Memory>
    ensures { OnOk result (granules.new.items
        ≡ granules.old.items ++ value_granules unit
        (values_in (map value_of from.now ++ map value_of join.now))) }
{
    let mut values = Merge::of(from, join);
    while let Some(value) = values.advance() {
        let place = Place::Group(value.copy(alloc)?);
        granules.push(Granule { unit, place })?;
    }
    Ok(())
}

/// Adds the granules of a unit that goes by values.
fn add_indexed(
    alloc: Global,
    unit: u8,
    index: &UnitIndex,
    granules: &mut Vec<Granule>,
) -> Result<(), Memory>
    ensures { OnOk result (granules.new.items
        ≡ granules.old.items ++ value_granules unit (values_indexed index.now)) }
{
    match &index.join {
        Some(join) => add_merged(alloc, unit, &index.from, join, granules),
        None => add_values(alloc, unit, &index.from, granules),
    }
}

/// Adds the granules of a unit.
fn add_unit(
    alloc: Global,
    migration: &Migration,
    indexes: &ValueIndexes,
    unit: u8,
    granules: &mut Vec<Granule>,
) -> Result<(), Memory>
    requires lawful { IsLawfulMigration migration.now }
    requires indexed { indexes.now ≡ value_indexes migration.now }
    ensures { OnOk result (granules.new.items
        ≡ granules.old.items ++ granules_in migration.now unit) }
{
    match indexes.unit(unit) {
        None => add_rows(unit, positions(migration, unit), granules),
        Some(index) => add_indexed(alloc, unit, index, granules),
    }
}

/// All granules of a migration, in the order of unit and place, each once. It takes time and memory
/// linear in the rows of its old tables, and compares each value of a join's FROM with about one of
/// its JOIN.
///
/// # Errors
/// Where memory runs out.
pub(crate) fn all(
    alloc: Global,
    migration: &Migration,
    indexes: &ValueIndexes,
) -> Result<Vec<Granule>, Memory>
    requires lawful { IsLawfulMigration migration.now }
    requires indexed { indexes.now ≡ value_indexes migration.now }
    ensures { IfOk result (λ all.
        all.items ≡ granules_of (old_of migration.now) migration.now.plan.migrate) }
{
    let mut granules = Vec::new(alloc);
    for unit in 0..migration.plan.units.len() {
        add_unit(alloc, migration, indexes, unit as u8, &mut granules)?;
    }
    Ok(granules)
}

/// Whether a unit has an arm of a target. Takes no memory.
fn is_of(unit: &Unit, target: u8) -> bool
    ensures { result ≡ list_any (λ arm. arm.0 == target) unit.now.arms }
{
    unit.arms.as_slice().iter().any(|(of, _)| *of == target)
}

/// Whether the unit of a number has an arm of a target. Takes no memory.
pub(crate) fn has_arm(migration: &Migration, unit: u8, target: u8) -> bool
    ensures { result ≡ has_arm migration.now target unit }
{
    match migration.plan.units.as_slice().get(unit as usize) {
        Some(planned) => is_of(planned, target),
        None => false,
    }
}

/// A unit with its old tables, if it has an arm of a target.
fn unit_for<'a>(
    alloc: Global,
    migration: &'a Migration,
    indexes: &'a ValueIndexes,
    target: u8,
    number: u8,
    planned: &Unit,
) -> Result<Option<FrozenUnit<'a>>, Memory>
    requires lawful { IsLawfulMigration migration.now }
    requires indexed { indexes.now ≡ value_indexes migration.now }
    requires planned { slice_get migration.now.plan.units number ≡ Some planned.now }
    ensures { IfOk result (λ unit. IsUnitFor migration.now target number unit) }
{
    if !is_of(planned, target) {
        return Ok(None);
    }
    Ok(Some(FrozenUnit::of(alloc, migration, indexes, number)?))
}

/// The units of a migration that have an arm of a target, with their old tables, each at its number, and
/// `None` for the others. It compares about log n names for each table of their arms.
fn units_for<'a>(
    alloc: Global,
    migration: &'a Migration,
    indexes: &'a ValueIndexes,
    target: u8,
) -> Result<Vec<Option<FrozenUnit<'a>>>, Memory>
    requires lawful { IsLawfulMigration migration.now }
    requires indexed { indexes.now ≡ value_indexes migration.now }
    ensures { IfOk result (λ units. AreUnitsFor migration.now target units.items) }
{
    let planned = migration.plan.units.as_slice();
    let mut units = Vec::with_capacity(alloc, planned.len())?;
    for (number, unit) in planned.iter().enumerate() {
        units.push(unit_for(alloc, migration, indexes, target, number as u8, unit)?)?;
    }
    Ok(units)
}

/// The table that a target becomes.
fn table_made(migration: &Migration, target: u8) -> &Table
    requires lawful { IsLawfulMigration migration.now }
    requires there { target < length migration.now.plan.migrate.targets }
    ensures { result.now ≡ target_table (old_of migration.now) (target_at migration.now target) }
{
    &migration.plan.tables.as_slice()[target as usize]
}

/// A search for the granules that give a row of a target which a condition may pick.
#[derive(Drop)]
struct Search<'a> {
    migration: &'a Migration,
    indexes: &'a ValueIndexes,
    target: u8,
    cond: &'a Cond,
    // The keys of a driver's rows, or the values of groups, from which such rows can come.
    range: &'a KeyRange,
    // The units that have an arm of the target, with their old tables, each at its number.
    units: Vec<Option<FrozenUnit<'a>>>,
}

/// The driver of a unit, and what each of its rows satisfies from which a row that is sought comes.
#[derive(Drop)]
struct Behind<'a> {
    driver: &'a Frozen,
    cond: Cond,
}

impl<'a> Search<'a> {
    /// Whether a row, with the number of its target, is sought.
    fn accepts(&self, alloc: Global, of: u8, row: &Row) -> Result<bool, Memory>
        requires { IsSearch self.now }
        ensures { IfOk result (λ found. found ≡ is_sought self.now.migration.now
            self.now.target self.now.cond.now (of, row.now)) }
    {
        if of != self.target {
            return Ok(false);
        }
        holds(alloc, self.cond, row)
    }

    /// Whether one of some rows, each with the number of its target, is sought.
    fn is_among(&self, alloc: Global, rows: &[(u8, Row)]) -> Result<bool, Memory>
        requires { IsSearch self.now }
        ensures { IfOk result (λ found. found ≡ list_any
            (is_sought self.now.migration.now self.now.target self.now.cond.now) rows.now) }
    {
        for (of, row) in rows {
            if self.accepts(alloc, *of, row)? {
                return Ok(true);
            }
        }
        Ok(false)
    }

    /// The unit of a number with its old tables; none where it has no arm of the target. Takes no memory.
    fn unit(&self, number: u8) -> Option<&FrozenUnit<'a>>
        requires { IsSearch self.now }
        ensures { IsUnitFor self.now.migration.now self.now.target number
            (option_map (λ unit. unit.now) result) }
    {
        self.units.get(number as usize)?.as_ref()
    }

    /// Whether a unit's granule gives a row of the target. It makes none.
    fn gives_any(&self, alloc: Global, unit: &FrozenUnit<'_>, place: &Place) -> Result<bool, Memory>
        requires search { IsSearch self.now }
        requires unit { IsUnitIn self.now.migration.now unit.now }
        ensures { IfOk result (λ any. any ≡ gives self.now.migration.now self.now.target always
            (granule unit.now.number place.now)) }
    {
        unit.gives_row(alloc, place, self.target)
    }

    /// Whether a granule gives a row that is sought.
    fn finds(&self, alloc: Global, granule: &Granule) -> Result<bool, Memory>
        requires { IsSearch self.now }
        ensures { IfOk result (λ found. found
            ≡ gives self.now.migration.now self.now.target self.now.cond.now granule.now) }
    {
        let Some(unit) = self.unit(granule.unit) else {
            return Ok(false);
        };
        if is_always(self.cond) {
            return self.gives_any(alloc, unit, &granule.place);
        }
        let rows = unit.rows_of(alloc, &granule.place)?;
        self.is_among(alloc, &rows)
    }

    /// Adds a granule if it gives a row that is sought.
    fn add(
        &self,
        alloc: Global,
        granule: Granule,
        granules: &mut Vec<Granule>,
    ) -> Result<(), Memory>
        requires { IsSearch self.now }
        ensures { OnOk result (granules.new.items ≡ granules.old.items ++ filter
            (gives self.now.migration.now self.now.target self.now.cond.now) (granule ∷ [])) }
    {
        if self.finds(alloc, &granule)? {
            granules.push(granule)?;
        }
        Ok(())
    }

    /// The positions, from the first number to before the second, outside which the rows that a unit
    /// goes by give no row that is sought.
    fn bounds(&self, unit: u8) -> (u32, u32)
        requires { IsSearch self.now }
        ensures first { result.0 ≤ anchors_in self.now.migration.now unit }
        ensures end { result.1 ≤ anchors_in self.now.migration.now unit }
        ensures before { (at : ℕ) → at < result.0 → gives self.now.migration.now self.now.target
            self.now.cond.now (granule unit (At at)) ≡ false }
        ensures behind { (at : ℕ) → result.1 ≤ at → at < anchors_in self.now.migration.now unit
            → gives self.now.migration.now self.now.target self.now.cond.now
            (granule unit (At at)) ≡ false }
    {
        match driver_of(self.migration, unit) {
            Some(driver) => {
                let heap = driver.rows.heap();
                (rows_before(heap, self.range), rows_to_end(heap, self.range))
            }
            None => (0, positions(self.migration, unit)),
        }
    }

    /// The driver of a unit, with what each of its rows satisfies from which a row that is sought comes;
    /// none where the unit goes by values, where the target has no arm in it or several, and where
    /// that would be true of each row.
    fn behind(&self, alloc: Global, unit: u8) -> Result<Option<Behind<'a>>, Memory>
        requires { IsSearch self.now }
        ensures { IfOk result (λ found. IfSome found (IsBehind self.now unit)) }
    {
        let Some(driver) = driver_of(self.migration, unit) else {
            return Ok(None);
        };
        let Some(planned) = self.migration.plan.units.as_slice().get(unit as usize) else {
            return Ok(None);
        };
        let Some(copies) = copies_of(self.migration, planned, driver, self.target) else {
            return Ok(None);
        };
        let cond = copies.transposed(alloc, self.cond)?;
        if is_always(&cond) {
            return Ok(None);
        }
        Ok(Some(Behind { driver, cond }))
    }

    /// The positions of the rows of a unit's driver that an index finds, among which are all from which
    /// a row that is sought comes; none where no index of it serves better than its key.
    fn positions_by_index(
        &self,
        alloc: Global,
        unit: u8,
        behind: &Behind,
    ) -> Result<Option<Vec<u32>>, Memory>
        requires search { IsSearch self.now }
        requires behind { IsBehind self.now unit behind.now }
        ensures { IfOk result (λ found. IfSome found (λ positions.
            filter (gives self.now.migration.now self.now.target self.now.cond.now)
            (granules_at unit positions.items)
            ≡ filter (gives self.now.migration.now self.now.target self.now.cond.now)
            (row_granules unit (anchors_in self.now.migration.now unit)))) }
    {
        let rows = &behind.driver.rows;
        let Some(index) = index_for(rows.indexes(), &behind.driver.table, &behind.cond) else {
            return Ok(None);
        };
        let keys = keys_by_index(alloc, index, &behind.cond)?;
        let heap = rows.heap();
        // By its contract the heap is in the order of its keys.
        let _ = heap.len();
        let positions = positions_of(alloc, heap, &keys)?;
        Ok(Some(positions))
    }

    /// Adds those granules of a unit that stand at some positions.
    fn add_at(
        &self,
        alloc: Global,
        unit: u8,
        positions: &[u32],
        granules: &mut Vec<Granule>,
    ) -> Result<(), Memory>
        requires { IsSearch self.now }
        ensures { OnOk result (granules.new.items ≡ granules.old.items ++ filter
            (gives self.now.migration.now self.now.target self.now.cond.now)
            (granules_at unit positions.now)) }
    {
        for position in positions {
            let place = Place::Row(*position);
            self.add(alloc, Granule { unit, place }, granules)?;
        }
        Ok(())
    }

    /// Whether each row that a unit goes by surely gives a row that is sought: each row of the target is,
    /// and its one arm in the unit makes one of each row of FROM. It compares about log n names, and
    /// takes no memory.
    fn gives_each(&self, unit: u8) -> bool
        requires { IsSearch self.now }
        ensures { IsTrue result → (at : ℕ) → at < anchors_in self.now.migration.now unit
            → IsTrue (gives self.now.migration.now self.now.target self.now.cond.now
            (granule unit (At at))) }
    {
        if !is_always(self.cond) {
            return false;
        }
        let Some(_) = driver_of(self.migration, unit) else {
            return false;
        };
        match self.migration.plan.units.as_slice().get(unit as usize) {
            Some(planned) => only_makes_each(self.migration, planned, self.target),
            None => false,
        }
    }

    /// Adds those granules of a unit that goes by rows. None is tried where each gives a row that is
    /// sought; else only the rows that an index finds are, or those whose keys are in the range.
    fn add_rows(&self, alloc: Global, unit: u8, granules: &mut Vec<Granule>) -> Result<(), Memory>
        requires { IsSearch self.now }
        ensures { OnOk result (granules.new.items ≡ granules.old.items ++ filter
            (gives self.now.migration.now self.now.target self.now.cond.now)
            (row_granules unit (anchors_in self.now.migration.now unit))) }
    {
        if self.gives_each(unit) {
            return add_rows(unit, positions(self.migration, unit), granules);
        }
        let Some(behind) = self.behind(alloc, unit)? else {
            return self.add_in_range(alloc, unit, None, granules);
        };
        match self.positions_by_index(alloc, unit, &behind)? {
            Some(positions) => self.add_at(alloc, unit, &positions, granules),
            None => self.add_in_range(alloc, unit, Some(&behind), granules),
        }
    }

    /// Whether a row that is sought may come of the row of a unit's driver at a position. It makes none:
    /// it only tests what stands there.
    fn may_give(
        &self,
        alloc: Global,
        unit: u8,
        behind: &Behind,
        position: u32,
    ) -> Result<bool, Memory>
        requires { IsBehind self.now unit behind.now }
        ensures { IfOk result (λ may. IsTrue (gives self.now.migration.now self.now.target
            self.now.cond.now (granule unit (At position))) → IsTrue may) }
    {
        match behind.driver.rows.heap().at(position) {
            Some((_, row)) => holds(alloc, &behind.cond, row),
            None => Ok(true),
        }
    }

    /// Adds the granule of a unit at a position if it gives a row that is sought. Its rows are made only
    /// where the driver's row there satisfies what is known of it.
    fn add_row(
        &self,
        alloc: Global,
        unit: u8,
        behind: Option<&Behind>,
        position: u32,
        granules: &mut Vec<Granule>,
    ) -> Result<(), Memory>
        requires search { IsSearch self.now }
        requires behind { IfSome behind (λ behind. IsBehind self.now unit behind.now) }
        ensures { OnOk result (granules.new.items ≡ granules.old.items ++ filter
            (gives self.now.migration.now self.now.target self.now.cond.now)
            (granule unit (At position) ∷ [])) }
    {
        if let Some(behind) = behind {
            if !self.may_give(alloc, unit, behind, position)? {
                return Ok(());
            }
        }
        let place = Place::Row(position);
        self.add(alloc, Granule { unit, place }, granules)
    }

    /// Reads rows of a unit's driver ahead of their use, as [`bf_heap::FrozenHeap::read_on`] does. Takes no
    /// memory.
    fn read_on(&self, unit: u8, position: u32, end: u32, read: u32) -> u32
        requires { IsSearch self.now }
    {
        let Some(found) = self.unit(unit) else {
            return read;
        };
        match found.driver {
            Some(driver) => driver.rows.heap().read_on(position, end, read),
            None => read,
        }
    }

    /// Adds those granules of a unit that goes by rows. Only rows whose keys are in the range are
    /// tried, and of these only such as satisfy what is known of the driver's rows, if anything is.
    fn add_in_range(
        &self,
        alloc: Global,
        unit: u8,
        behind: Option<&Behind>,
        granules: &mut Vec<Granule>,
    ) -> Result<(), Memory>
        requires search { IsSearch self.now }
        requires behind { IfSome behind (λ behind. IsBehind self.now unit behind.now) }
        ensures { OnOk result (granules.new.items ≡ granules.old.items ++ filter
            (gives self.now.migration.now self.now.target self.now.cond.now)
            (row_granules unit (anchors_in self.now.migration.now unit))) }
    {
        let (first, end) = self.bounds(unit);
        let mut read = first;
        for position in first..end {
            read = self.read_on(unit, position, end, read);
            self.add_row(alloc, unit, behind, position, granules)?;
        }
        Ok(())
    }

    /// Adds the granule of a unit at a place among the values of an index if it gives a row that is
    /// sought; none where there is no such place.
    fn add_value(
        &self,
        alloc: Global,
        unit: u8,
        values: &ByValue,
        at: usize,
        granules: &mut Vec<Granule>,
    ) -> Result<(), Memory>
        requires { IsSearch self.now }
        ensures { OnOk result (granules.new.items ≡ granules.old.items ++ filter
            (gives self.now.migration.now self.now.target self.now.cond.now)
            (value_granules unit (map value_of (option_to_list (slice_get values.now at))))) }
    {
        match values.at(at) {
            Some((value, _)) => {
                let place = Place::Group(value.copy(alloc)?);
                self.add(alloc, Granule { unit, place }, granules)
            }
            None => Ok(()),
        }
    }

    /// Adds those granules of a unit that stand at the values of an index. Only values in a range are
    /// tried, in which all are that give a row which is sought.
    fn add_values(
        &self,
        alloc: Global,
        unit: u8,
        values: &ByValue,
        range: &KeyRange,
        granules: &mut Vec<Granule>,
    ) -> Result<(), Memory>
        requires search { IsSearch self.now }
        requires within { AreWithin self.now unit values.now range.now }
        ensures { OnOk result (granules.new.items ≡ granules.old.items ++ filter
            (gives self.now.migration.now self.now.target self.now.cond.now)
            (value_granules unit (map value_of values.now))) }
    {
        let first = values_before(values, range);
        let end = values_to_end(values, range);
        for at in first..end {
            self.add_value(alloc, unit, values, at, granules)?;
        }
        Ok(())
    }

    /// The range of the values of a unit of joins from which a row that is sought can come, by what the
    /// condition says of the columns that copy those of ON.
    fn range_of_joins(&self, alloc: Global, unit: u8) -> Result<KeyRange, Memory>
        requires { IsSearch self.now }
        ensures { IfOk result (λ range. (values : List Valued)
            → AreWithin self.now unit values range) }
    {
        let columns = columns_of_joins(alloc, self.migration, unit)?;
        let table = table_made(self.migration, self.target);
        range_at(alloc, table, columns, self.cond)
    }

    /// Adds those granules of a unit that goes by values: of groups those whose values are in the range,
    /// since a group's row has its value for its key. A join's value without a row of FROM gives no
    /// row.
    fn add_indexed(
        &self,
        alloc: Global,
        unit: u8,
        index: &UnitIndex,
        granules: &mut Vec<Granule>,
    ) -> Result<(), Memory>
        requires search { IsSearch self.now }
        requires of_unit { IsIndexOf self.now.migration.now unit index.now }
        ensures { OnOk result (granules.new.items ≡ granules.old.items ++ filter
            (gives self.now.migration.now self.now.target self.now.cond.now)
            (granules_in self.now.migration.now unit)) }
    {
        match &index.join {
            Some(_) => {
                let range = self.range_of_joins(alloc, unit)?;
                self.add_values(alloc, unit, &index.from, &range, granules)
            }
            None => self.add_values(alloc, unit, &index.from, self.range, granules),
        }
    }

    /// Adds those granules of a unit.
    fn add_unit(&self, alloc: Global, unit: u8, granules: &mut Vec<Granule>) -> Result<(), Memory>
        requires { IsSearch self.now }
        ensures { OnOk result (granules.new.items ≡ granules.old.items ++ filter
            (gives self.now.migration.now self.now.target self.now.cond.now)
            (granules_in self.now.migration.now unit)) }
    {
        if !has_arm(self.migration, unit, self.target) {
            return Ok(());
        }
        match self.indexes.unit(unit) {
            Some(index) => self.add_indexed(alloc, unit, index, granules),
            None => self.add_rows(alloc, unit, granules),
        }
    }

    /// The granules that give a row that is sought, in the order of unit and place.
    fn granules(&self, alloc: Global) -> Result<Vec<Granule>, Memory>
        requires { IsSearch self.now }
        ensures { IfOk result (λ granules. granules.items ≡ filter
            (gives self.now.migration.now self.now.target self.now.cond.now)
            (granules_of (old_of self.now.migration.now)
            self.now.migration.now.plan.migrate)) }
    {
        let mut granules = Vec::new(alloc);
        for unit in 0..self.migration.plan.units.len() {
            self.add_unit(alloc, unit as u8, &mut granules)?;
        }
        Ok(granules)
    }
}

/// The granules, in the order of unit and place, that give a row of a target which satisfies a
/// condition, as far as that is known without its totals. It computes the parts of the granules of
/// units that have an arm of the target, whose old tables it looks up by name once. Where there is
/// no condition, or one on totals alone, it only finds out whether they have a row of the target, and
/// not even that where the one arm of the target in a unit makes a row of each row of FROM: it has no
/// JOIN, and no condition. Of a unit that goes by rows those are only the ones whose rows have keys in
/// the range that the condition leaves, which are found by about log n compares, and where the
/// condition fixes columns that are copied from the old table, only the ones whose rows have these
/// values: a row that has others costs its look-up and the compares. Where an index of the old table
/// serves what the condition says of those columns, and has more columns than this fixes of the front
/// of its key, they are only the rows that it finds, each by about log n compares of pairs and of
/// keys. A target with several arms in a unit keeps to the range there. Of a unit of groups those
/// are only the values in the range. Of a unit of joins they are only the values in the range that
/// the condition leaves to the columns which copy those of ON, in the order of ON, up to the first
/// equality that no column copies: all values where the condition says nothing of the first. Either
/// are found by about log n compares.
///
/// # Errors
/// Where memory runs out.
pub(crate) fn giving<'a>(
    alloc: Global,
    migration: &'a Migration,
    indexes: &'a ValueIndexes,
    target: u8,
    cond: &Cond,
) -> Result<Vec<Granule>, Memory>
    requires lawful { IsLawfulMigration migration.now }
    requires indexed { indexes.now ≡ value_indexes migration.now }
    requires there { target < length migration.now.plan.migrate.targets }
    ensures { IfOk result (λ granules. granules.items
        ≡ giving (old_of migration.now) migration.now.plan.migrate
        (Some (target_at migration.now target)) (may_satisfy cond.now)) }
{
    let written = &migration.plan.migrate.targets.as_slice()[target as usize];
    let totals = total_places(alloc, written)?;
    let cond = without_totals(alloc, cond, &totals)?;
    let made = table_made(migration, target);
    let range = range_behind(alloc, made, written.arms.len() > 1, &cond)?;
    let units = units_for(alloc, migration, indexes, target)?;
    let search = Search {
        migration,
        indexes,
        target,
        cond: &cond,
        range: &range,
        units,
    };
    search.granules(alloc)
}
