//! The granules of one unit that have moved.

ghost use Rattle.std.specs.Prelude.{◌≡◌, ◌<◌, ◌≤◌, ◌++◌, [], OnErr, OnOk, ℕ, filter, is_some, length};
ghost use Rattle.std.specs.BTreeMap.{insert_entry, is_at};
ghost use Rattle.std.specs.Map.{keys_of, lookup, remove_entry};
ghost use Rattle.bf_store.specs.ByUnit.{at_place, from_unit, of_unit};
ghost use Rattle.bf_store.specs.Marks.{is_group_of};
ghost use Rattle.bf_store.specs.States.{granule_cmp};

use crate::row_numbers::RowNumbers;
use bf_base::{Granule, Key, Memory, Place};
use std::alloc::Global;
use std::collections::BTreeMap;

/// For each granule of a unit that has moved, the number of the record that moved it. A unit goes
/// by rows or by values, so one of the two is empty.
#[derive(Drop)]
pub struct UnitMarks {
    rows: RowNumbers,
    values: BTreeMap<Key, u64>,
}

impl UnitMarks {
    /// No granule has moved. Takes no memory.
    pub fn new(alloc: Global) -> UnitMarks
        ensures { (unit : ℕ) → of_unit unit result ≡ [] }
    {
        UnitMarks {
            rows: RowNumbers::new(alloc),
            values: BTreeMap::new(alloc),
        }
    }

    /// The number of the record that moved the granule at a place, if it has moved. It compares
    /// about log n values, and no position. Takes no memory.
    pub fn number(&self, place: &Place) -> Option<u64>
        ensures { (unit : ℕ) → result
            ≡ lookup (is_at (granule_cmp (at_place unit place.now))) (of_unit unit self.now) }
    {
        match place {
            Place::Row(position) => self.rows.get(*position),
            Place::Group(value) => self.values.get(value).copied(),
        }
    }

    /// Notes the number of the record that has moved the granule at a place. It compares about
    /// log n values; for a position it costs what [`RowNumbers::put`] does.
    ///
    /// # Errors
    /// Where memory runs out. Nothing is noted then.
    pub fn mark(&mut self, alloc: Global, place: &Place, number: u64) -> Result<(), Memory>
        ensures ok { OnOk result ((unit : ℕ) → of_unit unit self.new
            ≡ insert_entry granule_cmp (of_unit unit self.old) (at_place unit place.now) number) }
        ensures err { OnErr result ((unit : ℕ) → of_unit unit self.new ≡ of_unit unit self.old) }
    {
        match place {
            Place::Row(position) => self.rows.put(alloc, *position, number),
            Place::Group(value) => {
                self.values.insert(value.copy(alloc)?, number)?;
                Ok(())
            }
        }
    }

    /// Takes back that the granule at a place has moved, and tells whether it had. It compares
    /// about log n values, and no position. Takes no memory.
    pub fn unmark(&mut self, place: &Place) -> bool
        ensures unmarked { (unit : ℕ) → of_unit unit self.new
            ≡ remove_entry (is_at (granule_cmp (at_place unit place.now))) (of_unit unit self.old) }
        ensures had { (unit : ℕ) → result ≡ is_some
            (lookup (is_at (granule_cmp (at_place unit place.now))) (of_unit unit self.old)) }
    {
        match place {
            Place::Row(position) => self.rows.take(*position),
            Place::Group(value) => self.values.remove(value).is_some(),
        }
    }

    /// How many values have moved. Takes no memory, and constant time.
    pub fn groups(&self) -> usize
        ensures { (unit : ℕ)
            → result ≡ length (filter (is_group_of unit) (keys_of (of_unit unit self.now))) }
    {
        self.values.len()
    }

    /// Adds the granules that have moved to others, in the order of their places.
    ///
    /// # Errors
    /// Where memory runs out.
    pub fn add_granules(
        &self,
        alloc: Global,
        unit: u8,
        granules: &mut Vec<Granule>,
    ) -> Result<(), Memory>
        ensures { OnOk result
            (granules.new.items ≡ granules.old.items ++ keys_of (of_unit unit self.now)) }
    {
        self.rows.add_granules(unit, granules)?;
        for value in self.values.keys() {
            let place = Place::Group(value.copy(alloc)?);
            granules.push(Granule { unit, place })?;
        }
        Ok(())
    }
}

/// Makes a unit one of some, if it isn't yet: those that are missing come without marks.
///
/// # Errors
/// Where memory runs out.
pub fn make_unit(alloc: Global, units: &mut Vec<UnitMarks>, unit: u8) -> Result<(), Memory>
    requires { length units.old.items ≤ 256 }
    ensures marks { from_unit 0 units.new.items ≡ from_unit 0 units.old.items }
    ensures few { length units.new.items ≤ 256 }
    ensures there { OnOk result (unit < length units.new.items) }
{
    while units.len() <= unit as usize {
        units.push(UnitMarks::new(alloc))?;
    }
    Ok(())
}
