//! The granules of a migration that have moved.

ghost use Rattle.std.specs.Prelude.{◌≡◌, [], IfOk, OnErr, OnOk, false, filter, length, not};
ghost use Rattle.bf_base.specs.Lists.{has};
ghost use Rattle.bf_sql.specs.migrations.Granules.{same_granule};
ghost use Rattle.bf_sql.specs.migrations.Lazy.{done_by};
ghost use Rattle.bf_store.specs.Marks.{AreFresh, AreInOrder, granules_in, is_group_of, left_of, marked, number_in, numbered_of, unmarked, with_mark};

use crate::unit_marks::{UnitMarks, make_unit};
use bf_base::{Granule, Memory};
use std::alloc::Global;
use std::marker::Model;

/// For each granule that has moved, the number of the record that moved it. Contracts see them in
/// the order of unit and place.
#[derive(Drop)]
pub struct Done {
    // Those of each unit, by its number, up to the last unit of which any has moved.
    units: Vec<UnitMarks>,
    // How many there are.
    count: usize,
}

/// Some granules, parted by whether they have moved.
#[derive(Drop)]
pub struct Parted {
    /// Those that have moved, each with the number of its record.
    pub moved: Vec<(Granule, u64)>,
    /// Those that have not.
    pub left: Vec<Granule>,
}

impl Model for Done {
    ghost use Rattle.std.specs.Prelude.{List};
    ghost use Rattle.bf_sql.specs.migrations.Lazy.{DoneGranule};
    ghost use Rattle.bf_store.specs.ByUnit.{AreKept, from_unit, marks_of};

    ghost Value = { List DoneGranule };

    ghost view = { λ done. marks_of (from_unit 0 done.units.items) };

    ghost invariant = { λ done. AreKept done.units.items done.count };
}

impl Done {
    /// No granule has moved. Takes no memory.
    pub fn new(alloc: Global) -> Done
        ensures { result ≡ [] }
    {
        Done {
            units: Vec::new(alloc),
            count: 0,
        }
    }

    /// The number of the record that moved a granule, if it has moved. It compares about log n
    /// values, or reads two places for a row. Takes no memory.
    pub fn number(&self, granule: &Granule) -> Option<u64>
        ensures { result ≡ number_in self.now granule.now }
    {
        match self.units.get(granule.unit as usize) {
            Some(marks) => marks.number(&granule.place),
            None => None,
        }
    }

    /// Whether a granule has moved. It costs what `number` does.
    pub fn has(&self, granule: &Granule) -> bool
        ensures { result ≡ has same_granule (granules_in self.now) granule.now }
    {
        self.number(granule).is_some()
    }

    /// How many granules have moved. Takes no memory.
    pub fn len(&self) -> usize
        ensures len { result ≡ length self.now }
        ensures ordered { AreInOrder self.now }
    {
        self.count
    }

    /// How many values of a unit have moved. Takes no memory, and constant time.
    pub fn groups(&self, unit: u8) -> usize
        ensures groups { result ≡ length (filter (is_group_of unit) (granules_in self.now)) }
        ensures ordered { AreInOrder self.now }
    {
        match self.units.get(unit as usize) {
            Some(marks) => marks.groups(),
            None => 0,
        }
    }

    /// Those of some granules that have not moved. For each it costs what `number` does, and a copy.
    ///
    /// # Errors
    /// Where memory runs out.
    pub fn left(&self, alloc: Global, granules: &[Granule]) -> Result<Vec<Granule>, Memory>
        ensures { IfOk result (λ left. left.items ≡ left_of self.now granules.now) }
    {
        let mut left = Vec::new(alloc);
        for granule in granules {
            if !self.has(granule) {
                left.push(granule.copy(alloc)?)?;
            }
        }
        Ok(left)
    }

    /// Some granules, parted by whether they have moved. For each it costs what `number` does, and a
    /// copy.
    ///
    /// # Errors
    /// Where memory runs out.
    pub fn parted(&self, alloc: Global, granules: &[Granule]) -> Result<Parted, Memory>
        ensures moved { IfOk result (λ parted. parted.moved.items ≡ numbered_of self.now granules.now) }
        ensures left { IfOk result (λ parted. parted.left.items ≡ left_of self.now granules.now) }
    {
        let mut moved = Vec::new(alloc);
        let mut left = Vec::new(alloc);
        for granule in granules {
            let same = granule.copy(alloc)?;
            match self.number(granule) {
                Some(number) => moved.push((same, number))?,
                None => left.push(same)?,
            }
        }
        Ok(Parted { moved, left })
    }

    /// Notes that one record has moved a granule, which had not moved.
    fn mark_one(&mut self, alloc: Global, granule: &Granule, number: u64) -> Result<(), Memory>
        requires { has same_granule (granules_in self.old) granule.now ≡ false }
        ensures ok { OnOk result
            (self.new ≡ with_mark self.old (done_by number granule.now)) }
        ensures err { OnErr result (self.new ≡ self.old) }
    {
        let count = self.count.checked_add(1).ok_or(Memory)?;
        make_unit(alloc, &mut self.units, granule.unit)?;
        self.units[granule.unit as usize].mark(alloc, &granule.place, number)?;
        self.count = count;
        Ok(())
    }

    /// Notes that one record has moved granules that differ, of which none had moved. For each it
    /// compares about log n values, or writes one place for a row, whose page is made with the first.
    ///
    /// # Errors
    /// Where memory runs out. Nothing is noted then.
    pub fn mark(&mut self, alloc: Global, granules: &[Granule], number: u64) -> Result<(), Memory>
        requires { AreFresh self.old granules.now }
        ensures ok { OnOk result (self.new ≡ marked self.old granules.now number) }
        ensures back { OnOk result (unmarked self.new granules.now ≡ self.old) }
        ensures err { OnErr result (self.new ≡ self.old) }
    {
        // Its contract says that the marks are in order.
        let _ = self.len();
        for (at, granule) in granules.iter().enumerate() {
            if let Err(memory) = self.mark_one(alloc, granule, number) {
                self.unmark(&granules[..at]);
                return Err(memory);
            }
        }
        Ok(())
    }

    /// Takes back that a granule has moved, if it has.
    fn unmark_one(&mut self, granule: &Granule)
        ensures { self.new ≡ filter (λ d. not (same_granule d.granule granule.now)) self.old }
    {
        let unit = granule.unit as usize;
        if unit < self.units.len() && self.units[unit].unmark(&granule.place) {
            self.count -= 1;
        }
    }

    /// Takes back that granules have moved. For each it compares about log n values, or writes one place for
    /// a row. Takes no memory.
    pub fn unmark(&mut self, granules: &[Granule])
        ensures { self.new ≡ unmarked self.old granules.now }
    {
        for granule in granules {
            self.unmark_one(granule);
        }
    }

    /// The granules that have moved, in the order of unit and place.
    ///
    /// # Errors
    /// Where memory runs out.
    pub fn granules(&self, alloc: Global) -> Result<Vec<Granule>, Memory>
        ensures { IfOk result (λ granules. granules.items ≡ granules_in self.now) }
    {
        let mut granules = Vec::with_capacity(alloc, self.count)?;
        for (at, marks) in self.units.iter().enumerate() {
            marks.add_granules(alloc, at as u8, &mut granules)?;
        }
        Ok(granules)
    }
}
