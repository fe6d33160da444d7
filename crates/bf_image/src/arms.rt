//! The arms of a migration with their old tables.

ghost use Rattle.std.specs.Prelude.{◌≡◌, IfOk, IsTrue};
ghost use Rattle.std.specs.Option.{option_and_then, option_copied, option_map};
ghost use Rattle.bf_tree.specs.Limits.{is_narrow};
ghost use Rattle.bf_sql.specs.migrations.Placed.{placed_arm};
ghost use Rattle.bf_image.specs.BoundArms.{IsFound, IsOfUnit, arm_at, places_in_from, places_in_join, places_of_on, width_of};
ghost use Rattle.bf_image.specs.Migrations.{IsLawfulMigration, old_of, source_of, unit_at};

use crate::migration::{Frozen, Migration};
use bf_base::Memory;
use bf_tree::{Arm, Join, PlacedArm, UnitKind};
use std::alloc::Global;

/// An arm of a migration: the number of its target, how it is placed, and its old tables.
#[derive(Drop)]
pub struct FrozenArm<'a> {
    pub target: u8,
    pub placed: &'a PlacedArm,
    pub from: &'a Frozen,
    pub join: Option<&'a Frozen>,
}

impl Migration {
    /// An arm as it is written, and with places for names: `None` exactly where there is none.
    fn arms_at(&self, target: u8, number: u32) -> Option<(&Arm, &PlacedArm)>
        requires lawful { IsLawfulMigration self.now }
        ensures written { option_map (λ both. both.0.now) result
            ≡ arm_at self.now target number }
        ensures placed { option_map (λ both. both.1.now) result
            ≡ option_map (placed_arm (old_of self.now)) (arm_at self.now target number) }
    {
        let targets = self.plan.migrate.targets.as_slice();
        let raw = targets.get(target as usize)?.arms.as_slice();
        let arms = self.plan.arms.as_slice();
        let placed = arms.get(target as usize)?.as_slice();
        Some((raw.get(number as usize)?, placed.get(number as usize)?))
    }

    /// The old table of a JOIN, where there is one.
    fn joined(&self, join: Option<&Join>) -> Option<&Frozen>
        requires lawful { IsLawfulMigration self.now }
        ensures { option_map (λ frozen. frozen.now) result
            ≡ option_and_then (λ join. source_of self.now join.table) (option_copied join.entry) }
    {
        match join {
            Some(join) => self.source(&join.table),
            None => None,
        }
    }

    /// An arm by the number of its target and its own number, counted from 0: `None` exactly where there
    /// is none. It compares about log n names for each of its tables, and takes no memory.
    pub fn arm(&self, target: u8, number: u32) -> Option<FrozenArm<'_>>
        requires lawful { IsLawfulMigration self.now }
        ensures { IsFound self.now target (arm_at self.now target number) result }
    {
        let (raw, placed) = self.arms_at(target, number)?;
        Some(FrozenArm {
            target,
            placed,
            from: self.source(&raw.from)?,
            join: self.joined(raw.join.as_ref()),
        })
    }

    /// The arm of a unit that goes by values, and `None` where the unit goes by rows, or there is no such
    /// unit. Takes no memory.
    pub fn arm_by_values(&self, number: u8) -> Option<FrozenArm<'_>>
        requires lawful { IsLawfulMigration self.now }
        ensures { IsOfUnit self.now (unit_at self.now number) result }
    {
        let unit = self.plan.units.as_slice().get(number as usize)?;
        match unit.kind {
            UnitKind::Rows => None,
            UnitKind::Groups | UnitKind::Joins => {
                let (target, number) = unit.arms.as_slice().first()?;
                self.arm(*target, *number)
            }
        }
    }
}

impl<'a> FrozenArm<'a> {
    /// How many columns FROM has.
    fn width(&self) -> u8
        requires { IsTrue (is_narrow self.now.from.now.table) }
        ensures { result ≡ width_of self.now }
    {
        self.from.table.columns.len() as u8
    }

    /// The places of ON in a row of FROM with a row of JOIN behind it, in the order of ON.
    fn on_places(&self, alloc: Global) -> Result<Vec<u8>, Memory>
        ensures { IfOk result (λ places. places.items ≡ places_of_on self.now.placed.now.on) }
    {
        let mut places = Vec::new(alloc);
        if let Some(on) = &self.placed.on {
            for (left, right) in on.as_slice() {
                places.push(*left)?;
                places.push(*right)?;
            }
        }
        Ok(places)
    }

    /// The places of the columns in FROM by whose values the arm goes: those of GROUP BY, or those of ON
    /// in the order of ON.
    pub fn from_places(&self, alloc: Global) -> Result<Vec<u8>, Memory>
        requires { IsTrue (is_narrow self.now.from.now.table) }
        ensures { IfOk result (λ places. places.items ≡ places_in_from self.now) }
    {
        let width = self.width();
        let mut places = Vec::new(alloc);
        for place in self.placed.group.as_slice() {
            places.push(*place)?;
        }
        let on = self.on_places(alloc)?;
        for place in &on {
            if *place < width {
                places.push(*place)?;
            }
        }
        Ok(places)
    }

    /// The places of the columns in JOIN, counted from its first, by whose values the arm goes.
    pub fn join_places(&self, alloc: Global) -> Result<Vec<u8>, Memory>
        requires { IsTrue (is_narrow self.now.from.now.table) }
        ensures { IfOk result (λ places. places.items ≡ places_in_join self.now) }
    {
        let width = self.width();
        let on = self.on_places(alloc)?;
        let mut places = Vec::new(alloc);
        for place in &on {
            if width <= *place {
                places.push(*place - width)?;
            }
        }
        Ok(places)
    }
}
