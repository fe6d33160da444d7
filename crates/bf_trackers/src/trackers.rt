//! The trackers of a migration, with its pass.

ghost use Rattle.std.specs.Prelude.{◌≡◌, ◌<◌, ◌≤◌, ◌∷◌, ◌++◌, []};
ghost use Rattle.std.specs.Prelude.{List, IfOk, OnErr, Some, length, map};
ghost use Rattle.std.specs.Option.{option_map};
ghost use Rattle.boxcar.specs.Table.{Shows};
ghost use Rattle.bf_bench.specs.Notes.{Stands};
ghost use Rattle.bf_drive.specs.Lists.{Entry, most_granules};
ghost use Rattle.bf_image.specs.Migrations.{IsLawfulMigration, old_of, unit_at};
ghost use Rattle.bf_store.specs.States.{AreGranules};
ghost use Rattle.bf_store.specs.Stores.{migration_of};
ghost use Rattle.bf_trackers.specs.Holding.{AreFinished};
ghost use Rattle.bf_trackers.specs.Migrations.{HoldsClaims, IsGranuleOf, shape_in, shapes_of};
ghost use Rattle.bf_trackers.specs.declared.seats.Ending.TheVariants.{Finished, GivenBack};
ghost use Rattle.bf_trackers.specs.Units.{AreMade, AreSeatsOf, IsAnswered, new_seat_of};

use crate::seats::TrackerSeats;
use crate::units::{Shape, UnitTrackers};
use bf_base::{Granule, Memory};
use bf_bench::Taken;
use bf_drive::{Claim, Wip};
use bf_image::{Migration, MigrationPass, Registry, positions};
use std::alloc::Global;
use std::marker::Model;
use std::sync::Wait;

/// What tracks the granules of one migration. Threads share it by `&`, each with seats of its own.
#[derive(Drop)]
pub struct Trackers {
    pass: MigrationPass,
    units: UnitTrackers,
}

impl Model for Trackers {
    ghost use Rattle.std.specs.Coded.{coded_list};
    ghost use Rattle.boxcar.specs.Table.{where_coded};
    ghost use Rattle.bf_image.specs.contracts.migration.Migration as migrations;
    ghost use Rattle.bf_trackers.specs.contracts.units.UnitTracker as tracker;
    ghost use Rattle.bf_trackers.specs.Migrations.{Trackers as Seen, AreOf, trackers_coded};

    ghost Value = { Seen };

    ghost coded = { trackers_coded (where_coded migrations.the_row.coded)
        (coded_list tracker.the_row.coded) };

    ghost view = { λ all. record { pass = all.pass; units = all.units } };

    ghost invariant = { λ all. AreOf all.pass.value all.units };
}

// What a unit of a migration goes by.
fn shape(migration: &Migration, unit: u8) -> Shape
    requires lawful { IsLawfulMigration migration.now }
    requires there { unit < length migration.now.plan.units }
    ensures { option_map (shape_in (old_of migration.now)) (unit_at migration.now unit)
        ≡ Some result }
{
    match migration.arm_by_values(unit) {
        Some(_) => Shape::Keys,
        None => Shape::Rows(positions(migration, unit)),
    }
}

// What each unit of a migration goes by.
fn shapes(alloc: Global, migration: &Migration) -> Result<Vec<Shape>, Memory>
    requires lawful { IsLawfulMigration migration.now }
    ensures few { IfOk result (λ shapes. length shapes.items ≤ 256) }
    ensures shapes { IfOk result (λ shapes. shapes.items ≡ shapes_of migration.now) }
{
    let count = migration.plan.units.as_slice().len();
    let mut shapes = Vec::with_capacity(alloc, count)?;
    for number in 0..count {
        shapes.push(shape(migration, number as u8))?;
    }
    Ok(shapes)
}

impl Trackers {
    /// The trackers of a pass's migration, in which exactly these granules are done and none is
    /// held, and their first seats. It goes over the granules once for each unit, and is linear in
    /// the old rows.
    ///
    /// # Errors
    /// Where memory runs out.
    pub fn of(
        alloc: Global,
        registry: &Registry,
        pass: &MigrationPass,
        done: &[Granule],
    ) -> Result<(Trackers, TrackerSeats), Memory>
        requires pass { Shows registry.now.migrations pass.now }
        requires done { AreGranules (migration_of pass.now.value []) done.now }
        ensures pass { IfOk result (λ made. made.0.pass ≡ pass.now) }
        ensures made { IfOk result (λ made.
            AreMade (shapes_of pass.now.value) done.now made.0.units made.1.units) }
        ensures holds { IfOk result (λ made. HoldsClaims made.0 made.1 []) }
    {
        let shapes = shapes(alloc, registry.migration(pass))?;
        let (units, seats) = UnitTrackers::of(alloc, shapes.as_slice(), done)?;
        let pass = pass.copy();
        Ok((Trackers { pass, units }, seats))
    }

    /// The pass of the migration.
    pub fn pass(&self) -> &MigrationPass
        ensures { result.now ≡ self.now.pass }
    {
        &self.pass
    }

    /// Seats for another actor, which hold nothing, split off from others. Takes no memory but for
    /// their list.
    ///
    /// # Errors
    /// Where memory runs out.
    pub fn split(&self, alloc: Global, first: &mut TrackerSeats) -> Result<TrackerSeats, Memory>
        requires own { AreSeatsOf self.now.units first.old.units }
        ensures same { first.new ≡ first.old }
        ensures new { IfOk result (λ seats. seats.units ≡ map new_seat_of self.now.units) }
        ensures holds { IfOk result (λ seats. HoldsClaims self.now seats []) }
    {
        self.units.split(alloc, first)
    }

    /// Claims a granule of the migration, by one step where its unit goes by rows, and else under
    /// the lock of its stripe: `Busy` where it is held, `Done` where it is done. A claim of a row
    /// takes no lock and no memory.
    ///
    /// # Errors
    /// Where memory runs out. Nothing is claimed then.
    pub fn claim<R: Wait>(
        &self,
        rt: &R,
        seats: &mut TrackerSeats,
        granule: &Granule,
    ) -> Result<Taken, Memory>
        requires own { AreSeatsOf self.now.units seats.old.units }
        requires one { IsGranuleOf self.now.pass.value granule.now }
        requires room { seats.old.count < most_granules }
        ensures holds { Stands (HoldsClaims self.now) granule.now seats.old seats.new result }
        ensures answer { IfOk result (IsAnswered self.now.units seats.new granule.now) }
        ensures memory { OnErr result (seats.new ≡ seats.old) }
    {
        self.units.claim(rt, seats, granule)
    }

    /// Finishes the last claim that seats hold: its granule is done. Takes no memory.
    pub fn finish<R: Wait>(&self, rt: &R, seats: &mut TrackerSeats, granule: &Granule, claim: Claim)
        requires holds { (rest : List Entry)
            × HoldsClaims self.now seats.old (rest ++ (granule.now, claim) ∷ []) }
        ensures holds { (rest : List Entry)
            → HoldsClaims self.now seats.old (rest ++ (granule.now, claim) ∷ [])
            → HoldsClaims self.now seats.new rest }
        ensures finished { AreFinished Finished ((granule.now, claim) ∷ []) seats.old seats.new }
    {
        self.units.finish(rt, seats, granule, claim);
    }

    /// Gives back the last claim that seats hold: its granule is free. Takes no memory.
    pub fn give_back<R: Wait>(
        &self,
        rt: &R,
        seats: &mut TrackerSeats,
        granule: &Granule,
        claim: Claim,
    )
        requires holds { (rest : List Entry)
            × HoldsClaims self.now seats.old (rest ++ (granule.now, claim) ∷ []) }
        ensures holds { (rest : List Entry)
            → HoldsClaims self.now seats.old (rest ++ (granule.now, claim) ∷ [])
            → HoldsClaims self.now seats.new rest }
        ensures finished { AreFinished GivenBack ((granule.now, claim) ∷ []) seats.old seats.new }
    {
        self.units.give_back(rt, seats, granule, claim);
    }

    /// Finishes all claims that seats hold: their granules are done. Takes no memory.
    pub fn finish_all<R: Wait>(&self, rt: &R, seats: &mut TrackerSeats, wip: Wip)
        requires holds { HoldsClaims self.now seats.old wip }
        ensures spent { HoldsClaims self.now seats.new [] }
        ensures finished { AreFinished Finished wip seats.old seats.new }
    {
        self.units.finish_all(rt, seats, wip);
    }

    /// Gives back all claims that seats hold: their granules are free. Takes no memory.
    pub fn give_back_all<R: Wait>(&self, rt: &R, seats: &mut TrackerSeats, wip: Wip)
        requires holds { HoldsClaims self.now seats.old wip }
        ensures spent { HoldsClaims self.now seats.new [] }
        ensures finished { AreFinished GivenBack wip seats.old seats.new }
    {
        self.units.give_back_all(rt, seats, wip);
    }
}
