//! The trackers of a migration's units, each with its own way to name a place.

ghost use Rattle.std.specs.Prelude.{◌≡◌, ◌<◌, ◌≤◌, ◌∷◌, ◌++◌, []};
ghost use Rattle.std.specs.Prelude.{List, IfOk, OnErr, length, map, slice_get};
ghost use Rattle.std.specs.Option.{option_copied};
ghost use Rattle.bf_bench.specs.Notes.{Stands};
ghost use Rattle.bf_drive.specs.Lists.{Entry, most_granules};
ghost use Rattle.bf_trackers.specs.declared.seats.Ending.TheVariants.{Finished, GivenBack};
ghost use Rattle.bf_trackers.specs.Holding.{AreFinished, HoldClaims};
ghost use Rattle.bf_trackers.specs.Units.{AreDoneIn, AreMade, AreSeatsOf, HasPlace, IsAnswered};
ghost use Rattle.bf_trackers.specs.Units.{IsSeatOf, MayBeDone, first_seat_of, new_seat_of};
ghost use Rattle.bf_trackers.specs.Units.{positions_in, shape_of};

use crate::seats::{Ending, TrackerSeats};
use crate::stripes::Stripes;
use bf_base::{Granule, Key, Memory, Place};
use bf_bench::Taken;
use bf_bits::{BitSeat, Bits};
use bf_drive::{Claim, Wip};
use std::alloc::Global;
use std::marker::Model;
use std::sync::Wait;

/// What a unit goes by.
#[derive(Clone, Copy, Debug, PartialEq, Eq)]
pub enum Shape {
    /// So many rows.
    Rows(u32),
    /// The values of a group or of a join.
    Keys,
}

/// The tracker of a unit.
#[derive(Drop)]
pub enum UnitTracker {
    /// Of a unit that goes by rows: their positions.
    Rows(Bits),
    /// Of a unit that goes by the values of a group or of a join.
    Keys(Stripes),
}

/// The trackers of units, by their numbers. Threads share them by `&`, each with seats of its own.
#[derive(Drop)]
pub struct UnitTrackers {
    units: Vec<UnitTracker>,
}

impl Model for UnitTrackers {
    ghost use Rattle.std.specs.Prelude.{List};
    ghost use Rattle.bf_trackers.specs.declared.units.UnitTracker.{UnitTracker as Seen};

    ghost Value = { List Seen };

    ghost view = { λ all. all.units.items };
}

// The positions of a unit among some granules.
fn positions_done(alloc: Global, unit: u8, done: &[Granule]) -> Result<Vec<u32>, Memory>
    ensures { IfOk result (λ positions. positions.items ≡ positions_in unit done.now) }
{
    let mut positions = Vec::new(alloc);
    for granule in done {
        if granule.unit == unit
            && let Place::Row(at) = granule.place
        {
            positions.push(at)?;
        }
    }
    Ok(positions)
}

// The keys of a unit among some granules.
fn keys_done(alloc: Global, unit: u8, done: &[Granule]) -> Result<Vec<Key>, Memory> {
    let mut keys = Vec::new(alloc);
    for granule in done {
        if granule.unit == unit
            && let Place::Group(key) = &granule.place
        {
            keys.push(key.copy(alloc)?)?;
        }
    }
    Ok(keys)
}

// The tracker of a unit, in which those of some granules are done that are its own, and its first
// seat.
fn made(
    alloc: Global,
    unit: u8,
    shape: Shape,
    done: &[Granule],
) -> Result<(UnitTracker, Option<BitSeat>), Memory>
    requires { MayBeDone (positions_in unit done.now) shape }
    ensures shape { IfOk result (λ made. shape_of made.0 ≡ shape) }
    ensures seat { IfOk result (λ made.
        made.1 ≡ first_seat_of (positions_in unit done.now) made.0) }
{
    match shape {
        Shape::Rows(rows) => {
            let positions = positions_done(alloc, unit, done)?;
            let (bits, seat) = Bits::of_done(alloc, rows, positions.as_slice())?;
            Ok((UnitTracker::Rows(bits), Some(seat)))
        }
        Shape::Keys => {
            let keys = keys_done(alloc, unit, done)?;
            let stripes = Stripes::of_done(alloc, keys.as_slice())?;
            Ok((UnitTracker::Keys(stripes), None))
        }
    }
}

// A seat of a tracker that holds nothing, split off from another one.
fn split_off(tracker: &UnitTracker, seat: &mut Option<BitSeat>) -> Option<BitSeat>
    requires own { IsSeatOf tracker.now seat.old }
    ensures same { seat.new ≡ seat.old }
    ensures new { result ≡ new_seat_of tracker.now }
{
    match (tracker, seat) {
        (UnitTracker::Rows(bits), Some(seat)) => Some(bits.split(seat)),
        _ => None,
    }
}

// Such a seat for each tracker.
fn split_each(
    alloc: Global,
    trackers: &[UnitTracker],
    seats: &mut [Option<BitSeat>],
) -> Result<Vec<Option<BitSeat>>, Memory>
    requires own { AreSeatsOf trackers.now seats.old }
    ensures same { seats.new ≡ seats.old }
    ensures new { IfOk result (λ new. new.items ≡ map new_seat_of trackers.now) }
{
    let mut new = Vec::with_capacity(alloc, trackers.len())?;
    for number in 0..trackers.len() {
        new.push(split_off(&trackers[number], &mut seats[number]))?;
    }
    Ok(new)
}

impl UnitTrackers {
    /// Trackers of units of these shapes, in which exactly these granules are done and none is
    /// held, and their first seats. It goes over the granules once for each unit, and is linear in
    /// the rows.
    ///
    /// # Errors
    /// Where memory runs out.
    pub fn of(
        alloc: Global,
        shapes: &[Shape],
        done: &[Granule],
    ) -> Result<(UnitTrackers, TrackerSeats), Memory>
        requires few { length shapes.now ≤ 256 }
        requires done { AreDoneIn shapes.now done.now }
        ensures made { IfOk result (λ made. AreMade shapes.now done.now made.0 made.1.units) }
        ensures holds { IfOk result (λ made. HoldClaims made.0 made.1 []) }
    {
        let mut units = Vec::with_capacity(alloc, shapes.len())?;
        let mut seats = Vec::with_capacity(alloc, shapes.len())?;
        for number in 0..shapes.len() {
            let (unit, seat) = made(alloc, number as u8, shapes[number], done)?;
            units.push(unit)?;
            seats.push(seat)?;
        }
        let seats = TrackerSeats {
            units: seats,
            count: 0,
        };
        Ok((UnitTrackers { units }, seats))
    }

    /// Seats for another actor, which hold nothing. Takes no memory but for their list.
    ///
    /// # Errors
    /// Where memory runs out.
    pub fn split(&self, alloc: Global, first: &mut TrackerSeats) -> Result<TrackerSeats, Memory>
        requires own { AreSeatsOf self.now first.old.units }
        ensures same { first.new ≡ first.old }
        ensures new { IfOk result (λ seats. seats.units ≡ map new_seat_of self.now) }
        ensures holds { IfOk result (λ seats. HoldClaims self.now seats []) }
    {
        let units = split_each(alloc, self.units.as_slice(), first.units.as_mut_slice())?;
        Ok(TrackerSeats { units, count: 0 })
    }

    // The tracker of a unit.
    fn unit(&self, number: u8) -> Option<&UnitTracker>
        ensures { option_copied result ≡ slice_get self.now number }
    {
        self.units.get(number as usize)
    }

    /// Claims a granule, by one step where its unit goes by rows, and else under the lock of its
    /// stripe: `Busy` where it is held, `Done` where it is done. A claim of a row takes no lock and
    /// no memory.
    ///
    /// # Errors
    /// Where memory runs out. Nothing is claimed then.
    pub fn claim<R: Wait>(
        &self,
        rt: &R,
        seats: &mut TrackerSeats,
        granule: &Granule,
    ) -> Result<Taken, Memory>
        requires own { AreSeatsOf self.now seats.old.units }
        requires place { HasPlace self.now granule.now }
        requires room { seats.old.count < most_granules }
        ensures holds { Stands (HoldClaims self.now) granule.now seats.old seats.new result }
        ensures answer { IfOk result (IsAnswered self.now seats.new granule.now) }
        ensures memory { OnErr result (seats.new ≡ seats.old) }
    {
        match self.unit(granule.unit) {
            Some(UnitTracker::Rows(bits)) => {
                let Place::Row(at) = granule.place else {
                    unreachable!();
                };
                Ok(seats.claim_row(bits, granule.unit, at))
            }
            Some(UnitTracker::Keys(stripes)) => {
                let Place::Group(key) = &granule.place else {
                    unreachable!();
                };
                let taken = stripes.claim(rt, key)?;
                seats.add_key(&taken);
                Ok(taken)
            }
            None => unreachable!(),
        }
    }

    // Ends the last claim that seats hold.
    fn end<R: Wait>(
        &self,
        rt: &R,
        seats: &mut TrackerSeats,
        granule: &Granule,
        claim: Claim,
        ending: Ending,
    )
        requires holds { (rest : List Entry)
            × HoldClaims self.now seats.old (rest ++ (granule.now, claim) ∷ []) }
        ensures holds { (rest : List Entry)
            → HoldClaims self.now seats.old (rest ++ (granule.now, claim) ∷ [])
            → HoldClaims self.now seats.new rest }
        ensures finished { AreFinished ending ((granule.now, claim) ∷ []) seats.old seats.new }
    {
        match self.unit(granule.unit) {
            Some(UnitTracker::Rows(bits)) => {
                let Claim::Row(claim) = claim else {
                    unreachable!();
                };
                seats.end_row(bits, granule.unit, claim, ending);
            }
            Some(UnitTracker::Keys(stripes)) => {
                let Claim::Group(claim) = claim else {
                    unreachable!();
                };
                stripes.end(rt, claim, ending);
                seats.drop_key();
            }
            None => unreachable!(),
        }
    }

    // Ends all claims that seats hold, the last first.
    fn end_all<R: Wait>(&self, rt: &R, seats: &mut TrackerSeats, mut wip: Wip, ending: Ending)
        requires holds { HoldClaims self.now seats.old wip }
        ensures spent { HoldClaims self.now seats.new [] }
        ensures finished { AreFinished ending wip seats.old seats.new }
    {
        while let Some((granule, claim)) = wip.pop() {
            self.end(rt, seats, &granule, claim, ending);
        }
        wip.end();
    }

    /// Finishes the last claim that seats hold: its granule is done. Takes no memory.
    pub fn finish<R: Wait>(&self, rt: &R, seats: &mut TrackerSeats, granule: &Granule, claim: Claim)
        requires holds { (rest : List Entry)
            × HoldClaims self.now seats.old (rest ++ (granule.now, claim) ∷ []) }
        ensures holds { (rest : List Entry)
            → HoldClaims self.now seats.old (rest ++ (granule.now, claim) ∷ [])
            → HoldClaims self.now seats.new rest }
        ensures finished { AreFinished Finished ((granule.now, claim) ∷ []) seats.old seats.new }
    {
        self.end(rt, seats, granule, claim, Ending::Finished);
    }

    /// Gives back the last claim that seats hold: its granule is free. Takes no memory.
    pub fn give_back<R: Wait>(
        &self,
        rt: &R,
        seats: &mut TrackerSeats,
        granule: &Granule,
        claim: Claim,
    )
        requires holds { (rest : List Entry)
            × HoldClaims self.now seats.old (rest ++ (granule.now, claim) ∷ []) }
        ensures holds { (rest : List Entry)
            → HoldClaims self.now seats.old (rest ++ (granule.now, claim) ∷ [])
            → HoldClaims self.now seats.new rest }
        ensures finished { AreFinished GivenBack ((granule.now, claim) ∷ []) seats.old seats.new }
    {
        self.end(rt, seats, granule, claim, Ending::GivenBack);
    }

    /// Finishes all claims that seats hold: their granules are done. Takes no memory.
    pub fn finish_all<R: Wait>(&self, rt: &R, seats: &mut TrackerSeats, wip: Wip)
        requires holds { HoldClaims self.now seats.old wip }
        ensures spent { HoldClaims self.now seats.new [] }
        ensures finished { AreFinished Finished wip seats.old seats.new }
    {
        self.end_all(rt, seats, wip, Ending::Finished);
    }

    /// Gives back all claims that seats hold: their granules are free. Takes no memory.
    pub fn give_back_all<R: Wait>(&self, rt: &R, seats: &mut TrackerSeats, wip: Wip)
        requires holds { HoldClaims self.now seats.old wip }
        ensures spent { HoldClaims self.now seats.new [] }
        ensures finished { AreFinished GivenBack wip seats.old seats.new }
    {
        self.end_all(rt, seats, wip, Ending::GivenBack);
    }
}
