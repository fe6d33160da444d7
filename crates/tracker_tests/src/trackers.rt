ghost use Rattle.std.specs.Prelude.{◌≡◌, ◌<◌, ◌≤◌, [], ◌∷◌, IfOk, OnOk, map};
ghost use Rattle.bf_base.specs.declared.granule.Place.TheVariants.{Row, Group};
ghost use Rattle.bf_drive.specs.Claims.{IsOf};
ghost use Rattle.bf_trackers.specs.Holding.{HoldClaims};
ghost use Rattle.bf_trackers.specs.Units.{HasPlace, shape_of};
ghost use Rattle.bf_trackers.specs.declared.units.Shape.TheVariants.{Rows, Keys};

use crate::fixtures::key;
use bf_base::{Granule, Memory, Place, Value};
use bf_bench::Taken;
use bf_drive::{Claim, Wip};
use bf_trackers::{Shape, TrackerSeats, UnitTrackers};
use std::alloc::Global;
use std::sync::Wait;
use std::test::*;
use std::thread::{Threads, join};

// How a claim that is granted ends.
#[derive(Clone, Copy)]
enum End {
    Finished,
    GivenBack,
}

// A granule with a claim of it, alone.
fn one_claimed(alloc: Global, granule: Granule, claim: Claim) -> Wip
    requires own { IsOf granule claim }
    ensures { result ≡ (granule, claim) ∷ [] }
{
    let mut wip = Wip::new(alloc);
    wip.push(granule, claim);
    wip
}

fn end_all(rt: &impl Wait, units: &UnitTrackers, seats: &mut TrackerSeats, wip: Wip, end: End)
    requires holds { HoldClaims units.now seats.old wip }
    ensures spent { HoldClaims units.now seats.new [] }
{
    match end {
        End::Finished => units.finish_all(rt, seats, wip),
        End::GivenBack => units.give_back_all(rt, seats, wip),
    }
}

// Claims a granule, and ends its claim where it is granted.
fn claim_and_end(
    alloc: Global,
    rt: &impl Wait,
    units: &UnitTrackers,
    seats: &mut TrackerSeats,
    granule: Granule,
    end: End,
) -> Result<&'static str, Memory>
    requires spent { HoldClaims units.now seats.old [] }
    requires place { HasPlace units.now granule }
    ensures spent { HoldClaims units.now seats.new [] }
{
    match units.claim(rt, seats, &granule)? {
        Taken::Claimed(claim) => {
            end_all(rt, units, seats, one_claimed(alloc, granule, claim), end);
            Ok("claimed")
        }
        Taken::Busy => Ok("busy"),
        Taken::Done => Ok("done"),
    }
}

fn row(at: u32) -> Granule
    ensures { result ≡ record { unit = 0; place = Row at } }
{
    Granule {
        unit: 0,
        place: Place::Row(at),
    }
}

fn value(alloc: Global, number: i64) -> Result<Granule, Memory>
    ensures { IfOk result (λ granule.
        granule ≡ record { unit = 1; place = Group (Value.Int number ∷ []) }) }
{
    let place = Place::Group(key(alloc, number)?);
    Ok(Granule { unit: 1, place })
}

// Claims a row and a value of one number, and ends what is granted: whether both are answered so.
fn both_answer(
    alloc: Global,
    rt: &impl Wait,
    units: &UnitTrackers,
    seats: &mut TrackerSeats,
    number: u32,
    end: End,
    answer: &str,
) -> Result<bool, Memory>
    requires shapes { map shape_of units.now ≡ Rows 40 ∷ Keys ∷ [] }
    requires within { number < 40 }
    requires spent { HoldClaims units.now seats.old [] }
    ensures spent { HoldClaims units.now seats.new [] }
{
    let of_row = claim_and_end(alloc, rt, units, seats, row(number), end)?;
    let granule = value(alloc, number as i64)?;
    let of_value = claim_and_end(alloc, rt, units, seats, granule, end)?;
    Ok(of_row == answer && of_value == answer)
}

// Whether a number's row and value are claimed, given back, claimed again and finished, and are done
// then.
fn go_through(
    alloc: Global,
    rt: &impl Wait,
    units: &UnitTrackers,
    seats: &mut TrackerSeats,
    number: u32,
    first: &str,
) -> Result<bool, Memory>
    requires shapes { map shape_of units.now ≡ Rows 40 ∷ Keys ∷ [] }
    requires within { number < 40 }
    requires spent { HoldClaims units.now seats.old [] }
    ensures spent { HoldClaims units.now seats.new [] }
{
    let given_back = both_answer(alloc, rt, units, seats, number, End::GivenBack, first)?;
    let finished = both_answer(alloc, rt, units, seats, number, End::Finished, first)?;
    let done = both_answer(alloc, rt, units, seats, number, End::Finished, "done")?;
    Ok(given_back && finished && done)
}

// The first of 40 numbers that does not go through, where 3 is done from the start. They have keys in
// each of the 16 stripes.
fn first_wrong(
    alloc: Global,
    rt: &impl Wait,
    units: &UnitTrackers,
    mut seats: TrackerSeats,
) -> Result<Option<u32>, Memory>
    requires shapes { map shape_of units.now ≡ Rows 40 ∷ Keys ∷ [] }
    requires spent { HoldClaims units.now seats [] }
{
    for number in 0..40u32 {
        let first = if number == 3 { "done" } else { "claimed" };
        if !go_through(alloc, rt, units, &mut seats, number, first)? {
            return Ok(Some(number));
        }
    }
    Ok(None)
}

#[test]
fn rows_and_keys_are_tracked(rt: HostRuntime) -> Result<(), Fail> {
    let alloc = rt.alloc();
    let shapes = [Shape::Rows(40), Shape::Keys];
    let done = [row(3), value(alloc, 3)?];
    let (units, seats) = UnitTrackers::of(alloc, &shapes, &done)?;
    assert_eq!(rt; first_wrong(alloc, &rt, &units, seats)?, None);
    Ok(())
}

// Claims and finishes the row and the value of each number below 5000: how many of them it could.
fn work(
    alloc: Global,
    rt: &impl Wait,
    units: &UnitTrackers,
    mut seats: TrackerSeats,
) -> Result<u64, Memory>
    requires shapes { map shape_of units.now ≡ Rows 5000 ∷ Keys ∷ [] }
    requires spent { HoldClaims units.now seats [] }
    ensures few { IfOk result (λ finished. finished ≤ 10000) }
{
    let mut finished = 0;
    for at in 0..5000u32 {
        if claim_and_end(alloc, rt, units, &mut seats, row(at), End::Finished)? == "claimed" {
            finished += 1;
        }
        let value = value(alloc, at as i64)?;
        if claim_and_end(alloc, rt, units, &mut seats, value, End::Finished)? == "claimed" {
            finished += 1;
        }
    }
    Ok(finished)
}

// Two threads work over trackers that both read.
fn work_by_two<R: Threads + Wait + Sync>(
    alloc: Global,
    rt: &R,
    units: &UnitTrackers,
    mut seats: TrackerSeats,
) -> Result<u64, Memory>
    requires shapes { map shape_of units.now ≡ Rows 5000 ∷ Keys ∷ [] }
    requires spent { HoldClaims units.now seats [] }
{
    let other = units.split(alloc, &mut seats)?;
    let (one, two) = join(
        rt,
        move || work(alloc, rt, units, seats),
        move || work(alloc, rt, units, other),
    );
    Ok(one? + two?)
}

// Whatever the schedule, each granule is finished by one of the two threads, and by one alone.
#[test]
fn two_threads_finish_each_of_two_units_once(rt: HostRuntime) -> Result<(), Fail> {
    let shapes = [Shape::Rows(5000), Shape::Keys];
    let (units, seats) = UnitTrackers::of(rt.alloc(), &shapes, &[])?;
    assert_eq!(rt; work_by_two(rt.alloc(), &rt, &units, seats)?, 10_000);
    Ok(())
}
