ghost use Rattle.std.specs.Prelude.{◌≡◌, ◌<◌, ◌≤◌, []};
ghost use Rattle.bf_bits.specs.Seats.{Holds};

use bf_base::Memory;
use bf_bits::{BitAnswer, BitSeat, Bits, Look};
use std::alloc::Global;
use std::test::*;
use std::thread::{Threads, join};

// Claims a granule, and finishes it where the claim is granted.
fn finish_one(bits: &Bits, seat: &mut BitSeat, at: u32) -> u32
    requires at { at < bits.now.granules }
    requires own { seat.old.table ≡ bits.now.table }
    ensures own { seat.new.table ≡ seat.old.table }
    ensures held { seat.new.view.held ≡ seat.old.view.held }
    ensures count { result ≤ 1 }
{
    match bits.claim(seat, at) {
        BitAnswer::Claimed(claim) => {
            bits.finish(seat, claim);
            1
        }
        BitAnswer::Busy | BitAnswer::Done => 0,
    }
}

// Claims and finishes every granule that it can, and answers how many those were.
fn work(bits: &Bits, mut seat: BitSeat) -> (BitSeat, u32)
    requires own { seat.table ≡ bits.now.table }
    requires none_held { seat.view.held ≡ [] }
    ensures own { result.0.table ≡ bits.now.table }
    ensures none_held { result.0.view.held ≡ [] }
{
    let mut moved = 0;
    for at in 0..bits.granules() {
        moved += finish_one(bits, &mut seat, at);
    }
    (seat, moved)
}

fn told(answer: BitAnswer) -> &'static str {
    match answer {
        BitAnswer::Claimed(_) => "claimed",
        BitAnswer::Busy => "busy",
        BitAnswer::Done => "done",
    }
}

// What a look at a granule finds.
fn look(bits: &Bits, seat: &mut BitSeat, at: u32) -> Look
    requires at { at < bits.now.granules }
    requires own { seat.old.table ≡ bits.now.table }
    ensures own { seat.new.table ≡ seat.old.table }
    ensures held { seat.new.view.held ≡ seat.old.view.held }
{
    bits.look(seat, at)
}

// Whether the granule before one is done, and the one behind it is free.
fn stands_between(bits: &Bits, seat: &mut BitSeat, at: u32) -> bool
    requires at { at < bits.now.granules }
    requires own { seat.old.table ≡ bits.now.table }
    ensures own { seat.new.table ≡ seat.old.table }
    ensures held { seat.new.view.held ≡ seat.old.view.held }
{
    let before = at == 0 || look(bits, seat, at - 1) == Look::Done;
    let granules = bits.granules();
    before && (granules <= at + 1 || look(bits, seat, at + 1) == Look::Free)
}

// Whether a granule that a seat holds is found held, and a claim of it answered busy.
fn stays_held(bits: &Bits, seat: &mut BitSeat, at: u32) -> bool
    requires at { at < bits.now.granules }
    requires own { seat.old.table ≡ bits.now.table }
    requires held { Holds seat.old at }
    ensures own { seat.new.table ≡ seat.old.table }
    ensures held { seat.new.view.held ≡ seat.old.view.held }
{
    let answer = bits.claim(seat, at);
    told(answer) == "busy" && look(bits, seat, at) == Look::Held
}

// Claims a granule, and gives it back: whether the claim was granted, and the granule was held.
fn claims_and_gives_back(bits: &Bits, seat: &mut BitSeat, at: u32) -> bool
    requires at { at < bits.now.granules }
    requires own { seat.old.table ≡ bits.now.table }
    ensures own { seat.new.table ≡ seat.old.table }
    ensures held { seat.new.view.held ≡ seat.old.view.held }
{
    match bits.claim(seat, at) {
        BitAnswer::Claimed(claim) => {
            let held = stays_held(bits, seat, at);
            bits.give_back(seat, claim);
            held
        }
        BitAnswer::Busy | BitAnswer::Done => false,
    }
}

// Whether a free granule is claimed and given back, and is free again.
fn comes_back(bits: &Bits, seat: &mut BitSeat, at: u32) -> bool
    requires at { at < bits.now.granules }
    requires own { seat.old.table ≡ bits.now.table }
    ensures own { seat.new.table ≡ seat.old.table }
{
    look(bits, seat, at) == Look::Free
        && claims_and_gives_back(bits, seat, at)
        && look(bits, seat, at) == Look::Free
        && stands_between(bits, seat, at)
}

// Whether a free granule is claimed and finished, and is done.
fn is_finished(bits: &Bits, seat: &mut BitSeat, at: u32) -> bool
    requires at { at < bits.now.granules }
    requires own { seat.old.table ≡ bits.now.table }
    ensures own { seat.new.table ≡ seat.old.table }
{
    finish_one(bits, seat, at) == 1
        && look(bits, seat, at) == Look::Done
        && stands_between(bits, seat, at)
}

// Each granule is taken through all of its states, while those before it are done and those behind
// it are free.
#[test]
fn each_position_of_three_words_is_its_own(rt: HostRuntime) -> Result<(), Fail> {
    let (bits, mut seat) = Bits::of_done(rt.alloc(), 96, &[])?;
    for at in 0..96 {
        assert!(rt; comes_back(&bits, &mut seat, at), "granule {at}");
        assert!(rt; is_finished(&bits, &mut seat, at), "granule {at}");
    }
    Ok(())
}

// What is done at the close.
fn closed(alloc: Global, bits: Bits, seat: BitSeat) -> Result<Vec<u32>, Memory>
    requires own { seat.table ≡ bits.table }
    requires none_held { seat.view.held ≡ [] }
{
    match bits.close(alloc, seat) {
        Ok(done) => Ok(done),
        Err((_, _, memory)) => Err(memory),
    }
}

// What looks at granules at and beside the ends of two words find.
fn looks_at_ends(bits: &Bits, seat: &mut BitSeat) -> [Look; 6]
    requires granules { 63 < bits.now.granules }
    requires own { seat.old.table ≡ bits.now.table }
    ensures own { seat.new.table ≡ seat.old.table }
    ensures held { seat.new.view.held ≡ seat.old.view.held }
{
    [
        look(bits, seat, 0),
        look(bits, seat, 1),
        look(bits, seat, 31),
        look(bits, seat, 32),
        look(bits, seat, 62),
        look(bits, seat, 63),
    ]
}

#[test]
fn a_done_list_stands_at_both_ends(rt: HostRuntime) -> Result<(), Fail> {
    let (bits, mut seat) = Bits::of_done(rt.alloc(), 64, &[0, 63])?;
    let ends = [
        Look::Done,
        Look::Free,
        Look::Free,
        Look::Free,
        Look::Free,
        Look::Done,
    ];
    assert_eq!(rt; looks_at_ends(&bits, &mut seat), ends);
    let done = closed(rt.alloc(), bits, seat)?;
    assert_eq!(rt; done.as_slice(), [0, 63].as_slice());
    Ok(())
}

#[test]
fn a_tracker_may_have_no_granule(rt: HostRuntime) -> Result<(), Fail> {
    let (bits, seat) = Bits::of_done(rt.alloc(), 0, &[])?;
    assert_eq!(rt; bits.granules(), 0);
    let done = closed(rt.alloc(), bits, seat)?;
    assert!(rt; done.is_empty());
    Ok(())
}

// Two seats finish one granule each; one is joined into the first, and the other is let go.
fn finish_apart(bits: &Bits, seat: &mut BitSeat)
    requires granules { 39 < bits.now.granules }
    requires own { seat.old.table ≡ bits.now.table }
    requires none_held { seat.old.view.held ≡ [] }
    ensures own { seat.new.table ≡ seat.old.table }
    ensures none_held { seat.new.view.held ≡ [] }
{
    let mut joined = bits.split(seat);
    let mut dropped = bits.split(&mut joined);
    finish_one(bits, &mut joined, 33);
    finish_one(bits, &mut dropped, 39);
    bits.join_back(seat, joined);
}

#[test]
fn what_any_seat_finished_is_done_at_the_close(rt: HostRuntime) -> Result<(), Fail> {
    let (bits, mut seat) = Bits::of_done(rt.alloc(), 40, &[7])?;
    finish_apart(&bits, &mut seat);
    let done = closed(rt.alloc(), bits, seat)?;
    assert_eq!(rt; done.as_slice(), [7, 33, 39].as_slice());
    Ok(())
}

// What a claim of a granule is answered. The claim is let go, and the granule stays held.
fn claimed(bits: &Bits, seat: &mut BitSeat, at: u32) -> &'static str
    requires at { at < bits.now.granules }
    requires own { seat.old.table ≡ bits.now.table }
    ensures own { seat.new.table ≡ seat.old.table }
{
    told(bits.claim(seat, at))
}

#[test]
fn another_seat_is_answered_busy(rt: HostRuntime) -> Result<(), Fail> {
    let (bits, mut seat) = Bits::of_done(rt.alloc(), 40, &[])?;
    let mut other = bits.split(&mut seat);
    assert_eq!(rt; claimed(&bits, &mut seat, 33), "claimed");
    assert_eq!(rt; claimed(&bits, &mut other, 33), "busy");
    assert_eq!(rt; look(&bits, &mut other, 33), Look::Held);
    Ok(())
}

// Two threads finish what granules they can. Answers the seat of both, and how many those were.
fn work_by_two(rt: &(impl Threads + Sync), bits: &Bits, mut seat: BitSeat) -> (BitSeat, u64)
    requires own { seat.table ≡ bits.now.table }
    requires none_held { seat.view.held ≡ [] }
    ensures own { result.0.table ≡ bits.now.table }
    ensures none_held { result.0.view.held ≡ [] }
{
    let other = bits.split(&mut seat);
    let (one, two) = join(rt, move || work(bits, seat), move || work(bits, other));
    let (mut seat, mine) = one;
    let (other, theirs) = two;
    bits.join_back(&mut seat, other);
    (seat, mine as u64 + theirs as u64)
}

// Whether these are the numbers from 0 up to an end.
fn are_all(done: &[u32], end: u32) -> bool {
    done.iter().copied().eq(0..end)
}

// Whatever the schedule, each granule is finished by one of the two threads, and by one alone.
#[test]
fn two_threads_finish_each_granule_once(rt: HostRuntime) -> Result<(), Fail> {
    let (bits, seat) = Bits::of_done(rt.alloc(), 5000, &[])?;
    let (seat, finished) = work_by_two(&rt, &bits, seat);
    assert_eq!(rt; finished, 5000);
    let done = closed(rt.alloc(), bits, seat)?;
    assert!(rt; are_all(done.as_slice(), 5000));
    Ok(())
}
