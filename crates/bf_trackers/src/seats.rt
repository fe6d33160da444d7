//! What an actor has of a migration's trackers: a seat for each unit of rows, and a count of its
//! claims.

ghost use Rattle.std.specs.Prelude.{◌≡◌, ◌+◌, ◌-◌, ◌<◌, ◌^◌, Some};
ghost use Rattle.bf_bits.specs.Answers.{answer_for};
ghost use Rattle.bf_bits.specs.Seats.{Seat, Holds};
ghost use Rattle.bf_bits.specs.Words.{state_in};
ghost use Rattle.bf_trackers.specs.Answers.{claims_in, taken_as};
ghost use Rattle.bf_trackers.specs.Seats.{seat_at, found_at, after_claim, after_end};

use bf_bench::Taken;
use bf_bits::{BitAnswer, BitClaim, BitSeat, Bits};
use bf_drive::Claim;
use std::marker::Model;

// How a claim ends.
#[derive(Clone, Copy, Debug, PartialEq, Eq)]
pub(crate) enum Ending {
    // Its granule is done from now on.
    Finished,
    // Its granule is free again.
    GivenBack,
}

/// By what an actor claims granules of a migration: for each unit of rows a seat of its tracker, and
/// how many claims it holds of all units.
#[derive(Drop)]
pub struct TrackerSeats {
    pub(crate) units: Vec<Option<BitSeat>>,
    pub(crate) count: u32,
}

impl Model for TrackerSeats {
    ghost use Rattle.bf_trackers.specs.Seats.{Seats};

    ghost Value = { Seats };

    ghost view = { λ seats. record { units = seats.units.items; count = seats.count } };
}

impl TrackerSeats {
    // Claims a position of a unit by one step: claimed exactly where the step found it free, `Busy`
    // exactly where it found it held, and `Done` exactly where it found it done. Takes no lock and
    // no memory.
    pub(crate) fn claim_row(&mut self, bits: &Bits, unit: u8, at: u32) -> Taken
        requires at { at < bits.now.granules }
        requires own { (seat : Seat) × (seat_at self.old unit ≡ Some seat)
            × (seat.table ≡ bits.now.table) }
        requires room { self.old.count + 1 < 2 ^ 32 }
        ensures answer { result
            ≡ taken_as (answer_for bits.now.table at (state_in (found_at self.new unit) at)) }
        ensures step { (seat : Seat) → seat_at self.old unit ≡ Some seat
            → self.new ≡ after_claim self.old unit at (found_at self.new unit) seat }
    {
        let Some(seat) = &mut self.units[unit as usize] else {
            unreachable!();
        };
        match bits.claim(seat, at) {
            BitAnswer::Claimed(claim) => {
                self.count += 1;
                Taken::Claimed(Claim::Row(claim))
            }
            BitAnswer::Busy => Taken::Busy,
            BitAnswer::Done => Taken::Done,
        }
    }

    // Ends a claim of a unit by one step. Takes no lock and no memory.
    pub(crate) fn end_row(&mut self, bits: &Bits, unit: u8, claim: BitClaim, ending: Ending)
        requires of_this { claim.table ≡ bits.now.table }
        requires own { (seat : Seat) × (seat_at self.old unit ≡ Some seat)
            × (seat.table ≡ bits.now.table) × Holds seat claim.at }
        requires some { 0 < self.old.count }
        ensures step { (seat : Seat) → seat_at self.old unit ≡ Some seat
            → self.new ≡ after_end ending self.old unit claim.at (found_at self.new unit) seat }
    {
        let Some(seat) = &mut self.units[unit as usize] else {
            unreachable!();
        };
        match ending {
            Ending::Finished => bits.finish(seat, claim),
            Ending::GivenBack => bits.give_back(seat, claim),
        }
        self.count -= 1;
    }

    // Counts a claim of a key, if it is granted.
    pub(crate) fn add_key(&mut self, taken: &Taken)
        requires room { self.old.count + 1 < 2 ^ 32 }
        ensures { self.new ≡ record self.old { count = self.old.count + claims_in taken.now } }
    {
        match taken {
            Taken::Claimed(_) => self.count += 1,
            Taken::Busy | Taken::Done => {}
        }
    }

    // Counts a claim of a key less.
    pub(crate) fn drop_key(&mut self)
        requires some { 0 < self.old.count }
        ensures { self.new ≡ record self.old { count = self.old.count - 1 } }
    {
        self.count -= 1;
    }
}
