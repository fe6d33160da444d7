// Rows that are to move, with the claims of them, and how often an actor called what.

ghost use Rattle.std.specs.Prelude.{◌≡◌, IfOk};
ghost use Rattle.bf_drive.specs.Claims.{key_of};
ghost use Rattle.bench_tests.specs.Seen.{IsTaken};

use bf_base::{Granule, Key, Memory, Place, Value};
use bf_bench::Taken;
use bf_drive::{Claim, Wip};
use bf_hash::{HashAnswer, Stripe};
use std::alloc::Global;

/// How often an actor called what, and the most that it held at a time.
#[derive(Clone, Copy, Debug, PartialEq, Eq)]
pub struct Counts {
    pub turns: u32,
    pub looks: u32,
    pub claims: u32,
    pub again: u32,
    pub carries: u32,
    pub given_back: u32,
    pub most_held: u32,
}

impl Counts {
    /// How much has happened: each turn and each look counts, from 100 on.
    pub fn happened(&self) -> u64 {
        100 + self.turns as u64 + self.looks as u64
    }
}

/// Rows by their positions, none of which is done at first.
#[derive(Drop)]
pub struct Rows {
    stripe: Stripe,
    done: Vec<bool>,
    /// How often each was asked for.
    asked: Vec<u32>,
    /// How many calls there were that may answer that memory ran out.
    calls: u32,
    pub counts: Counts,
}

// The key by which a stripe names a place.
fn key_at(alloc: Global, place: &Place) -> Result<Key, Memory>
    ensures { IfOk result (λ key. key ≡ key_of place.now) }
{
    match place {
        Place::Row(position) => {
            let mut values = Vec::new(alloc);
            values.push(Value::Int(*position as i64))?;
            Ok(Key::of(values))
        }
        Place::Group(key) => key.copy(alloc),
    }
}

/// The position of a row.
pub fn position_of(granule: &Granule) -> usize {
    match &granule.place {
        Place::Row(position) => *position as usize,
        Place::Group(_) => 0,
    }
}

impl Rows {
    pub fn new(alloc: Global, rows: u32) -> Result<Rows, Memory> {
        Ok(Rows {
            stripe: Stripe::of_done(alloc, &[])?,
            done: vec![in alloc; false; rows as usize]?,
            asked: vec![in alloc; 0; rows as usize]?,
            calls: 0,
            counts: Counts {
                turns: 0,
                looks: 0,
                claims: 0,
                again: 0,
                carries: 0,
                given_back: 0,
                most_held: 0,
            },
        })
    }

    pub fn is_done(&self, position: u32) -> bool {
        matches!(self.done.as_slice().get(position as usize), Some(true))
    }

    pub fn done_rows(&self) -> usize {
        self.done
            .as_slice()
            .iter()
            .filter(|is_done| **is_done)
            .count()
    }

    /// Counts a call; the one of this number, from 0 on, has no memory.
    pub fn call(&mut self, fails_at: u32) -> Result<(), Memory> {
        let number = self.calls;
        self.calls = number.saturating_add(1);
        if number == fails_at {
            return Err(Memory);
        }
        Ok(())
    }

    /// How often a row was asked for before, this time not counted.
    pub fn ask(&mut self, granule: &Granule) -> u32 {
        match self.asked.get_mut(position_of(granule)) {
            Some(number) => {
                let before = *number;
                *number = before.saturating_add(1);
                before
            }
            None => 0,
        }
    }

    /// Notes that a row is done.
    pub fn pass(&mut self, granule: &Granule) {
        if let Some(is_done) = self.done.get_mut(position_of(granule)) {
            *is_done = true;
        }
    }

    pub fn take(&mut self, alloc: Global, granule: &Granule) -> Result<Taken, Memory>
        ensures { IfOk result (IsTaken granule.now) }
    {
        let key = key_at(alloc, &granule.place)?;
        match self.stripe.claim(&key)? {
            HashAnswer::Claimed(claim) => Ok(Taken::Claimed(Claim::Group(claim))),
            HashAnswer::Busy(_) => Ok(Taken::Busy),
            HashAnswer::Done => Ok(Taken::Done),
        }
    }

    /// Ends claims: their rows are done, or free again.
    pub fn spend(&mut self, wip: Wip, are_moved: bool) {
        let held = wip.len();
        self.counts.most_held = self.counts.most_held.max(held);
        let mut wip = wip;
        while let Some((granule, claim)) = wip.pop() {
            self.end(&granule, claim, are_moved);
        }
        wip.end();
    }

    fn end(&mut self, granule: &Granule, claim: Claim, is_moved: bool) {
        let Claim::Group(claim) = claim else {
            return;
        };
        if is_moved {
            self.stripe.finish(claim);
            self.pass(granule);
        } else {
            self.stripe.give_back(claim);
        }
    }
}
