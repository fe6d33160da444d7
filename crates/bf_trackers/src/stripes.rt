//! Stripes of keys, each under a lock of its own.

ghost use Rattle.std.specs.Prelude.{◌<◌, IfOk};
ghost use Rattle.bf_trackers.specs.Answers.{IsOfKey};
ghost use Rattle.bf_trackers.specs.Stripes.{stripe_count};

use crate::seats::Ending;
use bf_base::{Key, Memory, Value};
use bf_bench::Taken;
use bf_drive::Claim;
use bf_hash::{HashAnswer, HashClaim, Stripe};
use std::alloc::Global;
use std::marker::Model;
use std::sync::{Mutex, Wait};

/// How many stripes the keys of a unit go to.
pub const STRIPES: usize = 16;

/// The states of the keys of a unit. A key goes to one of 16 stripes, each under a lock of its own,
/// so that threads seldom wait for one another.
#[derive(Drop)]
pub struct Stripes {
    stripes: Vec<Mutex<Stripe>>,
}

impl Model for Stripes {
    ghost use Rattle.std.specs.Prelude.{ℕ, ◌≡◌, length};
    ghost use Rattle.bf_trackers.specs.Stripes.{stripe_count};

    ghost Value = { ℕ };

    ghost view = { λ all. length all.stripes.items };

    ghost invariant = { λ all. length all.stripes.items ≡ stripe_count };
}

// Any odd number of 64 bits of which about half are set.
const MULTIPLIER: u64 = 0x9E37_79B9_7F4A_7C15;

// A number with another one mixed in.
fn mixed(so_far: u64, part: u64) -> u64 {
    (so_far.rotate_left(5) ^ part).wrapping_mul(MULTIPLIER)
}

// A number with a value mixed in.
fn mixed_with(so_far: u64, value: &Value) -> u64 {
    match value {
        Value::Int(number) => mixed(so_far, number.cast_unsigned()),
        Value::Text(text) => {
            let mut all = mixed(so_far, 1);
            for byte in text.as_bytes() {
                all = mixed(all, *byte as u64);
            }
            all
        }
    }
}

// The stripe of a key: the highest four bits of its mixed values.
fn stripe_of(key: &Key) -> usize
    ensures { result < stripe_count }
{
    let mut all = 0;
    for value in key.as_slice() {
        all = mixed_with(all, value);
    }
    (all >> 60) as usize
}

impl Stripes {
    /// Stripes in which these keys are done, and all others are free. It copies each key twice.
    ///
    /// # Errors
    /// Where memory runs out.
    pub fn of_done(alloc: Global, done: &[Key]) -> Result<Stripes, Memory> {
        let mut stripes = Vec::with_capacity(alloc, STRIPES)?;
        for number in 0..STRIPES {
            stripes.push(Mutex::new(stripe_of_done(alloc, number, done)?))?;
        }
        Ok(Stripes { stripes })
    }

    // The stripe of a key.
    fn of_key(&self, key: &Key) -> &Mutex<Stripe> {
        &self.stripes[stripe_of(key)]
    }

    /// Claims a key: `Busy` where it is held, `Done` where it is done. Takes the lock of its stripe,
    /// and costs what [`Stripe::claim`] does.
    ///
    /// # Errors
    /// Where memory runs out. Nothing is claimed then.
    pub fn claim<R: Wait>(&self, rt: &R, key: &Key) -> Result<Taken, Memory>
        ensures { IfOk result (IsOfKey key.now) }
    {
        let answer = self.of_key(key).lock(rt).claim(key)?;
        Ok(match answer {
            HashAnswer::Claimed(claim) => Taken::Claimed(Claim::Group(claim)),
            HashAnswer::Busy(_) => Taken::Busy,
            HashAnswer::Done => Taken::Done,
        })
    }

    // Ends a claim: its key is done, or free again. Takes the lock of its stripe and no memory.
    pub(crate) fn end<R: Wait>(&self, rt: &R, claim: HashClaim, ending: Ending) {
        let stripe = self.of_key(claim.key());
        let mut states = stripe.lock(rt);
        match ending {
            Ending::Finished => states.finish(claim),
            Ending::GivenBack => states.give_back(claim),
        };
    }
}

// The stripe of a number, in which those of these keys are done that go to it.
fn stripe_of_done(alloc: Global, number: usize, done: &[Key]) -> Result<Stripe, Memory> {
    let mut own = Vec::new(alloc);
    for key in done {
        if stripe_of(key) == number {
            own.push(key.copy(alloc)?)?;
        }
    }
    Stripe::of_done(alloc, own.as_slice())
}
