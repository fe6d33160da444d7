//! The stripe.

ghost use Rattle.std.specs.Prelude.{◌≡◌, IfOk, OnErr};
ghost use Rattle.std.specs.BTreeMap as tree;
ghost use Rattle.bf_base.specs.Values.{key_cmp};
ghost use Rattle.bf_hash.specs.States.{state_by};
ghost use Rattle.bf_hash.specs.Stripes.{IsConsistent, IsGranted, IsAnswer, all_done, state_of, after_answer, after_finish, after_give_back};

use crate::state::{HashAnswer, HashClaim, HashState, Mark};
use crate::tickets::Tickets;
use bf_base::{Key, Memory};
use std::alloc::Global;
use std::collections::BTreeMap;
use std::marker::Model;

/// The states of keys: contracts see a finite map from each key that isn't free to `Held` with a
/// ticket or to `Done`. No two keys are held under one ticket. A key changes from `Held` only by a
/// claim of this key with this ticket.
#[derive(Drop)]
pub struct Stripe {
    alloc: Global,
    states: BTreeMap<Key, Mark>,
    tickets: Tickets,
}

impl Model for Stripe {
    ghost use Rattle.std.specs.FinMap.{code};
    ghost use Rattle.bf_base.specs.contracts.row.Key as keys;
    ghost use Rattle.bf_hash.specs.contracts.state.Mark as marks;
    ghost use Rattle.bf_hash.specs.Stripes.{Marks};

    ghost Value = { Marks };

    ghost coded = { code keys.the_row.coded marks.the_row.coded };

    ghost use Rattle.bf_hash.specs.Keeping.{marks_in, IsSound};

    ghost view = { λ stripe. marks_in stripe.states };

    ghost invariant = { λ stripe. IsSound stripe.states stripe.tickets };
}

// The state of a key, logarithmic in the marks.
fn state_among(states: &BTreeMap<Key, Mark>, key: &Key) -> HashState
    ensures { result ≡ state_by (tree.get key_cmp states.now key.now) }
{
    match states.get(key) {
        None => HashState::Free,
        Some(Mark::Held(ticket)) => HashState::Held(*ticket),
        Some(Mark::Done) => HashState::Done,
    }
}

impl Stripe {
    /// A stripe in which these keys are done, and all others free. It copies each key, in time
    /// logarithmic in the keys before it.
    pub fn of_done(alloc: Global, done: &[Key]) -> Result<Stripe, Memory>
        ensures all { IfOk result (λ stripe. stripe ≡ all_done done.now) }
        ensures consistent { IfOk result (λ stripe. IsConsistent stripe) }
    {
        let mut states = BTreeMap::new(alloc);
        for key in done {
            states.insert(key.copy(alloc)?, Mark::Done)?;
        }
        Ok(Stripe {
            alloc,
            states,
            tickets: Tickets::new(alloc),
        })
    }

    /// Claims a key: claimed exactly where it is free, under the least ticket from 1 on that no held
    /// key has; `Busy` with the ticket exactly where it is held; `Done` exactly where it is done.
    /// A grant alone changes the stripe. Logarithmic in the keys that are held or done.
    pub fn claim(&mut self, key: &Key) -> Result<HashAnswer, Memory>
        ensures answer { IfOk result (λ answer. IsAnswer self.old key.now answer) }
        ensures after { IfOk result (λ answer. self.new ≡ after_answer self.old key.now answer) }
        ensures memory { OnErr result (self.new ≡ self.old) }
        ensures consistent { IsConsistent self.new }
    {
        match state_among(&self.states, key) {
            HashState::Free => {
                let claim = self.grant(key)?;
                Ok(HashAnswer::Claimed(claim))
            }
            HashState::Held(ticket) => Ok(HashAnswer::Busy(ticket)),
            HashState::Done => Ok(HashAnswer::Done),
        }
    }

    // Holds a free key under the least ticket.
    fn grant(&mut self, key: &Key) -> Result<HashClaim, Memory>
        requires free { state_of self.old key.now ≡ HashState.Free }
        ensures granted { IfOk result (λ claim. IsGranted self.old key.now claim) }
        ensures after { IfOk result (λ claim.
            self.new ≡ after_answer self.old key.now (HashAnswer.Claimed claim)) }
        ensures memory { OnErr result (self.new ≡ self.old) }
        ensures consistent { IsConsistent self.new }
    {
        let held = key.copy(self.alloc)?;
        let key = key.copy(self.alloc)?;
        let ticket = self.tickets.take()?;
        let Ok(_) = self.states.insert(held, Mark::Held(ticket)) else {
            self.tickets.give(ticket);
            return Err(Memory);
        };
        Ok(HashClaim { key, ticket })
    }

    /// Marks a claim's key as done where it is held under the claim's ticket, and else changes
    /// nothing. Answers the state that was found. Takes no memory. Logarithmic in the keys that are
    /// held or done.
    pub fn finish(&mut self, claim: HashClaim) -> HashState
        ensures found { result ≡ state_of self.old claim.key }
        ensures after { self.new ≡ after_finish self.old claim }
        ensures consistent { IsConsistent self.new }
    {
        let HashClaim { key, ticket } = claim;
        let found = state_among(&self.states, &key);
        let is_own = found.is_held_under(ticket);
        if !is_own {
            return found;
        }
        let Ok(_) = self.states.insert(key, Mark::Done) else {
            unreachable!()
        };
        self.tickets.give(ticket);
        found
    }

    /// Frees a claim's key where it is held under the claim's ticket, and else changes nothing.
    /// Answers the state that was found. Takes no memory. Logarithmic in the keys that are held or
    /// done.
    pub fn give_back(&mut self, claim: HashClaim) -> HashState
        ensures found { result ≡ state_of self.old claim.key }
        ensures after { self.new ≡ after_give_back self.old claim }
        ensures consistent { IsConsistent self.new }
    {
        let HashClaim { key, ticket } = claim;
        let found = state_among(&self.states, &key);
        if !found.is_held_under(ticket) {
            return found;
        }
        self.states.remove(&key);
        self.tickets.give(ticket);
        found
    }
}
