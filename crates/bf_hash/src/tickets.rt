//! Tickets: the numbers from 1 on, each free or taken.

ghost use Rattle.std.specs.Prelude.{◌≡◌, ◌≢◌, ◌↔◌, ℕ, [], IfOk, OnErr};
ghost use Rattle.bf_hash.specs.Tickets.{IsTaken, IsLeastFree, TakesOne, GivesOne};

use bf_base::Memory;
use std::alloc::Global;
use std::cmp::Reverse;
use std::collections::BinaryHeap;
use std::marker::Model;

/// Which tickets are taken.
#[derive(Drop)]
pub(crate) struct Tickets {
    // The least that was never taken.
    next: u64,
    // Those below that are free, the least first. There is room for all below `next`.
    free: BinaryHeap<Reverse<u64>>,
}

impl Model for Tickets {
    ghost use Rattle.bf_hash.specs.Tickets.{Pool};

    ghost Value = { Pool };

    ghost use Rattle.std.specs.BinaryHeap.{heap_items, heap_capacity};
    ghost use Rattle.bf_hash.specs.Tickets.{numbers_of, IsPool};

    ghost view = { λ tickets. record { next = tickets.next; free = numbers_of (heap_items tickets.free) } };

    ghost invariant = { λ tickets. IsPool tickets.next (heap_items tickets.free) (heap_capacity tickets.free) };
}

impl Tickets {
    /// No ticket is taken. Takes no memory.
    pub(crate) fn new(alloc: Global) -> Tickets
        ensures { (ticket : ℕ) → ¬ IsTaken result ticket }
    {
        Tickets {
            next: 1,
            free: BinaryHeap::new(alloc),
        }
    }

    /// Takes the least ticket that is free, in time logarithmic in the free ones below the greatest
    /// that was ever taken.
    pub(crate) fn take(&mut self) -> Result<u64, Memory>
        ensures least { IfOk result (λ ticket. IsLeastFree self.old ticket) }
        ensures taken { IfOk result (λ ticket. TakesOne self.old self.new ticket) }
        ensures memory { OnErr result (self.new ≡ self.old) }
    {
        if let Some(Reverse(ticket)) = self.free.pop() {
            return Ok(ticket);
        }
        self.free.reserve(self.next as usize)?;
        let ticket = self.next;
        self.next += 1;
        Ok(ticket)
    }

    /// Gives a ticket back. Takes no memory.
    pub(crate) fn give(&mut self, ticket: u64)
        requires { IsTaken self.old ticket }
        ensures { GivesOne self.old self.new ticket }
    {
        self.free.push(Reverse(ticket)).unwrap();
    }
}
